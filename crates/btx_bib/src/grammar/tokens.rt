//! The words and signs of an item.
ghost use Rattle.std.specs.Prelude.{◌≡◌};
ghost use Rattle.btx_bib.specs.language.Grammar.ByteSets as bytes;
ghost use Rattle.btx_bib.specs.language.Grammar.Tokens as spec;
ghost use Rattle.btx_bib.specs.refinement.Grammar.Tokens as refined;

use crate::grammar::byte_sets::{ByteSet, Delimiter, begins_name, run_len};
use crate::grammar::plain::name_len;
use crate::grammar::slip::SyntaxError;

/// What was read and the text after it, or what is wrong and the text from its place on.
pub type Read<'a, T> = Result<(T, &'a [u8]), (SyntaxError, &'a [u8])>;

/// What follows the longest run of a set.
#[inline(always)]
pub fn past(set: ByteSet, text: &[u8]) -> &[u8]
    ensures { result.now ≡ bytes.past set text.now }
{
    &text[run_len(set, text)..]
}

/// What is wrong where something is wanted that doesn't stand here.
pub fn slip_at(slip: SyntaxError, rest: &[u8]) -> SyntaxError
    ensures { result ≡ spec.slip_at slip rest.now }
{
    if rest.is_empty() {
        SyntaxError::EndOfFile
    } else {
        slip
    }
}

/// A name.
#[tactic(auto, unfolding(crate::specs::language::Grammar::Tokens::name_here))]
#[inline(always)]
pub fn name(text: &[u8]) -> Read<'_, &[u8]>
    ensures { refined.seen (λ name. name.now) result ≡ spec.name_at text.now }
{
    let rest = past(ByteSet::Gap, text);
    match rest.split_first() {
        Some((&byte, _)) if begins_name(byte) => Ok(rest.split_at(name_len(rest))),
        _ => Err((slip_at(SyntaxError::NoName, rest), rest)),
    }
}

/// The opening delimiter.
#[tactic(auto, unfolding(crate::specs::language::Grammar::Tokens::open_in))]
pub fn open(text: &[u8]) -> Read<'_, Delimiter>
    ensures { refined.seen (λ delimiter. delimiter) result ≡ spec.open_at text.now }
{
    let rest = past(ByteSet::Gap, text);
    match rest.split_first() {
        Some((&b'{', after)) => Ok((Delimiter::Braces, after)),
        Some((&b'(', after)) => Ok((Delimiter::Parens, after)),
        _ => Err((slip_at(SyntaxError::NoDelimiter, rest), rest)),
    }
}

/// The closing delimiter.
pub fn closing(delimiter: Delimiter) -> u8
    ensures { result ≡ spec.closing_delimiter delimiter }
{
    match delimiter {
        Delimiter::Braces => b'}',
        Delimiter::Parens => b')',
    }
}

/// A sign.
#[tactic(auto, unfolding(crate::specs::language::Grammar::Tokens::sign_in))]
#[inline(always)]
pub fn sign(sign: u8, slip: SyntaxError, text: &[u8]) -> Read<'_, ()>
    ensures { refined.seen (λ none. none) result ≡ spec.sign_at sign slip text.now }
{
    let rest = past(ByteSet::Gap, text);
    match rest.split_first() {
        Some((&byte, after)) if byte == sign => Ok(((), after)),
        _ => Err((slip_at(slip, rest), rest)),
    }
}

/// A key.
#[tactic(auto, unfolding(crate::specs::language::Grammar::Tokens::key_here))]
pub fn key(delimiter: Delimiter, text: &[u8]) -> Read<'_, &[u8]>
    ensures { refined.seen (λ key. key.now) result ≡ spec.key_at delimiter text.now }
{
    let rest = past(ByteSet::Gap, text);
    if rest.is_empty() {
        return Err((SyntaxError::EndOfFile, rest));
    }
    Ok(rest.split_at(run_len(ByteSet::KeyByte(delimiter), rest)))
}
