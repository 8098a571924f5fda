//! The parts of a value.
ghost use Rattle.std.specs.Prelude.{◌≡◌, ◌<◌, ◌≤◌, length, IfOk, IfSome};
ghost use Rattle.std.specs.Option.{option_map};
ghost use Rattle.btx_bib.specs.refinement.Grammar.PartViews.{part_view};
ghost use Rattle.btx_bib.specs.refinement.Grammar.Tokens.{seen};
ghost use Rattle.btx_bib.specs.language.Grammar.Values as spec;

use crate::grammar::byte_sets::{ByteSet, Enclosure, begins_name, enclosed_len, run_len};
use crate::grammar::slip::SyntaxError;
use crate::grammar::tokens::{Read, past};

/// The name of a string in a value, and the text from its end on, which is its place.
#[derive(Clone, Copy, Debug)]
pub struct StringName<'a> {
    /// The name, as it is spelled there.
    pub name: &'a [u8],
    /// The text from its end on.
    pub rest: &'a [u8],
}

/// A part of a value, without its delimiters.
#[derive(Clone, Copy, Debug)]
pub enum Part<'a> {
    /// A group in braces.
    Braced(&'a [u8]),
    /// A text in quotes.
    Quoted(&'a [u8]),
    /// Digits.
    Digits(&'a [u8]),
    /// The name of a string.
    Named(StringName<'a>),
}

// What is enclosed.
fn enclosed(enclosure: Enclosure, rest: &[u8]) -> Read<'_, Part<'_>>
    ensures { seen part_view result ≡ spec.enclosed_in enclosure rest.now }
{
    let (text, after) = rest.split_at(enclosed_len(enclosure, rest));
    let Some((&byte, behind)) = after.split_first() else {
        return Err((SyntaxError::EndOfFile, after));
    };
    match enclosure {
        Enclosure::Group => Ok((Part::Braced(text), behind)),
        Enclosure::Quotes => {
            if byte == b'"' {
                Ok((Part::Quoted(text), behind))
            } else {
                Err((SyntaxError::Unbalanced, after))
            }
        }
    }
}

// A part of a value that stands here.
#[tactic(auto, unfolding(crate::specs::language::Grammar::Values::part_in))]
fn part_in(rest: &[u8]) -> Read<'_, Part<'_>>
    ensures { seen part_view result ≡ spec.part_in rest.now }
{
    let Some((&byte, behind)) = rest.split_first() else {
        return Err((SyntaxError::EndOfFile, rest));
    };
    if byte == b'{' {
        return enclosed(Enclosure::Group, behind);
    }
    if byte == b'"' {
        return enclosed(Enclosure::Quotes, behind);
    }
    if byte.is_ascii_digit() {
        let (digits, after) = rest.split_at(run_len(ByteSet::Digit, rest));
        return Ok((Part::Digits(digits), after));
    }
    if begins_name(byte) {
        let (name, after) = rest.split_at(run_len(ByteSet::NameByte, rest));
        return Ok((Part::Named(StringName { name, rest: after }), after));
    }
    Err((SyntaxError::NoValue, rest))
}

/// A part of a value.
#[tactic(auto, using(crate::proofs::GrammarLemmas::ValueLemmas::part_steps))]
pub fn read_part(text: &[u8]) -> Read<'_, Part<'_>>
    ensures value { seen part_view result ≡ spec.part_at text.now }
    ensures shorter { IfOk result (λ got. length got.1.now < length text.now) }
{
    part_in(past(ByteSet::Gap, text))
}

/// The text after the `#` that joins another part, where one stands after whitespace.
#[tactic(auto, using(crate::proofs::GrammarLemmas::ValueLemmas::part_steps))]
#[inline(always)]
pub fn next_part(text: &[u8]) -> Option<&[u8]>
    ensures value { option_map (λ rest. rest.now) result ≡ spec.next_part text.now }
    ensures shorter { IfSome result (λ rest. length rest.now ≤ length text.now) }
{
    match past(ByteSet::Gap, text).split_first() {
        Some((&b'#', behind)) => Some(behind),
        _ => None,
    }
}
