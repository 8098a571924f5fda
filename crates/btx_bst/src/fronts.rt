//! Fronts of a line.
ghost use Rattle.std.specs.Prelude.{◌≡◌, ◌≤◌, ◌∷◌, length};
ghost use Rattle.btx_bst.specs.language.Places as places;
ghost use Rattle.btx_bst.specs.language.Fronts as spec;
ghost use Rattle.btx_bst.specs.refinement.Fronts as part;
ghost use Rattle.btx_bst.specs.laws.Fronts as kept_spec;
ghost use Rattle.btx_bst.specs.language.Words as words;
ghost use Rattle.btx_bst.specs.refinement.Views.{word_view};

use crate::complaint::Complaint;
use crate::integers::integer_at;
use crate::word::Word;
use btx_text::classify::{is_name_byte, is_white};

// How many bytes of a line stand before the first at which it ends.
macro_rules! len_till {
    ($line:ident, $byte:ident, $ends:expr) => {{
        for (i, &$byte) in $line.iter().enumerate() {
            if $ends {
                return i;
            }
        }
        $line.len()
    }};
}

/// A line without the whitespace and the comment that it begins with.
#[tactic(auto, using(crate::proofs::FrontLemmas::white_steps))]
pub fn behind_white(line: &[u8]) -> &[u8]
    ensures { result.now ≡ places.behind_white line.now }
{
    for (i, &byte) in line.iter().enumerate() {
        if is_white(byte) {
            continue;
        }
        if byte == b'%' {
            return &[];
        }
        return &line[i..];
    }
    &[]
}

/// How many letters a line begins with.
#[tactic(auto, using(crate::proofs::FrontLemmas::len_steps))]
pub fn letters_len(line: &[u8]) -> usize
    ensures value { result ≡ part.letters_len line.now }
    ensures bound { result ≤ length line.now }
{
    len_till!(line, byte, !byte.is_ascii_alphabetic())
}

/// How many digits a line begins with.
#[tactic(auto, using(crate::proofs::FrontLemmas::len_steps))]
pub fn digits_len(line: &[u8]) -> usize
    ensures value { result ≡ spec.digits_len line.now }
    ensures bound { result ≤ length line.now }
{
    len_till!(line, byte, !byte.is_ascii_digit())
}

// Whether a word of a body ends before this byte.
fn ends_word(byte: u8) -> bool
    ensures { result ≡ spec.ends_word byte }
{
    is_white(byte) || matches!(byte, b'}' | b'%')
}

// How many bytes stand before the end of a name.
#[tactic(auto, using(crate::proofs::FrontLemmas::len_steps))]
fn run_len(line: &[u8]) -> usize
    ensures value { result ≡ spec.len_till kept_spec.ends_name line.now }
    ensures bound { result ≤ length line.now }
{
    len_till!(line, byte, !is_name_byte(byte))
}

/// How many bytes the name has that a line begins with.
pub fn name_len(line: &[u8]) -> usize
    ensures value { result ≡ spec.name_len line.now }
    ensures bound { result ≤ length line.now }
{
    match line {
        [] => 0,
        [first, ..] => {
            if first.is_ascii_digit() {
                0
            } else {
                run_len(line)
            }
        }
    }
}

/// How many bytes stand before the end of a word of a body.
#[tactic(auto, using(crate::proofs::FrontLemmas::len_steps))]
pub fn word_len(line: &[u8]) -> usize
    ensures value { result ≡ spec.word_len line.now }
    ensures bound { result ≤ length line.now }
{
    len_till!(line, byte, ends_word(byte))
}

/// How many bytes stand before the next quote of a line.
#[tactic(auto, using(crate::proofs::FrontLemmas::len_steps))]
pub fn quote_len(line: &[u8]) -> usize
    ensures value { result ≡ spec.quote_len line.now }
    ensures bound { result ≤ length line.now }
{
    len_till!(line, byte, byte == b'"')
}

/// Whether a word of a body may end before this text.
pub fn is_word_end(line: &[u8]) -> bool
    ensures { result ≡ spec.is_word_end line.now }
{
    match line {
        [] => true,
        [byte, ..] => ends_word(*byte),
    }
}

// The string that begins after a quote, and what is left after it.
fn string_at(line: &[u8]) -> (Word<'_>, &[u8])
    ensures word { word_view result.0 ≡ (words.string_at line.now).word }
    ensures rest { result.1.now ≡ (words.string_at line.now).rest }
{
    let (text, after) = line.split_at(quote_len(line));
    match after {
        [] => (Word::Unended, line),
        [_, rest @ ..] => {
            if is_word_end(rest) {
                (Word::String(text), rest)
            } else {
                (Word::Faulty(Complaint::TextAfter), &rest[word_len(rest)..])
            }
        }
    }
}

/// The word that a line begins with, and what is left after it.
#[tactic(auto, unfolding(crate::specs::language::Words::word_front))]
pub fn word_front<'a>(first: u8, after: &'a [u8], line: &'a [u8]) -> (Word<'a>, &'a [u8])
    requires line { line.now ≡ first ∷ after.now }
    ensures word { word_view result.0 ≡ (words.word_front first after.now).word }
    ensures rest { result.1.now ≡ (words.word_front first after.now).rest }
{
    match first {
        b'{' => (Word::Open, after),
        b'}' => (Word::Close, after),
        b'"' => string_at(after),
        b'#' => integer_at(after),
        b'\'' => {
            let (name, rest) = after.split_at(word_len(after));
            (Word::Quoted(name), rest)
        }
        _ => {
            let len = word_len(after);
            (Word::Name(&line[..1 + len]), &after[len..])
        }
    }
}
