//! The bytes that the words of a database are made of, and the runs of them.
ghost use Rattle.std.specs.Prelude.{◌≡◌, ◌≤◌, ◌==◌, ◌&&◌, length};
ghost use Rattle.btx_text.specs.language.Class.{begins_name};
ghost use Rattle.btx_bib.specs.language.Grammar.ByteSets as spec;
ghost use Rattle.btx_bib.specs.refinement.Grammar.ByteSets as refined;
ghost use Rattle.btx_bib.specs.refinement.Grammar.Squeezing as squeezing;

use btx_text::classify::{is_name_byte, is_white};
use btx_text::depths::depth_after;
use memchr::{memchr2, memchr3};

/// What stands round an item.
#[derive(Clone, Copy, Debug, PartialEq, Eq)]
pub enum Delimiter {
    /// `{` and `}`.
    Braces,
    /// `(` and `)`.
    Parens,
}

/// The bytes that runs are made of.
#[derive(Clone, Copy, Debug, PartialEq, Eq)]
pub enum ByteSet {
    /// Whitespace and the ends of lines.
    Gap,
    /// The bytes of names.
    NameByte,
    /// The digits.
    Digit,
    /// The bytes of a key in these delimiters.
    KeyByte(Delimiter),
}

/// What encloses a part of a value.
#[derive(Clone, Copy, Debug, PartialEq, Eq)]
pub enum Enclosure {
    /// `{` and `}`.
    Group,
    /// `"` and `"`.
    Quotes,
}

// Whitespace, or the end of a line, which comments on values call whitespace too.
#[inline(always)]
pub fn is_gap(byte: u8) -> bool
    ensures { result ≡ spec.is_gap byte }
{
    is_white(byte) || byte == b'\n'
}

/// Whether a text ends in whitespace.
pub fn ends_in_gap(text: &[u8]) -> bool
    ensures { result ≡ squeezing.ends_in_gap text.now }
{
    match text.split_last() {
        Some((&last, _)) => is_gap(last),
        None => false,
    }
}

/// Whether a name can begin with a byte. Lower-case letters are asked for first, as most are such.
#[inline(always)]
pub fn begins_name(byte: u8) -> bool
    ensures { result ≡ begins_name byte }
{
    byte.is_ascii_lowercase() || (is_name_byte(byte) && !byte.is_ascii_digit())
}

// Whether a byte is in a set.
#[inline(always)]
fn is_in(set: ByteSet, byte: u8) -> bool
    ensures { result ≡ spec.is_in set byte }
{
    match set {
        ByteSet::Gap => is_gap(byte),
        ByteSet::NameByte => byte.is_ascii_lowercase() || is_name_byte(byte),
        ByteSet::Digit => byte.is_ascii_digit(),
        ByteSet::KeyByte(Delimiter::Braces) => !(is_gap(byte) || byte == b',' || byte == b'}'),
        ByteSet::KeyByte(Delimiter::Parens) => !(is_gap(byte) || byte == b','),
    }
}

/// How many bytes of a set a text begins with.
#[inline(always)]
#[tactic(auto, using(crate::proofs::GrammarLemmas::RunLemmas::run_steps))]
pub fn run_len(set: ByteSet, text: &[u8]) -> usize
    ensures value { result ≡ spec.longest_run_len set text.now }
    ensures bound { result ≤ length text.now }
{
    for (place, &byte) in text.iter().enumerate() {
        if !is_in(set, byte) {
            return place;
        }
    }
    text.len()
}

/// Whether what is enclosed ends at a byte at a depth.
#[inline(always)]
pub fn ends_enclosed(enclosure: Enclosure, depth: usize, byte: u8) -> bool
    ensures { result ≡ (depth == 0 && spec.ends_enclosed enclosure byte) }
{
    depth == 0
        && match enclosure {
            Enclosure::Group => byte == b'}',
            Enclosure::Quotes => byte == b'"' || byte == b'}',
        }
}

// How many bytes stand before the first brace, in quotes also before the first `"`; all, where there is none.
#[inline(always)]
#[tactic(auto, using(crate::proofs::GrammarLemmas::MarkLemmas::mark_steps))]
fn unmarked_len(enclosure: Enclosure, text: &[u8]) -> usize
    ensures value { result ≡ refined.unmarked_len (refined.is_mark enclosure) text.now }
    ensures bound { result ≤ length text.now }
{
    match enclosure {
        Enclosure::Group => memchr2(b'{', b'}', text).unwrap_or(text.len()),
        Enclosure::Quotes => memchr3(b'{', b'}', b'"', text).unwrap_or(text.len()),
    }
}

/// How many bytes stand before the first that ends what is enclosed; all, where there is none.
#[tactic(auto, using(crate::proofs::GrammarLemmas::RunLemmas::run_steps))]
pub fn enclosed_len(enclosure: Enclosure, text: &[u8]) -> usize
    ensures value { result ≡ spec.enclosed_len enclosure 0 text.now }
    ensures bound { result ≤ length text.now }
{
    let mut depth = 0;
    let mut place = unmarked_len(enclosure, text);
    while let Some(&byte) = text.get(place) {
        if ends_enclosed(enclosure, depth, byte) {
            return place;
        }
        depth = depth_after(depth, byte);
        place += 1;
        place += unmarked_len(enclosure, &text[place..]);
    }
    text.len()
}
