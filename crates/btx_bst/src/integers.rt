//! Integers of a body.
ghost use Rattle.std.specs.Prelude.{◌≡◌, min, drop};
ghost use Rattle.btx_bst.specs.language.Fronts as fronts;
ghost use Rattle.btx_bst.specs.language.Words as spec;
ghost use Rattle.btx_bst.specs.refinement.Views.{word_view};

use crate::complaint::Complaint;
use crate::fronts::{digits_len, is_word_end, word_len};
use crate::word::Word;

// What digits come to, or 4,294,967,296 where they come to more.
#[tactic(auto, using(crate::proofs::IntegerLemmas::value_steps))]
fn value_of(digits: &[u8]) -> u64
    ensures { result ≡ min (spec.digits_value digits.now) 4294967296 }
{
    let mut value: u64 = 0;
    for &digit in digits {
        value = (value * 10 + digit.saturating_sub(48) as u64).min(4294967296);
    }
    value
}

// A number with or without a minus, if it is one of 32 bits.
#[tactic(auto, unfolding(crate::specs::language::Words::signed))]
fn signed(minus: bool, value: u64) -> Option<i32>
    ensures { result ≡ spec.signed minus value }
{
    if !minus {
        return i32::try_from(value).ok();
    }
    if value > 2147483648 {
        return None;
    }
    Some((0 - value as i64) as i32)
}

/// The integer that begins after a `#`, and what is left after it.
#[tactic(auto, unfolding(crate::specs::language::Words::integer_at))]
pub fn integer_at(line: &[u8]) -> (Word<'_>, &[u8])
    ensures word { word_view result.0 ≡ (spec.integer_at line.now).word }
    ensures rest { result.1.now ≡ (spec.integer_at line.now).rest }
{
    match line {
        [] => (Word::Faulty(Complaint::BadInteger), line),
        [b'-', rest @ ..] => integer_of(line, true, rest),
        _ => integer_of(line, false, line),
    }
}

// A line after the word that it begins with.
fn behind_word(line: &[u8]) -> &[u8]
    ensures { result.now ≡ drop (fronts.word_len line.now) line.now }
{
    &line[word_len(line)..]
}

// An integer, and what comes after its digits.
fn integer_before<'a>(line: &'a [u8], rest: &'a [u8], value: Option<i32>) -> (Word<'a>, &'a [u8])
    ensures word { word_view result.0 ≡ (spec.integer_before line.now rest.now value).word }
    ensures rest { result.1.now ≡ (spec.integer_before line.now rest.now value).rest }
{
    match value {
        None => (Word::Faulty(Complaint::BadInteger), behind_word(line)),
        Some(value) => {
            if is_word_end(rest) {
                (Word::Integer(value), rest)
            } else {
                (Word::Faulty(Complaint::TextAfter), behind_word(rest))
            }
        }
    }
}

// The integer of the digits that this text begins with.
#[tactic(auto, using(crate::proofs::IntegerLemmas::signed_capped))]
fn integer_of<'a>(line: &'a [u8], minus: bool, rest: &'a [u8]) -> (Word<'a>, &'a [u8])
    ensures word { word_view result.0 ≡ (spec.integer_front line.now minus rest.now (fronts.digits_len rest.now)).word }
    ensures rest { result.1.now ≡ (spec.integer_front line.now minus rest.now (fronts.digits_len rest.now)).rest }
{
    let len = digits_len(rest);
    if len == 0 {
        return (Word::Faulty(Complaint::BadInteger), behind_word(line));
    }
    let (digits, behind) = rest.split_at(len);
    integer_before(line, behind, signed(minus, value_of(digits)))
}
