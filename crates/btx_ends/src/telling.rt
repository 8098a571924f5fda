//! Which functions tell whether a loop that makes a text shorter may go on.
ghost use Rattle.std.specs.Prelude.{◌≡◌, IsTrue, true, IfSome, [], ◌∷◌};
ghost use Rattle.btx_bst.specs.declared.callee.Callee.TheVariants as callee;
ghost use Rattle.btx_bst.specs.declared.token.Token.TheVariants as tokens;
ghost use Rattle.btx_ends.specs.Shortening as shortening;

use crate::kinds::{is_and, is_not};
use crate::measures::Measure;
use crate::tokens::{
    called_by, is_call, is_empty, is_equals, is_integer, is_string, is_substring, is_value,
    is_word, pushed_text,
};
use btx_bst::{Style, Token};

// Answers whether a body is `t empty$ not`, for this `not`.
#[tactic(auto, using(crate::proofs::CodeLemmas::three))]
fn is_filled_of(t: u32, negation: u32, body: &[Token]) -> bool
    ensures { IsTrue result → body.now ≡ shortening.filled_test t negation }
{
    body.len() == 3 && is_string(t, body[0]) && is_empty(body[1]) && is_call(negation, body[2])
}

// .. `v not t empty$ not and`
#[tactic(auto, using(crate::proofs::CodeLemmas::six))]
fn is_flag_of(v: u32, t: u32, negation: u32, conjunction: u32, body: &[Token]) -> bool
    ensures { IsTrue result → body.now ≡ shortening.flag_test v t negation conjunction }
{
    body.len() == 6
        && is_value(v, body[0])
        && is_call(negation, body[1])
        && is_string(t, body[2])
        && is_empty(body[3])
        && is_call(negation, body[4])
        && is_call(conjunction, body[5])
}

// Answers whether a body is a test that is true only where the text isn't empty.
fn tells_filled(style: &Style, t: u32, body: &[Token]) -> bool
    ensures { IsTrue result → shortening.TellsFilled style.now t body.now }
{
    if body.len() != 3 {
        return false;
    }
    let negation = called_by(body[2]);
    is_filled_of(t, negation, body) && is_not(style, negation)
}

// Answers whether a body is `t #1 #1 substring$ "w" =`.
#[tactic(auto, using(crate::proofs::CodeLemmas::six))]
fn is_begins_of(t: u32, word: u32, body: &[Token]) -> bool
    ensures { IsTrue result → body.now ≡ shortening.begins_test t word }
{
    body.len() == 6
        && is_string(t, body[0])
        && is_integer(1, body[1])
        && is_integer(1, body[2])
        && is_substring(body[3])
        && is_word(word, body[4])
        && is_equals(body[5])
}

/// Answers the number of the text with which a body compares the first byte of a variable, if that is all that it does.
pub(crate) fn begins_word(t: u32, body: &[Token]) -> Option<u32>
    ensures { IfSome result (λ word. body.now ≡ shortening.begins_test t word) }
{
    if body.len() != 6 {
        return None;
    }
    match pushed_text(body[4]) {
        None => None,
        Some(word) => {
            if is_begins_of(t, word, body) {
                Some(word)
            } else {
                None
            }
        }
    }
}

// .. by its first byte
fn tells_begun(style: &Style, t: u32, body: &[Token]) -> bool
    ensures { IsTrue result → shortening.TellsBegun style.now t body.now }
{
    match begins_word(t, body) {
        None => false,
        Some(word) => style.text(word).len() > 0,
    }
}

// Answers whether tokens are these two calls.
#[tactic(auto, using(crate::proofs::CodeLemmas::two))]
fn are_calls(one: u32, other: u32, calls: &[Token]) -> bool
    ensures { IsTrue result → calls.now ≡ tokens.Run (callee.User one) ∷ tokens.Run (callee.User other) ∷ [] }
{
    calls.len() == 2 && is_call(one, calls[0]) && is_call(other, calls[1])
}

// Answers whether a body is `t empty$ not t #1 #1 substring$ "w" = not and`.
fn is_until_of(t: u32, word: u32, negation: u32, conjunction: u32, body: &[Token]) -> bool
    ensures { IsTrue result → body.now ≡ shortening.until_test t word negation conjunction }
{
    if body.len() != 11 {
        return false;
    }
    let (filled, others) = body.split_at(3);
    let (begins, calls) = others.split_at(6);
    is_filled_of(t, negation, filled)
        && is_begins_of(t, word, begins)
        && are_calls(negation, conjunction, calls)
}

// .. as long as it doesn't begin with a word
fn tells_until(style: &Style, t: u32, body: &[Token]) -> bool
    ensures { IsTrue result → shortening.TellsUntil style.now t body.now }
{
    if body.len() != 11 {
        return false;
    }
    let negation = called_by(body[2]);
    let conjunction = called_by(body[10]);
    match pushed_text(body[7]) {
        None => false,
        Some(word) => {
            is_until_of(t, word, negation, conjunction, body)
                && is_not(style, negation)
                && is_and(style, conjunction)
        }
    }
}

// Answers whether a body is `t #1 #1 substring$ "w" = not`.
fn is_first_of(t: u32, word: u32, negation: u32, body: &[Token]) -> bool
    ensures { IsTrue result → body.now ≡ shortening.first_test t word negation }
{
    if body.len() != 7 {
        return false;
    }
    let (begins, calls) = body.split_at(6);
    is_begins_of(t, word, begins) && is_one_call(negation, calls)
}

// .. this call alone
#[tactic(auto, using(crate::proofs::CodeLemmas::one))]
fn is_one_call(number: u32, calls: &[Token]) -> bool
    ensures { IsTrue result → calls.now ≡ tokens.Run (callee.User number) ∷ [] }
{
    calls.len() == 1 && is_call(number, calls[0])
}

// .. by whether it has a first byte
fn tells_first(style: &Style, t: u32, body: &[Token]) -> bool
    ensures { IsTrue result → shortening.TellsFirst style.now t body.now }
{
    if body.len() != 7 {
        return false;
    }
    let negation = called_by(body[6]);
    match pushed_text(body[4]) {
        None => false,
        Some(word) => {
            is_first_of(t, word, negation, body)
                && style.text(word).is_empty()
                && is_not(style, negation)
        }
    }
}

// .. and the flag isn't set
fn tells_both(style: &Style, v: u32, t: u32, body: &[Token]) -> bool
    ensures { IsTrue result → shortening.TellsBoth style.now v t body.now }
{
    if body.len() != 6 {
        return false;
    }
    let negation = called_by(body[1]);
    let conjunction = called_by(body[5]);
    is_flag_of(v, t, negation, conjunction, body)
        && is_not(style, negation)
        && is_and(style, conjunction)
}

// .. without a flag
fn tells_text(style: &Style, t: u32, body: &[Token]) -> bool
    ensures { IsTrue result → shortening.Tells style.now t 0 body.now }
{
    if tells_filled(style, t, body) {
        return true;
    }
    if tells_begun(style, t, body) {
        return true;
    }
    if tells_until(style, t, body) {
        return true;
    }
    tells_first(style, t, body)
}

/// Answers whether a body is a test that is true only where a loop of this measure may still turn.
#[tactic(auto, using(crate::proofs::CodeLemmas::tells_flag))]
pub(crate) fn tells(style: &Style, m: Measure, body: &[Token]) -> bool
    ensures { IsTrue result → shortening.Tells style.now m.text m.flag body.now }
{
    if m.flag == 0 {
        tells_text(style, m.text, body)
    } else {
        tells_both(style, m.flag - 1, m.text, body)
    }
}
