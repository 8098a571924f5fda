//! Which functions are `not`, `or` and `and`, by their bodies.
ghost use Rattle.std.specs.Prelude.{◌≡◌, IsTrue, true, IfSome, pos};
ghost use Rattle.btx_ends.specs.declared.measures.Kind.TheVariants as kind;
ghost use Rattle.btx_ends.specs.Shortening as shortening;

use crate::measures::Kind;
use crate::tokens::{is_if, is_integer, is_pop, is_quoted, is_quoted_as, is_skip};
use btx_bst::{BuiltIn, Callee, Style, Token};

/// The body of a function, if there is one of this number.
pub(crate) fn body_of<'s>(style: &'s Style, number: u32) -> Option<&'s [Token]>
    ensures { IfSome result (λ body. body.now ≡ shortening.body_of style.now number) }
{
    if (number as usize) < style.functions() {
        Some(style.body(number as usize))
    } else {
        None
    }
}

// Answers whether a body is this integer alone.
#[tactic(auto, using(crate::proofs::CodeLemmas::one))]
fn is_zero_body(body: &[Token]) -> bool
    ensures { IsTrue result → body.now ≡ shortening.integer_body (pos 0) }
{
    body.len() == 1 && is_integer(0, body[0])
}

// .. 1
#[tactic(auto, using(crate::proofs::CodeLemmas::one))]
fn is_one_body(body: &[Token]) -> bool
    ensures { IsTrue result → body.now ≡ shortening.integer_body (pos 1) }
{
    body.len() == 1 && is_integer(1, body[0])
}

// .. `pop$ #0`
#[tactic(auto, using(crate::proofs::CodeLemmas::two))]
fn is_pop_zero(body: &[Token]) -> bool
    ensures { IsTrue result → body.now ≡ shortening.pop_body (pos 0) }
{
    body.len() == 2 && is_pop(body[0]) && is_integer(0, body[1])
}

// .. `pop$ #1`
#[tactic(auto, using(crate::proofs::CodeLemmas::two))]
fn is_pop_one(body: &[Token]) -> bool
    ensures { IsTrue result → body.now ≡ shortening.pop_body (pos 1) }
{
    body.len() == 2 && is_pop(body[0]) && is_integer(1, body[1])
}

// Answers whether a body chooses between these functions.
#[tactic(auto, using(crate::proofs::CodeLemmas::three))]
fn is_not_choice(nought: u32, one: u32, body: &[Token]) -> bool
    ensures { IsTrue result → body.now ≡ shortening.not_choice nought one }
{
    body.len() == 3 && is_quoted(nought, body[0]) && is_quoted(one, body[1]) && is_if(body[2])
}

// .. of `and`
#[tactic(auto, using(crate::proofs::CodeLemmas::three))]
fn is_and_choice(skip: Callee, nought: u32, body: &[Token]) -> bool
    ensures { IsTrue result → body.now ≡ shortening.and_choice skip nought }
{
    body.len() == 3 && is_quoted_as(skip, body[0]) && is_quoted(nought, body[1]) && is_if(body[2])
}

// .. of `or`
#[tactic(auto, using(crate::proofs::CodeLemmas::three))]
fn is_or_choice(skip: Callee, one: u32, body: &[Token]) -> bool
    ensures { IsTrue result → body.now ≡ shortening.or_choice skip one }
{
    body.len() == 3 && is_quoted(one, body[0]) && is_quoted_as(skip, body[1]) && is_if(body[2])
}

// Answers whether a body is `skip$` alone.
#[tactic(auto, using(crate::proofs::CodeLemmas::one))]
fn is_skip_body(body: &[Token]) -> bool
    ensures { IsTrue result → body.now ≡ shortening.skip_body }
{
    body.len() == 1 && is_skip(body[0])
}

// Answers whether a function of the style is `{skip$}`.
fn is_nameless_skip(style: &Style, number: u32) -> bool
    ensures { IsTrue result → shortening.body_of style.now number ≡ shortening.skip_body }
{
    match body_of(style, number) {
        None => false,
        Some(body) => is_skip_body(body),
    }
}

// Answers whether a function does nothing.
fn does_nothing(style: &Style, f: Callee) -> bool
    ensures { IsTrue result → shortening.IsSkip style.now f }
{
    match f {
        Callee::BuiltIn(BuiltIn::Skip) => true,
        Callee::User(number) => is_nameless_skip(style, number),
        _ => false,
    }
}

// The number of the function of the style that a body's token quotes, if it does; else 0.
fn quoted_at(style: &Style, number: u32, place: usize) -> u32 {
    match body_of(style, number) {
        None => 0,
        Some(body) => {
            if place >= body.len() {
                return 0;
            }
            match body[place] {
                Token::Quote(Callee::User(n)) => n,
                _ => 0,
            }
        }
    }
}

// The function that a body's token quotes, if it does; else `skip$`.
fn callee_at(style: &Style, number: u32, place: usize) -> Callee {
    match body_of(style, number) {
        None => Callee::BuiltIn(BuiltIn::Skip),
        Some(body) => {
            if place >= body.len() {
                return Callee::BuiltIn(BuiltIn::Skip);
            }
            match body[place] {
                Token::Quote(f) => f,
                _ => Callee::BuiltIn(BuiltIn::Skip),
            }
        }
    }
}

// Answers whether a function is `not` by these two.
fn not_holds(style: &Style, number: u32, nought: u32, one: u32) -> bool
    ensures { IsTrue result → shortening.NotOf style.now number nought one }
{
    match (
        body_of(style, number),
        body_of(style, nought),
        body_of(style, one),
    ) {
        (Some(body), Some(first), Some(second)) => {
            is_not_choice(nought, one, body) && is_zero_body(first) && is_one_body(second)
        }
        _ => false,
    }
}

/// Answers whether a function is `not`.
pub(crate) fn is_not(style: &Style, number: u32) -> bool
    ensures { IsTrue result → shortening.IsNot style.now number }
{
    let nought = quoted_at(style, number, 0);
    let one = quoted_at(style, number, 1);
    not_holds(style, number, nought, one)
}

// .. `and` by these two
fn and_holds(style: &Style, number: u32, skip: Callee, nought: u32) -> bool
    ensures { IsTrue result → shortening.AndBy style.now number skip nought }
{
    match (body_of(style, number), body_of(style, nought)) {
        (Some(body), Some(first)) => {
            does_nothing(style, skip) && is_and_choice(skip, nought, body) && is_pop_zero(first)
        }
        _ => false,
    }
}

/// .. `and`
pub(crate) fn is_and(style: &Style, number: u32) -> bool
    ensures { IsTrue result → shortening.IsAnd style.now number }
{
    let skip = callee_at(style, number, 0);
    let nought = quoted_at(style, number, 1);
    and_holds(style, number, skip, nought)
}

// .. `or` by these two
fn or_holds(style: &Style, number: u32, skip: Callee, one: u32) -> bool
    ensures { IsTrue result → shortening.OrBy style.now number skip one }
{
    match (body_of(style, number), body_of(style, one)) {
        (Some(body), Some(first)) => {
            does_nothing(style, skip) && is_or_choice(skip, one, body) && is_pop_one(first)
        }
        _ => false,
    }
}

/// .. `or`
pub(crate) fn is_or(style: &Style, number: u32) -> bool
    ensures { IsTrue result → shortening.KindHolds style.now kind.Or number }
{
    let one = quoted_at(style, number, 0);
    let skip = callee_at(style, number, 1);
    or_holds(style, number, skip, one)
}

// Answers whether a function does with integers what is said of it.
fn kind_holds(style: &Style, kind: Kind, number: u32) -> bool
    ensures { IsTrue result → shortening.KindHolds style.now kind number }
{
    match kind {
        Kind::Other => true,
        Kind::Not => is_not(style, number),
        Kind::Or => is_or(style, number),
        Kind::And => is_and(style, number),
    }
}

/// Answers whether that is so of all functions.
pub(crate) fn kinds_hold(style: &Style, kinds: &[Kind]) -> bool
    ensures { IsTrue result → shortening.KindsHold style.now (shortening.kinds_by kinds.now) }
{
    let mut number: u32 = 0;
    for kind in kinds {
        if !kind_holds(style, *kind, number) {
            return false;
        }
        if number == u32::MAX {
            return false;
        }
        number += 1;
    }
    true
}
