//! Which loops count a variable up to a limit, and which functions raise it.
ghost use Rattle.std.specs.Prelude.{◌≡◌, IsTrue, true, pos, [], ◌∷◌};
ghost use Rattle.btx_bst.specs.declared.built_in.BuiltIn.TheVariants as built_in;
ghost use Rattle.btx_bst.specs.declared.callee.Callee.TheVariants as callee;
ghost use Rattle.btx_bst.specs.declared.token.Token.TheVariants as tokens;
ghost use Rattle.btx_ends.specs.Climbing as climbing;
ghost use Rattle.btx_ends.specs.Shortening as shortening;
ghost use Rattle.btx_ends.specs.Walking as walking;

use crate::kinds::is_and;
use crate::measures::{Climb, Limit, Walk};
use crate::tokens::{
    called_by, is_call, is_greater, is_integer, is_less_than, is_plus, is_string, is_text_length,
    is_value, pushed_variable,
};
use crate::walking::{Said, moved_by, tokens_stay};
use btx_bst::{Style, Token};

// ---- tests

// Answers whether tokens are `v`.
#[tactic(auto, using(crate::proofs::CodeLemmas::one))]
fn is_variable_alone(v: u32, xs: &[Token]) -> bool
    ensures { IsTrue result → xs.now ≡ tokens.Run (callee.GlobalInteger v) ∷ [] }
{
    xs.len() == 1 && is_value(v, xs[0])
}

// .. `t text.length$`
#[tactic(auto, using(crate::proofs::CodeLemmas::two))]
fn is_length_of(t: u32, xs: &[Token]) -> bool
    ensures { IsTrue result → xs.now ≡ tokens.Run (callee.GlobalString t) ∷ tokens.Run (callee.BuiltIn built_in.TextLength) ∷ [] }
{
    xs.len() == 2 && is_string(t, xs[0]) && is_text_length(xs[1])
}

// .. `#n`
#[tactic(auto, using(crate::proofs::CodeLemmas::one))]
fn is_integer_alone(n: i32, xs: &[Token]) -> bool
    ensures { IsTrue result → xs.now ≡ tokens.Integer n ∷ [] }
{
    xs.len() == 1 && is_integer(n, xs[0])
}

// Answers whether tokens push the limit.
fn is_limit(limit: Limit, walk: Walk, xs: &[Token]) -> bool
    ensures { IsTrue result → xs.now ≡ climbing.limit_tokens limit walk }
{
    match limit {
        Limit::Size => is_variable_alone(walk.size, xs),
        Limit::Length => is_length_of(walk.text, xs),
        Limit::Number(n) => is_integer_alone(n, xs),
    }
}

// Answers whether tokens are `<`.
#[tactic(auto, using(crate::proofs::CodeLemmas::one))]
fn is_less_alone(xs: &[Token]) -> bool
    ensures { IsTrue result → xs.now ≡ tokens.Run (callee.BuiltIn built_in.Less) ∷ [] }
{
    xs.len() == 1 && is_less_than(xs[0])
}

// .. `p >`
#[tactic(auto, using(crate::proofs::CodeLemmas::two))]
fn is_greater_than(place: u32, xs: &[Token]) -> bool
    ensures { IsTrue result → xs.now ≡ tokens.Run (callee.GlobalInteger place) ∷ tokens.Run (callee.BuiltIn built_in.Greater) ∷ [] }
{
    xs.len() == 2 && is_value(place, xs[0]) && is_greater(xs[1])
}

// Answers whether tokens are `p limit <`.
fn is_less_test(climb: Climb, xs: &[Token]) -> bool
    ensures { IsTrue result → xs.now ≡ climbing.less_test climb }
{
    if xs.len() < 2 {
        return false;
    }
    let (front, others) = xs.split_at(1);
    let (middle, last) = others.split_at(others.len() - 1);
    is_variable_alone(climb.walk.place, front)
        && is_limit(climb.limit, climb.walk, middle)
        && is_less_alone(last)
}

// .. `limit p >`
fn is_greater_test(climb: Climb, xs: &[Token]) -> bool
    ensures { IsTrue result → xs.now ≡ climbing.greater_test climb }
{
    if xs.len() < 2 {
        return false;
    }
    let (front, last) = xs.split_at(xs.len() - 2);
    is_limit(climb.limit, climb.walk, front) && is_greater_than(climb.walk.place, last)
}

// .. one of these
fn is_below(climb: Climb, xs: &[Token]) -> bool
    ensures { IsTrue result → climbing.IsBelow climb xs.now }
{
    if is_less_test(climb, xs) {
        return true;
    }
    is_greater_test(climb, xs)
}

// Answers whether tokens are `q r > and`, for this `and`.
#[tactic(auto, using(crate::proofs::CodeLemmas::four))]
fn is_also(q: u32, r: u32, conjunction: u32, last: &[Token]) -> bool
    ensures { IsTrue result → last.now ≡ climbing.also_test q r conjunction }
{
    last.len() == 4
        && is_value(q, last[0])
        && is_value(r, last[1])
        && is_greater(last[2])
        && is_call(conjunction, last[3])
}

// Answers whether a body is such a test, and asks for something more.
fn is_below_and(style: &Style, climb: Climb, body: &[Token]) -> bool
    ensures { IsTrue result → climbing.IsBelowAnd style.now climb body.now }
{
    if body.len() < 4 {
        return false;
    }
    let (first, last) = body.split_at(body.len() - 4);
    let q = pushed_variable(last[0]);
    let r = pushed_variable(last[1]);
    let conjunction = called_by(last[3]);
    is_also(q, r, conjunction, last) && is_below(climb, first) && is_and(style, conjunction)
}

/// Answers whether a body is a test that is true only where the place is below the limit.
pub(crate) fn tells_below(style: &Style, climb: Climb, body: &[Token]) -> bool
    ensures { IsTrue result → climbing.TellsBelow style.now climb body.now }
{
    if is_below(climb, body) {
        return true;
    }
    is_below_and(style, climb, body)
}

// ---- bodies

// Answers whether tokens are `p #1 + 'p :=`.
fn is_one_more(place: u32, xs: &[Token]) -> bool
    ensures { IsTrue result → xs.now ≡ walking.move_by place (tokens.Integer (pos 1)) }
{
    match moved_by(place, xs) {
        None => false,
        Some(x) => is_integer(1, x),
    }
}

// Answers whether a body raises the place by its five tokens from this one on.
fn raises_at(style: &Style, climb: Climb, said: Said<'_>, body: &[Token], start: usize) -> bool
    ensures { IsTrue result → climbing.Raises style.now climb (shortening.kinds_by said.entry.kinds.now) (shortening.effects_by said.entry.places.now) (shortening.effects_by said.entry.sizes.now) body.now }
{
    if start > body.len() || body.len() - start < 5 {
        return false;
    }
    let (others, last) = body.split_at(start);
    let (up, rest) = last.split_at(5);
    is_one_more(climb.walk.place, up)
        && tokens_stay(style, climb.walk, said, others)
        && tokens_stay(style, climb.walk, said, rest)
}

// The place of the last `+` of a body that stands as in `p #1 + 'p :=`, less 2; 0 if there is none.
fn raising_start(place: u32, body: &[Token]) -> usize {
    let mut start = 0;
    for number in 2..body.len() {
        if is_plus(body[number]) && is_value(place, body[number - 2]) {
            start = number - 2;
        }
    }
    start
}

/// Answers whether a body raises the place of a climb.
pub(crate) fn raises(style: &Style, climb: Climb, said: Said<'_>, body: &[Token]) -> bool
    ensures { IsTrue result → climbing.Raises style.now climb (shortening.kinds_by said.entry.kinds.now) (shortening.effects_by said.entry.places.now) (shortening.effects_by said.entry.sizes.now) body.now }
{
    raises_at(
        style,
        climb,
        said,
        body,
        raising_start(climb.walk.place, body),
    )
}
