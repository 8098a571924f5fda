//! Which loops count an integer down that stands on top of the stack.
ghost use Rattle.std.specs.Prelude.{◌≡◌, IsTrue, true};
ghost use Rattle.btx_ends.specs.declared.held.Held.TheVariants as held;
ghost use Rattle.btx_ends.specs.Certificates as within;
ghost use Rattle.btx_ends.specs.Shortening.{kinds_by};
ghost use Rattle.btx_ends.specs.Descending as descending;
ghost use Rattle.btx_ends.specs.Views.{claims_of};

use crate::claims::Claims;
use crate::held::Held;
use crate::kinds::kinds_hold;
use crate::measures::Kind;
use crate::piles::{is_low, is_told, only_same, pile_through};
use crate::tokens::{is_integer, is_minus};
use btx_bst::{Style, Token};
use std::alloc::{AllocError, Global};

// Answers whether a literal is the integer of the loop.
fn is_same(it: Held) -> bool
    ensures { IsTrue result → it ≡ held.Same }
{
    match it {
        Held::Same => true,
        _ => false,
    }
}

/// Answers whether a body is a test that leaves the integer on the stack, and above it one that is above 0 only where that integer is.
pub(crate) fn asks(kinds: &[Kind], body: &[Token]) -> bool
    ensures { IsTrue result → descending.Asks (kinds_by kinds.now) body.now }
{
    let pile = pile_through(kinds, only_same(), body);
    is_told(pile.first) && is_same(pile.second)
}

// Answers whether tokens are `#1 -`.
#[tactic(auto, using(crate::proofs::CodeLemmas::two))]
fn is_take_one(last: &[Token]) -> bool
    ensures { IsTrue result → last.now ≡ descending.take_one }
{
    last.len() == 2 && is_integer(1, last[0]) && is_minus(last[1])
}

/// Answers whether a body makes the integer less by its last tokens, and has it on top before them.
pub(crate) fn lowers(kinds: &[Kind], body: &[Token]) -> bool
    ensures { IsTrue result → descending.Lowers (kinds_by kinds.now) body.now }
{
    if body.len() < 2 {
        return false;
    }
    let (others, last) = body.split_at(body.len() - 2);
    is_take_one(last) && is_low(pile_through(kinds, only_same(), others).first)
}

// Answers whether a function is the test that it is claimed to be.
fn ask_holds(kinds: &[Kind], claim: u32, body: &[Token]) -> bool
    ensures { IsTrue result → within.AskHolds (kinds_by kinds.now) claim body.now }
{
    if claim == 0 {
        return true;
    }
    asks(kinds, body)
}

// Answers whether that is so of all functions.
fn asks_hold(style: &Style, kinds: &[Kind], claims: &[u32]) -> bool
    ensures { IsTrue result → within.AsksHold style.now (kinds_by kinds.now) claims.now }
{
    if claims.len() > style.functions() {
        return false;
    }
    for number in 0..claims.len() {
        if !ask_holds(kinds, claims[number], style.body(number)) {
            return false;
        }
    }
    true
}

// Answers whether a function makes the integer less, if that is claimed of it.
fn lower_holds(kinds: &[Kind], claim: u32, body: &[Token]) -> bool
    ensures { IsTrue result → within.LowerHolds (kinds_by kinds.now) claim body.now }
{
    if claim == 0 {
        return true;
    }
    lowers(kinds, body)
}

// Answers whether that is so of all functions.
fn lowers_hold(style: &Style, kinds: &[Kind], claims: &[u32]) -> bool
    ensures { IsTrue result → within.LowersHold style.now (kinds_by kinds.now) claims.now }
{
    if claims.len() > style.functions() {
        return false;
    }
    for number in 0..claims.len() {
        if !lower_holds(kinds, claims[number], style.body(number)) {
            return false;
        }
    }
    true
}

/// Answers whether all claims on loops hold that count an integer down which stands on the stack.
pub(crate) fn descending_holds(style: &Style, claims: Claims<'_>, kinds: &[Kind]) -> bool
    ensures { IsTrue result → within.DescendingHolds (claims_of claims.entry) style.now }
{
    if !kinds_hold(style, kinds) {
        return false;
    }
    if !asks_hold(style, kinds, claims.asks) {
        return false;
    }
    lowers_hold(style, kinds, claims.lowers)
}

// ---- the search

/// Says of each function whether it is such a test.
pub(crate) fn asks_of(
    alloc: Global,
    style: &Style,
    kinds: &[Kind],
) -> Result<Vec<u32>, AllocError> {
    let mut claims: Vec<u32> = Vec::new(alloc);
    for number in 0..style.functions() {
        claims.push(asks(kinds, style.body(number)) as u32)?;
    }
    Ok(claims)
}

/// Says of each function whether it makes such an integer less.
pub(crate) fn lowers_of(
    alloc: Global,
    style: &Style,
    kinds: &[Kind],
) -> Result<Vec<u32>, AllocError> {
    let mut claims: Vec<u32> = Vec::new(alloc);
    for number in 0..style.functions() {
        claims.push(lowers(kinds, style.body(number)) as u32)?;
    }
    Ok(claims)
}
