//! What is known of the literals on top of the stack after a token.
ghost use Rattle.std.specs.Prelude.{◌≡◌};
ghost use Rattle.btx_ends.specs.Certificates as within;
ghost use Rattle.btx_ends.specs.Views.{claims_of};

use crate::claims::{Claims, claim_of};
use crate::known::Known;
use btx_bst::{BuiltIn, Callee, Token};

// Answers what is known of a variable's value, by the claim on it.
fn known_value(claim: u64) -> Known
    ensures { result ≡ within.known_value claim }
{
    if claim == 0 {
        Known::Anything
    } else {
        Known::AtMost(claim - 1)
    }
}

// Answers what is known of a sum.
fn known_sum() -> Known
    ensures { result ≡ within.known_sum }
{
    Known::AtMost(1 << 31)
}

// Answers what is known of a difference, from what is known of the integer that is taken, and of the one that it is taken from.
fn known_difference(taken: Known, from: Known) -> Known
    ensures { result ≡ within.known_difference taken from }
{
    match (taken, from) {
        (Known::Integer(n), Known::AtMost(most)) if n >= 0 => Known::AtMost(most),
        _ => known_sum(),
    }
}

// Answers what is known of the number of names of a string.
fn known_names(kept: u32, text: Known) -> Known
    ensures { result ≡ within.known_names kept text }
{
    match text {
        Known::Kept => Known::AtMost(kept as u64 + 1),
        _ => Known::Anything,
    }
}

// .. after a built-in function
fn known_result(claims: Claims<'_>, top: Known, below: Known, f: BuiltIn) -> Known
    ensures { result ≡ within.known_result (claims_of claims.entry) top below f }
{
    match f {
        BuiltIn::Plus => known_sum(),
        BuiltIn::Minus => known_difference(top, below),
        BuiltIn::NumNames => known_names(claims.kept, top),
        _ => Known::Anything,
    }
}

/// Answers what is known of the literal on top of the stack after a token, from what is known of the two on top before it.
pub(crate) fn top_after(claims: Claims<'_>, top: Known, below: Known, token: Token) -> Known
    ensures { result ≡ within.top_after (claims_of claims.entry) top below token }
{
    match token {
        Token::Quote(f) => Known::Function(f),
        Token::Integer(n) => Known::Integer(n),
        Token::Text(_) => Known::Anything,
        Token::Run(Callee::GlobalInteger(v)) => known_value(claim_of(claims.bounds, v as usize)),
        Token::Run(Callee::GlobalString(_)) => Known::Kept,
        Token::Run(Callee::BuiltIn(f)) => known_result(claims, top, below, f),
        Token::Run(_) => Known::Anything,
    }
}

/// Answers what is known of the literal below the top after a token.
pub(crate) fn below_after(top: Known, token: Token) -> Known
    ensures { result ≡ within.below_after top token }
{
    match token {
        Token::Quote(_) => top,
        Token::Integer(_) => top,
        Token::Text(_) => Known::Anything,
        Token::Run(Callee::GlobalInteger(_)) => top,
        Token::Run(Callee::GlobalString(_)) => top,
        Token::Run(_) => Known::Anything,
    }
}
