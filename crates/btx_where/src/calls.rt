//! The calls of a run: which token led to each body and loop that is open.
ghost use Rattle.std.specs.Prelude.{◌≡◌, ◌∷◌, List, IfSome, true};
ghost use Rattle.btx_bst.specs.declared.callee.Callee.{Callee as AnyCallee};
ghost use Rattle.btx_where.specs.Calls.{AreCalls, IsChosen, Leads, token_at, type_called};
ghost use Rattle.btx_where.specs.declared.scene.Level.{Level as AnyLevel};

use crate::place::Place;
use crate::scene::Level;
use btx_bst::{BuiltIn, Callee, Style, Token};
use btx_code::op::function_of;
use btx_step::Job;

// The token at a place of a style.
fn token_at(style: &Style<'_>, place: Place) -> Option<Token>
    ensures { result ≡ token_at style.now place }
{
    if place.function < style.functions() {
        style.body(place.function).get(place.token).copied()
    } else {
        None
    }
}

// The function that `call.type$` runs in an entry, or outside of any.
fn type_called(job: &Job<'_>, entry: Option<usize>) -> Option<u32>
    ensures { result ≡ type_called job.now entry }
{
    match entry {
        Some(entry) => job.runner(entry),
        None => None,
    }
}

// Whether `next` is run by a token that runs a function of its choice.
fn is_chosen(job: &Job<'_>, entry: Option<usize>, token: Token, next: Token) -> bool
    ensures { result ≡ true → IsChosen job.now entry token next }
{
    match token {
        Token::Run(Callee::BuiltIn(BuiltIn::If)) => matches!(next, Token::Run(_)),
        Token::Run(Callee::BuiltIn(BuiltIn::CallType)) => match type_called(job, entry) {
            Some(function) => next == Token::Run(Callee::User(function)),
            None => false,
        },
        _ => false,
    }
}

// Whether two functions are one.
fn is_same_function(first: Callee, second: Callee) -> bool
    ensures { result ≡ true → first ≡ second }
{
    let first = function_of(first);
    let second = function_of(second);
    first.op == second.op && first.number == second.number
}

// Whether two tokens are one.
fn is_same(first: Token, second: Token) -> bool
    ensures { result ≡ true → first ≡ second }
{
    match (first, second) {
        (Token::Text(first), Token::Text(second)) => first == second,
        (Token::Integer(first), Token::Integer(second)) => first == second,
        (Token::Quote(first), Token::Quote(second)) => is_same_function(first, second),
        (Token::Run(first), Token::Run(second)) => is_same_function(first, second),
        _ => false,
    }
}

// Whether a body that stands at a token is at `next`.
fn leads(job: &Job<'_>, entry: Option<usize>, token: Token, next: Token) -> bool
    ensures { result ≡ true → Leads job.now entry token next }
{
    is_same(next, token) || is_chosen(job, entry, token, next)
}

// What the levels round this one lead to, if it leads to `next`: the call of its function for a body, `while$` for a loop.
fn call_of(job: &Job<'_>, entry: Option<usize>, level: Level, next: Token) -> Option<Token>
    ensures { IfSome result (λ call. (function : AnyCallee) (levels : List AnyLevel) → AreCalls job.now entry function levels call → AreCalls job.now entry function (level ∷ levels) next) }
{
    let (token, call) = match level {
        Level::Body(place) => (
            token_at(job.style(), place)?,
            Callee::User(u32::try_from(place.function).ok()?),
        ),
        Level::LoopTest(test, _) => (Token::Run(test), Callee::BuiltIn(BuiltIn::While)),
        Level::LoopBody(_, body) => (Token::Run(body), Callee::BuiltIn(BuiltIn::While)),
    };
    if leads(job, entry, token, next) {
        Some(Token::Run(call))
    } else {
        None
    }
}

/// Whether these levels, innermost first, are calls that lead from a command's function to `next`.
pub fn are_calls(
    job: &Job<'_>,
    entry: Option<usize>,
    function: Callee,
    levels: &[Level],
    next: Token,
) -> bool
    ensures { result ≡ true → AreCalls job.now entry function levels.now next }
{
    let mut inside = next;
    for level in levels {
        match call_of(job, entry, *level, inside) {
            Some(call) => inside = call,
            None => return false,
        }
    }
    leads(job, entry, Token::Run(function), inside)
}
