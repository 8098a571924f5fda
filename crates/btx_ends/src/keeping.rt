//! Which tokens leave a global integer variable no greater than it was, and which functions count one down.
ghost use Rattle.std.specs.Prelude.{◌≡◌, IsTrue, true, None, false, [], slice_index_or};
ghost use Rattle.btx_ends.specs.Counters as counters;
ghost use Rattle.btx_ends.specs.Keeping as keeping;

use crate::tokens::{is_assign, is_greater, is_integer, is_minus, is_value, is_variable};
use btx_bst::{BuiltIn, Callee, Style, Token};

// Answers whether a function is said not to raise the variable.
fn is_kept_by(keeps: &[bool], number: usize) -> bool
    ensures { result ≡ slice_index_or keeps.now number false }
{
    if number < keeps.len() {
        keeps[number]
    } else {
        false
    }
}

// Answers whether a built-in function changes no variable by its name alone.
fn built_in_keeps(f: BuiltIn) -> bool
    ensures { IsTrue result → keeping.BuiltInKeeps f }
{
    match f {
        BuiltIn::Assign => false,
        BuiltIn::CallType => false,
        BuiltIn::If => false,
        BuiltIn::While => false,
        _ => true,
    }
}

// Answers whether what is executed under a name doesn't raise the variable, by what is said of the style's functions.
fn callee_keeps(keeps: &[bool], f: Callee) -> bool
    ensures { IsTrue result → keeping.CalleeKeeps (keeping.said_by keeps.now) f }
{
    match f {
        Callee::BuiltIn(f) => built_in_keeps(f),
        Callee::User(number) => is_kept_by(keeps, number as usize),
        Callee::Field(_) => true,
        Callee::EntryInteger(_) => true,
        Callee::EntryString(_) => true,
        Callee::GlobalInteger(_) => true,
        Callee::GlobalString(_) => true,
    }
}

// .. whether two functions don't that an `if$` or a `while$` takes
fn both_keep(keeps: &[bool], top: Option<Token>, below: Option<Token>) -> bool
    ensures { IsTrue result → keeping.BothKeep (keeping.said_by keeps.now) top below }
{
    match (top, below) {
        (Some(Token::Quote(top)), Some(Token::Quote(below))) => {
            callee_keeps(keeps, top) && callee_keeps(keeps, below)
        }
        _ => false,
    }
}

// Answers whether what `:=` assigns is an integer of the style, of at most 1 or 0.
fn is_low(one: bool, value: Option<Token>) -> bool
    ensures { IsTrue result → keeping.IsLow one value }
{
    match value {
        Some(Token::Integer(n)) => { if one { n <= 1 } else { n <= 0 } }
        _ => false,
    }
}

// Answers whether what `:=` assigns to is known, and isn't the variable v, or v is given a low integer.
fn assign_keeps(one: bool, v: u32, top: Option<Token>, value: Option<Token>) -> bool
    ensures { IsTrue result → keeping.AssignKeeps one v top value }
{
    match top {
        Some(Token::Quote(Callee::GlobalInteger(w))) => w != v || is_low(one, value),
        Some(Token::Quote(_)) => true,
        _ => false,
    }
}

// Answers whether a token doesn't raise the variable v, where these tokens pushed the literal on top of the stack and the one below that.
fn step_keeps(
    one: bool,
    keeps: &[bool],
    v: u32,
    top: Option<Token>,
    below: Option<Token>,
    token: Token,
) -> bool
    ensures { IsTrue result → keeping.StepKeeps one (keeping.said_by keeps.now) v top below token }
{
    match token {
        Token::Run(Callee::BuiltIn(BuiltIn::If)) => both_keep(keeps, top, below),
        Token::Run(Callee::BuiltIn(BuiltIn::While)) => both_keep(keeps, top, below),
        Token::Run(Callee::BuiltIn(BuiltIn::Assign)) => assign_keeps(one, v, top, below),
        Token::Run(f) => callee_keeps(keeps, f),
        Token::Text(_) => true,
        Token::Integer(_) => true,
        Token::Quote(_) => true,
    }
}

// Answers which token pushed the literal on top of the stack, after a token, if that is a function or an integer.
fn pushed_after(token: Token) -> Option<Token>
    ensures { result ≡ keeping.pushed_after token }
{
    match token {
        Token::Quote(f) => Some(Token::Quote(f)),
        Token::Integer(n) => Some(Token::Integer(n)),
        Token::Text(_) => None,
        Token::Run(_) => None,
    }
}

// Answers which token pushed the one below that.
fn pushed_below(top: Option<Token>, token: Token) -> Option<Token>
    ensures { result ≡ keeping.pushed_below top token }
{
    match token {
        Token::Quote(_) => top,
        Token::Integer(_) => top,
        Token::Text(_) => None,
        Token::Run(_) => None,
    }
}

/// Answers whether the tokens of a body leave the variable v at most what it was, or 1 or 0, by what is said of the style's functions.
pub(crate) fn tokens_keep(one: bool, keeps: &[bool], v: u32, body: &[Token]) -> bool
    ensures { IsTrue result → keeping.TokensKeep one (keeping.said_by keeps.now) v None None body.now }
{
    let mut top: Option<Token> = None;
    let mut below: Option<Token> = None;
    for token in body {
        if !step_keeps(one, keeps, v, top, below, *token) {
            return false;
        }
        below = pushed_below(top, *token);
        top = pushed_after(*token);
    }
    true
}

/// Answers whether the functions of a style don't raise the variable v of which this is said.
pub(crate) fn functions_keep(style: &Style, keeps: &[bool], v: u32) -> bool
    ensures { IsTrue result → keeping.BodiesKeep true (keeping.said_by keeps.now) v style.now }
{
    if keeps.len() > style.functions() {
        return false;
    }
    for number in 0..keeps.len() {
        if keeps[number] && !tokens_keep(true, keeps, v, style.body(number)) {
            return false;
        }
    }
    true
}

/// Answers whether a body is the test `{v #0 >}`.
#[tactic(auto, using(crate::proofs::CodeLemmas::three))]
pub(crate) fn is_test(v: u32, body: &[Token]) -> bool
    ensures { IsTrue result → body.now ≡ counters.above_zero_test v }
{
    body.len() == 3 && is_value(v, body[0]) && is_integer(0, body[1]) && is_greater(body[2])
}

// Answers whether tokens are `v #1 - 'v :=`.
#[tactic(auto, using(crate::proofs::CodeLemmas::five))]
fn is_less_one(v: u32, last: &[Token]) -> bool
    ensures { IsTrue result → last.now ≡ counters.less_one v }
{
    last.len() == 5
        && is_value(v, last[0])
        && is_integer(1, last[1])
        && is_minus(last[2])
        && is_variable(v, last[3])
        && is_assign(last[4])
}

// Answers whether tokens execute no function of the style, and leave the variable v at most what it was, or 0.
fn others_keep(v: u32, others: &[Token]) -> bool
    ensures { IsTrue result → keeping.TokensKeep false (keeping.said_by []) v None None others.now }
{
    tokens_keep(false, &[], v, others)
}

// Answers whether a body begins so with tokens that leave v at most what it was, or 1, and goes on with `v #1 - 'v :=`.
fn is_counting_at(keeps: &[bool], v: u32, body: &[Token], place: usize) -> bool
    ensures { IsTrue result → keeping.BodyCounts (keeping.said_by keeps.now) v body.now }
{
    if place > body.len() || body.len() - place < 5 {
        return false;
    }
    let (others, last) = body.split_at(place);
    let (less, rest) = last.split_at(5);
    is_less_one(v, less) && tokens_keep(true, keeps, v, others) && others_keep(v, rest)
}

// The place of the last `-` of a body that stands as in `v #1 - 'v :=`, less 2; 0 if there is none.
fn counting_place(v: u32, body: &[Token]) -> usize {
    let mut place = 0;
    for number in 2..body.len() {
        if is_minus(body[number]) && is_value(v, body[number - 2]) {
            place = number - 2;
        }
    }
    place
}

/// Answers whether a body counts the variable v down.
pub(crate) fn is_counting(keeps: &[bool], v: u32, body: &[Token]) -> bool
    ensures { IsTrue result → keeping.BodyCounts (keeping.said_by keeps.now) v body.now }
{
    is_counting_at(keeps, v, body, counting_place(v, body))
}
