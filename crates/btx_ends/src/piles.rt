//! What is known of the literals on top of the stack after a token, where a loop counts an integer down that stands there, or shortens a text that does.
ghost use Rattle.std.specs.Prelude.{◌≡◌};
ghost use Rattle.btx_ends.specs.Shortening as shortening;
ghost use Rattle.btx_ends.specs.Descending as descending;
ghost use Rattle.btx_ends.specs.Replacing as replacing;

use crate::held::{Held, Pile};
use crate::measures::Kind;
use crate::tops::kind_of;
use btx_bst::{BuiltIn, Callee, Token};

/// Nothing is known of them.
pub(crate) fn nothing_held() -> Pile
    ensures { result ≡ descending.nothing_held }
{
    Pile {
        first: Held::Anything,
        second: Held::Anything,
        third: Held::Anything,
        fourth: Held::Anything,
        fifth: Held::Anything,
        sixth: Held::Anything,
        seventh: Held::Anything,
        eighth: Held::Anything,
    }
}

// .. after a literal is pushed
fn push(it: Held, pile: Pile) -> Pile
    ensures { result ≡ descending.push it pile }
{
    Pile {
        first: it,
        second: pile.first,
        third: pile.second,
        fourth: pile.third,
        fifth: pile.fourth,
        sixth: pile.fifth,
        seventh: pile.sixth,
        eighth: pile.seventh,
    }
}

// .. after one is taken off
fn popped(pile: Pile) -> Pile
    ensures { result ≡ descending.popped pile }
{
    Pile {
        first: pile.second,
        second: pile.third,
        third: pile.fourth,
        fourth: pile.fifth,
        fifth: pile.sixth,
        sixth: pile.seventh,
        seventh: pile.eighth,
        eighth: Held::Anything,
    }
}

// .. after two are
fn popped_two(pile: Pile) -> Pile
    ensures { result ≡ descending.popped_two pile }
{
    popped(popped(pile))
}

/// .. at first: the integer of the loop
pub(crate) fn only_same() -> Pile
    ensures { result ≡ descending.only_same }
{
    push(Held::Same, nothing_held())
}

/// .. an integer that is at least 2, if there is one
pub(crate) fn only_late() -> Pile
    ensures { result ≡ replacing.only_late }
{
    push(Held::Late, nothing_held())
}

/// .. the text of the loop below a literal
pub(crate) fn over_whole() -> Pile
    ensures { result ≡ replacing.over_whole }
{
    push(Held::Anything, push(Held::Whole, nothing_held()))
}

/// Answers whether a literal is known to be an integer.
pub(crate) fn is_integer(it: Held) -> bool
    ensures { result ≡ descending.is_integer it }
{
    match it {
        Held::Number => true,
        Held::Zero => true,
        Held::Positive => true,
        Held::Same => true,
        Held::Told => true,
        _ => false,
    }
}

// .. to be there
fn is_there(it: Held) -> bool
    ensures { result ≡ descending.is_there it }
{
    match it {
        Held::Anything => false,
        Held::Low => false,
        Held::Late => false,
        Held::Apart => false,
        _ => true,
    }
}

// .. to be of this kind if it is an integer, where there may be none
fn is_bound(it: Held) -> bool
    ensures { result ≡ descending.is_bound it }
{
    match it {
        Held::Low => true,
        Held::Late => true,
        Held::Apart => true,
        _ => false,
    }
}

// .. to be a string
fn is_text(it: Held) -> bool
    ensures { result ≡ descending.is_text it }
{
    match it {
        Held::Text => true,
        Held::Whole => true,
        _ => false,
    }
}

/// .. to be no place from which on a part is the whole text
pub(crate) fn is_apart(it: Held) -> bool
    ensures { result ≡ descending.is_apart it }
{
    match it {
        Held::Late => true,
        Held::Apart => true,
        _ => false,
    }
}

/// Answers whether a literal is known to be no greater than the integer of the loop, if it is an integer.
pub(crate) fn is_low(it: Held) -> bool
    ensures { result ≡ descending.is_low it }
{
    match it {
        Held::Same => true,
        Held::Low => true,
        _ => false,
    }
}

/// .. to be an integer that is above 0 only where that of the loop is
pub(crate) fn is_told(it: Held) -> bool
    ensures { result ≡ descending.is_told it }
{
    match it {
        Held::Same => true,
        Held::Told => true,
        _ => false,
    }
}

// Answers what is known of an integer.
fn number_held(n: i32) -> Held
    ensures { result ≡ descending.number_held n }
{
    if n == 0 {
        Held::Zero
    } else if n > 0 {
        Held::Positive
    } else {
        Held::Number
    }
}

// .. after `+`, whose sum is 0 where it doesn't fit
fn sum_held(top: Held, below: Held) -> Held
    ensures { result ≡ descending.sum_held top below }
{
    match (top, below) {
        (Held::Positive, Held::Late) => Held::Apart,
        _ => Held::Number,
    }
}

// .. after `>`
fn greater_held(top: Held, below: Held) -> Held
    ensures { result ≡ descending.greater_held top below }
{
    match (top, below) {
        (Held::Zero, Held::Same) => Held::Told,
        _ => Held::Number,
    }
}

// .. after `and`
fn joined_held(below: Held) -> Held
    ensures { result ≡ descending.joined_held below }
{
    if is_told(below) {
        Held::Told
    } else {
        Held::Number
    }
}

// .. on top after `swap$`
fn raised_held(top: Held, below: Held) -> Held
    ensures { result ≡ descending.raised_held top below }
{
    if is_there(below) || (is_text(top) && is_bound(below)) {
        below
    } else {
        Held::Anything
    }
}

// .. and below that
fn lowered_held(top: Held, below: Held) -> Held
    ensures { result ≡ descending.lowered_held top below }
{
    if is_there(below) {
        top
    } else if is_low(top) {
        Held::Low
    } else {
        Held::Anything
    }
}

// .. of all literals after `swap$`
fn swapped_held(pile: Pile) -> Pile
    ensures { result ≡ descending.swapped_held pile }
{
    let raised = raised_held(pile.first, pile.second);
    let lowered = lowered_held(pile.first, pile.second);
    push(raised, push(lowered, popped_two(pile)))
}

// .. after a built-in function
fn built_in_held(pile: Pile, f: BuiltIn) -> Pile
    ensures { result ≡ descending.built_in_held pile f }
{
    match f {
        BuiltIn::Duplicate => push(pile.first, pile),
        BuiltIn::Swap => swapped_held(pile),
        BuiltIn::Substring => push(Held::Text, popped(popped_two(pile))),
        BuiltIn::Concatenate => push(Held::Text, popped_two(pile)),
        BuiltIn::Equals => push(Held::Number, popped_two(pile)),
        BuiltIn::Greater => push(greater_held(pile.first, pile.second), popped_two(pile)),
        BuiltIn::Plus => push(sum_held(pile.first, pile.second), popped_two(pile)),
        BuiltIn::Assign => popped_two(pile),
        _ => nothing_held(),
    }
}

// .. after a function of the style of this kind
fn called_held(kind: Kind, pile: Pile) -> Pile
    ensures { result ≡ descending.called_held kind pile }
{
    match kind {
        Kind::Not => {
            if is_integer(pile.first) {
                push(Held::Number, popped(pile))
            } else {
                nothing_held()
            }
        }
        Kind::Or => {
            if is_integer(pile.first) && is_integer(pile.second) {
                push(Held::Number, popped_two(pile))
            } else {
                nothing_held()
            }
        }
        Kind::And => {
            if is_integer(pile.first) && is_integer(pile.second) {
                push(joined_held(pile.second), popped_two(pile))
            } else {
                nothing_held()
            }
        }
        Kind::Other => nothing_held(),
    }
}

/// Answers what is known of the literals on top of the stack after a token.
pub(crate) fn pile_after(kinds: &[Kind], pile: Pile, token: Token) -> Pile
    ensures { result ≡ descending.pile_after (shortening.kinds_by kinds.now) pile token }
{
    match token {
        Token::Quote(_) => push(Held::Anything, pile),
        Token::Integer(n) => push(number_held(n), pile),
        Token::Text(_) => push(Held::Text, pile),
        Token::Run(Callee::GlobalInteger(_)) => push(Held::Number, pile),
        Token::Run(Callee::GlobalString(_)) => push(Held::Text, pile),
        Token::Run(Callee::BuiltIn(f)) => built_in_held(pile, f),
        Token::Run(Callee::User(number)) => called_held(kind_of(kinds, number as usize), pile),
        Token::Run(_) => nothing_held(),
    }
}

/// .. after tokens one after another, where this was known before them
pub(crate) fn pile_through(kinds: &[Kind], start: Pile, xs: &[Token]) -> Pile
    ensures { result ≡ descending.pile_through (shortening.kinds_by kinds.now) start xs.now }
{
    let mut pile = start;
    for token in xs {
        pile = pile_after(kinds, pile, *token);
    }
    pile
}
