//! Which loops put a shorter text in the place of one that stands on top of the stack.
ghost use Rattle.std.specs.Prelude.{◌≡◌, IsTrue, true, false, IfSome, pos, [], ◌∷◌, length};
ghost use Rattle.btx_bst.specs.declared.callee.Callee.TheVariants as callee;
ghost use Rattle.btx_bst.specs.declared.token.Token.TheVariants as tokens;
ghost use Rattle.btx_ends.specs.declared.held.Held.TheVariants as held;
ghost use Rattle.btx_ends.specs.Descending as descending;
ghost use Rattle.btx_ends.specs.Replacing as replacing;
ghost use Rattle.btx_ends.specs.Shortening as shortening;

use crate::held::{Held, Pile};
use crate::kinds::{body_of, is_not};
use crate::measures::{Effect, Kind, Measure, Replacement};
use crate::piles::{is_apart, is_integer, only_late, over_whole, pile_through};
use crate::shortening::tokens_through;
use crate::tokens::{
    called_by, is_assign, is_call, is_duplicate, is_equals, is_if, is_integer as is_number,
    is_less_than, is_quoted, is_string, is_substring, is_swap, is_text_variable, is_value, is_word,
    pushed_text, pushed_variable, quoted_by,
};
use btx_bst::{Callee, Style, Token};

// ---- tests

// Answers whether a body is `duplicate$ "w" = not`, for this text of the style and this `not`.
#[tactic(auto, using(crate::proofs::CodeLemmas::four))]
fn is_top_of(word: u32, negation: u32, body: &[Token]) -> bool
    ensures { IsTrue result → body.now ≡ replacing.top_test word negation }
{
    body.len() == 4
        && is_duplicate(body[0])
        && is_word(word, body[1])
        && is_equals(body[2])
        && is_call(negation, body[3])
}

/// Answers whether a body is a test that leaves the text on the stack, and is true only where it isn't empty.
pub(crate) fn tells_top(style: &Style, body: &[Token]) -> bool
    ensures { IsTrue result → replacing.TellsTop style.now body.now }
{
    if body.len() != 4 {
        return false;
    }
    let negation = called_by(body[3]);
    match pushed_text(body[1]) {
        None => false,
        Some(word) => {
            is_top_of(word, negation, body)
                && style.text(word).is_empty()
                && is_not(style, negation)
        }
    }
}

// ---- functions that leave less than a text

/// What tokens keep that keep the text of a variable.
pub(crate) fn text_measure(t: u32) -> Measure
    ensures { result ≡ replacing.text_measure t }
{
    Measure {
        text: t,
        flag: 0,
        word: 0,
    }
}

// Answers whether tokens keep it.
fn text_stays(style: &Style, t: u32, kinds: &[Kind], effects: &[Effect], xs: &[Token]) -> bool
    ensures { IsTrue result → replacing.TextStays style.now t (shortening.kinds_by kinds.now) (shortening.effects_by effects.now) xs.now }
{
    match tokens_through(style, text_measure(t), kinds, effects, false, xs) {
        None => false,
        Some(less) => !less,
    }
}

// Answers whether tokens are `'f 'g if$`.
#[tactic(auto, using(crate::proofs::CodeLemmas::three))]
fn is_choice_of(f: u32, g: u32, last: &[Token]) -> bool
    ensures { IsTrue result → last.now ≡ replacing.choice_of f g }
{
    last.len() == 3 && is_quoted(f, last[0]) && is_quoted(g, last[1]) && is_if(last[2])
}

// .. `'t :=`
#[tactic(auto, using(crate::proofs::CodeLemmas::two))]
fn is_kept_in(t: u32, first: &[Token]) -> bool
    ensures { IsTrue result → first.now ≡ replacing.kept_in t }
{
    first.len() == 2 && is_text_variable(t, first[0]) && is_assign(first[1])
}

// .. `duplicate$ #2 <`
#[tactic(auto, using(crate::proofs::CodeLemmas::three))]
fn is_below_two(last: &[Token]) -> bool
    ensures { IsTrue result → last.now ≡ replacing.below_two }
{
    last.len() == 3 && is_duplicate(last[0]) && is_number(2, last[1]) && is_less_than(last[2])
}

// .. `t swap$ n substring$`
#[tactic(auto, using(crate::proofs::CodeLemmas::four))]
fn is_rest_of(t: u32, n: u32, last: &[Token]) -> bool
    ensures { IsTrue result → last.now ≡ replacing.rest_tokens t n }
{
    last.len() == 4
        && is_string(t, last[0])
        && is_swap(last[1])
        && is_value(n, last[2])
        && is_substring(last[3])
}

// .. this text alone
#[tactic(auto, using(crate::proofs::CodeLemmas::one))]
fn is_word_alone(word: u32, last: &[Token]) -> bool
    ensures { IsTrue result → last.now ≡ tokens.Text word ∷ [] }
{
    last.len() == 1 && is_word(word, last[0])
}

// Answers whether a body leaves the empty text.
fn leaves_nothing(style: &Style, body: &[Token]) -> bool
    ensures { IsTrue result → replacing.LeavesNothing style.now body.now }
{
    if body.is_empty() {
        return false;
    }
    let (others, last) = body.split_at(body.len() - 1);
    match pushed_text(last[0]) {
        None => false,
        Some(word) => is_word_alone(word, last) && style.text(word).is_empty(),
    }
}

// .. the rest of s from a place on that isn't its first
fn leaves_rest(style: &Style, s: u32, kinds: &[Kind], effects: &[Effect], body: &[Token]) -> bool
    ensures { IsTrue result → replacing.LeavesRest style.now s (shortening.kinds_by kinds.now) (shortening.effects_by effects.now) body.now }
{
    if body.len() < 4 {
        return false;
    }
    let (others, last) = body.split_at(body.len() - 4);
    let n = pushed_variable(last[2]);
    is_rest_of(s, n, last)
        && text_stays(style, s, kinds, effects, others)
        && is_apart(pile_through(kinds, only_late(), others).first)
}

// Answers whether a function leaves the empty text.
fn nothing_by(style: &Style, number: u32) -> bool
    ensures { IsTrue result → replacing.LeavesNothing style.now (shortening.body_of style.now number) }
{
    match body_of(style, number) {
        None => false,
        Some(body) => leaves_nothing(style, body),
    }
}

// .. the rest of s
fn rest_by(style: &Style, s: u32, kinds: &[Kind], effects: &[Effect], number: u32) -> bool
    ensures { IsTrue result → replacing.LeavesRest style.now s (shortening.kinds_by kinds.now) (shortening.effects_by effects.now) (shortening.body_of style.now number) }
{
    match body_of(style, number) {
        None => false,
        Some(body) => leaves_rest(style, s, kinds, effects, body),
    }
}

// Answers whether tokens end in `duplicate$ #2 <`.
fn ends_below_two(xs: &[Token]) -> bool
    ensures { IsTrue result → replacing.EndsBelowTwo xs.now }
{
    if xs.len() < 3 {
        return false;
    }
    let (_others, last) = xs.split_at(xs.len() - 3);
    is_below_two(last)
}

// Answers whether a body keeps the text on top in s, and leaves the rest of it, or nothing.
fn leaves_less(style: &Style, s: u32, kinds: &[Kind], effects: &[Effect], body: &[Token]) -> bool
    ensures { IsTrue result → replacing.LeavesLess style.now s (shortening.kinds_by kinds.now) (shortening.effects_by effects.now) body.now }
{
    if body.len() < 5 {
        return false;
    }
    let (first, rest) = body.split_at(2);
    let (others, last) = rest.split_at(rest.len() - 3);
    let low = quoted_by(last[0]);
    let late = quoted_by(last[1]);
    is_kept_in(s, first)
        && is_choice_of(low, late, last)
        && ends_below_two(others)
        && text_stays(style, s, kinds, effects, others)
        && nothing_by(style, low)
        && rest_by(style, s, kinds, effects, late)
}

// .. as a function
fn less_by(style: &Style, s: u32, kinds: &[Kind], effects: &[Effect], number: u32) -> bool
    ensures { IsTrue result → replacing.LeavesLess style.now s (shortening.kinds_by kinds.now) (shortening.effects_by effects.now) (shortening.body_of style.now number) }
{
    match body_of(style, number) {
        None => false,
        Some(body) => leaves_less(style, s, kinds, effects, body),
    }
}

// Answers whether a literal is known to be a string that is no longer than the text of the loop.
fn is_whole(it: Held) -> bool
    ensures { IsTrue result → it ≡ held.Whole }
{
    match it {
        Held::Whole => true,
        _ => false,
    }
}

// Answers whether an integer stands on top, and below it the text.
fn is_choice(pile: Pile) -> bool
    ensures { IsTrue result → replacing.IsChoice pile }
{
    is_integer(pile.first) && is_whole(pile.second)
}

// Answers whether a body leaves nothing, or less than the text that stood below the literal on top.
fn splits(style: &Style, s: u32, kinds: &[Kind], effects: &[Effect], body: &[Token]) -> bool
    ensures { IsTrue result → replacing.Splits style.now s (shortening.kinds_by kinds.now) (shortening.effects_by effects.now) body.now }
{
    if body.len() < 3 {
        return false;
    }
    let (others, last) = body.split_at(body.len() - 3);
    let none = quoted_by(last[0]);
    let less = quoted_by(last[1]);
    is_choice_of(none, less, last)
        && is_choice(pile_through(kinds, over_whole(), others))
        && nothing_by(style, none)
        && less_by(style, s, kinds, effects, less)
}

// .. as a function
fn splits_by(style: &Style, s: u32, kinds: &[Kind], effects: &[Effect], number: u32) -> bool
    ensures { IsTrue result → replacing.Splits style.now s (shortening.kinds_by kinds.now) (shortening.effects_by effects.now) (shortening.body_of style.now number) }
{
    match body_of(style, number) {
        None => false,
        Some(body) => splits(style, s, kinds, effects, body),
    }
}

// ---- bodies of loops

// The integer that a body is, if it is one alone; else 0.
fn integer_in(body: &[Token]) -> i32 {
    if body.len() != 1 {
        return 0;
    }
    match body[0] {
        Token::Integer(n) => n,
        _ => 0,
    }
}

// Answers whether a body is this integer alone.
#[tactic(auto, using(crate::proofs::CodeLemmas::one))]
fn is_integer_body(n: i32, body: &[Token]) -> bool
    ensures { IsTrue result → body.now ≡ shortening.integer_body n }
{
    body.len() == 1 && is_number(n, body[0])
}

// Answers whether a function pushes an integer, and does nothing else.
fn is_constant(style: &Style, number: u32) -> bool
    ensures { IsTrue result → replacing.IsNumber style.now (tokens.Run (callee.User number)) }
{
    match body_of(style, number) {
        None => false,
        Some(body) => is_integer_body(integer_in(body), body),
    }
}

// .. whether a token does
fn pushes_number(style: &Style, x: Token) -> bool
    ensures { IsTrue result → replacing.IsNumber style.now x }
{
    match x {
        Token::Integer(_) => true,
        Token::Run(Callee::GlobalInteger(_)) => true,
        Token::Run(Callee::User(number)) => is_constant(style, number),
        _ => false,
    }
}

/// What is said of a style's functions, by their numbers, for a replacement.
#[derive(Clone, Copy)]
pub struct Spoken<'c> {
    /// What each function does with integers on top of the stack.
    pub kinds: &'c [Kind],
    /// What it does to the text that is kept while it is cut.
    pub texts: &'c [Effect],
    /// What it does to the text that is given.
    pub givens: &'c [Effect],
}

// Answers the token that stands alone.
#[tactic(auto, using(crate::proofs::CodeLemmas::one))]
fn token_alone(one: &[Token]) -> Option<Token>
    ensures { IfSome result (λ x. one.now ≡ x ∷ []) }
{
    if one.len() == 1 { Some(one[0]) } else { None }
}

// Answers whether tokens are this call alone.
#[tactic(auto, using(crate::proofs::CodeLemmas::one))]
fn is_call_alone(number: u32, calls: &[Token]) -> bool
    ensures { IsTrue result → calls.now ≡ tokens.Run (callee.User number) ∷ [] }
{
    calls.len() == 1 && is_call(number, calls[0])
}

// .. this variable alone
#[tactic(auto, using(crate::proofs::CodeLemmas::one))]
fn is_string_alone(t: u32, last: &[Token]) -> bool
    ensures { IsTrue result → last.now ≡ tokens.Run (callee.GlobalString t) ∷ [] }
{
    last.len() == 1 && is_string(t, last[0])
}

// Answers whether a body gives a text that tokens keep, and pushes it at its end.
fn gives(style: &Style, r: Replacement, said: Spoken<'_>, xs: &[Token]) -> bool
    ensures { IsTrue result → replacing.Gives style.now r.given (shortening.kinds_by said.entry.kinds.now) (shortening.effects_by said.entry.givens.now) xs.now }
{
    if xs.len() < 3 {
        return false;
    }
    let (first, rest) = xs.split_at(2);
    let (others, last) = rest.split_at(rest.len() - 1);
    is_kept_in(r.given, first)
        && is_string_alone(r.given, last)
        && text_stays(style, r.given, said.kinds, said.givens, others)
}

/// Answers whether a body puts less than a text in its place.
pub(crate) fn replaces(style: &Style, r: Replacement, said: Spoken<'_>, body: &[Token]) -> bool
    ensures { IsTrue result → replacing.Replaces style.now r (shortening.kinds_by said.entry.kinds.now) (shortening.effects_by said.entry.texts.now) (shortening.effects_by said.entry.givens.now) body.now }
{
    if body.len() < 2 {
        return false;
    }
    let (one, others) = body.split_at(1);
    let (calls, rest) = others.split_at(1);
    let f = called_by(calls[0]);
    match token_alone(one) {
        None => false,
        Some(x) => {
            is_call_alone(f, calls)
                && gives(style, r, said, rest)
                && pushes_number(style, x)
                && splits_by(style, r.text, said.kinds, said.texts, f)
        }
    }
}
