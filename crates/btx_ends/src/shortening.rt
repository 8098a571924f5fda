//! Which tokens make a text shorter or set a flag.
ghost use Rattle.std.specs.Prelude.{◌≡◌, ◌&&◌, ◌||◌, not, IsTrue, true, false, IfSome, pos};
ghost use Rattle.btx_bst.specs.declared.callee.Callee.TheVariants as callee;
ghost use Rattle.btx_ends.specs.declared.measures.Effect.TheVariants as effect;
ghost use Rattle.btx_ends.specs.declared.measures.Seen.TheVariants as seen;
ghost use Rattle.btx_ends.specs.Shortening as shortening;

use crate::measures::{Effect, Kind, Measure, Seen, Tops};
use crate::telling::begins_word;
use crate::tops::{is_number, is_same_word, nothing_seen, tops_after};
use btx_bst::{BuiltIn, Callee, Style, Token};

// ---- what functions do

// Answers what a built-in function does.
fn built_in_effect(f: BuiltIn) -> Effect
    ensures { result ≡ shortening.built_in_effect f }
{
    match f {
        BuiltIn::Assign => Effect::Other,
        BuiltIn::CallType => Effect::Other,
        BuiltIn::If => Effect::Other,
        BuiltIn::While => Effect::Other,
        _ => Effect::Keeps,
    }
}

/// Answers what a function is said to do, by its number.
pub(crate) fn said_of(effects: &[Effect], number: usize) -> Effect
    ensures { result ≡ shortening.effects_by effects.now number }
{
    if number < effects.len() {
        effects[number]
    } else {
        Effect::Other
    }
}

// Answers what that does which is executed under a name.
fn effect_of(effects: &[Effect], f: Callee) -> Effect
    ensures { result ≡ shortening.effect_of (shortening.effects_by effects.now) f }
{
    match f {
        Callee::BuiltIn(f) => built_in_effect(f),
        Callee::User(number) => said_of(effects, number as usize),
        Callee::Field(_) => Effect::Keeps,
        Callee::EntryInteger(_) => Effect::Keeps,
        Callee::EntryString(_) => Effect::Keeps,
        Callee::GlobalInteger(_) => Effect::Keeps,
        Callee::GlobalString(_) => Effect::Keeps,
    }
}

// Answers whether that makes less of what is left; None if it may make more of it.
fn lessens(begun: bool, effect: Effect) -> Option<bool>
    ensures { result ≡ shortening.lessens begun effect }
{
    match effect {
        Effect::Other => None,
        Effect::Keeps => Some(false),
        Effect::Shortens => Some(true),
        Effect::ShortensIfBegun => { if begun { Some(true) } else { None } }
    }
}

// Answers whether a function is said to keep the text and the flag.
fn keeps(effects: &[Effect], f: Callee) -> bool
    ensures { IsTrue result → shortening.effect_of (shortening.effects_by effects.now) f ≡ effect.Keeps }
{
    match effect_of(effects, f) {
        Effect::Keeps => true,
        _ => false,
    }
}

// .. to make less of what is left
fn shortens(effects: &[Effect], f: Callee) -> bool
    ensures { IsTrue result → shortening.effect_of (shortening.effects_by effects.now) f ≡ effect.Shortens }
{
    match effect_of(effects, f) {
        Effect::Shortens => true,
        _ => false,
    }
}

// ---- tokens. Each function answers whether less is left after it than at the beginning, where `before` says whether less was left before it

// .. after what is executed under a name
fn callee_through(effects: &[Effect], begun: bool, before: bool, f: Callee) -> Option<bool>
    ensures { IfSome result (λ after. shortening.CalleeThrough (shortening.effects_by effects.now) begun before f after) }
{
    let less = lessens(begun, effect_of(effects, f))?;
    Some(before || less)
}

// Answers whether a literal tells that the text begins with the word.
fn is_begins(it: Seen) -> bool
    ensures { result ≡ shortening.is_begins it }
{
    match it {
        Seen::Begins => true,
        _ => false,
    }
}

// Answers whether the text is known to begin with the word where this literal is above 0.
fn begun_by(begun: bool, it: Seen) -> bool
    ensures { result ≡ begun || shortening.is_begins it }
{
    begun || is_begins(it)
}

// .. after an `if$` over two functions, and an integer of which this is known below them
fn chosen_through(
    effects: &[Effect],
    begun: bool,
    before: bool,
    g: Callee,
    f: Callee,
    third: Seen,
) -> Option<bool>
    ensures { IfSome result (λ after. shortening.ChosenThrough (shortening.effects_by effects.now) begun before g f third after) }
{
    if !is_number(third) {
        return None;
    }
    let begun_below = begun_by(begun, third);
    let after = callee_through(effects, begun_below, before, f)?;
    let other = callee_through(effects, begun, before, g)?;
    if after == other { Some(after) } else { None }
}

// .. where there may be no integer, so that neither is executed
fn neither_through(
    effects: &[Effect],
    begun: bool,
    before: bool,
    g: Callee,
    f: Callee,
) -> Option<bool>
    ensures { IfSome result (λ after. shortening.NeitherThrough (shortening.effects_by effects.now) begun before g f after) }
{
    let first = callee_through(effects, begun, before, f)?;
    let second = callee_through(effects, begun, before, g)?;
    if first == before && second == before {
        Some(before)
    } else {
        None
    }
}

// .. in either case
fn both_through(
    effects: &[Effect],
    begun: bool,
    before: bool,
    g: Callee,
    f: Callee,
    third: Seen,
) -> Option<bool>
    ensures { IfSome result (λ after. shortening.ChoiceThrough (shortening.effects_by effects.now) begun before (seen.Function g) (seen.Function f) third after) }
{
    match chosen_through(effects, begun, before, g, f, third) {
        Some(after) => Some(after),
        None => neither_through(effects, begun, before, g, f),
    }
}

// .. after an `if$`
fn choice_through(effects: &[Effect], begun: bool, before: bool, tops: Tops) -> Option<bool>
    ensures { IfSome result (λ after. shortening.ChoiceThrough (shortening.effects_by effects.now) begun before tops.top tops.below tops.third after) }
{
    match (tops.top, tops.below) {
        (Seen::Function(g), Seen::Function(f)) => {
            both_through(effects, begun, before, g, f, tops.third)
        }
        _ => None,
    }
}

// Answers whether a function is a test whether the text begins with the word.
fn is_begins_test(style: &Style, m: Measure, number: u32) -> bool
    ensures { IsTrue result → shortening.IsBeginsTest style.now m (callee.User number) }
{
    if number as usize >= style.functions() {
        return false;
    }
    match begins_word(m.text, style.body(number as usize)) {
        None => false,
        Some(word) => is_known_word(style, word, m.word),
    }
}

// Answers whether two texts of a style are equal.
fn is_known_word(style: &Style, word: u32, other: u32) -> bool
    ensures { IsTrue result → shortening.word_of style.now word ≡ shortening.word_of style.now other }
{
    is_same_word(style, word, other)
}

// .. after a `while$` over these functions
fn turns_through(
    style: &Style,
    m: Measure,
    effects: &[Effect],
    begun: bool,
    before: bool,
    body: Callee,
    test: Callee,
) -> Option<bool>
    ensures { IfSome result (λ after. shortening.LoopThrough style.now m (shortening.effects_by effects.now) begun before (seen.Function body) (seen.Function test) after) }
{
    if !keeps(effects, test) {
        return None;
    }
    if keeps(effects, body) {
        return Some(before);
    }
    if before && shortens(effects, body) {
        return Some(true);
    }
    let Callee::User(number) = test else {
        return None;
    };
    if begun && shortens(effects, body) && is_begins_test(style, m, number) {
        return Some(true);
    }
    None
}

// .. after a `while$`
fn loop_through(
    style: &Style,
    m: Measure,
    effects: &[Effect],
    begun: bool,
    before: bool,
    tops: Tops,
) -> Option<bool>
    ensures { IfSome result (λ after. shortening.LoopThrough style.now m (shortening.effects_by effects.now) begun before tops.top tops.below after) }
{
    match (tops.top, tops.below) {
        (Seen::Function(body), Seen::Function(test)) => {
            turns_through(style, m, effects, begun, before, body, test)
        }
        _ => None,
    }
}

// Answers whether a literal is known to be shorter than the text, or empty.
fn is_less(style: &Style, it: Seen) -> bool
    ensures { IsTrue result → shortening.IsLess style.now it }
{
    match it {
        Seen::Shorter => true,
        Seen::Word(word) => style.text(word).len() == 0,
        _ => false,
    }
}

// .. to be 1
fn is_seen_one(it: Seen) -> bool
    ensures { IsTrue result → it ≡ seen.Integer (pos 1) }
{
    match it {
        Seen::Integer(n) => n == 1,
        _ => false,
    }
}

// .. after an `:=` to a global string variable
fn string_through(style: &Style, m: Measure, before: bool, i: u32, value: Seen) -> Option<bool>
    ensures { IfSome result (λ after. shortening.AssignThrough style.now m before (seen.Function (callee.GlobalString i)) value after) }
{
    if i != m.text {
        return Some(before);
    }
    if is_less(style, value) {
        return Some(true);
    }
    None
}

// .. to a global integer variable
fn integer_through(style: &Style, m: Measure, before: bool, v: u32, value: Seen) -> Option<bool>
    ensures { IfSome result (λ after. shortening.AssignThrough style.now m before (seen.Function (callee.GlobalInteger v)) value after) }
{
    if m.flag == 0 || v != m.flag - 1 {
        return Some(before);
    }
    if is_seen_one(value) {
        return Some(true);
    }
    None
}

// .. after an `:=`
fn assign_through(style: &Style, m: Measure, before: bool, tops: Tops) -> Option<bool>
    ensures { IfSome result (λ after. shortening.AssignThrough style.now m before tops.top tops.below after) }
{
    match tops.top {
        Seen::Function(Callee::GlobalString(i)) => {
            string_through(style, m, before, i, tops.below)
        }
        Seen::Function(Callee::GlobalInteger(v)) => {
            integer_through(style, m, before, v, tops.below)
        }
        Seen::Function(_) => Some(before),
        _ => None,
    }
}

// .. after a token
fn step_through(
    style: &Style,
    m: Measure,
    effects: &[Effect],
    begun: bool,
    before: bool,
    tops: Tops,
    token: Token,
) -> Option<bool>
    ensures { IfSome result (λ after. shortening.StepThrough style.now m (shortening.effects_by effects.now) begun before tops token after) }
{
    let begun = begun && !before;
    match token {
        Token::Run(Callee::BuiltIn(BuiltIn::If)) => choice_through(effects, begun, before, tops),
        Token::Run(Callee::BuiltIn(BuiltIn::While)) => {
            loop_through(style, m, effects, begun, before, tops)
        }
        Token::Run(Callee::BuiltIn(BuiltIn::Assign)) => assign_through(style, m, before, tops),
        Token::Run(f) => callee_through(effects, begun, before, f),
        Token::Text(_) => Some(before),
        Token::Integer(_) => Some(before),
        Token::Quote(_) => Some(before),
    }
}

/// Answers whether the tokens of a body make less of what is left; None if they may make more of it. `begun` says that the text begins with the word.
pub(crate) fn tokens_through(
    style: &Style,
    m: Measure,
    kinds: &[Kind],
    effects: &[Effect],
    begun: bool,
    body: &[Token],
) -> Option<bool>
    ensures { IfSome result (λ after. shortening.TokensThrough style.now m (shortening.kinds_by kinds.now) (shortening.effects_by effects.now) begun false shortening.nothing_seen body.now after) }
{
    let mut so_far = false;
    let mut tops = nothing_seen();
    for token in body {
        let after = step_through(style, m, effects, begun, so_far, tops, *token)?;
        tops = tops_after(style, m, kinds, tops, *token);
        so_far = after;
    }
    Some(so_far)
}

// Answers whether a body does what is said of its function.
fn effect_holds(
    style: &Style,
    m: Measure,
    kinds: &[Kind],
    effects: &[Effect],
    said: Effect,
    body: &[Token],
) -> bool
    ensures { IsTrue result → shortening.EffectHolds style.now m (shortening.kinds_by kinds.now) (shortening.effects_by effects.now) said body.now }
{
    match said {
        Effect::Other => true,
        Effect::Keeps => leads_to(style, m, kinds, effects, false, body, false),
        Effect::Shortens => leads_to(style, m, kinds, effects, false, body, true),
        Effect::ShortensIfBegun => leads_to(style, m, kinds, effects, true, body, true),
    }
}

// .. whether its tokens lead to this
fn leads_to(
    style: &Style,
    m: Measure,
    kinds: &[Kind],
    effects: &[Effect],
    begun: bool,
    body: &[Token],
    wanted: bool,
) -> bool
    ensures { IsTrue result → shortening.TokensThrough style.now m (shortening.kinds_by kinds.now) (shortening.effects_by effects.now) begun false shortening.nothing_seen body.now wanted }
{
    match tokens_through(style, m, kinds, effects, begun, body) {
        None => false,
        Some(after) => after == wanted,
    }
}

/// Answers whether all functions do what is said of them.
pub(crate) fn effects_hold(style: &Style, m: Measure, kinds: &[Kind], effects: &[Effect]) -> bool
    ensures { IsTrue result → shortening.EffectsHold style.now m (shortening.kinds_by kinds.now) (shortening.effects_by effects.now) }
{
    if effects.len() > style.functions() {
        return false;
    }
    for number in 0..effects.len() {
        if !effect_holds(
            style,
            m,
            kinds,
            effects,
            effects[number],
            style.body(number),
        ) {
            return false;
        }
    }
    true
}
