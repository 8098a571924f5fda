//! Which loops walk along a text, and which functions move the place on.
ghost use Rattle.std.specs.Prelude.{◌≡◌, IsTrue, true, false, IfSome};
ghost use Rattle.btx_ends.specs.Keeping.{said_by};
ghost use Rattle.btx_ends.specs.Shortening as shortening;
ghost use Rattle.btx_ends.specs.Walking as walking;

use crate::kinds::is_not;
use crate::measures::{Effect, Kind, Measure, Walk};
use crate::shortening::tokens_through;
use crate::tokens::{
    called_by, is_assign, is_call, is_equals, is_if, is_plus, is_quoted, is_string, is_substring,
    is_value, is_variable, is_word, pushed_text,
};
use btx_bst::{Callee, Style, Token};

// ---- tests

// Answers whether tokens are `t p n`.
#[tactic(auto, using(crate::proofs::CodeLemmas::three))]
fn are_operands(walk: Walk, front: &[Token]) -> bool
    ensures { IsTrue result → front.now ≡ walking.part_operands walk }
{
    front.len() == 3
        && is_string(walk.text, front[0])
        && is_value(walk.place, front[1])
        && is_value(walk.size, front[2])
}

// .. `substring$ "w" = not`, for this text of the style and this `not`
#[tactic(auto, using(crate::proofs::CodeLemmas::four))]
fn is_differing(word: u32, negation: u32, last: &[Token]) -> bool
    ensures { IsTrue result → last.now ≡ walking.differs_test word negation }
{
    last.len() == 4
        && is_substring(last[0])
        && is_word(word, last[1])
        && is_equals(last[2])
        && is_call(negation, last[3])
}

// Answers whether a body is both, one after the other.
fn is_part_of(walk: Walk, word: u32, negation: u32, body: &[Token]) -> bool
    ensures { IsTrue result → body.now ≡ walking.part_test walk word negation }
{
    if body.len() != 7 {
        return false;
    }
    let (front, last) = body.split_at(3);
    are_operands(walk, front) && is_differing(word, negation, last)
}

/// Answers whether a body is a test that is true only where the text has a part from the place on.
pub(crate) fn tells_part(style: &Style, walk: Walk, body: &[Token]) -> bool
    ensures { IsTrue result → walking.TellsPart style.now walk body.now }
{
    if body.len() != 7 {
        return false;
    }
    let negation = called_by(body[6]);
    match pushed_text(body[4]) {
        None => false,
        Some(word) => {
            is_part_of(walk, word, negation, body)
                && style.text(word).is_empty()
                && is_not(style, negation)
        }
    }
}

// ---- bodies

/// What tokens keep that keep the text and the place.
pub(crate) fn place_measure(walk: Walk) -> Option<Measure>
    ensures { IfSome result (λ m. m ≡ walking.place_measure walk) }
{
    let flag = walk.place.checked_add(1)?;
    Some(Measure {
        text: walk.text,
        flag,
        word: 0,
    })
}

/// .. the text and the size
pub(crate) fn size_measure(walk: Walk) -> Option<Measure>
    ensures { IfSome result (λ m. m ≡ walking.size_measure walk) }
{
    let flag = walk.size.checked_add(1)?;
    Some(Measure {
        text: walk.text,
        flag,
        word: 0,
    })
}

/// What is said of a style's functions, by their numbers, for a walk.
#[derive(Clone, Copy)]
pub struct Said<'c> {
    /// What each function does with integers on top of the stack.
    pub kinds: &'c [Kind],
    /// What it does to the text and the place.
    pub places: &'c [Effect],
    /// What it does to the text and the size.
    pub sizes: &'c [Effect],
    /// Whether it moves the place on.
    pub moves: &'c [bool],
}

// Answers whether tokens keep what a measure looks at.
fn stays_by(style: &Style, m: Measure, kinds: &[Kind], effects: &[Effect], xs: &[Token]) -> bool
    ensures { IsTrue result → shortening.TokensThrough style.now m (shortening.kinds_by kinds.now) (shortening.effects_by effects.now) false false shortening.nothing_seen xs.now false }
{
    match tokens_through(style, m, kinds, effects, false, xs) {
        None => false,
        Some(less) => !less,
    }
}

/// Answers whether tokens keep the text, the place and the size.
pub(crate) fn tokens_stay(style: &Style, walk: Walk, said: Said<'_>, xs: &[Token]) -> bool
    ensures { IsTrue result → walking.TokensStay style.now walk (shortening.kinds_by said.entry.kinds.now) (shortening.effects_by said.entry.places.now) (shortening.effects_by said.entry.sizes.now) xs.now }
{
    match (place_measure(walk), size_measure(walk)) {
        (Some(place), Some(size)) => {
            stays_by(style, place, said.kinds, said.places, xs)
                && stays_by(style, size, said.kinds, said.sizes, xs)
        }
        _ => false,
    }
}

// Answers whether a token pushes the size, or a positive integer.
fn is_stride(walk: Walk, token: Token) -> bool
    ensures { IsTrue result → walking.IsStride walk token }
{
    match token {
        Token::Run(Callee::GlobalInteger(v)) => v == walk.size,
        Token::Integer(n) => n > 0,
        _ => false,
    }
}

/// Answers x of the tokens `p x + 'p :=`, if these are that.
#[tactic(auto, using(crate::proofs::CodeLemmas::five))]
pub(crate) fn moved_by(place: u32, last: &[Token]) -> Option<Token>
    ensures { IfSome result (λ x. last.now ≡ walking.move_by place x) }
{
    if last.len() == 5
        && is_value(place, last[0])
        && is_plus(last[2])
        && is_variable(place, last[3])
        && is_assign(last[4])
    {
        Some(last[1])
    } else {
        None
    }
}

// Answers whether a body moves the place on by its last tokens.
fn moves_last(style: &Style, walk: Walk, said: Said<'_>, body: &[Token]) -> bool
    ensures { IsTrue result → walking.MovesLast style.now walk (shortening.kinds_by said.entry.kinds.now) (shortening.effects_by said.entry.places.now) (shortening.effects_by said.entry.sizes.now) body.now }
{
    if body.len() < 5 {
        return false;
    }
    let (others, last) = body.split_at(body.len() - 5);
    match moved_by(walk.place, last) {
        None => false,
        Some(x) => is_stride(walk, x) && tokens_stay(style, walk, said, others),
    }
}

// Answers the number of the function of the style that a token quotes, if it does; else 0.
fn quoted_by(token: Token) -> u32 {
    match token {
        Token::Quote(Callee::User(n)) => n,
        _ => 0,
    }
}

// Answers whether tokens are `= 'f 'g if$`.
#[tactic(auto, using(crate::proofs::CodeLemmas::four))]
fn is_compared_choice(f: u32, g: u32, last: &[Token]) -> bool
    ensures { IsTrue result → last.now ≡ walking.compared_choice f g }
{
    last.len() == 4
        && is_equals(last[0])
        && is_quoted(f, last[1])
        && is_quoted(g, last[2])
        && is_if(last[3])
}

// Answers whether a function is said to move the place on.
fn is_moving(moves: &[bool], number: usize) -> bool
    ensures { result ≡ said_by moves.now number }
{
    number < moves.len() && moves[number]
}

// Answers whether a body moves the place on by the one or the other of two functions.
fn moves_either(style: &Style, walk: Walk, said: Said<'_>, body: &[Token]) -> bool
    ensures { IsTrue result → walking.MovesEither style.now walk (shortening.kinds_by said.entry.kinds.now) (shortening.effects_by said.entry.places.now) (shortening.effects_by said.entry.sizes.now) (said_by said.entry.moves.now) body.now }
{
    if body.len() < 4 {
        return false;
    }
    let (others, last) = body.split_at(body.len() - 4);
    let f = quoted_by(last[1]);
    let g = quoted_by(last[2]);
    is_compared_choice(f, g, last)
        && is_moving(said.moves, f as usize)
        && is_moving(said.moves, g as usize)
        && tokens_stay(style, walk, said, others)
}

/// Answers whether a body moves the place of a walk on.
pub(crate) fn moves(style: &Style, walk: Walk, said: Said<'_>, body: &[Token]) -> bool
    ensures { IsTrue result → walking.Moves style.now walk (shortening.kinds_by said.entry.kinds.now) (shortening.effects_by said.entry.places.now) (shortening.effects_by said.entry.sizes.now) (said_by said.entry.moves.now) body.now }
{
    if moves_last(style, walk, said, body) {
        return true;
    }
    moves_either(style, walk, said, body)
}

// Answers whether a body moves the place on, if that is said of its function.
fn mover_holds(style: &Style, walk: Walk, said: Said<'_>, is_mover: bool, body: &[Token]) -> bool
    ensures { IsTrue result → is_mover ≡ true → walking.Moves style.now walk (shortening.kinds_by said.entry.kinds.now) (shortening.effects_by said.entry.places.now) (shortening.effects_by said.entry.sizes.now) (said_by said.entry.moves.now) body.now }
{
    if is_mover {
        moves(style, walk, said, body)
    } else {
        true
    }
}

/// Answers whether all functions move the place on of which this is said.
pub(crate) fn moves_hold(style: &Style, walk: Walk, said: Said<'_>) -> bool
    ensures { IsTrue result → walking.MovesHold style.now walk (shortening.kinds_by said.entry.kinds.now) (shortening.effects_by said.entry.places.now) (shortening.effects_by said.entry.sizes.now) (said_by said.entry.moves.now) }
{
    if said.moves.len() > style.functions() {
        return false;
    }
    for number in 0..said.moves.len() {
        if !mover_holds(style, walk, said, said.moves[number], style.body(number)) {
            return false;
        }
    }
    true
}

/// Answers whether a function moves the place of a walk on, by what is said of all functions.
pub(crate) fn is_said_to_move(said: Said<'_>, number: usize) -> bool
    ensures { IsTrue result → said_by said.entry.moves.now number ≡ true }
{
    is_moving(said.moves, number)
}
