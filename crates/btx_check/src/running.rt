//! The execution of functions, from descriptions: each answer is a theorem about the meaning of styles.
ghost use Rattle.std.specs.Prelude.{◌≡◌, ℕ, List, [], ◌∷◌, IsTrue, true, false, Option, Some, None, slice_index_or, ◌+◌, drop, take, length, ◌≤◌, ◌<◌};
ghost use Rattle.std.specs.Result.{IfOk};
ghost use Rattle.btx_bst.specs.declared.built_in.BuiltIn.TheVariants as built_in;
ghost use Rattle.btx_bst.specs.declared.callee.Callee.TheVariants as callee;
ghost use Rattle.btx_bst.specs.declared.token.Token.TheVariants as token;
ghost use Rattle.std.specs.Option.{IfSome};
ghost use Rattle.btx_check.specs.Running.{RunsFrom};
ghost use Rattle.btx_check.specs.Answers.{Ruled, Stepped, Looped, TypesStepped};
ghost use Rattle.btx_check.specs.Memos.{Remembers};

use crate::adding::add_sure;
use crate::bounds::{not_positive, positive};
use crate::description::Value;
use crate::loops::{add_all, all_in, copies_of, is_in, proposed, turn_all};
use crate::memo::{LEAST_TOKENS, Remembered, VisitCache};
use crate::name_rules::assign;
use crate::operands::{pair_of, triple_of};
use crate::rules::{one_step, push_token};
use crate::state::State;
use crate::work::{Room, Work, missing_field};
use btx_bst::{BuiltIn, Callee, Style, Token};
use std::alloc::AllocError;
use std::mem;

/// A function, from a description in which the literal of a number is known better: nothing is to be done if it can't be.
#[cycle(search)]
pub fn run_where(
    work: &mut Work,
    memo: &mut VisitCache,
    style: &Style,
    allowed: &[u32],
    room: Room,
    a: State,
    number: usize,
    f: Callee,
    out: &mut Vec<State>,
) -> Result<bool, AllocError>
    requires { Remembers style.now allowed.now memo.old }
    ensures { IfOk result (λ ok. IsTrue ok → Stepped style.now allowed.now (token.Run f) (a ∷ []) room.deep room.loops out.old.items out.new.items × Remembers style.now allowed.now memo.new) }
{
    if a.is_impossible_at(number) {
        return Ok(true);
    }
    run_sure(work, memo, style, allowed, room, a, f, out)
}

/// A function, from a description: what it leads to is added to the others. False if something may go wrong, or the room doesn't suffice.
#[cycle(search)]
#[inline(never)]
pub fn run_sure(
    work: &mut Work,
    memo: &mut VisitCache,
    style: &Style,
    allowed: &[u32],
    room: Room,
    a: State,
    f: Callee,
    out: &mut Vec<State>,
) -> Result<bool, AllocError>
    requires { Remembers style.now allowed.now memo.old }
    ensures { IfOk result (λ ok. IsTrue ok → Stepped style.now allowed.now (token.Run f) (a ∷ []) room.deep room.loops out.old.items out.new.items × Remembers style.now allowed.now memo.new) }
{
    if room.fuel == 0 {
        work.gave_up = true;
        return Ok(false);
    }
    if !work.step() {
        return Ok(false);
    }
    work.met(a.height());
    let room = Room {
        fuel: room.fuel - 1,
        deep: room.deep,
        loops: room.loops,
    };
    match f {
        Callee::BuiltIn(BuiltIn::If) => run_if(work, memo, style, allowed, room, a, out),
        Callee::BuiltIn(BuiltIn::While) => run_while(work, memo, style, allowed, room, a, out),
        Callee::BuiltIn(BuiltIn::CallType) => run_types(work, memo, style, allowed, room, a, out),
        Callee::BuiltIn(BuiltIn::Assign) => run_assign(work, style, allowed, room, a, out),
        Callee::User(i) => run_user(work, memo, style, allowed, room, a, i, out),
        _ => run_one(work, a, f, out),
    }
}

/// A function of one step. Where it may go wrong, that is noted.
#[inline(never)]
fn run_one(work: &mut Work, a: State, f: Callee, out: &mut Vec<State>) -> Result<bool, AllocError>
    ensures { IfOk result (λ ok. IsTrue ok → Ruled f a out.old.items out.new.items) }
{
    let missing = missing_field(&a);
    let is_done = one_step(work, a, f, out)?;
    if !is_done {
        work.warn(f, missing)?;
    }
    Ok(is_done)
}

/// `:=`. Where it may go wrong, that is noted.
#[inline(never)]
fn run_assign(
    work: &mut Work,
    style: &Style,
    allowed: &[u32],
    room: Room,
    a: State,
    out: &mut Vec<State>,
) -> Result<bool, AllocError>
    ensures { IfOk result (λ ok. IsTrue ok → Stepped style.now allowed.now (token.Run (callee.BuiltIn built_in.Assign)) (a ∷ []) room.deep room.loops out.old.items out.new.items) }
{
    let _ = allowed.len();
    let _ = room.deep;
    let missing = missing_field(&a);
    let is_done = assign(work, style, a, out)?;
    if !is_done {
        work.warn(Callee::BuiltIn(BuiltIn::Assign), missing)?;
    }
    Ok(is_done)
}

/// A token, from a description.
#[cycle(search)]
pub fn run_token(
    work: &mut Work,
    memo: &mut VisitCache,
    style: &Style,
    allowed: &[u32],
    room: Room,
    a: State,
    t: Token,
    out: &mut Vec<State>,
) -> Result<bool, AllocError>
    requires { Remembers style.now allowed.now memo.old }
    ensures { IfOk result (λ ok. IsTrue ok → Stepped style.now allowed.now t (a ∷ []) room.deep room.loops out.old.items out.new.items × Remembers style.now allowed.now memo.new) }
{
    match t {
        Token::Run(f) => run_sure(work, memo, style, allowed, room, a, f, out),
        _ => push_token(work, style, a, t, out),
    }
}

/// A token, from each of these.
#[cycle(search)]
#[inline(never)]
pub fn run_all(
    work: &mut Work,
    memo: &mut VisitCache,
    style: &Style,
    allowed: &[u32],
    room: Room,
    states: Vec<State>,
    t: Token,
    out: &mut Vec<State>,
) -> Result<bool, AllocError>
    requires { Remembers style.now allowed.now memo.old }
    ensures { IfOk result (λ ok. IsTrue ok → Stepped style.now allowed.now t states.items room.deep room.loops out.old.items out.new.items × Remembers style.now allowed.now memo.new) }
{
    for a in states {
        if !run_token(work, memo, style, allowed, room, a, t, out)? {
            return Ok(false);
        }
    }
    Ok(true)
}

/// Runs a token from each of `states`, and leaves in their place what it leads to.
#[cycle(search)]
#[inline(never)]
pub fn run_next(
    work: &mut Work,
    memo: &mut VisitCache,
    style: &Style,
    allowed: &[u32],
    room: Room,
    t: Token,
    states: &mut Vec<State>,
) -> Result<bool, AllocError>
    requires { Remembers style.now allowed.now memo.old }
    ensures { IfOk result (λ ok. IsTrue ok → Stepped style.now allowed.now t states.old.items room.deep room.loops [] states.new.items × Remembers style.now allowed.now memo.new) }
{
    if states.len() == 1 {
        // Mostly there is one: its place is used again.
        match states.pop() {
            None => Ok(false),
            Some(a) => run_token(work, memo, style, allowed, room, a, t, states),
        }
    } else {
        let before = mem::replace(states, Vec::new(work.alloc));
        run_all(work, memo, style, allowed, room, before, t, states)
    }
}

/// A function of the style. What it led to from an equal description is found again, if that was kept.
#[cycle(search)]
#[inline(never)]
pub fn run_user(
    work: &mut Work,
    memo: &mut VisitCache,
    style: &Style,
    allowed: &[u32],
    room: Room,
    a: State,
    i: u32,
    out: &mut Vec<State>,
) -> Result<bool, AllocError>
    requires { Remembers style.now allowed.now memo.old }
    ensures { IfOk result (λ ok. IsTrue ok → Stepped style.now allowed.now (token.Run (callee.User i)) (a ∷ []) room.deep room.loops out.old.items out.new.items × Remembers style.now allowed.now memo.new) }
{
    if i as usize >= style.functions() {
        return Ok(false);
    }
    if style.body(i as usize).len() < LEAST_TOKENS {
        return run_plainly(work, memo, style, allowed, room, a, i, out);
    }
    let mark = a.mark_with(i);
    match memo.recall(work, room, &a, i, mark)? {
        Some(recalled) => {
            if !work.again(recalled.notes) {
                return Ok(false);
            }
            add_all(work, recalled.states, out)?;
            Ok(true)
        }
        None => run_anew(work, memo, style, allowed, room, a, i, mark, out),
    }
}

/// A function of the style, of which nothing is remembered.
#[cycle(search)]
#[inline(never)]
pub fn run_plainly(
    work: &mut Work,
    memo: &mut VisitCache,
    style: &Style,
    allowed: &[u32],
    room: Room,
    a: State,
    i: u32,
    out: &mut Vec<State>,
) -> Result<bool, AllocError>
    requires { Remembers style.now allowed.now memo.old }
    ensures { IfOk result (λ ok. IsTrue ok → Stepped style.now allowed.now (token.Run (callee.User i)) (a ∷ []) room.deep room.loops out.old.items out.new.items × Remembers style.now allowed.now memo.new) }
{
    let led_to = run_body(work, memo, style, allowed, room, a, i)?;
    match led_to {
        None => Ok(false),
        Some(states) => {
            add_all(work, states, out)?;
            Ok(true)
        }
    }
}

/// A function of the style, from a description of which nothing is remembered. What it leads to is remembered.
#[cycle(search)]
#[inline(never)]
pub fn run_anew(
    work: &mut Work,
    memo: &mut VisitCache,
    style: &Style,
    allowed: &[u32],
    room: Room,
    a: State,
    i: u32,
    mark: u64,
    out: &mut Vec<State>,
) -> Result<bool, AllocError>
    requires { Remembers style.now allowed.now memo.old }
    ensures { IfOk result (λ ok. IsTrue ok → Stepped style.now allowed.now (token.Run (callee.User i)) (a ∷ []) room.deep room.loops out.old.items out.new.items × Remembers style.now allowed.now memo.new) }
{
    let from = a.copy()?;
    let before = work.begin_part();
    let led_to = run_body(work, memo, style, allowed, room, a, i)?;
    match led_to {
        None => Ok(false),
        Some(states) => {
            let notes = work.end_part(before);
            let to = copies_of(work, &states)?;
            memo.keep(Remembered {
                mark,
                function: i,
                deep: room.deep,
                loops: room.loops,
                fuel: room.fuel,
                from,
                to,
                notes,
            })?;
            add_all(work, states, out)?;
            Ok(true)
        }
    }
}

/// The body of a function of the style: what it leads to.
#[cycle(search)]
#[inline(never)]
pub fn run_body(
    work: &mut Work,
    memo: &mut VisitCache,
    style: &Style,
    allowed: &[u32],
    room: Room,
    a: State,
    i: u32,
) -> Result<Option<Vec<State>>, AllocError>
    requires { Remembers style.now allowed.now memo.old }
    ensures { IfOk result (λ o. IfSome o (λ states. RunsFrom style.now allowed.now (token.Run (callee.User i)) (a ∷ []) room.deep room.loops states.items × Remembers style.now allowed.now memo.new)) }
{
    if room.deep == 0 {
        work.gave_up = true;
        return Ok(None);
    }
    if i as usize >= style.functions() {
        return Ok(None);
    }
    let inside = Room {
        fuel: room.fuel,
        deep: room.deep - 1,
        loops: room.loops,
    };
    work.enter(i, inside.deep)?;
    let body = style.body(i as usize);
    let mut states: Vec<State> = Vec::new(work.alloc);
    states.push(a)?;
    for t in body {
        if !run_next(work, memo, style, allowed, inside, *t, &mut states)? {
            return Ok(None);
        }
        work.advance();
    }
    work.leave();
    Ok(Some(states))
}

/// `if$`.
#[cycle(search)]
#[inline(never)]
pub fn run_if(
    work: &mut Work,
    memo: &mut VisitCache,
    style: &Style,
    allowed: &[u32],
    room: Room,
    a: State,
    out: &mut Vec<State>,
) -> Result<bool, AllocError>
    requires { Remembers style.now allowed.now memo.old }
    ensures { IfOk result (λ ok. IsTrue ok → Stepped style.now allowed.now (token.Run (callee.BuiltIn built_in.If)) (a ∷ []) room.deep room.loops out.old.items out.new.items × Remembers style.now allowed.now memo.new) }
{
    let missing = missing_field(&a);
    match triple_of(a) {
        None => {
            work.warn(Callee::BuiltIn(BuiltIn::If), missing)?;
            Ok(false)
        }
        Some(t) => match (t.first.value, t.second.value, t.third.value) {
            (Value::Function(g), Value::Function(f), Value::Integer(low, high)) => {
                let number = t.third.number;
                let mut yes = t.below.copy()?;
                yes.know(number, positive(low, high));
                let mut no = t.below;
                no.know(number, not_positive(low, high));
                if !run_where(work, memo, style, allowed, room, yes, number, f, out)? {
                    return Ok(false);
                }
                run_where(work, memo, style, allowed, room, no, number, g, out)
            }
            _ => {
                work.warn(Callee::BuiltIn(BuiltIn::If), missing)?;
                Ok(false)
            }
        },
    }
}

/// `while$`.
#[cycle(search)]
#[inline(never)]
pub fn run_while(
    work: &mut Work,
    memo: &mut VisitCache,
    style: &Style,
    allowed: &[u32],
    room: Room,
    a: State,
    out: &mut Vec<State>,
) -> Result<bool, AllocError>
    requires { Remembers style.now allowed.now memo.old }
    ensures { IfOk result (λ ok. IsTrue ok → Stepped style.now allowed.now (token.Run (callee.BuiltIn built_in.While)) (a ∷ []) room.deep room.loops out.old.items out.new.items × Remembers style.now allowed.now memo.new) }
{
    if room.loops == 0 {
        work.gave_up = true;
        return Ok(false);
    }
    let inside = Room {
        fuel: room.fuel,
        deep: room.deep,
        loops: room.loops - 1,
    };
    let missing = missing_field(&a);
    match pair_of(a) {
        None => {
            work.warn(Callee::BuiltIn(BuiltIn::While), missing)?;
            Ok(false)
        }
        Some(t) => match (t.first.value, t.second.value) {
            (Value::Function(g), Value::Function(f)) => run_loop(
                work, memo, style, allowed, inside, &t.below, f, g, out,
            ),
            _ => {
                work.warn(Callee::BuiltIn(BuiltIn::While), missing)?;
                Ok(false)
            }
        },
    }
}

/// A loop: heads are proposed until its body leads back to them.
#[cycle(search)]
#[inline(never)]
pub fn run_loop(
    work: &mut Work,
    memo: &mut VisitCache,
    style: &Style,
    allowed: &[u32],
    room: Room,
    b: &State,
    f: Callee,
    g: Callee,
    out: &mut Vec<State>,
) -> Result<bool, AllocError>
    requires { Remembers style.now allowed.now memo.old }
    ensures { IfOk result (λ ok. IsTrue ok → Looped style.now allowed.now b.now f g room.deep room.loops out.old.items out.new.items × Remembers style.now allowed.now memo.new) }
{
    let first = b.copy()?;
    let mut heads: Vec<State> = Vec::new(work.alloc);
    heads.push(first)?;
    for round in 0..60 {
        let mut tests = copies_of(work, &heads)?;
        if !run_next(work, memo, style, allowed, room, Token::Run(f), &mut tests)? {
            return Ok(false);
        }
        let mut again: Vec<State> = Vec::new(work.alloc);
        let mut ends: Vec<State> = Vec::new(work.alloc);
        if !turn_all(work, &tests, &mut again, &mut ends)? {
            work.warn(Callee::BuiltIn(BuiltIn::While), missing_field(b))?;
            return Ok(false);
        }
        let mut bodies = again;
        if !run_next(work, memo, style, allowed, room, Token::Run(g), &mut bodies)? {
            return Ok(false);
        }
        if is_in(work, b, &heads)? && all_in(work, &bodies, &heads)? {
            add_all(work, ends, out)?;
            return Ok(true);
        }
        heads = proposed(work, b, heads, &bodies, round > 0)?;
    }
    work.gave_up = true;
    Ok(false)
}

/// `call.type$`: the function of each type that an entry may have, and of the default type, or nothing where there is none.
#[cycle(search)]
#[inline(never)]
pub fn run_types(
    work: &mut Work,
    memo: &mut VisitCache,
    style: &Style,
    allowed: &[u32],
    room: Room,
    a: State,
    out: &mut Vec<State>,
) -> Result<bool, AllocError>
    requires { Remembers style.now allowed.now memo.old }
    ensures { IfOk result (λ ok. IsTrue ok → Stepped style.now allowed.now (token.Run (callee.BuiltIn built_in.CallType)) (a ∷ []) room.deep room.loops out.old.items out.new.items × Remembers style.now allowed.now memo.new) }
{
    if !a.has_entry() {
        work.warn(Callee::BuiltIn(BuiltIn::CallType), missing_field(&a))?;
        return Ok(false);
    }
    for number in allowed {
        if !run_sure(
            work,
            memo,
            style,
            allowed,
            room,
            a.copy()?,
            Callee::User(*number),
            out,
        )? {
            return Ok(false);
        }
    }
    match style.type_function(b"default.type") {
        None => {
            add_sure(work, out, a)?;
            Ok(true)
        }
        Some(number) => run_sure(
            work,
            memo,
            style,
            allowed,
            room,
            a,
            Callee::User(number),
            out,
        ),
    }
}
