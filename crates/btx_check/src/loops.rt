//! What is common to loops: their tests, and the descriptions at their heads.
ghost use Rattle.std.specs.Prelude.{◌≡◌, ℕ, List, [], ◌∷◌, IsTrue, true, false, Option, Some, None};
ghost use Rattle.std.specs.Result.{IfOk};
ghost use Rattle.btx_check.specs.Inclusion.{Sub, Into};
ghost use Rattle.btx_check.specs.Answers.{TurnedInto};

use crate::adding::{add_known, add_sure};
use crate::bounds::{not_positive, positive};
use crate::description::Value;
use crate::operands::top_of;
use crate::state::State;
use crate::work::{MANY, Work};
use std::alloc::AllocError;

/// Splits a description by the result of a loop's test: where the loop goes on, and where it ends.
pub(crate) fn turn(
    work: &Work,
    a: &State,
    again: &mut Vec<State>,
    ends: &mut Vec<State>,
) -> Result<bool, AllocError>
    ensures { IfOk result (λ ok. IsTrue ok → TurnedInto (a.now ∷ []) again.old.items ends.old.items again.new.items ends.new.items) }
{
    match top_of(a.copy()?) {
        None => Ok(false),
        Some(t) => match t.known.value {
            Value::Integer(low, high) => {
                let on = positive(low, high);
                let off = not_positive(low, high);
                add_known(work, t.below.copy()?, t.known.number, on, again)?;
                add_known(work, t.below, t.known.number, off, ends)?;
                Ok(true)
            }
            _ => Ok(false),
        },
    }
}

/// The same for several.
pub(crate) fn turn_all(
    work: &mut Work,
    states: &[State],
    again: &mut Vec<State>,
    ends: &mut Vec<State>,
) -> Result<bool, AllocError>
    ensures { IfOk result (λ ok. IsTrue ok → TurnedInto states.now again.old.items ends.old.items again.new.items ends.new.items) }
{
    for a in states {
        work.met(a.height());
        if !turn(work, a, again, ends)? {
            return Ok(false);
        }
    }
    Ok(true)
}

/// Adds all of these.
pub fn add_all(work: &Work, states: Vec<State>, out: &mut Vec<State>) -> Result<(), AllocError>
    ensures these { IfOk result (λ _. Sub states.items out.new.items) }
    ensures sub { IfOk result (λ _. Sub out.old.items out.new.items) }
{
    for a in states {
        add_sure(work, out, a)?;
    }
    Ok(())
}

/// The same descriptions once more.
pub fn copies_of(work: &Work, states: &[State]) -> Result<Vec<State>, AllocError>
    ensures { IfOk result (λ copies. copies.items ≡ states.now) }
{
    let mut copies: Vec<State> = Vec::with_capacity(work.alloc, states.len())?;
    for a in states {
        let b = a.copy()?;
        copies.push(b)?;
    }
    Ok(copies)
}

/// Whether a description says no less than one of these.
pub(crate) fn is_in(work: &Work, a: &State, states: &[State]) -> Result<bool, AllocError>
    ensures { IfOk result (λ ok. IsTrue ok → Into a.now states.now) }
{
    for b in states {
        if a.is_inside(work.alloc, b)? {
            return Ok(true);
        }
    }
    Ok(false)
}

/// Whether each says no less than one of these.
pub fn all_in(work: &Work, states: &[State], heads: &[State]) -> Result<bool, AllocError>
    ensures { IfOk result (λ ok. IsTrue ok → Sub states.now heads.now) }
{
    for a in states {
        if !is_in(work, a, heads)? {
            return Ok(false);
        }
    }
    Ok(true)
}

/// Heads above those that were tried and what came back to them: a guess.
pub fn proposed(
    work: &Work,
    b: &State,
    heads: Vec<State>,
    bodies: &[State],
    is_wide: bool,
) -> Result<Vec<State>, AllocError> {
    let mut out: Vec<State> = Vec::new(work.alloc);
    propose(work, b, &mut out, is_wide)?;
    for a in heads {
        propose(work, &a, &mut out, is_wide)?;
    }
    for a in bodies {
        propose(work, a, &mut out, is_wide)?;
    }
    Ok(out)
}

/// Joins a description to the first that it is like, or adds it.
pub(crate) fn propose(
    work: &Work,
    a: &State,
    out: &mut Vec<State>,
    is_wide: bool,
) -> Result<(), AllocError> {
    if a.is_impossible() {
        return Ok(());
    }
    let is_coarse = out.len() > MANY;
    for k in 0..out.len() {
        if out[k].is_like(work, a, is_coarse) {
            match out[k].joined(work.alloc, a, is_wide)? {
                Some(j) => {
                    out[k] = j;
                    return Ok(());
                }
                None => {}
            }
        }
    }
    match a.joined(work.alloc, a, false)? {
        Some(j) => out.push(j)?,
        None => {}
    }
    Ok(())
}
