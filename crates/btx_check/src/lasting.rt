//! What is known of global variables between commands.
ghost use Rattle.std.specs.Prelude.{◌≡◌, [], ◌∷◌, IsTrue};
ghost use Rattle.std.specs.Result.{IfOk};
ghost use Rattle.btx_check.specs.Inclusion.{Sub};
ghost use Rattle.btx_check.specs.Between.{IsGlobal};

use crate::state::State;
use crate::types::assigned_by;
use crate::work::Work;
use btx_bst::{Callee, Style};
use std::alloc::{AllocError, Global};
use std::rc::RcSlice;

/// Whether each says no less than this one.
pub(crate) fn all_within(work: &Work, states: &[State], b: &State) -> Result<bool, AllocError>
    ensures { IfOk result (λ ok. IsTrue ok → Sub states.now (b.now ∷ [])) }
{
    for a in states {
        if !a.is_inside(work.alloc, b)? {
            return Ok(false);
        }
    }
    Ok(true)
}

/// What all of these say of global variables, as a guess.
pub fn globals_of(work: &Work, style: &Style, states: &[State]) -> Result<State, AllocError>
    ensures { IfOk result (λ a. IsGlobal a) }
{
    let mut all = match states.first() {
        None => State::start(work.alloc, false, style)?,
        Some(a) => a.copy()?,
    };
    for a in states {
        match all.joined(work.alloc, a, false)? {
            Some(j) => all = j,
            None => {}
        }
    }
    compact(work.alloc, &all)
}

/// What is known of the global variables that a function can't assign, as a guess.
pub fn lasting_globals(
    work: &Work,
    style: &Style,
    allowed: &[u32],
    f: Callee,
    before: &State,
) -> Result<State, AllocError>
    ensures { IfOk result (λ a. IsGlobal a) }
{
    let assigned = assigned_by(work.alloc, style, allowed, f)?;
    let mut left = before.copy()?;
    left.global_integers = forgotten(work.alloc, &left.global_integers, &assigned.integers)?;
    left.global_strings = forgotten(work.alloc, &left.global_strings, &assigned.strings)?;
    compact(work.alloc, &left)
}

// The numbers of those that aren't marked.
fn forgotten(
    alloc: Global,
    numbers: &[Option<usize>],
    marks: &[bool],
) -> Result<RcSlice<Option<usize>>, AllocError> {
    let mut left: Vec<Option<usize>> = Vec::from_slice(alloc, numbers)?;
    for k in 0..left.len() {
        if k < marks.len() && k < left.len() && marks[k] {
            left[k] = None;
        }
    }
    RcSlice::from_vec(left)
}

// What a description says of global variables, without numbers that nothing has.
fn compact(alloc: Global, a: &State) -> Result<State, AllocError>
    ensures { IfOk result (λ b. IsGlobal b) }
{
    let all = a.globals(alloc)?;
    match all.joined(alloc, &all, false)? {
        None => all.globals(alloc),
        Some(j) => j.globals(alloc),
    }
}
