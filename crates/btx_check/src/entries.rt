//! What is known of the entries between commands.
ghost use Rattle.std.specs.Prelude.{◌≡◌, List, [], ◌∷◌, IsTrue, true, false};
ghost use Rattle.std.specs.Result.{IfOk};
ghost use Rattle.btx_check.specs.Running.{Each};
ghost use Rattle.btx_check.specs.Between.{IsLocal, Facts, Joint, Forgotten, where_entry};

use crate::loops::propose;
use crate::state::State;
use crate::work::Work;
use btx_bst::Style;
use std::alloc::{AllocError, Global};
use std::marker::Model;

/// What is known between commands: of the global variables, and descriptions of which one stands for each entry.
#[derive(Drop)]
pub struct Known {
    pub globals: State,
    pub entries: Vec<State>,
}

impl Model for Known {
    ghost Value = { Facts };

    ghost view = { λ k. record { globals = k.globals; entries = k.entries.items } };
}

/// What is known where nothing is known of entries, but this of global variables.
pub fn unknown_entries(alloc: Global, style: &Style, globals: State) -> Result<Known, AllocError>
    ensures { IfOk result (λ known. Forgotten globals known) }
{
    let unknown = State::start(alloc, true, style)?;
    let mut entries: Vec<State> = Vec::new(alloc);
    entries.push(unknown)?;
    Ok(Known { globals, entries })
}

/// What is known where a function begins for an entry: of the global variables, and by one of `entries`.
pub fn starts_of(
    alloc: Global,
    globals: &State,
    entries: &[State],
) -> Result<Vec<State>, AllocError>
    ensures { IfOk result (λ starts. Joint (where_entry true globals.now) entries.now starts.items) }
{
    let mut starts: Vec<State> = Vec::new(alloc);
    for entry in entries {
        let start = globals.with_entry(entry)?;
        starts.push(start)?;
    }
    Ok(starts)
}

/// What of each entry is known where a function ended in one of `ends`: a guess.
pub fn entries_of(work: &Work, style: &Style, ends: &[State]) -> Result<Vec<State>, AllocError>
    ensures { IfOk result (λ entries. Each IsLocal entries.items) }
{
    let guessed = guessed_entries(work, style, ends)?;
    let mut entries: Vec<State> = Vec::new(work.alloc);
    for a in guessed.iter() {
        let entry = a.locals(work.alloc)?;
        entries.push(entry)?;
    }
    Ok(entries)
}

// The ends, joined where none of the variables of entries by which descriptions are kept apart differs.
fn guessed_entries(work: &Work, style: &Style, ends: &[State]) -> Result<Vec<State>, AllocError> {
    let mut out: Vec<State> = Vec::new(work.alloc);
    if !work.keeps_entries() {
        let unknown = State::start(work.alloc, true, style)?;
        out.push(unknown)?;
        return Ok(out);
    }
    for a in ends {
        let entry = a.locals(work.alloc)?;
        propose(work, &entry, &mut out, false)?;
    }
    Ok(out)
}
