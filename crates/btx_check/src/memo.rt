//! What functions of the style were found to do: where one is met again in an equal description, the answer is the same.
ghost use Rattle.std.specs.Prelude.{◌≡◌, []};
ghost use Rattle.std.specs.Option.{IfSome};
ghost use Rattle.std.specs.Result.{IfOk};
ghost use Rattle.btx_check.specs.Memos.{Keeps, Recalls};

use crate::loops::copies_of;
use crate::state::State;
use crate::table::Table;
use crate::work::{Notes, Room, Work};
use std::alloc::{AllocError, Global};

/// What a function of the style led to from a description.
#[derive(Drop)]
pub(crate) struct Remembered {
    /// The mark of the function and the description.
    pub mark: u64,
    /// The function.
    pub function: u32,
    /// How much could be opened.
    pub deep: usize,
    pub loops: usize,
    /// How deep the search could go.
    pub fuel: usize,
    /// The description before it.
    pub from: State,
    /// The descriptions after it.
    pub to: Vec<State>,
    /// What was noted.
    pub notes: Notes,
}

/// What functions of the style led to, in one visit.
#[derive(Drop)]
pub(crate) struct VisitCache {
    /// What is remembered.
    pub table: Table<Remembered>,
}

/// What was found again.
#[derive(Drop)]
pub(crate) struct Recalled {
    /// The descriptions after the function.
    pub states: Vec<State>,
    /// What was noted.
    pub notes: Notes,
}

// How many places the table has.
const PLACES: usize = 4096;

/// How many tokens a function has for which it pays to remember it.
pub const LEAST_TOKENS: usize = 10;

impl VisitCache {
    /// Nothing is remembered.
    pub fn new(alloc: Global) -> Result<VisitCache, AllocError>
        ensures { IfOk result (λ m. m.table.entries.items ≡ []) }
    {
        Ok(VisitCache {
            table: Table::new(alloc, PLACES)?,
        })
    }

    /// What a function led to from an equal description, if that is remembered, where no more could be opened than here.
    pub fn recall(
        &self,
        work: &Work,
        room: Room,
        a: &State,
        i: u32,
        mark: u64,
    ) -> Result<Option<Recalled>, AllocError>
        ensures { IfOk result (λ o. IfSome o (λ r. Recalls self.now i a.now room.deep room.loops r.states.items)) }
    {
        let Some(number) = self.table.number(mark) else {
            return Ok(None);
        };
        let entry = &self.table.entries[number];
        if entry.mark != mark || entry.function != i {
            return Ok(None);
        }
        if room.deep < entry.deep || room.loops < entry.loops || room.fuel < entry.fuel {
            return Ok(None);
        }
        if !a.is_same(work.alloc, &entry.from)? {
            return Ok(None);
        }
        let states = copies_of(work, &entry.to)?;
        let notes = entry.notes.with_room(room.deep - entry.deep);
        Ok(Some(Recalled { states, notes }))
    }

    /// Remembers what a function led to, in place of what has its place.
    #[tactic(auto, using(crate::proofs::MemoLemmas::keeps_kept))]
    pub fn keep(&mut self, entry: Remembered) -> Result<(), AllocError>
        ensures { IfOk result (λ _. Keeps entry self.old self.new) }
    {
        self.table.keep(entry.mark, entry)
    }
}
