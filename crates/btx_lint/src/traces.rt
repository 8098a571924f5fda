//! What functions of the style led to in the search for places: where one is met again and what it can touch is the same, it leads to the same. No proof rests
//! on it.
use crate::frames::{End, Frame};
use btx_check::likeness::mixed;
use btx_check::table::Table;
use btx_check::work::Room;
use std::alloc::{AllocError, Global};

/// What a function of the style led to from what it can touch of a description.
#[derive(Drop)]
pub struct Trace {
    /// The mark of the function and the frame.
    pub mark: u64,
    /// The function.
    pub function: u32,
    /// Whether there was no fault before it.
    pub is_first: bool,
    /// How deep the search went in it, and how many loops were opened in one another.
    pub room: Room,
    /// How many literals on top it touched.
    pub depth: usize,
    /// What it can touch of the description before it.
    pub from: Frame,
    /// What became of that, where there was no fault before or in the function, and after one.
    pub good: Vec<End>,
    pub spoilt: Vec<End>,
    /// How many steps it took.
    pub steps: u64,
    /// The numbers of what was found in it, whether it was known before or not.
    pub found: Vec<usize>,
}

/// What functions of the style led to.
#[derive(Drop)]
pub struct Traces {
    /// What is remembered.
    pub table: Table<Trace>,
}

// How many places the table has.
const PLACES: usize = 16384;

/// A mark of a function of the style and a frame, before any fault or after one: that of an equal one is the same.
pub fn mark_of(frame: &Frame, i: u32, is_first: bool) -> u64 {
    let mark = mixed(mixed(frame.mark(), i as u64), if is_first { 1 } else { 2 });
    mark ^ (mark >> 31)
}

impl Traces {
    /// Nothing is remembered.
    pub fn new(alloc: Global) -> Result<Traces, AllocError> {
        Ok(Traces {
            table: Table::new(alloc, PLACES)?,
        })
    }

    /// The number of what a function led to from an equal frame, if that is remembered, where the search can go as deep as it went, and enough steps are left.
    pub fn recall(
        &self,
        room: Room,
        steps: u64,
        frame: &Frame,
        i: u32,
        is_first: bool,
        mark: u64,
    ) -> Option<usize> {
        let number = self.table.number(mark)?;
        let entry = &self.table.entries[number];
        if entry.mark != mark || entry.function != i || entry.is_first != is_first {
            return None;
        }
        if room.fuel <= entry.room.fuel || room.loops < entry.room.loops || steps < entry.steps {
            return None;
        }
        if !entry.from.is_same(frame) {
            return None;
        }
        Some(number)
    }

    /// Remembers what a function led to, in place of what has its place.
    pub fn keep(&mut self, entry: Trace) -> Result<(), AllocError> {
        self.table.keep(entry.mark, entry)
    }
}
