//! A table of what is kept by marks, so that an equal one is found again.
ghost use Rattle.std.specs.Prelude.{◌≡◌, ◌<◌, List, [], length, slice_set, Option};
ghost use Rattle.std.specs.Option.{IfSome};
ghost use Rattle.std.specs.Result.{IfOk};
ghost use Rattle.btx_check.specs.Tables.{IsKept};

use std::alloc::{AllocError, Global};

/// Entries that are found by marks: of those whose marks have the same place, the latest.
#[derive(Drop)]
pub struct Table<T> {
    /// What is kept.
    pub entries: Vec<T>,
    // For each place, the number of the entry, from 1. 0 is none.
    places: Vec<usize>,
}

impl<T: Drop> Table<T> {
    /// A table in which nothing is kept. It has this number of `places`.
    pub fn new(alloc: Global, places: usize) -> Result<Table<T>, AllocError>
        ensures { IfOk result (λ table. table.entries.items ≡ []) }
    {
        Ok(Table {
            entries: Vec::new(alloc),
            places: vec![in alloc; 0; places]?,
        })
    }

    // The place of what has this mark.
    fn place(&self, mark: u64) -> usize {
        let places = self.places.len() as u64;
        if places == 0 {
            return 0;
        }
        (mark % places) as usize
    }

    /// The number of the entry that may have this `mark`, if there is one.
    pub fn number(&self, mark: u64) -> Option<usize>
        ensures { IfSome result (λ k. k < length self.now.entries.items) }
    {
        let place = self.place(mark);
        if place >= self.places.len() {
            return None;
        }
        let number = self.places[place];
        if number == 0 || number > self.entries.len() {
            return None;
        }
        Some(number - 1)
    }

    // Puts an entry in place of the one of the number `k`.
    fn put(&mut self, k: usize, entry: T)
        requires { k < length self.old.entries.items }
        ensures { self.new.entries.items ≡ slice_set self.old.entries.items k entry }
    {
        self.entries[k] = entry;
    }

    /// Keeps `entry`, which has this `mark`, in place of the one that has its place.
    pub fn keep(&mut self, mark: u64, entry: T) -> Result<(), AllocError>
        ensures { IfOk result (λ _. IsKept T entry self.old.entries.items self.new.entries.items) }
    {
        if let Some(k) = self.number(mark) {
            self.put(k, entry);
            return Ok(());
        }
        let place = self.place(mark);
        self.entries.push(entry)?;
        let number = self.entries.len();
        if place < self.places.len() {
            self.places[place] = number;
        }
        Ok(())
    }
}
