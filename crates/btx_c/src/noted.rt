//! What is kept of the lines that a run notes.
ghost use Rattle.std.specs.Prelude.{◌≡◌, ◌∷◌, ◌++◌, [], None, Some, IfSome};
ghost use Rattle.btx_c.specs.Noted.{AreAllNoted, AreOf, KeepsUp};

use crate::event::{BtxEvent, event_of};
use crate::handed::BtxFile;
use crate::lines::Lines;
use crate::place::BtxPlace;
use crate::placing::PlaceFinder;
use btx_run::{About, Notebook};
use btx_text::LogLine;
use std::alloc::Global;
use std::marker::Model;

/// The events of a run's first lines, and how many lines there are.
#[derive(Drop)]
pub struct Events {
    /// The events, of as many lines as are to be kept.
    pub first: Vec<BtxEvent>,
    most: usize,
    /// How many lines there are.
    pub count: usize,
    // Where the next line stands in the log.
    next: u64,
}

impl Events {
    // No line yet.
    fn none(alloc: Global, most: usize) -> Self
        ensures { AreOf [] result }
    {
        Events {
            first: Vec::new(alloc),
            most,
            count: 0,
            next: 0,
        }
    }

    // Adds the event of a line, unless there are as many as are to be kept, and counts the line. None if memory is refused, or the log is longer than
    // 2^64 bytes.
    fn with(self, line: &LogLine, about: About<'_>) -> Option<Self>
        ensures { KeepsUp (Some self) result line.now }
    {
        let mut first = self.first;
        let next = self
            .next
            .checked_add(line.text().len() as u64)?
            .checked_add(1)?;
        let count = self.count.checked_add(1)?;
        if first.len() == self.count && self.count < self.most {
            first.push(event_of(self.next, line, about)).ok()?;
        }
        Some(Events {
            first,
            most: self.most,
            count,
            next,
        })
    }
}

/// The places of a run's first lines, as many as are to be kept.
#[derive(Drop)]
pub struct Places<'f> {
    first: Vec<BtxPlace>,
    most: usize,
    finder: PlaceFinder<'f>,
    // Whether one was left out, since memory was refused.
    is_short: bool,
}

impl<'f> Places<'f> {
    // No line yet.
    fn none(alloc: Global, files: &'f [BtxFile<'f>], most: usize) -> Self {
        Places {
            first: Vec::new(alloc),
            most,
            finder: PlaceFinder::new(alloc, files),
            is_short: false,
        }
    }

    // Adds the place of the next line, unless there are as many as are to be kept, or one was left out.
    fn add(&mut self, about: &About<'_>) {
        if self.is_short || self.first.len() >= self.most {
            return;
        }
        self.is_short = match self.finder.place_of(about) {
            Ok(place) => self.first.push(place).is_err(),
            Err(_) => true,
        };
    }
}

/// What was kept of a run: events, and places.
#[derive(Drop)]
pub struct Noted {
    /// The events of the first lines, and how many lines there are.
    pub events: Events,
    /// The places of the first lines.
    pub places: Vec<BtxPlace>,
}

/// How much a notebook is to keep: the events and the places of how many lines.
#[derive(Clone, Copy)]
pub struct Wanted {
    pub events: usize,
    pub places: usize,
}

/// A notebook that keeps an event and a place for each of the first lines, and counts them all.
#[derive(Drop)]
pub struct Notes<'f> {
    // None once something was left out.
    kept: Option<Events>,
    places: Places<'f>,
    lines: Lines,
}

impl<'f> Model for Notes<'f> {
    ghost use Rattle.std.specs.Prelude.{List, IfSome};
    ghost use Rattle.btx_text.specs.language.LogLines.{Line};
    ghost use Rattle.btx_c.specs.Noted.{AreOf};

    ghost Value = { List Line };

    ghost view = { λ notes. notes.lines.list };

    ghost invariant = { λ notes. IfSome notes.kept (AreOf notes.lines.list) };
}

impl<'f> Notes<'f> {
    /// No line yet. The places are looked for in `files`.
    pub fn new(alloc: Global, files: &'f [BtxFile<'f>], wanted: Wanted) -> Self
        ensures { result ≡ [] }
    {
        Notes {
            kept: Some(Events::none(alloc, wanted.events)),
            places: Places::none(alloc, files, wanted.places),
            lines: Lines::none(),
        }
    }

    /// Gives out what was kept: an event and a place for each line, or for each of the first ones, as many as were wanted. None if something was left out, since memory
    /// was refused or the log is longer than 2^64 bytes.
    pub fn into_noted(self, wanted: Wanted) -> Option<Noted>
        ensures { IfSome result (AreAllNoted self.entry wanted) }
    {
        let kept = self.kept;
        let places = self.places;
        let events = kept?;
        let places = places.first;
        if events.first.len() == events.count.min(wanted.events)
            && places.len() == events.count.min(wanted.places)
        {
            Some(Noted { events, places })
        } else {
            None
        }
    }
}

// These lines, and one more.
fn lines_with(lines: &Lines, line: &LogLine) -> Lines
    ensures { result.list ≡ lines.now.list ++ line.now ∷ [] }
{
    lines.of(&(lines, line))
}

impl<'f> Notebook for Notes<'f> {
    ghost noted = { λ notes. Some notes };

    ghost handed = { λ _. None };

    fn note(&mut self, line: &LogLine, about: About<'_>) {
        self.places.add(&about);
        self.kept = match self.kept.take() {
            Some(events) => events.with(line, about),
            None => None,
        };
        self.lines = lines_with(&self.lines, line);
    }
}
