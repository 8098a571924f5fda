//! Names in lower case, each once, found by a table.
ghost use Rattle.std.specs.Prelude.{◌≡◌, ◌^◌, ◌<◌, ◌≤◌, [], ◌++◌, ◌∷◌, false, length, map, take, IfOk, IfSome, OnErr, OnOk};
ghost use Rattle.std.specs.Str.{bytes_eq};
ghost use Rattle.std.specs.List.{list_any};
ghost use Rattle.btx_text.specs.language.Keys.{folded};
ghost use Rattle.btx_aux.specs.refinement.Entries.{texts_of};
ghost use Rattle.btx_bib.specs.refinement.Finding.{first_place};
ghost use Rattle.btx_bib.specs.refinement.Marks.{AreMarked};

use crate::marks::Marks;
use btx_aux::AuxJob;
use btx_text::Lowered;
use indexmap::IndexSet;
use std::alloc::{AllocError, Global};
use std::marker::Model;

// Names that aren't those of cited keys, each once, in the order in which they came.
#[derive(Drop)]
struct MoreNames {
    set: IndexSet<Vec<u8>>,
}

impl Model for MoreNames {
    ghost use Rattle.std.specs.Prelude.{List, ℕ};
    ghost use Rattle.btx_aux.specs.refinement.Entries.{texts_of};

    ghost Value = { List (List ℕ) };

    ghost view = { λ names. texts_of names.set.keys };
}

impl MoreNames {
    // No name.
    fn new(alloc: Global) -> Self
        ensures { result ≡ [] }
    {
        MoreNames {
            set: IndexSet::new(alloc),
        }
    }

    // The place of a name.
    #[inline(never)]
    fn position(&self, name: &[u8]) -> Option<usize>
        ensures place { result ≡ first_place (bytes_eq name.now) self.now }
        ensures small { IfSome result (λ place. place < 2 ^ 63) }
    {
        let _count = self.set.len();
        self.set.get_index_of(name)
    }

    // Adds a name that isn't there.
    fn add(&mut self, alloc: Global, name: Lowered<'_>) -> Result<(), AllocError>
        requires { list_any (bytes_eq name) self.old ≡ false }
        ensures ok { OnOk result (self.new ≡ self.old ++ name.entry ∷ []) }
        ensures err { OnErr result (self.new ≡ self.old) }
    {
        let bytes = name.into_bytes(alloc)?;
        self.set.insert(bytes)?;
        Ok(())
    }
}

// The names of the cited keys that a list begins with. The job's table finds them.
#[derive(Drop)]
struct CitedNames<'a> {
    job: &'a AuxJob,
    // How many of the job's keys these are.
    count: usize,
}

impl<'a> Model for CitedNames<'a> {
    ghost use Rattle.std.specs.Prelude.{◌^◌, ◌<◌, ◌≤◌, List, ℕ, length, map, take};
    ghost use Rattle.btx_text.specs.language.Keys.{folded};

    ghost Value = { List (List ℕ) };

    ghost view = { λ names. take names.count (map folded names.job.now.keys) };

    ghost invariant = { λ names. (names.count ≤ length names.job.now.keys) × (names.count < 2 ^ 63) };
}

impl<'a> CitedNames<'a> {
    // How many names there are.
    #[inline(always)]
    fn len(&self) -> usize
        ensures count { result ≡ length self.now }
        ensures small { result < 2 ^ 63 }
    {
        self.count
    }

    // The place of a name.
    #[inline(always)]
    fn position(&self, name: &[u8]) -> Option<usize>
        ensures { result ≡ first_place (bytes_eq name.now) self.now }
    {
        match self.job.position(name) {
            Some(place) if place < self.count => Some(place),
            Some(_) | None => None,
        }
    }
}

// The marks of keys in lower case.
fn marks_of(alloc: Global, keys: &[Vec<u8>]) -> Result<Marks, AllocError>
    ensures { IfOk result (λ marks. AreMarked marks (map folded (texts_of keys.now))) }
{
    let mut marks = Marks::none(alloc)?;
    for key in keys {
        let lowered = Lowered::of(alloc, key.as_slice())?;
        marks.add(lowered.as_bytes());
    }
    Ok(marks)
}

/// Names in lower case, each once, in the order in which they came. The first are those of cited keys.
#[derive(Drop)]
pub struct Names<'a> {
    cited: CitedNames<'a>,
    more: MoreNames,
    // Those of all these names.
    marks: Marks,
}

impl<'a> Model for Names<'a> {
    ghost use Rattle.std.specs.Prelude.{◌++◌, List, ℕ};
    ghost use Rattle.btx_bib.specs.refinement.Marks.{AreMarked};

    ghost Value = { List (List ℕ) };

    ghost view = { λ names. names.cited ++ names.more };

    ghost invariant = { λ names. AreMarked names.marks (names.cited ++ names.more) };
}

impl<'a> Names<'a> {
    /// The names of the first keys of a job, this number of them.
    pub fn of(alloc: Global, job: &'a AuxJob, count: usize) -> Result<Self, AllocError>
        requires within { count ≤ length job.now.keys }
        requires small { count < 2 ^ 63 }
        ensures { IfOk result (λ names. names ≡ take count (map folded job.now.keys)) }
    {
        let marks = marks_of(alloc, &job.keys()[..count])?;
        Ok(Names {
            cited: CitedNames { job, count },
            more: MoreNames::new(alloc),
            marks,
        })
    }

    /// The place of a name.
    #[inline(always)]
    pub fn position(&self, name: &[u8]) -> Option<usize>
        ensures { result ≡ first_place (bytes_eq name.now) self.now }
    {
        if !self.marks.has(name) {
            return None;
        }
        match self.cited.position(name) {
            Some(place) => Some(place),
            None => match self.more.position(name) {
                Some(place) => Some(self.cited.len() + place),
                None => None,
            },
        }
    }

    /// Adds a name that isn't there.
    pub fn add(&mut self, alloc: Global, name: Lowered<'_>) -> Result<(), AllocError>
        requires { list_any (bytes_eq name) self.old ≡ false }
        ensures { OnOk result (self.new ≡ self.old ++ name.entry ∷ []) }
    {
        self.marks.add(name.as_bytes());
        self.more.add(alloc, name)
    }
}
