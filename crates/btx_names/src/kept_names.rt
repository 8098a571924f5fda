//! The names that were asked for last.
ghost use Rattle.std.specs.Prelude.{◌≡◌, ◌<◌, slice_get, IfOk, OnOk, IsSomeAnd, IsTrue, MatchOption, None, Some};
ghost use Rattle.btx_names.specs.language.NameLists.{names_of};
ghost use Rattle.btx_names.specs.refinement.KeptNames.{IsFound, kept_bytes};

use crate::kept_name::KeptName;
use std::alloc::{AllocError, Global};

// How many names are kept at most.
const MOST_NAMES: usize = 4;

// How many bytes a list has at most of which several names are kept.
const LONGEST_SHORT_LIST: usize = 1_024;

// The index of all names of longer lists: such a list is gone through name by name.
const OF_LONG_LISTS: usize = 0;

/// The names that were asked for last, with their lists: a list of at most four names that is gone through again finds them here.
#[derive(Drop)]
pub struct KeptNames {
    alloc: Global,
    // Which index a name has follows from its number and from the length of its list.
    names: [Option<KeptName>; MOST_NAMES],
}

impl KeptNames {
    /// With no name kept.
    pub fn new(alloc: Global) -> KeptNames {
        KeptNames {
            alloc,
            names: [None, None, None, None],
        }
    }

    /// The name of a list that `before` others precede, if there is one. Mostly it is kept.
    #[inline(always)]
    pub fn find(&mut self, names: &[u8], before: usize) -> Result<Option<&KeptName>, AllocError>
        ensures { IfOk result (λ found. MatchOption found (slice_get (names_of names.now) before ≡ None)
            (λ kept. slice_get (names_of names.now) before ≡ Some (kept_bytes kept.now))) }
    {
        let index = index_of(names, before);
        if !self.is_at(index, names, before) {
            self.keep(index, names, before)?;
        }
        let kept = &self.names;
        Ok(kept[index].as_ref())
    }

    /// Doesn't keep the name of a long list any more.
    pub fn forget_long(&mut self) {
        self.names[OF_LONG_LISTS] = None;
    }

    // Whether the name that is kept at an index is the one of a list that `before` others precede.
    #[inline(always)]
    fn is_at(&self, index: usize, names: &[u8], before: usize) -> bool
        requires { index < MOST_NAMES }
        ensures { IsTrue result → IsSomeAnd (slice_get self.now.names index) (IsFound names.now before) }
    {
        match &self.names[index] {
            Some(name) => name.is(names, before),
            None => false,
        }
    }

    // Keeps the name of a list that `before` others precede at an index, if there is one, in the memory of the one that was kept there.
    #[inline(never)]
    fn keep(&mut self, index: usize, names: &[u8], before: usize) -> Result<(), AllocError>
        requires { index < MOST_NAMES }
        ensures { OnOk result (IsSomeAnd (slice_get self.new.names index) (IsFound names.now before)) }
    {
        match self.names[index].take() {
            Some(name) => name.go_to(names, before, &mut self.names[index]),
            None => KeptName::find(self.alloc, names, before, &mut self.names[index]),
        }
    }
}

// Where a name is kept.
#[inline(always)]
fn index_of(names: &[u8], before: usize) -> usize
    ensures { result < MOST_NAMES }
{
    if names.len() > LONGEST_SHORT_LIST {
        return OF_LONG_LISTS;
    }
    before % MOST_NAMES
}
