//! Marks of names: a table has no name whose mark isn't there, and of most names that it doesn't have that is seen without a look into it.
ghost use Rattle.std.specs.Prelude.{◌≡◌, ◌<◌, slice_index_or};
ghost use Rattle.btx_bib.specs.refinement.Marks.{mark};

use std::alloc::{AllocError, Global};
use std::marker::Model;

// How many marks there are.
const MARKS: usize = 2048;

// A byte of a name, or 0 where it has none.
#[inline(always)]
fn byte_at(name: &[u8], place: usize) -> usize
    ensures { result ≡ slice_index_or name.now place 0 }
{
    match name.get(place) {
        Some(byte) => usize::from(*byte),
        None => 0,
    }
}

// The mark of a name: its length and four of its bytes, those of the end among them, where keys mostly differ.
#[inline(always)]
#[tactic(auto, unfolding(crate::specs::refinement::Marks::mark))]
fn mark_of(name: &[u8]) -> usize
    ensures mark { result ≡ mark name.now }
    ensures small { result < 2048 }
{
    let len = name.len();
    let last = byte_at(name, len.saturating_sub(1));
    let before = byte_at(name, len.saturating_sub(2));
    let middle = byte_at(name, len / 2);
    let early = byte_at(name, len / 4);
    (last + 37 * before + 331 * middle + 67 * early + 53 * (len % 64)) % MARKS
}

/// The marks that some names have.
#[derive(Drop)]
pub struct Marks {
    seen: Vec<bool>,
}

impl Model for Marks {
    ghost use Rattle.std.specs.Prelude.{◌≡◌, Bool, List, length};

    ghost Value = { List Bool };

    ghost view = { λ marks. marks.seen.items };

    ghost invariant = { λ marks. length marks.seen.items ≡ 2048 };
}

impl Marks {
    ghost use Rattle.std.specs.Prelude.{◌≡◌, length};
    ghost use Rattle.btx_bib.specs.refinement.Marks.{is_marked, marked};

    /// No mark.
    pub fn none(alloc: Global) -> Result<Marks, AllocError> {
        Ok(Marks {
            seen: vec![in alloc; false; MARKS]?,
        })
    }

    /// Adds the mark of a name.
    #[tactic(auto, unfolding(crate::specs::refinement::Marks::marked))]
    pub fn add(&mut self, name: &[u8])
        ensures added { self.new ≡ marked self.old name.now }
        ensures room { length self.old ≡ 2048 }
    {
        self.seen[mark_of(name)] = true;
    }

    /// Whether the mark of a name is there.
    #[inline(always)]
    #[tactic(auto, unfolding(crate::specs::refinement::Marks::is_marked))]
    pub fn has(&self, name: &[u8]) -> bool
        ensures { result ≡ is_marked self.now name.now }
    {
        self.seen[mark_of(name)]
    }
}
