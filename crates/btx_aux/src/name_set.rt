//! Names, each once, found by a table.
ghost use Rattle.std.specs.Prelude.{◌≡◌, [], OnOk};
ghost use Rattle.btx_aux.specs.refinement.Entries.{texts_of};
ghost use Rattle.btx_aux.specs.language.Names.{with_name_once};
ghost use Rattle.btx_text.specs.language.Lists.{is_among};

use indexmap::IndexSet;
use std::alloc::{AllocError, Global};
use std::marker::Model;

/// Names, each once, in the order in which they came. They are found by a table.
#[derive(Drop)]
pub struct NameSet {
    names: IndexSet<Vec<u8>>,
}

impl Model for NameSet {
    ghost use Rattle.std.specs.Prelude.{List, ℕ};
    ghost use Rattle.btx_aux.specs.refinement.Entries.{texts_of};

    ghost Value = { List (List ℕ) };

    ghost view = { λ set. texts_of set.names.keys };
}

impl NameSet {
    /// No name.
    pub fn new(alloc: Global) -> Self
        ensures { result ≡ [] }
    {
        NameSet {
            names: IndexSet::new(alloc),
        }
    }

    /// Whether a name is there.
    pub fn contains(&self, name: &[u8]) -> bool
        ensures { result ≡ is_among self.now name.now }
    {
        self.names.contains(name)
    }

    /// Adds a name, if it isn't there.
    pub fn add(&mut self, name: Vec<u8>) -> Result<(), AllocError>
        ensures { OnOk result (self.new ≡ with_name_once self.old name.items) }
    {
        self.names.insert(name)?;
        Ok(())
    }

    /// All names, in order.
    pub fn as_slice(&self) -> &[Vec<u8>]
        ensures { texts_of result.now ≡ self.now }
    {
        self.names.as_slice()
    }
}
