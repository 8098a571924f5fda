//! The macros, found by a table.
ghost use Rattle.std.specs.Prelude.{◌≡◌, [], ◌∷◌, ◌++◌, None, IfOk, OnOk, length, slice_get, option_copied, option_map, nat_eq};
ghost use Rattle.btx_bst.specs.refinement.NameTables.{macro_pair};
ghost use Rattle.btx_bst.specs.laws.Names.{macro_lower};

use btx_text::Lowered;
use indexmap::IndexMap;
use std::alloc::{AllocError, Global};
use std::marker::Model;

/// Macros by their names in lower case, in the order of their definitions.
#[derive(Drop)]
pub struct Macros<'a> {
    table: IndexMap<Vec<u8>, &'a [u8]>,
}

impl<'a> Model for Macros<'a> {
    ghost use Rattle.btx_bst.specs.refinement.Names.{Macros as Known};
    ghost use Rattle.btx_bst.specs.refinement.NameTables.{macros_view};

    ghost Value = { Known };

    ghost view = { λ macros. macros_view macros.table.entries };
}

impl<'a> Macros<'a> {
    /// No macro.
    pub(crate) fn new(alloc: Global) -> Self
        ensures { result ≡ [] }
    {
        Macros {
            table: IndexMap::new(alloc),
        }
    }

    /// How many macros there are.
    pub fn len(&self) -> usize
        ensures { result ≡ length self.now }
    {
        self.table.len()
    }

    /// Whether there is no macro.
    pub fn is_empty(&self) -> bool
        ensures { result ≡ nat_eq (length self.now) 0 }
    {
        self.table.len() == 0
    }

    /// The name, in lower case, and the text of the macro at an index.
    pub fn get(&self, index: usize) -> Option<(&[u8], &'a [u8])>
        ensures { option_map macro_pair result ≡ slice_get self.now index }
    {
        let (name, text) = self.table.get_index(index)?;
        Some((name.as_slice(), *text))
    }

    /// The text of the macro of a name in lower case.
    pub fn text(&self, lowered: &[u8]) -> Option<&'a [u8]>
        ensures { option_copied result ≡ macro_lower self.now lowered.now }
    {
        self.table.get(lowered).copied()
    }

    /// Adds a macro, whose name isn't known.
    pub(crate) fn add(
        &mut self,
        alloc: Global,
        name: &Lowered<'a>,
        text: &'a [u8],
    ) -> Result<(), AllocError>
        requires { macro_lower self.old name.now ≡ None }
        ensures { OnOk result (self.new ≡ self.old ++ (name.now, text.now) ∷ []) }
    {
        let key = Vec::from_slice(alloc, name.as_bytes())?;
        self.table.insert(key, text)?;
        Ok(())
    }
}
