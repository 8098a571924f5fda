//! The strings of databases, by their names.
ghost use Rattle.std.specs.Prelude.{◌≡◌, [], true, false, OnOk};
ghost use Rattle.btx_bib.specs.refinement.Grammar.Squeezing.{is_squeezed};
ghost use Rattle.btx_bib.specs.language.Strings.{defined};

use crate::grammar::value_texts::Strings;
use btx_text::{Lowered, Text, same_key};
use indexmap::IndexMap;
use std::alloc::{AllocError, Global};
use std::marker::Model;

/// The strings: the style's macros and those that databases define, each with its last value, which is squeezed.
#[derive(Drop)]
pub struct StringTable<'a> {
    table: IndexMap<Vec<u8>, Text<'a>>,
}

impl<'a> Model for StringTable<'a> {
    ghost use Rattle.std.specs.Prelude.{List, ℕ};
    ghost use Rattle.btx_bib.specs.refinement.Strings.{AreSqueezed, pairs_of};

    ghost Value = { List (List ℕ × List ℕ) };

    ghost view = { λ strings. pairs_of strings.table.entries };

    ghost invariant = { λ strings. AreSqueezed (pairs_of strings.table.entries) };
}

impl<'a> StringTable<'a> {
    /// No string.
    pub fn new(alloc: Global) -> Self
        ensures { result ≡ [] }
    {
        StringTable {
            table: IndexMap::new(alloc),
        }
    }

    /// Gives a name a value, in the place of an earlier one.
    pub fn define(&mut self, alloc: Global, name: &[u8], value: Text<'a>) -> Result<(), AllocError>
        requires { is_squeezed false value ≡ true }
        ensures { OnOk result (self.new ≡ defined self.old name.now value.entry) }
    {
        let lowered = Lowered::of(alloc, name)?;
        let bytes = lowered.into_bytes(alloc)?;
        self.table.insert(bytes, value)?;
        Ok(())
    }
}

impl<'a> Strings<'a> for StringTable<'a> {
    ghost use Rattle.btx_bib.specs.language.Strings.{string_value};

    ghost values = { string_value };

    fn value_of(&self, alloc: Global, name: &[u8]) -> Result<Option<&Text<'a>>, AllocError> {
        let lowered = Lowered::of(alloc, name)?;
        Ok(self.table.get(lowered.as_bytes()))
    }
}

/// The strings without one name, which has no value in its own definition.
#[derive(Drop)]
pub struct StringsWithout<'s, 'a> {
    /// The strings.
    pub strings: &'s StringTable<'a>,
    /// The name.
    pub own: &'s [u8],
}

impl<'s, 'a> Strings<'a> for StringsWithout<'s, 'a> {
    ghost use Rattle.btx_bib.specs.language.Strings.{other_value};

    ghost values = { λ others. other_value others.strings.now others.own.now };

    fn value_of(&self, alloc: Global, name: &[u8]) -> Result<Option<&Text<'a>>, AllocError> {
        if same_key(self.own, name) {
            return Ok(None);
        }
        self.strings.value_of(alloc, name)
    }
}
