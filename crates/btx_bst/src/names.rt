//! The names that are known, found by a table.
ghost use Rattle.std.specs.Prelude.{◌≡◌, None, IfOk, OnOk, length, slice_index_or, [], ◌<◌, ◌≤◌, ◌+◌, ◌^◌, List, ℕ, unwrap_or, codes};
ghost use Rattle.btx_bst.specs.language.Names.{named_lower, name_of, with_name, with_function};
ghost use Rattle.btx_bst.specs.laws.Names.{no_names};
ghost use Rattle.btx_bst.specs.refinement.Names.{names_of_kind};
ghost use Rattle.btx_bst.specs.declared.callee.Kind.TheVariants as kind;

use crate::callee::{Callee, Kind};
use crate::name_table::{built_in_table, pad, put};
use btx_text::Lowered;
use indexmap::IndexMap;
use std::alloc::{AllocError, Global};
use std::marker::Model;

/// The names of functions, fields and variables, and what each of them names.
#[derive(Drop)]
pub struct Names<'a> {
    table: IndexMap<Vec<u8>, Callee>,
    functions: Vec<Option<Lowered<'a>>>,
    fields: Vec<Lowered<'a>>,
    entry_integers: Vec<Lowered<'a>>,
    entry_strings: Vec<Lowered<'a>>,
    global_integers: Vec<Lowered<'a>>,
    global_strings: Vec<Lowered<'a>>,
}

impl<'a> Model for Names<'a> {
    ghost use Rattle.btx_bst.specs.language.Names.{Names as Known};

    ghost Value = { Known };

    ghost use Rattle.btx_bst.specs.refinement.NameTables.{known_in, IsTable};

    ghost view = { λ n. known_in n.functions.items n.fields.items n.entry_integers.items n.entry_strings.items n.global_integers.items n.global_strings.items };

    ghost invariant = { λ n. IsTable n.table.entries
        (known_in n.functions.items n.fields.items n.entry_integers.items n.entry_strings.items n.global_integers.items n.global_strings.items) };
}

impl<'a> Names<'a> {
    /// The built-in functions alone.
    pub fn new(alloc: Global) -> Result<Self, AllocError>
        ensures { IfOk result (λ names. names ≡ no_names) }
    {
        Ok(Names {
            table: built_in_table(alloc)?,
            functions: Vec::new(alloc),
            fields: Vec::new(alloc),
            entry_integers: Vec::new(alloc),
            entry_strings: Vec::new(alloc),
            global_integers: Vec::new(alloc),
            global_strings: Vec::new(alloc),
        })
    }

    /// What a name in lower case names.
    pub fn find(&self, lowered: &[u8]) -> Option<Callee>
        ensures { result ≡ named_lower self.now lowered.now }
    {
        self.table.get(lowered).copied()
    }

    /// How many names of a kind there are.
    pub fn count(&self, kind: Kind) -> usize
        ensures { result ≡ length (names_of_kind kind self.now) }
    {
        match kind {
            Kind::Field => self.fields.len(),
            Kind::EntryInteger => self.entry_integers.len(),
            Kind::EntryString => self.entry_strings.len(),
            Kind::GlobalInteger => self.global_integers.len(),
            Kind::GlobalString => self.global_strings.len(),
        }
    }

    /// The name of a built-in function, a function, a field or a variable, in lower case.
    pub fn name(&self, callee: Callee) -> &[u8]
        ensures { result.now ≡ name_of self.now callee }
    {
        match callee {
            Callee::BuiltIn(built_in) => built_in.word(),
            Callee::User(number) => shown_name(self.functions.as_slice(), number),
            Callee::Field(number) => name_at(self.fields.as_slice(), number),
            Callee::EntryInteger(number) => name_at(self.entry_integers.as_slice(), number),
            Callee::EntryString(number) => name_at(self.entry_strings.as_slice(), number),
            Callee::GlobalInteger(number) => name_at(self.global_integers.as_slice(), number),
            Callee::GlobalString(number) => name_at(self.global_strings.as_slice(), number),
        }
    }

    /// Adds a name of a kind that isn't known.
    pub fn add(&mut self, alloc: Global, kind: Kind, name: Lowered<'a>) -> Result<(), AllocError>
        requires new { named_lower self.old name ≡ None }
        requires room { length (names_of_kind kind self.old) < 2 ^ 32 }
        ensures { OnOk result (self.new ≡ with_name kind name.entry self.old) }
    {
        let key = Vec::from_slice(alloc, name.as_bytes())?;
        match kind {
            Kind::Field => {
                let callee = Callee::Field(self.fields.len() as u32);
                put(&mut self.table, &mut self.fields, key, name, callee)
            }
            Kind::EntryInteger => {
                let callee = Callee::EntryInteger(self.entry_integers.len() as u32);
                put(&mut self.table, &mut self.entry_integers, key, name, callee)
            }
            Kind::EntryString => {
                let callee = Callee::EntryString(self.entry_strings.len() as u32);
                put(&mut self.table, &mut self.entry_strings, key, name, callee)
            }
            Kind::GlobalInteger => {
                let callee = Callee::GlobalInteger(self.global_integers.len() as u32);
                put(
                    &mut self.table,
                    &mut self.global_integers,
                    key,
                    name,
                    callee,
                )
            }
            Kind::GlobalString => {
                let callee = Callee::GlobalString(self.global_strings.len() as u32);
                put(&mut self.table, &mut self.global_strings, key, name, callee)
            }
        }
    }

    /// Names a function, by a name that isn't known. Functions between the last one with a name and this one are nameless.
    pub fn add_function(
        &mut self,
        alloc: Global,
        number: u32,
        name: Lowered<'a>,
    ) -> Result<(), AllocError>
        requires new { named_lower self.old name ≡ None }
        requires further { length self.old.functions ≤ number }
        ensures { OnOk result (self.new ≡ with_function number name.entry self.old) }
    {
        let key = Vec::from_slice(alloc, name.as_bytes())?;
        pad(&mut self.functions, number as usize)?;
        put(
            &mut self.table,
            &mut self.functions,
            key,
            Some(name),
            Callee::User(number),
        )
    }
}

// The name of a number.
fn name_at<'n>(names: &'n [Lowered<'_>], number: u32) -> &'n [u8]
    ensures { result.now ≡ slice_index_or names.now number [] }
{
    match names.get(number as usize) {
        Some(name) => name.as_bytes(),
        None => &[],
    }
}

// The name that is shown of the function of a number.
fn shown_name<'n>(functions: &'n [Option<Lowered<'_>>], number: u32) -> &'n [u8]
    ensures { result.now ≡ unwrap_or (slice_index_or functions.now number None) (codes "{}") }
{
    match functions.get(number as usize) {
        Some(Some(name)) => name.as_bytes(),
        _ => b"{}",
    }
}
