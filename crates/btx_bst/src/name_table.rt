//! The table of names.
ghost use Rattle.std.specs.Prelude.{◌≡◌, ◌++◌, ◌∷◌, [], None, IfOk, OnOk, OnErr, fold};
ghost use Rattle.btx_bst.specs.language.BuiltIns.{built_ins};
ghost use Rattle.btx_bst.specs.refinement.NameTables.{found_in, pairs_in, words_in, with_built_in, IsPadded};
ghost use Rattle.btx_bst.specs.refinement.Names.{padded};

use crate::built_in::{BUILT_INS, BuiltIn};
use crate::callee::Callee;
use btx_text::Lowered;
use indexmap::IndexMap;
use std::alloc::{AllocError, Global};

/// The built-in functions by their words.
#[tactic(auto, using(crate::proofs::TableLemmas::all_words_differ))]
pub fn built_in_table(alloc: Global) -> Result<IndexMap<Vec<u8>, Callee>, AllocError>
    ensures { IfOk result (λ table. pairs_in table.entries ≡ words_in built_ins) }
{
    let mut table = IndexMap::new(alloc);
    add_words(alloc, &mut table, &BUILT_INS)?;
    Ok(table)
}

// Adds built-in functions by their words.
fn add_words(
    alloc: Global,
    table: &mut IndexMap<Vec<u8>, Callee>,
    built_ins: &[BuiltIn],
) -> Result<(), AllocError>
    ensures { OnOk result (pairs_in table.new.entries ≡ fold with_built_in (pairs_in table.old.entries) built_ins.now) }
{
    for built_in in built_ins {
        add_word(alloc, table, *built_in)?;
    }
    Ok(())
}

// Adds a built-in function by its word.
#[tactic(auto, using(crate::proofs::TableLemmas::word_steps))]
fn add_word(
    alloc: Global,
    table: &mut IndexMap<Vec<u8>, Callee>,
    built_in: BuiltIn,
) -> Result<(), AllocError>
    ensures { OnOk result (pairs_in table.new.entries ≡ with_built_in (pairs_in table.old.entries) built_in) }
{
    let word = Vec::from_slice(alloc, built_in.word())?;
    table.insert(word, Callee::BuiltIn(built_in))?;
    Ok(())
}

/// Adds a name that the table doesn't have, and an item to a list. Where memory is refused both stay.
pub fn put<T: Drop>(
    table: &mut IndexMap<Vec<u8>, Callee>,
    list: &mut Vec<T>,
    name: Vec<u8>,
    item: T,
    callee: Callee,
) -> Result<(), AllocError>
    requires { found_in table.old.entries name.items ≡ None }
    ensures table { OnOk result (table.new.entries ≡ table.old.entries ++ (name, callee) ∷ []) }
    ensures list { OnOk result (list.new.items ≡ list.old.items ++ item ∷ []) }
    ensures table_stays { OnErr result (table.new.entries ≡ table.old.entries) }
    ensures list_stays { OnErr result (list.new.items ≡ list.old.items) }
{
    list.reserve(1)?;
    table.insert(name, callee)?;
    list.push(item)?;
    Ok(())
}

/// Adds nameless functions, up to this count of functions. Where memory is refused some of them may have been added.
#[tactic(auto, using(crate::proofs::PaddingLemmas::pad_steps))]
pub fn pad<'a>(functions: &mut Vec<Option<Lowered<'a>>>, count: usize) -> Result<(), AllocError>
    ensures ok { OnOk result (functions.new.items ≡ padded count functions.old.items) }
    ensures padded { IsPadded functions.old.items functions.new.items }
{
    while functions.len() < count {
        functions.push(None)?;
    }
    Ok(())
}
