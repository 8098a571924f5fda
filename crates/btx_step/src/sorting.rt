//! The order of a list of entries.
ghost use Rattle.std.specs.Prelude.{◌≡◌, OnOk, OnErr};
ghost use Rattle.btx_step.specs.language.Sorting.{sorted};
ghost use Rattle.btx_step.specs.refinement.Sorting.{sort_key};

use crate::store::Store;
use std::alloc::AllocError;

/// Sorts entries by the string variable `variable`, byte by byte. `list` has their numbers. Entries with equal values keep their order.
pub fn sort(list: &mut Vec<usize>, store: &Store<'_>, variable: u32) -> Result<(), AllocError>
    ensures ok { OnOk result (list.new.items ≡ sorted (sort_key store.now variable) list.old.items) }
    ensures err { OnErr result (list.new.items ≡ list.old.items) }
{
    list.sort_by(|x, y| store
        .entry_text(*x, variable)
        .cmp(store.entry_text(*y, variable)))?;
    Ok(())
}
