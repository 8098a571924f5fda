//! The files that a caller hands in, found by name.
ghost use Rattle.std.specs.Prelude.{◌≡◌, [], None, Ok, Some, false, IfErr, IfOk, OnErr, OnOk};
ghost use Rattle.std.specs.Option.{option_map};
ghost use Rattle.btx_aux.specs.language.Files.{file_of};
ghost use Rattle.btx_c.specs.CallerFiles.{known};
ghost use Rattle.btx_c.specs.Known.{AddsFile, known_of};

use crate::handed::{BtxFile, Known};
use btx_aux::{FetchFault, fill};
use indexmap::IndexMap;
use std::alloc::{AllocError, Global};
use std::marker::Model;

/// The files that a caller handed in, and a table of them by name, in which of two files with one name the first counts.
#[derive(Drop)]
pub struct Index<'a> {
    files: &'a [BtxFile<'a>],
    by_name: IndexMap<&'a [u8], &'a BtxFile<'a>>,
}

impl<'a> Model for Index<'a> {
    ghost use Rattle.std.specs.Prelude.{List};
    ghost use Rattle.btx_c.specs.declared.handed.BtxFile.{BtxFile};
    ghost use Rattle.btx_c.specs.Known.{IsTableOf};

    ghost Value = { List BtxFile };

    ghost view = { λ index. index.files.now };

    ghost invariant = { λ index. IsTableOf index.by_name.entries index.files.now };
}

// Adds `file`, unless there is one of its name.
fn add<'a>(
    by_name: &mut IndexMap<&'a [u8], &'a BtxFile<'a>>,
    file: &'a BtxFile<'a>,
) -> Result<(), AllocError>
    ensures { OnOk result (AddsFile by_name.old.entries by_name.new.entries file.entry.now) }
{
    if !by_name.contains_key(file.name) {
        by_name.insert(file.name, file)?;
    }
    Ok(())
}

impl<'a> Index<'a> {
    /// Makes the table of these files. The only fault is want of memory.
    pub fn new(alloc: Global, files: &'a [BtxFile<'a>]) -> Result<Self, AllocError>
        ensures { IfOk result (λ index. index ≡ files.now) }
    {
        let mut by_name = IndexMap::new(alloc);
        for file in files {
            add(&mut by_name, file)?;
        }
        Ok(Index { files, by_name })
    }

    /// Answers what was said of the file `name`.
    pub fn look(&self, name: &[u8]) -> Known<'a>
        ensures { known_of result ≡ known self.now name.now }
    {
        match self.by_name.get(name) {
            Some(file) => file.known(),
            None => Known::Unknown,
        }
    }

    /// Copies the file `name` into `into`, and answers whether there is such a file; None if nothing was said of it. The only fault is want of memory.
    pub fn copy(&self, name: &[u8], into: &mut Vec<u8>) -> Result<Option<bool>, FetchFault>
        ensures said { IfOk result (λ said. known self.now name.now ≡ option_map (λ found. file_of found into.new.items) said) }
        ensures absent { result ≡ Ok (Some false) → into.new.items ≡ [] }
        ensures unknown { result ≡ Ok None → into.new.items ≡ [] }
        ensures fault { OnErr result (into.new.items ≡ []) }
        ensures memory { IfErr result (λ fault. fault ≡ FetchFault.Memory) }
    {
        into.clear();
        match self.look(name) {
            Known::Bytes(bytes) => {
                fill(into, bytes)?;
                Ok(Some(true))
            }
            Known::Absent => Ok(Some(false)),
            Known::Unknown => Ok(None),
        }
    }
}
