//! Files that are kept in memory.
ghost use Rattle.std.specs.Prelude.{◌≡◌, ℕ, List, [], Some, Ok, false, IfOk, IfErr, OnOk, OnErr};
ghost use Rattle.std.specs.Option.{option_or};
ghost use Rattle.btx_text.specs.refinement.Counts.{no_failures};
ghost use Rattle.btx_aux.specs.language.Files.{Files, file_of};
ghost use Rattle.btx_aux.specs.language.Answers.{FinderAnswer};
ghost use Rattle.btx_aux.specs.laws.Pairs.{file_of_pair, files_of_pairs};
ghost use Rattle.btx_aux.specs.refinement.Pairs.{first_file};
ghost use Rattle.btx_aux.specs.refinement.Entries.{pairs_in};
ghost use Rattle.btx_aux.specs.refinement.Borrowed.{pairs_of};

use crate::fetch_fault::{FetchFault, Fetched};
use crate::finder::Finder;
use crate::history::History;
use indexmap::IndexMap;
use std::alloc::{AllocError, Global};
use std::marker::Model;

/// Files that are kept in memory, in a table by name. Its content is that of the pairs that it was made of; the later stands where
/// two have one name.
#[derive(Drop)]
pub struct MemoryFinder {
    files: IndexMap<Vec<u8>, Vec<u8>>,
    history: History,
}

impl Model for MemoryFinder {
    ghost Value = { List (List ℕ × List ℕ) × List FinderAnswer };

    ghost view = { λ finder. (pairs_in finder.files.entries, finder.history) };
}

impl MemoryFinder {
    /// Keeps these files, given as pairs of name and bytes. The only fault is want of memory.
    pub fn new(alloc: Global, pairs: &[(&[u8], &[u8])]) -> Result<Self, FetchFault>
        ensures files { IfOk result (λ finder. (name : List ℕ) → first_file finder.0 name ≡ files_of_pairs (pairs_of pairs.now) name) }
        ensures fault { IfErr result (λ fault. fault ≡ FetchFault.Memory) }
    {
        let mut files = IndexMap::new(alloc);
        for (name, bytes) in pairs {
            put(alloc, &mut files, name, bytes).map_err(|_| FetchFault::Memory)?;
        }
        Ok(MemoryFinder {
            files,
            history: History::new(alloc),
        })
    }
}

// Puts a file into the table, in place of one of the same name.
fn put(
    alloc: Global,
    files: &mut IndexMap<Vec<u8>, Vec<u8>>,
    name: &[u8],
    bytes: &[u8],
) -> Result<(), AllocError>
    ensures { OnOk result ((other : List ℕ) →
        first_file (pairs_in files.new.entries) other ≡ option_or (file_of_pair (name.now, bytes.now) other) (first_file (pairs_in files.old.entries) other)) }
{
    let name = Vec::from_slice(alloc, name)?;
    let bytes = Vec::from_slice(alloc, bytes)?;
    files.insert(name, bytes)?;
    Ok(())
}

/// Puts `bytes` in place of what `into` had. The only fault is want of memory.
pub fn fill(into: &mut Vec<u8>, bytes: &[u8]) -> Result<(), FetchFault>
    ensures ok { OnOk result (into.new.items ≡ bytes.now) }
    ensures err { OnErr result (into.new.items ≡ []) }
    ensures fault { IfErr result (λ fault. fault ≡ FetchFault.Memory) }
{
    into.clear();
    into.extend_from_slice(bytes)
        .map_err(|_| FetchFault::Memory)
}

// Copies the file of this name.
fn copy(
    files: &IndexMap<Vec<u8>, Vec<u8>>,
    name: &[u8],
    into: &mut Vec<u8>,
) -> Result<bool, FetchFault>
    ensures bytes { IfOk result (λ found. first_file (pairs_in files.now.entries) name.now ≡ file_of found into.new.items) }
    ensures absent { result ≡ Ok false → into.new.items ≡ [] }
    ensures fault { OnErr result (into.new.items ≡ []) }
    ensures memory { IfErr result (λ fault. fault ≡ FetchFault.Memory) }
{
    match files.get(name) {
        Some(bytes) => {
            fill(into, bytes.as_slice())?;
            Ok(true)
        }
        None => {
            into.clear();
            Ok(false)
        }
    }
}

impl Finder for MemoryFinder {
    ghost content = { λ finder. Some (first_file finder.0) };

    ghost answers = { λ finder. finder.1 };

    ghost failures = { λ _. no_failures };

    fn fetch(&mut self, alloc: Global, name: &[u8], into: &mut Vec<u8>) -> Fetched {
        let answer = copy(&self.files, name, into);
        self.history.answer(alloc, name, answer, into)
    }
}
