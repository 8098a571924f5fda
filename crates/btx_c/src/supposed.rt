//! What a job writes if the files of which nothing was said are there, or aren't.
ghost use Rattle.std.specs.Prelude.{◌≡◌, [], Ok, Some, false, true, IfErr, IfOk, OnErr};
ghost use Rattle.btx_text.specs.refinement.Counts.{no_failures};
ghost use Rattle.btx_aux.specs.language.Files.{file_of};
ghost use Rattle.btx_machine.specs.language.Product.{log_of};
ghost use Rattle.btx_core.specs.refinement.ComputedProduct.{product};
ghost use Rattle.btx_c.specs.CallerFiles.{beside};
ghost use Rattle.btx_c.specs.Needs.{NeedsAnother, empty_files};

use crate::index::Index;
use crate::kept::Kept;
use btx_aux::{FetchFault, Fetched, Finder, History};
use btx_run::{Options, RunFault, run};
use std::alloc::Global;

// Files that were handed in, as a finder that takes all others for empty files, or for none.
#[derive(Drop)]
struct PretendFinder<'i, 'f> {
    index: &'i Index<'f>,
    are_there: bool,
    history: History,
}

// Copies the file of this name. One of which nothing was said is empty if `are_there`, and else it isn't there.
fn copy_or_suppose(
    index: &Index<'_>,
    name: &[u8],
    are_there: bool,
    into: &mut Vec<u8>,
) -> Result<bool, FetchFault>
    ensures bytes { IfOk result (λ found. beside index.now (empty_files are_there) name.now ≡ file_of found into.new.items) }
    ensures absent { result ≡ Ok false → into.new.items ≡ [] }
    ensures fault { OnErr result (into.new.items ≡ []) }
    ensures memory { IfErr result (λ fault. fault ≡ FetchFault.Memory) }
{
    match index.copy(name, into)? {
        Some(found) => Ok(found),
        None => Ok(are_there),
    }
}

impl<'i, 'f> Finder for PretendFinder<'i, 'f> {
    ghost content = { λ finder. Some (beside finder.index.now (empty_files finder.are_there)) };

    ghost answers = { λ finder. finder.history };

    ghost failures = { λ _. no_failures };

    fn fetch(&mut self, alloc: Global, name: &[u8], into: &mut Vec<u8>) -> Fetched {
        let answer = copy_or_suppose(self.index, name, self.are_there, into);
        self.history.answer(alloc, name, answer, into)
    }
}

// Answers the log of the job `name`, where each file of which nothing was said is there, and empty, if `are_there`, and else none is.
fn log_if(
    alloc: Global,
    index: &Index<'_>,
    name: &[u8],
    options: &Options,
    are_there: bool,
) -> Result<Vec<u8>, RunFault>
    ensures { IfOk result (λ log. log.items ≡ log_of (product (beside index.now (empty_files are_there)) name.now options.now)) }
{
    let mut finder = PretendFinder {
        index: &*index,
        are_there,
        history: History::new(alloc),
    };
    let mut list = Kept::new(alloc, usize::MAX);
    let mut log = Kept::new(alloc, usize::MAX);
    run(alloc, &mut finder, name, options, &mut list, &mut log)?;
    Ok(log.bytes)
}

/// Whether the log of the job `name` is seen to depend on a file of which nothing was said: that of a run of no step is another one where
/// there is no such file than where each is empty. False if memory is refused.
pub fn needs_another(alloc: Global, index: &Index<'_>, name: &[u8], options: &Options) -> bool
    ensures { result ≡ true → NeedsAnother index.now name.now }
{
    let options = Options {
        budget: 0,
        ..*options
    };
    let Ok(absent) = log_if(alloc, index, name, &options, false) else {
        return false;
    };
    let Ok(empty) = log_if(alloc, index, name, &options, true) else {
        return false;
    };
    absent.as_slice() != empty.as_slice()
}
