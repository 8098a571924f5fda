//! What the databases that were found hold.
ghost use Rattle.std.specs.Prelude.{◌≡◌, IfErr, IfOk, map};
ghost use Rattle.btx_bib.specs.language.Databases.{library_of};
ghost use Rattle.btx_bib.specs.language.Requests.{asked};
ghost use Rattle.btx_bib.specs.refinement.Pairs.{databases_of_pairs};
ghost use Rattle.btx_run.specs.refinement.Contents.{database_of};

use btx_aux::AuxJob;
use btx_bib::{Library, read_databases};
use btx_bst::Style;
use btx_core::FoundFiles;
use btx_text::Fault;
use std::alloc::{AllocError, Global};

// The databases that were found, as pairs of name and bytes: nothing of them is copied.
fn pairs<'f>(
    alloc: Global,
    found: &'f FoundFiles<'_>,
) -> Result<Vec<(&'f [u8], &'f [u8])>, AllocError>
    ensures { IfOk result (λ pairs. databases_of_pairs pairs.items ≡ map database_of found.entry.now) }
{
    let mut pairs = Vec::new(alloc);
    for file in found.as_slice() {
        pairs.push((file.name(), file.bytes()))?;
    }
    Ok(pairs)
}

/// Reads the databases in `found`, for a job and its style. A parent that isn't cited stays if at least `min_crossrefs` stored entries refer to it.
/// The only fault is want of memory.
pub fn read_library<'a>(
    alloc: Global,
    style: &Style<'a>,
    job: &'a AuxJob,
    found: &'a FoundFiles<'_>,
    min_crossrefs: u32,
) -> Result<Library<'a>, Fault>
    ensures library { IfOk result (λ library. library ≡ library_of (asked style.now job.entry.now min_crossrefs) style.now.macros
        (map database_of found.entry.now)) }
    ensures fault { IfErr result (λ fault. fault ≡ Fault.Memory) }
{
    let pairs = pairs(alloc, found)?;
    read_databases(alloc, style, job, pairs.as_slice(), min_crossrefs)
}
