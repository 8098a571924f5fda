//! The call that reads the library of a job.
ghost use Rattle.std.specs.Prelude.{◌≡◌, ◌≤◌, ◌⊎◌, None, length};
ghost use Rattle.btx_c.specs.CallerFiles.{OtherFiles};
ghost use Rattle.btx_c.specs.JobRows.{AreOfJob, records_of_job};
ghost use Rattle.btx_c.specs.Options.{IsInRange};
ghost use Rattle.btx_c.specs.Outcomes.{all_files, filled};
ghost use Rattle.btx_c.specs.Read.{Fits, IsFull, filled_rows};

use crate::cause::Cause;
use crate::exports::{ASKS, DONE, ENDS, FULL, MEMORY, REFUSED};
use crate::handed::BtxFile;
use crate::job_rows::job_rows;
use crate::options::{BtxOptions, read_options};
use crate::read::{BtxSizes, copy_rows, copy_texts};
use btx_read::{Row, Rows};
use std::alloc::Global;

// Puts rows and their texts into memory, as many as there is room for, and how many there are in all into `sizes`; answers whether all have room.
fn put_rows(made: &Rows, records: &mut [Row], texts: &mut [u8], sizes: &mut BtxSizes) -> u32
    ensures answers { (result ≡ DONE) ⊎ (result ≡ FULL) }
    ensures records { records.new ≡ filled_rows records.old made.now.rows.items }
    ensures texts { texts.new ≡ filled texts.old made.now.texts.items }
    ensures sizes { (sizes.new.records ≡ length made.now.rows.items) × (sizes.new.texts ≡ length made.now.texts.items) }
    ensures done { result ≡ DONE → Fits sizes.new records.old texts.old }
    ensures full { result ≡ FULL → IsFull sizes.new records.old texts.old }
{
    copy_rows(made.rows.as_slice(), records);
    copy_texts(made.texts.as_slice(), texts);
    *sizes = BtxSizes {
        records: made.rows.len(),
        texts: made.texts.len(),
    };
    if made.rows.len() > records.len() || made.texts.len() > texts.len() {
        FULL
    } else {
        DONE
    }
}

/// Reads the library of a job: the entries of its list with the fields that its run has of them, by the same records as `btx_read`. Writes the records, as many
/// as there is room for, with their names and texts into `texts`, and how many there are in all into `sizes`.
#[unsafe(no_mangle)]
pub extern "C" fn btx_read_job(
    alloc: Global,
    job: &[u8],
    files: &[BtxFile<'_>],
    options: &BtxOptions,
    records: &mut [Row],
    texts: &mut [u8],
    sizes: &mut BtxSizes,
) -> u32
    ghost others: { OtherFiles }
    ensures answers { result ≤ ENDS }
    ensures refused { result ≡ REFUSED → (¬ IsInRange options.now) × ((records.new ≡ records.old) × (texts.new ≡ texts.old) × (sizes.new ≡ sizes.old)) }
    ensures none { (result ≡ MEMORY) ⊎ (result ≡ ASKS) → (records.new ≡ records.old) × (texts.new ≡ texts.old) × (sizes.new ≡ sizes.old) }

    // Whatever other files there are: the records are those of the library that the run of the job has, whole or begun; or it ends before it has one.
    ensures done { result ≡ DONE → AreOfJob (records_of_job (all_files files.now others) job.now options.now.min_crossrefs)
        (records.old, records.new) (texts.old, texts.new) sizes.new × Fits sizes.new records.old texts.old }
    ensures full { result ≡ FULL → AreOfJob (records_of_job (all_files files.now others) job.now options.now.min_crossrefs)
        (records.old, records.new) (texts.old, texts.new) sizes.new × IsFull sizes.new records.old texts.old }
    ensures ends { result ≡ ENDS → (records_of_job (all_files files.now others) job.now options.now.min_crossrefs ≡ None)
        × ((records.new ≡ records.old) × (texts.new ≡ texts.old) × ((sizes.new.records ≡ 0) × (sizes.new.texts ≡ 0))) }
{
    if read_options(options).is_none() {
        return REFUSED;
    }
    match job_rows(alloc, job, files, options.min_crossrefs) {
        Ok(Some(made)) => put_rows(&made, records, texts, sizes),
        Ok(None) => {
            *sizes = BtxSizes {
                records: 0,
                texts: 0,
            };
            ENDS
        }
        Err(Cause::UnknownFile) => ASKS,
        Err(_) => MEMORY,
    }
}
