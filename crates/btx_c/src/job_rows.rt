//! The library of a job over files that were handed in, as rows.
ghost use Rattle.std.specs.Prelude.{◌≡◌, ◌≤◌, ◌⊎◌, IfErr, IfOk, IfSome, length};
ghost use Rattle.btx_text.specs.language.Limits.{greatest_file};
ghost use Rattle.btx_run.specs.refinement.Files.Readings.{StyleFits, files_read};
ghost use Rattle.btx_c.specs.CallerFiles.{OtherFiles};
ghost use Rattle.btx_c.specs.JobRows.{ShowRecords, records_by, records_found, records_of_files, records_of_job};
ghost use Rattle.btx_c.specs.Outcomes.{all_files};

use crate::cause::Cause;
use crate::handed::{BtxFile, CallerFiles};
use crate::index::Index;
use btx_aux::{AuxJob, Finder};
use btx_bib::{End, Library};
use btx_bst::{Style, read_style};
use btx_machine::{Journal, LogCounts, NotedLog, Unnoted};
use btx_read::{Rows, library_rows};
use btx_run::contents::read_library;
use btx_run::files::{FilesRead, JobFiles, read_files, read_job};
use btx_text::Fault;
use btx_where::DiscardingSink;
use std::alloc::{AllocError, Global};

// The rows of a library, if all databases were read to their ends.
fn rows_if_whole(
    alloc: Global,
    style: &Style<'_>,
    library: &Library<'_>,
) -> Result<Option<Rows>, AllocError>
    ensures { IfOk result (ShowRecords (records_by style.now library.now library.now.ending)) }
{
    match library.end() {
        End::Whole => Ok(Some(library_rows(alloc, style, library)?)),
        End::FileLimit | End::StringLimit => Ok(None),
    }
}

// The rows of a job whose style was found: its text and the databases are read first. An entry that isn't cited needs `least` references.
fn rows_found<'a>(
    alloc: Global,
    job: &'a AuxJob,
    found: &'a JobFiles<'a>,
    least: u32,
) -> Result<Option<Rows>, Fault>
    requires { length found.now.style.bytes ≤ greatest_file }
    ensures { IfOk result (ShowRecords (records_found job.now found.now least)) }
{
    let style = read_style(alloc, found.style.name(), found.style.bytes())?;
    let library = read_library(alloc, &style, job, &found.databases, least)?;
    Ok(rows_if_whole(alloc, &style, &library)?)
}

// The rows of a job whose files were looked for.
fn rows_of_files<'a>(
    alloc: Global,
    job: &'a AuxJob,
    read: FilesRead<'a>,
    least: u32,
) -> Result<Option<Rows>, Fault>
    requires { StyleFits read }
    ensures { IfOk result (ShowRecords (records_of_files job.now read.entry least)) }
{
    match read {
        FilesRead::Ends(_) => Ok(None),
        FilesRead::Found(found) => rows_found(alloc, job, &found, least),
    }
}

// The rows of a job whose `.aux` files were read. What a run logs of the other files is logged nowhere.
fn rows_after_aux_files<F: Finder>(
    alloc: Global,
    finder: &mut F,
    job: &AuxJob,
    least: u32,
) -> Result<Option<Rows>, Fault>
    ensures { IfOk result (λ made. IfSome (F.content finder.old) (λ files. ShowRecords (records_of_files job.now (files_read files job.now).gives least) made)) }
{
    let mut log = DiscardingSink {};
    let mut unnoted = Unnoted {};
    let mut noted = NotedLog::new(&mut log, &mut unnoted);
    let mut journal = Journal::new(&mut noted, LogCounts::NONE);
    let read = read_files(alloc, finder, job, &mut journal)?;
    rows_of_files(alloc, job, read, least)
}

// The rows of the job of this name.
fn rows_of_job<F: Finder>(
    alloc: Global,
    finder: &mut F,
    name: &[u8],
    least: u32,
) -> Result<Option<Rows>, Fault>
    ensures { IfOk result (λ made. IfSome (F.content finder.old) (λ files. ShowRecords (records_of_job files name.now least) made)) }
{
    let job = read_job(alloc, finder, name)?;
    rows_after_aux_files(alloc, finder, &job, least)
}

/// The rows of the library of the job `name` over `files`, whatever others there are, or that the job ends before it has a library. An entry that isn't cited
/// needs `least` references to stay in the list.
pub fn job_rows(
    alloc: Global,
    name: &[u8],
    files: &[BtxFile<'_>],
    least: u32,
) -> Result<Option<Rows>, Cause>
    ghost others: { OtherFiles }
    ensures rows { IfOk result (ShowRecords (records_of_job (all_files files.now others) name.now least)) }
    ensures causes { IfErr result (λ cause. (cause ≡ Cause.Memory) ⊎ (cause ≡ Cause.UnknownFile)) }
{
    let Ok(index) = Index::new(alloc, &*files) else {
        return Err(Cause::Memory);
    };
    let mut finder = CallerFiles::new(alloc, &index);
    match rows_of_job(alloc, &mut finder, name, least) {
        Ok(made) => Ok(made),
        Err(_) if finder.failures.count > 0 => Err(Cause::UnknownFile),
        Err(_) => Err(Cause::Memory),
    }
}
