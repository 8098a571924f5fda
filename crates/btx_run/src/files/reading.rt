//! The reading of a job's files.
ghost use Rattle.std.specs.Prelude.{◌≡◌, ◌∷◌, IfOk, IfSome, None, OnErr, Some};
ghost use Rattle.btx_aux.specs.refinement.Answers.{Answered, AsksTop, AsksTopAtMost, ByAnswers};
ghost use Rattle.btx_aux.specs.refinement.Faults.{CountsOfOne};
ghost use Rattle.btx_aux.specs.language.Files.{Files};
ghost use Rattle.btx_aux.specs.language.Job.{AuxJob};
ghost use Rattle.btx_run.specs.refinement.Files.Asked.{AreAmong, names_in};
ghost use Rattle.btx_run.specs.refinement.Files.Counts.{counts_at};
ghost use Rattle.btx_run.specs.refinement.Files.Faults.{CountsOfReading, CountsOfLogging};
ghost use Rattle.btx_core.specs.language.Files.Found.{file_at};
ghost use Rattle.btx_core.specs.refinement.Files.Readings.{after_job, job_named, style_read};
ghost use Rattle.btx_run.specs.refinement.Files.Places.{HandsOf};
ghost use Rattle.btx_run.specs.refinement.Files.Readings.{ReadsAs, StyleFits, after_style, files_read};
ghost use Rattle.btx_run.specs.refinement.Files.Names.{top_name};

use crate::files::databases::find_databases;
use crate::files::fetching::fetch_file;
use crate::files::lines::{no_style_line, style_line};
use crate::files::logging::log_all;
use crate::files::names::{is_too_long, top_name};
use btx_aux::{AuxJob, End as AuxEnd, Finder, read_aux};
use btx_core::{FilesRead, FoundFile, JobFiles};
use btx_machine::{About, End, Journal, LogSink};
use btx_text::{Fault, Limit};
use std::alloc::Global;

/// Reads the `.aux` files of the job `name`, which may end in `.aux`.
pub fn read_job<F: Finder>(alloc: Global, finder: &mut F, name: &[u8]) -> Result<AuxJob, Fault>
    ensures job { IfOk result (λ job. IfSome (F.content finder.old) (λ files. job ≡ job_named files name.now)) }
    ensures answered { IfOk result (λ job. ByAnswers (F.content finder.old) (F.answers finder.old) (F.answers finder.new) (AsksTop (top_name name.now))
        (λ files. job ≡ job_named files name.now)) }
    ensures asked { OnErr result (Answered (F.content finder.old) (F.answers finder.old) (F.answers finder.new) (AsksTopAtMost (top_name name.now))) }
    ensures stays { F.content finder.new ≡ F.content finder.old }
    ensures counts { CountsOfOne result (F.failures finder.old, F.failures finder.new) }
{
    let top = top_name(alloc, name)?;
    read_aux(alloc, finder, top.as_slice())
}

// Goes on from a style that was found and logged: the databases are looked for.
fn with_style<'a, F: Finder, L: LogSink>(
    alloc: Global,
    finder: &mut F,
    job: &'a AuxJob,
    style: FoundFile<'a>,
    journal: &mut Journal<'_, L>,
) -> Result<FilesRead<'a>, Fault>
    ensures reads { ByAnswers (F.content finder.old) (F.answers finder.old) (F.answers finder.new) (λ asked. AreAmong asked job.entry.now.databases) (λ files.
        ReadsAs result (counts_at journal.old, counts_at journal.new) (journal.old.sink.received, journal.new.sink.received)
        (after_style files job.entry.now style.entry)) }
    ensures met { ByAnswers (F.content finder.old) (F.answers finder.old) (F.answers finder.new) (λ asked. AreAmong asked job.entry.now.databases) (λ files.
        HandsOf journal.old journal.new (after_style files job.entry.now style.entry).lines) }
    ensures fits { IfOk result (λ read. StyleFits read) }
    ensures stays { F.content finder.new ≡ F.content finder.old }
    ensures counts { CountsOfReading result (F.failures finder.old, F.failures finder.new) journal.old journal.new }
{
    if is_too_long(style.bytes()) {
        return Ok(FilesRead::Ends(End::Limit(Limit::File)));
    }
    let databases = find_databases(alloc, finder, job.databases(), journal)?;
    Ok(FilesRead::Found(JobFiles { style, databases }))
}

// Goes on from a style that was found.
fn log_style<'a, F: Finder, L: LogSink>(
    alloc: Global,
    finder: &mut F,
    job: &'a AuxJob,
    style: FoundFile<'a>,
    journal: &mut Journal<'_, L>,
) -> Result<FilesRead<'a>, Fault>
    ensures reads { ByAnswers (F.content finder.old) (F.answers finder.old) (F.answers finder.new) (λ asked. AreAmong asked job.entry.now.databases) (λ files.
        ReadsAs result (counts_at journal.old, counts_at journal.new) (journal.old.sink.received, journal.new.sink.received)
        (style_read files job.entry.now style.entry.name (Some style.entry))) }
    ensures met { ByAnswers (F.content finder.old) (F.answers finder.old) (F.answers finder.new) (λ asked. AreAmong asked job.entry.now.databases) (λ files.
        HandsOf journal.old journal.new (style_read files job.entry.now style.entry.name (Some style.entry)).lines) }
    ensures fits { IfOk result (λ read. StyleFits read) }
    ensures stays { F.content finder.new ≡ F.content finder.old }
    ensures counts { CountsOfReading result (F.failures finder.old, F.failures finder.new) journal.old journal.new }
{
    let line = style_line(alloc, style.name())?;
    journal.log_one(&line, About::Files)?;
    with_style(alloc, finder, job, style, journal)
}

// Logs that the style of this name wasn't found, which ends the run.
fn without_style<'a, L: LogSink>(
    alloc: Global,
    name: &[u8],
    journal: &mut Journal<'_, L>,
) -> Result<FilesRead<'a>, Fault>
    ensures reads { (files : Files) (job : AuxJob) → ReadsAs result (counts_at journal.old, counts_at journal.new)
        (journal.old.sink.received, journal.new.sink.received)
        (style_read files job name.now None) }
    ensures met { (files : Files) (job : AuxJob) → HandsOf journal.old journal.new (style_read files job name.now None).lines }
    ensures fits { IfOk result (λ read. StyleFits read) }
    ensures counts { CountsOfLogging result journal.old journal.new }
{
    let line = no_style_line(alloc, name)?;
    journal.log_one(&line, About::Files)?;
    Ok(FilesRead::Ends(End::Finished))
}

// Looks for the style of this name, and goes on from it.
fn find_style<'a, F: Finder, L: LogSink>(
    alloc: Global,
    finder: &mut F,
    job: &'a AuxJob,
    name: &'a [u8],
    journal: &mut Journal<'_, L>,
) -> Result<FilesRead<'a>, Fault>
    ensures reads { ByAnswers (F.content finder.old) (F.answers finder.old) (F.answers finder.new)
        (λ asked. AreAmong asked (name.entry.now ∷ job.entry.now.databases)) (λ files.
        ReadsAs result (counts_at journal.old, counts_at journal.new) (journal.old.sink.received, journal.new.sink.received)
        (style_read files job.entry.now name.entry.now (file_at files name.entry.now))) }
    ensures met { ByAnswers (F.content finder.old) (F.answers finder.old) (F.answers finder.new)
        (λ asked. AreAmong asked (name.entry.now ∷ job.entry.now.databases)) (λ files.
        HandsOf journal.old journal.new (style_read files job.entry.now name.entry.now (file_at files name.entry.now)).lines) }
    ensures fits { IfOk result (λ read. StyleFits read) }
    ensures stays { F.content finder.new ≡ F.content finder.old }
    ensures counts { CountsOfReading result (F.failures finder.old, F.failures finder.new) journal.old journal.new }
{
    match fetch_file(alloc, finder, name)? {
        Some(style) => log_style(alloc, finder, job, style, journal),
        None => without_style(alloc, name, journal),
    }
}

// Goes on from the `.aux` files, by how their reading ended: with the style that they name, if they name one.
fn after_job<'a, F: Finder, L: LogSink>(
    alloc: Global,
    finder: &mut F,
    job: &'a AuxJob,
    journal: &mut Journal<'_, L>,
) -> Result<FilesRead<'a>, Fault>
    ensures reads { ByAnswers (F.content finder.old) (F.answers finder.old) (F.answers finder.new) (λ asked. AreAmong asked (names_in job.entry.now)) (λ files.
        ReadsAs result (counts_at journal.old, counts_at journal.new) (journal.old.sink.received, journal.new.sink.received)
        (after_job files job.entry.now job.entry.now.ending)) }
    ensures met { ByAnswers (F.content finder.old) (F.answers finder.old) (F.answers finder.new) (λ asked. AreAmong asked (names_in job.entry.now)) (λ files.
        HandsOf journal.old journal.new (after_job files job.entry.now job.entry.now.ending).lines) }
    ensures fits { IfOk result (λ read. StyleFits read) }
    ensures stays { F.content finder.new ≡ F.content finder.old }
    ensures counts { CountsOfReading result (F.failures finder.old, F.failures finder.new) journal.old journal.new }
{
    match job.end() {
        AuxEnd::Whole => match job.style() {
            Some(name) => find_style(alloc, finder, job, name, journal),
            None => Ok(FilesRead::Ends(End::Finished)),
        },
        AuxEnd::TooManyOpen => Ok(FilesRead::Ends(End::Limit(Limit::Files))),
        AuxEnd::TopMissing => Ok(FilesRead::Ends(End::NoTopFile)),
        AuxEnd::FileLimit => Ok(FilesRead::Ends(End::Limit(Limit::File))),
    }
}

/// Reads the files that a job names: logs the notes of its `.aux` files, and looks for its style and its databases. The faults are want of
/// memory and the device's alone; the log then received a prefix of what would have been logged.
pub fn read_files<'a, F: Finder, L: LogSink>(
    alloc: Global,
    finder: &mut F,
    job: &'a AuxJob,
    journal: &mut Journal<'_, L>,
) -> Result<FilesRead<'a>, Fault>
    ensures reads { IfSome (F.content finder.old) (λ files. ReadsAs result (counts_at journal.old, counts_at journal.new)
        (journal.old.sink.received, journal.new.sink.received)
        (files_read files job.entry.now)) }
    ensures answered { ByAnswers (F.content finder.old) (F.answers finder.old) (F.answers finder.new) (λ asked. AreAmong asked (names_in job.entry.now))
        (λ files.
        ReadsAs result (counts_at journal.old, counts_at journal.new) (journal.old.sink.received, journal.new.sink.received) (files_read files job.entry.now)) }
    ensures met { ByAnswers (F.content finder.old) (F.answers finder.old) (F.answers finder.new) (λ asked. AreAmong asked (names_in job.entry.now)) (λ files.
        HandsOf journal.old journal.new (files_read files job.entry.now).lines) }
    ensures fits { IfOk result (λ read. StyleFits read) }
    ensures stays { F.content finder.new ≡ F.content finder.old }
    ensures counts { CountsOfReading result (F.failures finder.old, F.failures finder.new) journal.old journal.new }
{
    log_all(job.log(), journal)?;
    after_job(alloc, finder, job, journal)
}
