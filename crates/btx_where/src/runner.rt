//! A job, run again to note where its style stands.
ghost use Rattle.std.specs.Prelude.{◌≤◌, IfOk, IfSome, OnOk, length};
ghost use Rattle.btx_text.specs.language.Limits.{greatest_file};
ghost use Rattle.btx_bst.specs.laws.StylePlaces.{places_of};
ghost use Rattle.btx_run.specs.refinement.Files.Readings.{StyleFits, files_read};
ghost use Rattle.btx_run.specs.refinement.Product.{work_in};
ghost use Rattle.btx_where.specs.Events.{Explains, ExplainsFiles, ExplainsJob, ExplainsReading};

use crate::explainer::Explainer;
use crate::scratch::{ResettableSink, Scratch};
use btx_aux::{AuxJob, Finder};
use btx_bst::read_placed_style;
use btx_machine::report::report_of;
use btx_machine::{Journal, LogCounts, Notebook, NotedLog, Report};
use btx_run::Options;
use btx_run::contents::read_library;
use btx_run::files::{FilesRead, JobFiles, read_files, read_job};
use btx_step::Job;
use btx_text::Fault;
use std::alloc::Global;

// Explains a style that was found: its text and the databases are read first.
fn explain_found<'a, W: ResettableSink, L: ResettableSink, N: Notebook>(
    alloc: Global,
    job: &'a AuxJob,
    found: &'a JobFiles<'a>,
    options: &Options,
    counts: LogCounts,
    most: usize,
    scratch: &mut Scratch<'_, W, L, N>,
    notes: &mut Vec<u8>,
) -> Result<Report, Fault>
    requires { length found.now.style.bytes ≤ greatest_file }
    ensures bound { IfOk result (λ report. report.steps ≤ options.now.budget) }
    ensures notes { OnOk result (Explains (work_in job.now found.now options.now) counts (places_of found.now.style.name found.now.style.bytes) notes.old.items notes.new.items) }
{
    let placed = read_placed_style(alloc, found.style.name(), found.style.bytes())?;
    let style = &placed.style;
    let library = read_library(alloc, style, job, &found.databases, options.min_crossrefs)?;
    let job = Job::new(
        style,
        &library,
        options.text,
        options.entry_max,
        options.global_max,
    );
    let explainer = Explainer {
        alloc,
        job: &job,
        options,
        counts,
    };
    explainer.explain(&placed.places, most, scratch, notes)
}

// Goes on from the files of a job.
fn after_files<'a, W: ResettableSink, L: ResettableSink, N: Notebook>(
    alloc: Global,
    job: &'a AuxJob,
    read: FilesRead<'a>,
    options: &Options,
    counts: LogCounts,
    most: usize,
    scratch: &mut Scratch<'_, W, L, N>,
    notes: &mut Vec<u8>,
) -> Result<Report, Fault>
    requires { StyleFits read }
    ensures bound { IfOk result (λ report. report.steps ≤ options.now.budget) }
    ensures notes { OnOk result (ExplainsFiles job.now read.entry options.now counts notes.old.items notes.new.items) }
{
    match read {
        FilesRead::Ends(end) => Ok(report_of(end, 0, 0, counts)),
        FilesRead::Found(found) => {
            explain_found(alloc, job, &found, options, counts, most, scratch, notes)
        }
    }
}

// Explains a job whose `.aux` files are read.
fn explain_job<F: Finder, W: ResettableSink, L: ResettableSink, N: Notebook>(
    alloc: Global,
    finder: &mut F,
    job: &AuxJob,
    options: &Options,
    most: usize,
    scratch: &mut Scratch<'_, W, L, N>,
    notes: &mut Vec<u8>,
) -> Result<Report, Fault>
    ensures bound { IfOk result (λ report. report.steps ≤ options.now.budget) }
    ensures notes { OnOk result (IfSome (F.content finder.old) (λ files. ExplainsReading job.now (files_read files job.now) options.now notes.old.items notes.new.items)) }
{
    scratch.log.forget();
    let mut noted = NotedLog::new(scratch.log, scratch.notebook);
    let mut journal = Journal::new(&mut noted, LogCounts::NONE);
    let read = read_files(alloc, finder, job, &mut journal);
    let counts = journal.counts();
    after_files(alloc, job, read?, options, counts, most, scratch, notes)
}

/// Runs the job of this name again, and notes where its style stands: at each of the first `most` events that log errors in its execution, and where the run is stopped or
/// met a limit. What the runs write goes to `scratch`. The contract speaks of the finder's files where these don't change.
pub fn locate<F: Finder, W: ResettableSink, L: ResettableSink, N: Notebook>(
    alloc: Global,
    finder: &mut F,
    name: &[u8],
    options: &Options,
    most: usize,
    scratch: &mut Scratch<'_, W, L, N>,
    notes: &mut Vec<u8>,
) -> Result<Report, Fault>
    ensures bound { IfOk result (λ report. report.steps ≤ options.now.budget) }
    ensures notes { OnOk result (IfSome (F.content finder.old) (λ files. ExplainsJob files name.now options.now notes.old.items notes.new.items)) }
{
    let job = read_job(alloc, finder, name)?;
    explain_job(alloc, finder, &job, options, most, scratch, notes)
}
