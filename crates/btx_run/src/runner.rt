//! A whole run: the files of a job are read, then what its style and its databases hold, and then the style is executed.
ghost use Rattle.std.specs.Prelude.{◌≡◌, ◌≤◌, IfErr, IfOk, IfSome, OnErr, OnOk, length};
ghost use Rattle.std.specs.Io.KnownBytes.{Appends};
ghost use Rattle.btx_text.specs.language.Limits.{greatest_file};
ghost use Rattle.btx_aux.specs.refinement.Answers.{ByAnswers};
ghost use Rattle.btx_machine.specs.language.DirectDepth.{StaysWithin};
ghost use Rattle.btx_machine.specs.refinement.Faults.{CountsOfTwo};
ghost use Rattle.btx_machine.specs.refinement.Counting.{ReportCounts};
ghost use Rattle.btx_machine.specs.refinement.Places.{EndsWithLast, Hands, MeetsInStyle, most_steps, showing};
ghost use Rattle.btx_machine.specs.refinement.Wholeness.{WholeUnlessCutOff};
ghost use Rattle.btx_machine.specs.language.KeepingStep.{AtFault, Completes};
ghost use Rattle.btx_machine.specs.laws.Noting.{Printed, PrintedOrBrokenOff};
ghost use Rattle.btx_machine.specs.laws.Reports.{log_counts};
ghost use Rattle.btx_machine.specs.language.Product.{log_of, style_product as executed};
ghost use Rattle.btx_machine.specs.declared.report.End.TheVariants.{NoTopFile};
ghost use Rattle.btx_run.specs.language.Answered.{CompletesAsAnswered, FailsAsAnswered};
ghost use Rattle.btx_run.specs.language.DirectStyles.{WhereDirect};
ghost use Rattle.btx_run.specs.language.Written.{BeganTheProduct, WroteTheProduct};
ghost use Rattle.btx_run.specs.laws.Noted.{CountsOfNoted};
ghost use Rattle.btx_run.specs.refinement.Files.Asked.{AreAmong, names_in};
ghost use Rattle.btx_run.specs.refinement.Files.Faults.{CountsOfThree};
ghost use Rattle.btx_core.specs.refinement.Files.Readings.{reading_of};
ghost use Rattle.btx_run.specs.refinement.Files.Readings.{StyleFits, files_read};
ghost use Rattle.btx_core.specs.refinement.ComputedProduct.{product, product_of_files, product_with};
ghost use Rattle.btx_run.specs.language.RunFaults.{CountsOfRun};
ghost use Rattle.btx_run.specs.refinement.Places.{MetAfterFiles, MetAsAnswered, MetInReading, MetInRun};
ghost use Rattle.btx_run.specs.refinement.Product.{work_of, work_in, product_of_reading};

use crate::contents::read_library;
use crate::files::{FilesRead, JobFiles, read_files, read_job};
use crate::run_fault::RunFault;
use btx_aux::{AuxJob, Finder};
use btx_bib::Library;
use btx_bst::{Style, read_style};
use btx_core::Options;
use btx_machine::report::report_of;
use btx_machine::{
    Journal, LogCounts, LogSink, Notebook, NotedLog, Report, Unnoted, execute_style, log_end,
};
use btx_out::Sink;
use btx_step::Job;
use btx_text::Fault;
use std::alloc::Global;

// Executes a style, after these lines of the log.
fn execute<'a, W: Sink, L: LogSink>(
    alloc: Global,
    style: &'a Style<'a>,
    library: &'a Library<'a>,
    options: &Options,
    counts: LogCounts,
    bbl: &mut W,
    log: &mut L,
) -> Result<Report, Fault>
    ensures ok { IfOk result (λ report. Completes report (W.received bbl.old, L.received log.old) (W.received bbl.new, L.received log.new)
        (executed (work_of style.now library.now options.now) counts options.now.line options.now.budget)) }
    ensures bound { IfOk result (λ report. report.steps ≤ options.now.budget) }
    ensures err { OnErr result (AtFault (W.received bbl.old, L.received log.old) (W.received bbl.new, L.received log.new)
        (executed (work_of style.now library.now options.now) counts options.now.line) options.now.budget) }
    ensures counts { CountsOfTwo result (W.failures bbl.old, W.failures bbl.new) (L.failures log.old, L.failures log.new) }
    ensures joined { L.joined log.new ≡ L.joined log.old }
    ensures whole { WholeUnlessCutOff result (L.wholeness log.old) (L.wholeness log.new) }
    ensures counted { ReportCounts result (L.noted log.old, L.noted log.new) counts }
    ensures met { MeetsInStyle (work_of style.now library.now options.now) counts options.now.line options.now.budget result
        (showing (L.noted log.old) (L.handed log.old)) (showing (L.noted log.new) (L.handed log.new)) }
    ensures last { IfOk result (EndsWithLast (showing (L.noted log.old) (L.handed log.old)) (showing (L.noted log.new) (L.handed log.new))) }
{
    let job = Job::new(
        style,
        library,
        options.text,
        options.entry_max,
        options.global_max,
    );
    execute_style(alloc, &job, counts, options.line, options.budget, bbl, log)
}

// Executes a style that was found, after these lines of the log: its text and the databases are read first.
fn execute_found<'a, W: Sink, L: LogSink>(
    alloc: Global,
    job: &'a AuxJob,
    found: &'a JobFiles<'a>,
    options: &Options,
    counts: LogCounts,
    bbl: &mut W,
    log: &mut L,
) -> Result<Report, Fault>
    requires { length found.now.style.bytes ≤ greatest_file }
    ensures ok { IfOk result (λ report. Completes report (W.received bbl.old, L.received log.old) (W.received bbl.new, L.received log.new)
        (executed (work_in job.now found.now options.now) counts options.now.line options.now.budget)) }
    ensures bound { IfOk result (λ report. report.steps ≤ options.now.budget) }
    ensures err { OnErr result (AtFault (W.received bbl.old, L.received log.old) (W.received bbl.new, L.received log.new)
        (executed (work_in job.now found.now options.now) counts options.now.line) options.now.budget) }
    ensures counts { CountsOfTwo result (W.failures bbl.old, W.failures bbl.new) (L.failures log.old, L.failures log.new) }
    ensures joined { L.joined log.new ≡ L.joined log.old }
    ensures whole { WholeUnlessCutOff result (L.wholeness log.old) (L.wholeness log.new) }
    ensures counted { ReportCounts result (L.noted log.old, L.noted log.new) counts }
    ensures met { MeetsInStyle (work_in job.now found.now options.now) counts options.now.line options.now.budget result
        (showing (L.noted log.old) (L.handed log.old)) (showing (L.noted log.new) (L.handed log.new)) }
    ensures last { IfOk result (EndsWithLast (showing (L.noted log.old) (L.handed log.old)) (showing (L.noted log.new) (L.handed log.new))) }
{
    let style = read_style(alloc, found.style.name(), found.style.bytes())?;
    let library = read_library(alloc, &style, job, &found.databases, options.min_crossrefs)?;
    execute(alloc, &style, &library, options, counts, bbl, log)
}

// Goes on from the files of a job, after these lines of the log: the run ends at once, or the style is executed.
fn after_files<'a, W: Sink, L: LogSink>(
    alloc: Global,
    job: &'a AuxJob,
    read: FilesRead<'a>,
    options: &Options,
    counts: LogCounts,
    bbl: &mut W,
    log: &mut L,
) -> Result<Report, Fault>
    requires { StyleFits read }
    ensures ok { IfOk result (λ report. Completes report (W.received bbl.old, L.received log.old) (W.received bbl.new, L.received log.new)
        (product_of_files job.now read.entry options.now counts options.now.budget)) }
    ensures bound { IfOk result (λ report. report.steps ≤ options.now.budget) }
    ensures deep { IfOk result (λ report. report.deepest ≤ 4096) }
    ensures err { OnErr result (AtFault (W.received bbl.old, L.received log.old) (W.received bbl.new, L.received log.new)
        (product_of_files job.now read.entry options.now counts) options.now.budget) }
    ensures untouched { IfOk result (λ report. report.end ≡ NoTopFile → bbl.new ≡ bbl.old) }
    ensures counts { CountsOfTwo result (W.failures bbl.old, W.failures bbl.new) (L.failures log.old, L.failures log.new) }
    ensures joined { L.joined log.new ≡ L.joined log.old }
    ensures whole { WholeUnlessCutOff result (L.wholeness log.old) (L.wholeness log.new) }
    ensures counted { ReportCounts result (L.noted log.old, L.noted log.new) counts }
    ensures met { Hands (showing (L.noted log.old) (L.handed log.old)) (showing (L.noted log.new) (L.handed log.new))
        (MetAfterFiles job.now read.entry options.now counts (most_steps result options.now.budget)) }
    ensures last { IfOk result (EndsWithLast (showing (L.noted log.old) (L.handed log.old)) (showing (L.noted log.new) (L.handed log.new))) }
{
    match read {
        FilesRead::Ends(end) => log_end(alloc, report_of(end, 0, 0, counts), log),
        FilesRead::Found(found) => execute_found(alloc, job, &found, options, counts, bbl, log),
    }
}

// Runs a job whose `.aux` files are read.
fn run_job<F: Finder, W: Sink, L: LogSink>(
    alloc: Global,
    finder: &mut F,
    job: &AuxJob,
    options: &Options,
    bbl: &mut W,
    log: &mut L,
) -> Result<Report, Fault>
    ensures ok { IfOk result (λ report. ByAnswers (F.content finder.old) (F.answers finder.old) (F.answers finder.new)
        (λ asked. AreAmong asked (names_in job.now)) (λ files.
        Completes report (W.received bbl.old, L.received log.old) (W.received bbl.new, L.received log.new)
        (product_of_reading job.now (files_read files job.now) options.now options.now.budget))) }
    ensures bound { IfOk result (λ report. report.steps ≤ options.now.budget) }
    ensures deep { IfOk result (λ report. report.deepest ≤ 4096) }
    ensures err { OnErr result (ByAnswers (F.content finder.old) (F.answers finder.old) (F.answers finder.new) (λ asked. AreAmong asked (names_in job.now))
        (λ files.
        AtFault (W.received bbl.old, L.received log.old) (W.received bbl.new, L.received log.new)
        (product_of_reading job.now (files_read files job.now) options.now) options.now.budget)) }
    ensures untouched { IfOk result (λ report. report.end ≡ NoTopFile → bbl.new ≡ bbl.old) }
    ensures counts { CountsOfThree result (F.failures finder.old, F.failures finder.new) (W.failures bbl.old, W.failures bbl.new)
        (L.failures log.old, L.failures log.new) }
    ensures joined { L.joined log.new ≡ L.joined log.old }
    ensures whole { WholeUnlessCutOff result (L.wholeness log.old) (L.wholeness log.new) }
    ensures counted { ReportCounts result (L.noted log.old, L.noted log.new) (log_counts 0 0) }
    ensures met { ByAnswers (F.content finder.old) (F.answers finder.old) (F.answers finder.new) (λ asked. AreAmong asked (names_in job.now)) (λ files.
        Hands (showing (L.noted log.old) (L.handed log.old)) (showing (L.noted log.new) (L.handed log.new))
        (MetInReading job.now (files_read files job.now) options.now (most_steps result options.now.budget))) }
    ensures last { IfOk result (λ report. ByAnswers (F.content finder.old) (F.answers finder.old) (F.answers finder.new)
        (λ asked. AreAmong asked (names_in job.now)) (λ files.
        EndsWithLast (showing (L.noted log.old) (L.handed log.old)) (showing (L.noted log.new) (L.handed log.new)) report)) }
    ensures stays { F.content finder.new ≡ F.content finder.old }
{
    let mut journal = Journal::new(log, LogCounts::NONE);
    let read = read_files(alloc, finder, job, &mut journal);
    let counts = journal.counts();
    let log = journal.into_sink();
    after_files(alloc, job, read?, options, counts, bbl, log)
}

// Runs the job of this name.
fn run_named<F: Finder, W: Sink, L: LogSink>(
    alloc: Global,
    finder: &mut F,
    name: &[u8],
    options: &Options,
    bbl: &mut W,
    log: &mut L,
) -> Result<Report, Fault>
    ensures ok { IfOk result (λ report. IfSome (F.content finder.old) (λ files.
        Completes report (W.received bbl.old, L.received log.old) (W.received bbl.new, L.received log.new) (product files name.now options.now))) }
    ensures bound { IfOk result (λ report. report.steps ≤ options.now.budget) }
    ensures deep { IfOk result (λ report. report.deepest ≤ 4096) }
    ensures err { OnErr result (IfSome (F.content finder.old) (λ files.
        AtFault (W.received bbl.old, L.received log.old) (W.received bbl.new, L.received log.new)
        (product_with files name.now options.now) options.now.budget)) }
    ensures answered { IfOk result (CompletesAsAnswered name.now options.now (F.answers finder.old, F.answers finder.new)
        (W.received bbl.old, L.received log.old) (W.received bbl.new, L.received log.new)) }
    ensures begun { OnErr result (FailsAsAnswered name.now options.now (F.answers finder.old, F.answers finder.new) (W.received bbl.old, L.received log.old)
        (W.received bbl.new, L.received log.new)) }
    ensures untouched { IfOk result (λ report. report.end ≡ NoTopFile → bbl.new ≡ bbl.old) }
    ensures counts { CountsOfThree result (F.failures finder.old, F.failures finder.new) (W.failures bbl.old, W.failures bbl.new)
        (L.failures log.old, L.failures log.new) }
    ensures joined { L.joined log.new ≡ L.joined log.old }
    ensures whole { WholeUnlessCutOff result (L.wholeness log.old) (L.wholeness log.new) }
    ensures counted { ReportCounts result (L.noted log.old, L.noted log.new) (log_counts 0 0) }
    ensures met { IfSome (F.content finder.old) (λ files.
        Hands (showing (L.noted log.old) (L.handed log.old)) (showing (L.noted log.new) (L.handed log.new))
        (MetInRun files name.now options.now (most_steps result options.now.budget))) }
    ensures met_as_answered { MetAsAnswered name.now options.now (F.answers finder.old, F.answers finder.new)
        (showing (L.noted log.old) (L.handed log.old)) (showing (L.noted log.new) (L.handed log.new)) (most_steps result options.now.budget) }
    ensures last { IfOk result (EndsWithLast (showing (L.noted log.old) (L.handed log.old)) (showing (L.noted log.new) (L.handed log.new))) }
    ensures stays { F.content finder.new ≡ F.content finder.old }
{
    let job = read_job(alloc, finder, name)?;
    run_job(alloc, finder, &job, options, bbl, log)
}

// Runs the job of this name, and notes each line of its log.
fn run_noting<F: Finder, W: Sink, L: Sink, N: Notebook>(
    alloc: Global,
    finder: &mut F,
    name: &[u8],
    options: &Options,
    bbl: &mut W,
    log: &mut L,
    notebook: &mut N,
) -> Result<Report, Fault>
    ensures ok { IfOk result (λ report. IfSome (F.content finder.old) (λ files.
        Completes report (W.received bbl.old, L.received log.old) (W.received bbl.new, L.received log.new) (product files name.now options.now))) }
    ensures bound { IfOk result (λ report. report.steps ≤ options.now.budget) }
    ensures deep { IfOk result (λ report. report.deepest ≤ 4096) }
    ensures err { OnErr result (IfSome (F.content finder.old) (λ files.
        AtFault (W.received bbl.old, L.received log.old) (W.received bbl.new, L.received log.new)
        (product_with files name.now options.now) options.now.budget)) }
    ensures answered { IfOk result (CompletesAsAnswered name.now options.now (F.answers finder.old, F.answers finder.new)
        (W.received bbl.old, L.received log.old) (W.received bbl.new, L.received log.new)) }
    ensures begun { OnErr result (FailsAsAnswered name.now options.now (F.answers finder.old, F.answers finder.new) (W.received bbl.old, L.received log.old)
        (W.received bbl.new, L.received log.new)) }
    ensures untouched { IfOk result (λ report. report.end ≡ NoTopFile → bbl.new ≡ bbl.old) }
    ensures counts { CountsOfThree result (F.failures finder.old, F.failures finder.new) (W.failures bbl.old, W.failures bbl.new)
        (L.failures log.old, L.failures log.new) }
    ensures noted { OnOk result (Printed (N.noted notebook.old, N.noted notebook.new) (L.received log.old, L.received log.new)) }
    ensures noted_at_fault { OnErr result (PrintedOrBrokenOff (N.noted notebook.old, N.noted notebook.new) (L.received log.old, L.received log.new)) }
    ensures noted_without_memory { IfErr result (λ fault. fault ≡ Fault.Memory → Printed (N.noted notebook.old, N.noted notebook.new)
        (L.received log.old, L.received log.new)) }
    ensures counted { ReportCounts result (N.noted notebook.old, N.noted notebook.new) (log_counts 0 0) }
    ensures met { IfSome (F.content finder.old) (λ files.
        Hands (showing (N.noted notebook.old) (N.handed notebook.old)) (showing (N.noted notebook.new) (N.handed notebook.new))
        (MetInRun files name.now options.now (most_steps result options.now.budget))) }
    ensures met_as_answered { MetAsAnswered name.now options.now (F.answers finder.old, F.answers finder.new)
        (showing (N.noted notebook.old) (N.handed notebook.old)) (showing (N.noted notebook.new) (N.handed notebook.new)) (most_steps result options.now.budget) }
    ensures last { IfOk result (EndsWithLast (showing (N.noted notebook.old) (N.handed notebook.old)) (showing (N.noted notebook.new) (N.handed notebook.new))) }
    ensures stays { F.content finder.new ≡ F.content finder.old }
{
    let mut noted = NotedLog::new(log, notebook);
    let result = run_named(alloc, finder, name, options, bbl, &mut noted);
    let (log, notebook) = noted.into_parts();
    let _ = log;
    let _ = notebook;
    result
}

// Says that a line has room for a break, which its length gives. It does nothing.
fn has_room(options: &Options)
    ensures { 3 ≤ options.now.line }
{
    let _ = options.line.get();
}

/// Runs the job of this name, which may end in `.aux`: reads its `.aux` files, its style and its databases, executes the style, and writes the
/// list of references to `bbl` and the log to `log`. The outputs aren't flushed.
pub fn run<F: Finder, W: Sink, L: Sink>(
    alloc: Global,
    finder: &mut F,
    name: &[u8],
    options: &Options,
    bbl: &mut W,
    log: &mut L,
) -> Result<Report, RunFault>
    // What was written is the one thing that stands in the relation between the job and its product, for a finder that shows its content. After a fault both
    // outputs are prefixes of it, and keep step.
    ensures written { IfOk result (λ report. IfSome (F.content finder.old) (λ files.
        WroteTheProduct files name.now options.now (W.received bbl.old, L.received log.old) (W.received bbl.new, L.received log.new) report)) }
    ensures broken_off { OnErr result (IfSome (F.content finder.old) (λ files.
        BeganTheProduct files name.now options.now (W.received bbl.old, L.received log.old) (W.received bbl.new, L.received log.new))) }

    // The same by the definition that computes the product: at Ok the report is the product's, and both outputs received its bytes.
    ensures report { IfOk result (λ report. IfSome (F.content finder.old) (λ files. report ≡ (product files name.now options.now).report)) }
    ensures bbl { OnOk result (IfSome (F.content finder.old) (λ files.
        Appends (W.received bbl.old) (W.received bbl.new) (product files name.now options.now).bbl)) }
    ensures log { OnOk result (IfSome (F.content finder.old) (λ files.
        Appends (L.received log.old) (L.received log.new) (log_of (product files name.now options.now)))) }

    // With a direct style no more bodies were open at once than it has functions, and with at most 4,096 functions no limit of calls was met.
    ensures direct { IfOk result (λ report. IfSome (F.content finder.old) (λ files.
        WhereDirect (reading_of files name.now).gives (λ functions. StaysWithin functions report))) }

    // After a fault both outputs are prefixes of the product's, and keep step; the log's last line is begun only after the whole list.
    // The device's fault is answered exactly where one of the three counts of failures rose, by one, and the call that failed is then the last of its device.
    ensures fault { OnErr result (IfSome (F.content finder.old) (λ files.
        AtFault (W.received bbl.old, L.received log.old) (W.received bbl.new, L.received log.new)
        (product_with files name.now options.now) options.now.budget)) }
    ensures counts { CountsOfRun result (F.failures finder.old, F.failures finder.new) (W.failures bbl.old, W.failures bbl.new)
        (L.failures log.old, L.failures log.new) }

    // Of every finder, whether it shows its content or not, as one over the files of a disk: it was asked for no name twice, and for all files that
    // agree with each answer that it gave in this run the report is that of their product for this name, and both outputs received its bytes. After a
    // fault both outputs are prefixes of their product's, and keep step.
    ensures answered { IfOk result (CompletesAsAnswered name.now options.now (F.answers finder.old, F.answers finder.new)
        (W.received bbl.old, L.received log.old) (W.received bbl.new, L.received log.new)) }
    ensures begun { OnErr result (FailsAsAnswered name.now options.now (F.answers finder.old, F.answers finder.new) (W.received bbl.old, L.received log.old)
        (W.received bbl.new, L.received log.new)) }

    // Whatever the finder and the sinks are.
    ensures bound { IfOk result (λ report. report.steps ≤ options.now.budget) }
    ensures deep { IfOk result (λ report. report.deepest ≤ 4096) }
    ensures stays { F.content finder.new ≡ F.content finder.old }

    // Where there is no top file, the list's sink isn't touched.
    ensures untouched { IfOk result (λ report. report.end ≡ NoTopFile → bbl.new ≡ bbl.old) }
{
    run_noted(alloc, finder, name, options, bbl, log, &mut Unnoted {})
}

/// Runs a job as `run` does, and hands each line of its log to `notebook`, as a value, right before the line is written.
pub fn run_noted<F: Finder, W: Sink, L: Sink, N: Notebook>(
    alloc: Global,
    finder: &mut F,
    name: &[u8],
    options: &Options,
    bbl: &mut W,
    log: &mut L,
    notebook: &mut N,
) -> Result<Report, RunFault>
    // For a notebook that shows what it was handed: the log received each line that was noted, in order, and nothing else. It is so too where memory was
    // refused; after the device's fault of the last line it may have a prefix.
    ensures noted { OnOk result (Printed (N.noted notebook.old, N.noted notebook.new) (L.received log.old, L.received log.new)) }
    ensures noted_at_fault { OnErr result (PrintedOrBrokenOff (N.noted notebook.old, N.noted notebook.new) (L.received log.old, L.received log.new)) }
    ensures noted_without_memory { IfErr result (λ fault. fault ≡ RunFault.Memory → Printed (N.noted notebook.old, N.noted notebook.new)
        (L.received log.old, L.received log.new)) }
    // The warnings and the errors that the report counts are those among the lines that were noted.
    ensures counted { IfOk result (λ report. CountsOfNoted (N.noted notebook.old, N.noted notebook.new) report) }

    // Where each line that was handed was met: in the job's files, while its style is executed and where it then stands, or at the end of the run. It is so of the run
    // over the content that a finder shows, and for every finder over all files that agree with its answers. At Ok the last line was handed last.
    ensures met { IfSome (F.content finder.old) (λ files.
        Hands (showing (N.noted notebook.old) (N.handed notebook.old)) (showing (N.noted notebook.new) (N.handed notebook.new))
        (MetInRun files name.now options.now (most_steps result options.now.budget))) }
    ensures met_as_answered { MetAsAnswered name.now options.now (F.answers finder.old, F.answers finder.new)
        (showing (N.noted notebook.old) (N.handed notebook.old)) (showing (N.noted notebook.new) (N.handed notebook.new)) (most_steps result options.now.budget) }
    ensures last { IfOk result (EndsWithLast (showing (N.noted notebook.old) (N.handed notebook.old)) (showing (N.noted notebook.new) (N.handed notebook.new))) }

    // All that `run` promises.
    // What was written is the one thing that stands in the relation between the job and its product, for a finder that shows its content. After a fault both
    // outputs are prefixes of it, and keep step.
    ensures written { IfOk result (λ report. IfSome (F.content finder.old) (λ files.
        WroteTheProduct files name.now options.now (W.received bbl.old, L.received log.old) (W.received bbl.new, L.received log.new) report)) }
    ensures broken_off { OnErr result (IfSome (F.content finder.old) (λ files.
        BeganTheProduct files name.now options.now (W.received bbl.old, L.received log.old) (W.received bbl.new, L.received log.new))) }

    // The same by the definition that computes the product: at Ok the report is the product's, and both outputs received its bytes.
    ensures report { IfOk result (λ report. IfSome (F.content finder.old) (λ files. report ≡ (product files name.now options.now).report)) }
    ensures bbl { OnOk result (IfSome (F.content finder.old) (λ files.
        Appends (W.received bbl.old) (W.received bbl.new) (product files name.now options.now).bbl)) }
    ensures log { OnOk result (IfSome (F.content finder.old) (λ files.
        Appends (L.received log.old) (L.received log.new) (log_of (product files name.now options.now)))) }

    // With a direct style no more bodies were open at once than it has functions, and with at most 4,096 functions no limit of calls was met.
    ensures direct { IfOk result (λ report. IfSome (F.content finder.old) (λ files.
        WhereDirect (reading_of files name.now).gives (λ functions. StaysWithin functions report))) }

    // After a fault both outputs are prefixes of the product's, and keep step; the log's last line is begun only after the whole list.
    // The device's fault is answered exactly where one of the three counts of failures rose, by one, and the call that failed is then the last of its device.
    ensures fault { OnErr result (IfSome (F.content finder.old) (λ files.
        AtFault (W.received bbl.old, L.received log.old) (W.received bbl.new, L.received log.new)
        (product_with files name.now options.now) options.now.budget)) }
    ensures counts { CountsOfRun result (F.failures finder.old, F.failures finder.new) (W.failures bbl.old, W.failures bbl.new)
        (L.failures log.old, L.failures log.new) }

    // Of every finder, whether it shows its content or not, as one over the files of a disk: it was asked for no name twice, and for all files that
    // agree with each answer that it gave in this run the report is that of their product for this name, and both outputs received its bytes. After a
    // fault both outputs are prefixes of their product's, and keep step.
    ensures answered { IfOk result (CompletesAsAnswered name.now options.now (F.answers finder.old, F.answers finder.new)
        (W.received bbl.old, L.received log.old) (W.received bbl.new, L.received log.new)) }
    ensures begun { OnErr result (FailsAsAnswered name.now options.now (F.answers finder.old, F.answers finder.new) (W.received bbl.old, L.received log.old)
        (W.received bbl.new, L.received log.new)) }

    // Whatever the finder and the sinks are.
    ensures bound { IfOk result (λ report. report.steps ≤ options.now.budget) }
    ensures deep { IfOk result (λ report. report.deepest ≤ 4096) }
    ensures stays { F.content finder.new ≡ F.content finder.old }

    // Where there is no top file, the list's sink isn't touched.
    ensures untouched { IfOk result (λ report. report.end ≡ NoTopFile → bbl.new ≡ bbl.old) }
{
    has_room(options);
    match run_noting(alloc, finder, name, options, bbl, log, notebook) {
        Ok(report) => Ok(report),
        Err(Fault::Memory) => Err(RunFault::Memory),
        Err(Fault::Device) => Err(RunFault::Device),
        Err(Fault::FileLimit | Fault::StringLimit) => unreachable!(),
    }
}
