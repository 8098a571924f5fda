//! A job of a folder.
ghost use Rattle.std.specs.Prelude.{◌≡◌, ◌≤◌, IfErr, IfOk, string_bytes, true};
ghost use Rattle.btx_run.specs.language.RunFaults.{CountsOfRun};
ghost use Rattle.btx_command.specs.Jobs.{DoesJob, DoesWith, HandsLog, IsReportOfSome, ListsJob, RunsJob, both_done};
ghost use Rattle.btx_command.specs.ListFiles.{keeps_old};
ghost use Rattle.btx_command.specs.Paths.{list_path, log_path};
ghost use Rattle.btx_command.specs.Printing.{printed_log};
ghost use Rattle.btx_command.specs.Status.{first_fault};

use crate::directory::DirectoryFinder;
use crate::given::Settings;
use crate::list_file::{EmptiedFile, ListFile};
use crate::outputs::Outputs;
use crate::paths::path_of;
use crate::system::System;
use btx_run::{Finder, History, Over, Report, RunFault, Sink, run};
use btx_text::Failures;
use std::alloc::Global;
use std::mem;

// Runs the job that the settings ask for.
fn run_over<F: Finder, W: Sink, L: Sink>(
    alloc: Global,
    settings: &Settings<'_>,
    finder: &mut F,
    bbl: &mut W,
    log: &mut L,
) -> Result<Report, RunFault>
    ensures runs { RunsJob (F.content finder.old) (F.answers finder.old, F.answers finder.new) settings.now (W.received bbl.old, L.received log.old)
        (W.received bbl.new, L.received log.new) result }
    ensures counts { CountsOfRun result (F.failures finder.old, F.failures finder.new) (W.failures bbl.old, W.failures bbl.new)
        (L.failures log.old, L.failures log.new) }
    ensures untouched { keeps_old result ≡ true → bbl.new ≡ bbl.old }
{
    let name = settings.job.as_bytes();
    run(alloc, finder, name, &settings.options, bbl, log)
}

/// Answers what is printed of a log: all of it, or nothing where the settings are terse.
pub fn printed_log<'a>(settings: &Settings<'_>, log: &'a [u8]) -> &'a [u8]
    ensures { result.now ≡ printed_log settings.now log.now }
{
    if settings.terse { &[] } else { log }
}

// Of two answers the first fault.
fn both_done(first: Result<(), RunFault>, second: Result<(), RunFault>) -> Result<(), RunFault>
    ensures { result ≡ both_done first second }
{
    first?;
    second?;
    Ok(())
}

// Hands the log, with the failures of the writes that kept it, to the file of this path and then, also where that failed, what is to be printed to standard
// output. The first fault is answered.
fn write_log<O: Outputs>(
    outputs: &mut O,
    settings: &Settings<'_>,
    path: &str,
    log: &[u8],
    kept: Failures,
) -> Result<(), RunFault>
    ensures { HandsLog settings.now path.now log.now kept (O.acts outputs.old) (O.acts outputs.new) result }
{
    let stored = outputs.store_log(path, log, kept);
    let printed = outputs.print(printed_log(settings, log));
    both_done(stored, printed)
}

// What a run answered, unless only what followed it failed: of two faults the first counts.
fn first_fault(
    answer: Result<Report, RunFault>,
    written: Result<(), RunFault>,
) -> Result<Report, RunFault>
    ensures { result ≡ first_fault answer written }
{
    let report = answer?;
    written?;
    Ok(report)
}

// Runs the job and then, also after a fault, ends its list's file. The first fault is answered.
fn list_job<F: Finder, W: EmptiedFile, L: Sink>(
    alloc: Global,
    settings: &Settings<'_>,
    finder: &mut F,
    list: &mut ListFile<W>,
    log: &mut L,
) -> Result<Report, RunFault>
    ensures { ListsJob (F.content finder.old) (F.answers finder.old, F.answers finder.new) W.state settings.now
        (F.failures finder.old, F.failures finder.new) list.old list.new (L.received log.old, L.received log.new)
        (L.failures log.old, L.failures log.new) result }
{
    let ran = run_over(alloc, settings, finder, list, log);
    let finished = list.finish(&ran);
    first_fault(ran, finished)
}

// Writes the job's list to its file, which is open, and closes it; and then, also after a fault, hands on the log to the file of this path. The
// first fault is answered.
fn do_job<F: Finder, O: Outputs>(
    alloc: Global,
    settings: &Settings<'_>,
    finder: &mut F,
    file: O::List,
    outputs: &mut O,
    log_path: &str,
) -> Result<Report, RunFault>
    ensures { DoesWith (F.content finder.old) (F.answers finder.old, F.answers finder.new) O.List.state settings.now
        (F.failures finder.old, F.failures finder.new) log_path.now file (O.acts outputs.old) (O.acts outputs.new) result }
{
    let mut log = Over::new(Vec::new(alloc));
    let mut list = ListFile::new(file);
    let listed = list_job(alloc, settings, finder, &mut list, &mut log);
    outputs.close_list(list.into_file());
    let kept = log.failures;
    let written = write_log(outputs, settings, log_path, log.writer.as_slice(), kept);
    first_fault(listed, written)
}

// The paths of the job's list and of its log.
fn paths_of(alloc: Global, settings: &Settings<'_>) -> Result<(String, String), RunFault>
    ensures paths { IfOk result (λ paths. (string_bytes paths.0 ≡ list_path settings.now) × (string_bytes paths.1 ≡ log_path settings.now)) }
    ensures memory { IfErr result (λ fault. fault ≡ RunFault.Memory) }
{
    let list_path = path_of(alloc, settings, ".bbl")?;
    let log_path = path_of(alloc, settings, ".blg")?;
    Ok((list_path, log_path))
}

/// Does the job over the files of its folder: writes `JOB.bbl`, `JOB.blg` and, where the settings aren't terse, to standard output the log again.
/// The log is written also after a fault, except where `JOB.bbl` can't be opened or memory is refused for the two paths. The first fault is answered,
/// and the system handed back.
pub fn run_job<S: System + Drop, O: Outputs>(
    alloc: Global,
    settings: &Settings<'_>,
    system: S,
    history: &mut History,
    outputs: &mut O,
) -> (S, Result<Report, RunFault>)
    ensures does { DoesJob (S.content system) (history.old, history.new) O.List.state settings.now (S.failures system, S.failures result.0) (O.acts outputs.old)
        (O.acts outputs.new) result.1 }
    ensures bound { IfOk result.1 (λ report. report.steps ≤ settings.now.options.budget) }
    ensures product { IfOk result.1 (IsReportOfSome settings.now) }
{
    let (list_path, log_path) = match paths_of(alloc, settings) {
        Ok(paths) => paths,
        Err(fault) => return (system, Err(fault)),
    };
    let file = match outputs.open_list(list_path.as_str()) {
        Ok(file) => file,
        Err(fault) => return (system, Err(fault)),
    };
    outputs.empty_log(log_path.as_str());
    let given = mem::replace(history, History::new(alloc));
    let mut finder = DirectoryFinder::new(system, settings.directory, given);
    let answer = do_job(
        alloc,
        settings,
        &mut finder,
        file,
        outputs,
        log_path.as_str(),
    );
    let (system, given) = finder.into_parts();
    *history = given;
    (system, answer)
}
