//! A job of a real folder, with the files that it writes, and what is printed of a log.
use super::scratch::{make_folder, write_file};
use btx_command::{History, RealSystem, Settings, SystemOutputs, path_of, printed_log, run_job};
use btx_run::{KeptBytes, LineLength, Options, Report, RunFault, TextMode};
use std::test::Fail;
use std::{fs, io};

const STYLE: &[u8] =
    b"ENTRY {title}{}{} FUNCTION {misc}{} READ FUNCTION {f} {\"a\" write$ newline$} EXECUTE {f}\n";

const LOG: &str =
    "The top-level auxiliary file: job.aux\nThe style file: s.bst\nDatabase file #1: d.bib\nEnded: finished, warnings 0, errors 0, steps 4\n";

// Writes the files of the job.
fn write_job(rt: &HostRuntime, directory: &str) -> io::Result<()> {
    let aux = b"\\citation{k}\n\\bibdata{d}\n\\bibstyle{s}\n";
    write_file(rt, directory, "job.aux", aux)?;
    write_file(rt, directory, "d.bib", b"@misc{k, title = {T}}\n")?;
    write_file(rt, directory, "s.bst", STYLE)
}

// The job in a folder, with a budget that just covers it.
fn settings_in(directory: &str) -> Settings<'_> {
    Settings {
        directory,
        job: "job.aux",
        name: "job",
        terse: true,
        options: Options {
            min_crossrefs: 2,
            budget: 4,
            text: TextMode::Bytes,
            line: LineLength::default(),
            entry_max: KeptBytes::of_entries(),
            global_max: KeptBytes::of_globals(),
        },
    }
}

// What a run answered, of its report the status alone.
fn status_of(answer: Result<Report, RunFault>) -> Result<u8, RunFault> {
    Ok(answer?.status)
}

// Runs the job in a folder, and gives its status.
fn status_in(rt: &HostRuntime, directory: &str) -> Result<u8, RunFault> {
    let settings = settings_in(directory);
    let mut history = History::new(rt.alloc());
    let mut outputs = SystemOutputs::new(rt);
    let (_system, answer) = run_job(
        rt.alloc(),
        &settings,
        RealSystem::new(rt),
        &mut history,
        &mut outputs,
    );
    status_of(answer)
}

// Whether an output of the job has this text.
fn wrote(rt: &HostRuntime, directory: &str, ending: &str, text: &str) -> Result<bool, Fail> {
    let path = path_of(rt.alloc(), &settings_in(directory), ending)?;
    let found = fs::read_to_string(rt, path.as_str())?;
    Ok(found.as_str() == text)
}

// Whether the job runs in a folder, and fails when the folder is removed.
fn runs_in(rt: &HostRuntime, directory: &str) -> Result<bool, Fail> {
    write_job(rt, directory)?;
    let has_run = status_in(rt, directory) == Ok(0)
        && wrote(rt, directory, ".bbl", "a\n")?
        && wrote(rt, directory, ".blg", LOG)?;
    fs::remove_dir_all(rt, directory)?;
    Ok(has_run && status_in(rt, directory) == Err(RunFault::Device))
}

#[test]
fn writes_files(rt: HostRuntime) -> Result<(), Fail> {
    let directory = make_folder(&rt, rt.alloc(), "job")?;
    assert!(rt; runs_in(&rt, directory.as_str())?);
    Ok(())
}

// A log is printed whole, and not at all where the settings are terse.
#[test]
fn prints_logs(rt: HostRuntime) {
    let log = LOG.as_bytes();
    let mut settings = settings_in(".");
    assert!(rt; printed_log(&settings, log).is_empty());
    settings.terse = false;
    assert!(rt; printed_log(&settings, log) == log);
}
