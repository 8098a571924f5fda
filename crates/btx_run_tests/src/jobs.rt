//! Jobs over files in memory, and how their runs end.
use btx_run::{
    KeptBytes, LineLength, MemoryFinder, Options, Over, Report, RunFault, TextMode, run,
};
use btx_text::Fault;
use std::alloc::{AllocError, Global};

/// A file's name and bytes.
pub type File<'a> = (&'a [u8], &'a [u8]);

pub const AUX: &[u8] = b"\\citation{k}\n\\bibdata{d}\n\\bibstyle{s}\n";

pub const DATABASE: &[u8] = b"@misc{k, title = {T}}\n";

pub const STYLE: &[u8] =
    b"ENTRY {title}{}{} FUNCTION {misc}{} READ FUNCTION {f} {\"a\" write$ newline$} EXECUTE {f}\n";

/// The log's lines of a job that these three files are, before its last.
pub const FOUND: &[u8] =
    b"The top-level auxiliary file: job.aux\nThe style file: s.bst\nDatabase file #1: d.bib\n";

/// The first of these lines, and the others.
pub const TOP: &[u8] = b"The top-level auxiliary file: job.aux\n";

pub const FILES: &[u8] = b"The style file: s.bst\nDatabase file #1: d.bib\n";

/// What a run wrote, and what it answered. A test that holds a finder and the outputs themselves takes long to prove, since each `?` is
/// a way out on which all of them is dropped.
#[derive(Drop)]
pub struct Outputs {
    pub bbl: Vec<u8>,
    pub log: Vec<u8>,
    pub answer: Result<Report, RunFault>,
}

/// Makes the usual options, with the budget `budget`, in steps.
pub fn options(budget: u64) -> Options {
    Options {
        min_crossrefs: 2,
        budget,
        text: TextMode::Bytes,
        line: LineLength::default(),
        entry_max: KeptBytes::of_entries(),
        global_max: KeptBytes::of_globals(),
    }
}

/// Makes the files of a job: its `.aux` file, its style and its database.
pub fn job_of<'a>(aux: &'a [u8], style: &'a [u8], database: &'a [u8]) -> [File<'a>; 3] {
    [(b"job.aux", aux), (b"s.bst", style), (b"d.bib", database)]
}

/// Runs the job `job` over `files`, with these options.
pub fn run_with(alloc: Global, files: &[File<'_>], options: &Options) -> Result<Outputs, Fault> {
    let mut finder = MemoryFinder::new(alloc, files)?;
    let mut bbl = Over::new(Vec::new(alloc));
    let mut log = Over::new(Vec::new(alloc));
    let answer = run(alloc, &mut finder, b"job", options, &mut bbl, &mut log);
    Ok(Outputs {
        bbl: bbl.writer,
        log: log.writer,
        answer,
    })
}

/// The status that stands for the fault of a device.
pub const DEVICE: u8 = 6;

/// The exit status for what a run answered.
pub fn status_of(answer: Result<Report, RunFault>) -> u8 {
    match answer {
        Ok(report) => report.status,
        Err(RunFault::Memory) => 5,
        Err(RunFault::Device) => DEVICE,
    }
}

/// What came of a run where a device fails at one write: it was past that write, it broke off there as it has to, or neither.
#[derive(Clone, Copy)]
pub enum Came {
    Past,
    BrokenOff,
    Wrong,
}

// The log's last line.
fn last_line(alloc: Global, words: &str, report: &Report) -> Result<String, AllocError> {
    let (warnings, errors, steps) = (report.warnings, report.errors, report.steps);
    format!(in alloc; "Ended: {words}, warnings {warnings}, errors {errors}, steps {steps}\n")
}

// What of a text is after these pieces; None if it doesn't begin so.
fn behind<'a>(text: &'a [u8], pieces: &[&[u8]]) -> Option<&'a [u8]> {
    let mut rest = text;
    for piece in pieces {
        rest = rest.strip_prefix(*piece)?;
    }
    Some(rest)
}

// Whether a run's log has this last line after these pieces.
fn is_logged(ran: &Outputs, log: &[&[u8]], last: Result<String, AllocError>) -> bool {
    match last {
        Ok(last) => behind(ran.log.as_slice(), log) == Some(last.as_bytes()),
        Err(_) => false,
    }
}

/// Whether a run wrote and answered so; the log is given in pieces, without the last line, which follows from the report and the words for its end.
pub fn is_ended(
    alloc: Global,
    ran: &Outputs,
    bbl: &[u8],
    log: &[&[u8]],
    report: Report,
    words: &str,
) -> bool {
    let facts = [
        ran.answer == Ok(report),
        ran.bbl.as_slice() == bbl,
        is_logged(ran, log, last_line(alloc, words, &report)),
    ];
    facts == [true; 3]
}
