//! Jobs that were worked by hand, with all that they write and answer.
use crate::jobs::{AUX, DATABASE, FILES, Outputs, TOP, is_ended, job_of, options, run_with};
use btx_run::{End, Limit, Report};
use btx_tests::texts::joined;
use btx_text::Fault;
use std::alloc::{AllocError, Global};

/// How the run of a row ends.
#[derive(Clone, Copy)]
pub enum Ends {
    Finished,
    Stopped,
    Literals,
    Calls,
    Loops,
    String,
}

/// A job, and what comes of it. It has byte strings, numbers and plain enums alone, so that a table of rows is one constant.
#[derive(Clone, Copy)]
pub struct Row<'a> {
    pub aux: &'a [u8],
    pub database: &'a [u8],
    /// The style up to its READ.
    pub declared: &'a [u8],
    /// The style after its READ.
    pub text: &'a [u8],
    pub budget: u64,
    pub bbl: &'a [u8],
    /// What the log has between the lines of the top file and of the style.
    pub before: &'a [u8],
    /// What the log has after the line of the database, without its last line.
    pub after: &'a [u8],
    pub ends: Ends,
    pub steps: u64,
    pub deepest: usize,
    pub warnings: u64,
    pub errors: u64,
}

/// The start of a style with one field and one type of entry.
pub const DECLARED: &[u8] = b"ENTRY {title}{}{} FUNCTION {misc}{} READ ";

/// The usual job of a style that executes one function, with the default options. It finishes without a message.
pub const USUAL: Row<'static> = Row {
    aux: AUX,
    database: DATABASE,
    declared: DECLARED,
    text: b"",
    budget: 1_000_000_000,
    bbl: b"",
    before: b"",
    after: b"",
    ends: Ends::Finished,
    steps: 0,
    deepest: 1,
    warnings: 0,
    errors: 0,
};

impl Ends {
    // The end, the status of a run that ends so with `errors` errors, and the words for it in the log.
    fn end(self, errors: u64) -> (End, u8, &'static str) {
        match self {
            Ends::Finished => (End::Finished, if errors == 0 { 0 } else { 2 }, "finished"),
            Ends::Stopped => (End::Stopped, 4, "stopped"),
            Ends::Literals => (End::Limit(Limit::Literals), 3, "limit literals"),
            Ends::Calls => (End::Limit(Limit::Calls), 3, "limit calls"),
            Ends::Loops => (End::Limit(Limit::Loops), 3, "limit loops"),
            Ends::String => (End::Limit(Limit::String), 3, "limit string"),
        }
    }
}

impl Row<'_> {
    // What the run answers, and the words for its end.
    fn report(&self) -> (Report, &'static str) {
        let (end, status, words) = self.ends.end(self.errors);
        let report = Report {
            status,
            end,
            steps: self.steps,
            deepest: self.deepest,
            warnings: self.warnings,
            errors: self.errors,
        };
        (report, words)
    }
}

/// The style of a row.
pub fn style_of(alloc: Global, row: &Row<'_>) -> Result<Vec<u8>, AllocError> {
    joined(alloc, &[row.declared, row.text])
}

/// Runs the job of a row.
pub fn run_row(alloc: Global, row: &Row<'_>) -> Result<Outputs, Fault> {
    let style = style_of(alloc, row)?;
    let files = job_of(row.aux, &style, row.database);
    run_with(alloc, &files, &options(row.budget))
}

// Whether a run wrote and answered what a row says.
fn is_given(alloc: Global, ran: &Outputs, row: &Row<'_>) -> bool {
    let log = [TOP, row.before, FILES, row.after];
    let (report, words) = row.report();
    is_ended(alloc, ran, row.bbl, &log, report, words)
}

/// Whether the job of a row writes and answers what the row says.
pub fn holds(alloc: Global, row: &Row<'_>) -> bool {
    match run_row(alloc, row) {
        Ok(ran) => is_given(alloc, &ran, row),
        Err(_) => false,
    }
}

/// How many of the rows hold, up to the first that doesn't.
pub fn holding(alloc: Global, rows: &[Row<'_>]) -> usize {
    for (number, row) in rows.iter().enumerate() {
        if !holds(alloc, row) {
            return number;
        }
    }
    rows.len()
}
