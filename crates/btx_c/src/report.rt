//! What a run answered, in numbers.
ghost use Rattle.std.specs.Prelude.{◌≡◌};
ghost use Rattle.btx_c.specs.Reports.{end_number, in_numbers};

use crate::cause::{Cause, LIST_FULL, LOG_FULL};
use btx_run::{End, Limit, Report};

/// What a run answered, in numbers as C has them.
#[repr(C)]
#[derive(Clone, Copy)]
pub struct BtxReport {
    /// 0 finished without error messages, 2 finished with some, 3 a limit or no top file, 4 stopped, 5 broken off.
    pub status: u32,
    /// How the run ended: 0 finished, 1 stopped, 2 no top file; 3 to 8 at a limit, of literals, calls, loops, a string, a file, files. Or why it
    /// broke off: 9 memory was refused, 10 an unknown file, 11 the list is full, 12 the log is full.
    pub end: u32,
    /// The steps taken.
    pub steps: u64,
    /// The greatest number of bodies of functions that were open at once.
    pub deepest: u64,
    /// The warnings in the log.
    pub warnings: u64,
    /// The error messages in the log.
    pub errors: u64,
    /// How many bytes of the list were written.
    pub list_len: usize,
    /// How many bytes of the log were written.
    pub log_len: usize,
}

/// The status of a run that broke off.
pub const BROKEN_OFF: u32 = 5;

// Answers the number of an end.
#[tactic(auto, unfolding(crate::specs::Reports::end_number))]
fn end_number(end: End) -> u32
    ensures { result ≡ end_number end }
{
    match end {
        End::Finished => 0,
        End::Stopped => 1,
        End::NoTopFile => 2,
        End::Limit(Limit::Literals) => 3,
        End::Limit(Limit::Calls) => 4,
        End::Limit(Limit::Loops) => 5,
        End::Limit(Limit::String) => 6,
        End::Limit(Limit::File) => 7,
        End::Limit(Limit::Files) => 8,
    }
}

/// Answers a report in numbers, with the lengths of the list and the log.
pub fn in_numbers(report: Report, list_len: usize, log_len: usize) -> BtxReport
    ensures { result ≡ in_numbers report list_len log_len }
{
    BtxReport {
        status: report.status as u32,
        end: end_number(report.end),
        steps: report.steps,
        deepest: report.deepest as u64,
        warnings: report.warnings,
        errors: report.errors,
        list_len,
        log_len,
    }
}

/// Answers the report of a run that broke off, with the lengths of what it wrote.
pub fn broken_off(cause: Cause, list_len: usize, log_len: usize) -> BtxReport
    ensures status { result.status ≡ BROKEN_OFF }
    ensures list_full { cause ≡ Cause.ListFull → result.end ≡ LIST_FULL }
    ensures log_full { cause ≡ Cause.LogFull → result.end ≡ LOG_FULL }
    ensures list { result.list_len ≡ list_len }
    ensures log { result.log_len ≡ log_len }
{
    BtxReport {
        status: BROKEN_OFF,
        end: cause.number(),
        steps: 0,
        deepest: 0,
        warnings: 0,
        errors: 0,
        list_len,
        log_len,
    }
}
