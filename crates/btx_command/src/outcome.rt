//! How the program ends.
ghost use Rattle.std.specs.Prelude.{◌≡◌, ◌↔◌, ◌<◌};
ghost use Rattle.std.specs.IoError.{error_kind};
ghost use Rattle.btx_command.specs.FileErrors.{output_fault};
ghost use Rattle.btx_command.specs.Status.{IsWell, exit_of, status_at};

use btx_run::{Report, RunFault};
use std::io;
use std::io::ErrorKind;

/// How the program ends. Each end has one exit status.
#[derive(Clone, Copy, Debug, PartialEq, Eq)]
pub enum Exit {
    /// Help or the version was asked for, and printed.
    Shown,
    /// The command line is refused.
    Refused,
    /// The job ran to one of its ends.
    Ran(Report),
    /// Memory was refused, or a file or an output failed.
    Failed(RunFault),
}

impl Exit {
    /// Answers the program's end for what a job answered.
    pub fn of(answer: Result<Report, RunFault>) -> Exit
        ensures { result ≡ exit_of answer }
    {
        match answer {
            Ok(report) => Exit::Ran(report),
            Err(fault) => Exit::Failed(fault),
        }
    }

    /// The exit status: 0 and 1 for words that aren't run, the report's for a job that ran, 5 for want of memory, 6 for a device. It is 0 exactly
    /// where nothing went wrong; and a fault's status is none that a report has.
    pub fn status(self) -> u8
        ensures table { result ≡ status_at self }
        ensures well { (result ≡ 0) ↔ IsWell self }
        ensures fault { (fault : RunFault) → self ≡ Exit.Failed fault → 4 < result }
    {
        match self {
            Exit::Shown => 0,
            Exit::Refused => 1,
            Exit::Ran(report) => report.status,
            Exit::Failed(RunFault::Memory) => 5,
            Exit::Failed(RunFault::Device) => 6,
        }
    }
}

/// Answers the exit status for what a run answered: the report's, 5 for want of memory, 6 for a device.
pub fn exit_status(answer: &Result<Report, RunFault>) -> u8
    ensures { result ≡ status_at (exit_of answer.now) }
{
    Exit::of(*answer).status()
}

/// Answers the fault that an output's error is for the program.
pub(crate) fn output_fault(error: &io::Error) -> RunFault
    ensures { result ≡ output_fault (error_kind error.now) }
{
    match error.kind() {
        ErrorKind::OutOfMemory => RunFault::Memory,
        _ => RunFault::Device,
    }
}
