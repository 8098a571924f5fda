//! What a run answers.
ghost use Rattle.std.specs.Prelude.{◌≡◌};
ghost use Rattle.btx_machine.specs.language.Reports.{end_as, report_of, status_of, end_word};

use crate::ending::Ending;
use btx_text::Limit;

/// How a run ends.
#[derive(Clone, Copy, Debug, PartialEq, Eq)]
pub enum End {
    /// All of the style was executed.
    Finished,
    /// The budget did not cover the next step.
    Stopped,
    /// A limit was met.
    Limit(Limit),
    /// There is no top-level `.aux` file.
    NoTopFile,
}

/// How many lines of the log are warnings, and how many are errors; the greatest value stands for itself and all above.
#[derive(Clone, Copy, Debug, PartialEq, Eq)]
pub struct LogCounts {
    pub warnings: u64,
    pub errors: u64,
}

impl LogCounts {
    /// No line yet.
    pub const NONE: LogCounts = LogCounts {
        warnings: 0,
        errors: 0,
    };
}

/// What a run answers.
#[derive(Clone, Copy, Debug, PartialEq, Eq)]
pub struct Report {
    /// 0 finished without error messages, 2 finished with some, 3 a limit or no top file, 4 stopped.
    pub status: u8,
    pub end: End,
    /// The steps taken, at most the budget.
    pub steps: u64,
    /// The greatest number of bodies of functions that were open at once.
    pub deepest: usize,
    /// The warnings in the log; the greatest value stands for itself and all above.
    pub warnings: u64,
    /// The error messages in the log; the greatest value stands for itself and all above.
    pub errors: u64,
}

impl End {
    /// Answers the end of a run whose style was executed, from how that ended.
    pub fn of(ending: Ending) -> End
        ensures { result ≡ end_as ending }
    {
        match ending {
            Ending::Finished => End::Finished,
            Ending::Stopped => End::Stopped,
            Ending::Limit(kind) => End::Limit(kind),
        }
    }

    /// Answers the word for this end in the log's last line.
    #[tactic(auto, unfolding(crate::specs::language::Reports::end_word))]
    pub fn word(self) -> &'static str
        ensures { result.now ≡ end_word self }
    {
        match self {
            End::Finished => "finished",
            End::Stopped => "stopped",
            End::Limit(Limit::Literals) => "limit literals",
            End::Limit(Limit::Calls) => "limit calls",
            End::Limit(Limit::Loops) => "limit loops",
            End::Limit(Limit::String) => "limit string",
            End::Limit(Limit::File) => "limit file",
            End::Limit(Limit::Files) => "limit files",
            End::NoTopFile => "no top file",
        }
    }

    /// Answers the exit status of a run that ended so, with `errors` error messages.
    pub fn status(self, errors: u64) -> u8
        ensures { result ≡ status_of self errors }
    {
        match self {
            End::Finished if errors == 0 => 0,
            End::Finished => 2,
            End::Limit(_) | End::NoTopFile => 3,
            End::Stopped => 4,
        }
    }
}

/// Makes the report of a run that ended so: its status, steps, greatest depth, warnings and errors.
pub fn report_of(end: End, steps: u64, deepest: usize, counts: LogCounts) -> Report
    ensures { result ≡ report_of end steps deepest counts }
{
    Report {
        status: end.status(counts.errors),
        end,
        steps,
        deepest,
        warnings: counts.warnings,
        errors: counts.errors,
    }
}
