//! Why a run broke off.
ghost use Rattle.std.specs.Prelude.{◌≡◌, ◌<◌, ◌≤◌, ◌⊎◌};

use crate::exports::{ASKS, FULL, MEMORY, REFUSED};

/// Why a run broke off.
#[derive(Clone, Copy)]
pub enum Cause {
    /// Memory was refused.
    Memory,
    /// It asked for a file of which nothing was said.
    UnknownFile,
    /// The list is longer than its room.
    ListFull,
    /// The log is longer than its room.
    LogFull,
}

/// The number of `ListFull` in the report.
pub const LIST_FULL: u32 = 11;

/// The number of `LogFull` in the report.
pub const LOG_FULL: u32 = 12;

impl Cause {
    /// What `btx_run` answers.
    pub fn answer(self) -> u32
        ensures most { result ≤ FULL }
        ensures broke { REFUSED < result }
        ensures asks { result ≡ ASKS → self ≡ Cause.UnknownFile }
        ensures full { result ≡ FULL → (self ≡ Cause.ListFull) ⊎ (self ≡ Cause.LogFull) }
    {
        match self {
            Cause::Memory => MEMORY,
            Cause::UnknownFile => ASKS,
            Cause::ListFull | Cause::LogFull => FULL,
        }
    }

    /// The number in the report, which goes on from those of the ends of a run.
    pub fn number(self) -> u32
        ensures list { self ≡ Cause.ListFull → result ≡ LIST_FULL }
        ensures log { self ≡ Cause.LogFull → result ≡ LOG_FULL }
    {
        match self {
            Cause::Memory => 9,
            Cause::UnknownFile => 10,
            Cause::ListFull => LIST_FULL,
            Cause::LogFull => LOG_FULL,
        }
    }
}
