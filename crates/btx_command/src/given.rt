//! What a command line says.
ghost use Rattle.std.specs.Prelude.{◌≡◌};
ghost use Rattle.btx_command.specs.Status.{refusal_exit, refusal_text, status_at};

use crate::outcome::Exit;
use btx_run::{Options, RunFault};

/// What the command line asks for.
#[derive(Debug, Drop)]
pub struct Settings<'a> {
    /// The folder of the job's files.
    pub directory: &'a str,
    /// The job, as the command line gives it: a name, with or without `.aux`.
    pub job: &'a str,
    /// The job without a last `.aux`: the name of its outputs, without their endings. `settings` makes it of the job; another value only renames the outputs.
    pub name: &'a str,
    /// Whether the log isn't printed.
    pub terse: bool,
    /// What is asked of the run.
    pub options: Options,
}

/// A command line that is not run. One that is refused for want of memory has no text; each other one has its own.
#[derive(Debug, Drop)]
pub enum Refusal {
    /// Help or the version was asked for: what is printed.
    Shown(String),
    /// The words are refused: the text that says why.
    Mistake(String),
    /// Memory was refused.
    Memory,
}

impl Refusal {
    /// Answers the program's end, if the text of this refusal, where it has one, could be printed.
    pub fn exit(&self) -> Exit
        ensures { result ≡ refusal_exit self.now }
    {
        match self {
            Refusal::Shown(_) => Exit::Shown,
            Refusal::Mistake(_) => Exit::Refused,
            Refusal::Memory => Exit::Failed(RunFault::Memory),
        }
    }

    /// Answers the exit status: 0 for a text that was asked for, 1 for a mistake, 5 for want of memory.
    pub fn status(&self) -> u8
        ensures { result ≡ status_at (refusal_exit self.now) }
    {
        self.exit().status()
    }

    /// Answers the text: what is printed on standard output where it was asked for, and on standard error for a mistake. It is empty for want of memory.
    pub fn text(&self) -> &str
        ensures { result.now ≡ refusal_text self.now }
    {
        match self {
            Refusal::Shown(text) | Refusal::Mistake(text) => text.as_str(),
            Refusal::Memory => "",
        }
    }
}
