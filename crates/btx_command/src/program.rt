//! The whole program: what the words of a command line ask for, and the exit code.
ghost use Rattle.std.specs.Prelude.{◌≡◌, [], ◌∷◌, map, string_bytes};
ghost use Rattle.std.specs.IoError.{error_kind};
ghost use Rattle.std.specs.Process.{exit_status};
ghost use Rattle.btx_command.specs.Acts.{WereDone, ReportedFault, reporting};
ghost use Rattle.btx_command.specs.Ends.{AreWordsOf, ComesTo, EndsFor, ExitsWith, IsReported, IsUnread};
ghost use Rattle.btx_command.specs.Spelling.{hint_of};
ghost use Rattle.btx_command.specs.Status.{exit_of, refusal_exit, status_at, reported_by};

use crate::command_line::settings;
use crate::given::Refusal;
use crate::job::run_job;
use crate::outcome::Exit;
use crate::outputs::Outputs;
use crate::spelling::hint;
use crate::system::System;
use btx_run::{History, Report, RunFault};
use std::alloc::Global;
use std::env::Args;
use std::io;
use std::io::ErrorKind;
use std::process::ExitCode;

// What is reported of words that are no text.
const NO_TEXT: &str = "error: invalid UTF-8 was detected in one or more arguments\n";

// The words of the command line, the program's name first, from the system's answer when it was asked for them.
fn words(alloc: Global, args: io::Result<Args>) -> io::Result<Vec<String>>
    ensures { AreWordsOf args result }
{
    let words = args?.collect(alloc)?;
    Ok(words)
}

// Reports a fault, and gives the program's end.
fn report_fault<O: Outputs>(outputs: &mut O, fault: RunFault) -> Exit
    ensures exit { result ≡ Exit.Failed fault }
    ensures acts { WereDone (O.acts outputs.old) (O.acts outputs.new) (ReportedFault fault ∷ []) }
{
    outputs.report_fault(fault);
    Exit::Failed(fault)
}

// Prints or reports why words are not run, a mistake with a hint, and gives the program's end: the refusal's, unless its text can't be printed.
fn report_refusal<O: Outputs>(outputs: &mut O, refusal: &Refusal, hint: &str) -> Exit
    ensures exit { reported_by (refusal_exit refusal.now) result }
    ensures reported { IsReported hint.now refusal.now (O.acts outputs.old) (O.acts outputs.new) result }
{
    match refusal {
        Refusal::Shown(text) => match outputs.print(text.as_bytes()) {
            Ok(()) => refusal.exit(),
            Err(fault) => report_fault(outputs, fault),
        },
        Refusal::Mistake(text) => {
            outputs.report_text(text.as_str(), hint);
            refusal.exit()
        }
        Refusal::Memory => report_fault(outputs, RunFault::Memory),
    }
}

// Reports the fault of a job that failed, and gives the program's end.
fn report_answer<O: Outputs>(outputs: &mut O, answer: Result<Report, RunFault>) -> Exit
    ensures exit { result ≡ exit_of answer }
    ensures acts { WereDone (O.acts outputs.old) (O.acts outputs.new) (reporting answer) }
{
    if let Err(fault) = answer {
        outputs.report_fault(fault);
    }
    Exit::of(answer)
}

// Does what the words ask for, over the files of a system, which is handed back, and gives the program's end.
fn answer<S: System + Drop, O: Outputs>(
    alloc: Global,
    system: S,
    history: &mut History,
    outputs: &mut O,
    words: &[String],
) -> (S, Exit)
    ensures { ComesTo (S.content system) (history.old, history.new) (S.failures system, S.failures result.0) O.List.state
        (map (λ word. string_bytes word) words.now) (hint_of words.now) (O.acts outputs.old) (O.acts outputs.new) result.1 }
{
    match settings(alloc, words) {
        Ok(settings) => {
            let (system, answer) = run_job(alloc, &settings, system, history, outputs);
            (system, report_answer(outputs, answer))
        }
        Err(refusal) => (system, report_refusal(outputs, &refusal, hint(words))),
    }
}

// Reports why the words of the command line couldn't be read, and gives the program's end.
fn report_unread<O: Outputs>(outputs: &mut O, error: &io::Error) -> Exit
    ensures { IsUnread (error_kind error.now) (O.acts outputs.old) (O.acts outputs.new) result }
{
    match error.kind() {
        ErrorKind::OutOfMemory => report_fault(outputs, RunFault::Memory),
        _ => {
            outputs.report_text(NO_TEXT, "");
            Exit::Refused
        }
    }
}

// Does what the words ask for, or reports why they couldn't be read, and gives the system and the program's end.
fn end_of<S: System + Drop, O: Outputs>(
    alloc: Global,
    system: S,
    history: &mut History,
    outputs: &mut O,
    words: io::Result<Vec<String>>,
) -> (S, Exit)
    ensures { EndsFor (S.content system) (history.old, history.new) (S.failures system, S.failures result.0) O.List.state words (O.acts outputs.old)
        (O.acts outputs.new) result.1 }
{
    match words {
        Ok(words) => answer(alloc, system, history, outputs, words.as_slice()),
        Err(error) => (system, report_unread(outputs, &error)),
    }
}

// The exit code of the program's end.
fn exit_code(exit: Exit) -> ExitCode
    ensures { exit_status result ≡ status_at exit }
{
    ExitCode::from(exit.status())
}

/// Runs the whole program over the files of `system`: does what the words of the command line ask for, and answers the system and the exit code. `args` is
/// the system's answer when it was asked for these words, the program's name first. Each fault is reported to `outputs`, and has its exit code.
pub fn run_command_line<S: System + Drop, O: Outputs>(
    alloc: Global,
    system: S,
    history: &mut History,
    outputs: &mut O,
    args: io::Result<Args>,
) -> (S, ExitCode)
    ensures { ExitsWith (S.content system) (history.old, history.new) (S.failures system, S.failures result.0) O.List.state args (O.acts outputs.old)
        (O.acts outputs.new) (exit_status result.1) }
{
    let words = words(alloc, args);
    let (system, end) = end_of(alloc, system, history, outputs, words);
    (system, exit_code(end))
}
