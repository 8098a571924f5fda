//! What a run writes last.
ghost use Rattle.std.specs.Prelude.{◌≡◌, ◌++◌, ◌∷◌, [], IfOk, OnOk, OnErr};
ghost use Rattle.std.specs.Io.KnownBytes.{Appends};
ghost use Rattle.btx_out.specs.language.Pieces.{AppendsPrefix};
ghost use Rattle.btx_machine.specs.refinement.Closing.{Closes, ClosesPart, FinishedAt, FinishedPart};
ghost use Rattle.btx_aux.specs.refinement.Faults.{CountsOfOne};
ghost use Rattle.btx_machine.specs.language.Reports.{end_as, last_line, report_of};
ghost use Rattle.btx_machine.specs.refinement.Faults.{CountsOfBoth, Writes};
ghost use Rattle.btx_machine.specs.language.Saying.{ended_line};
ghost use Rattle.btx_machine.specs.laws.Reports.{log_counts};
ghost use Rattle.btx_machine.specs.refinement.Counting.{CountsNoted};
ghost use Rattle.btx_machine.specs.refinement.Outputs.{HasCounts};
ghost use Rattle.btx_machine.specs.refinement.Places.{EndsWithLast, Hands, MetLast, showing, shown};
ghost use Rattle.btx_machine.specs.refinement.Wholeness.{WholeUnlessCutOff};
ghost use Rattle.btx_machine.specs.declared.report.LogCounts.{LogCounts};

use crate::ending::Ending;
use crate::log_sink::LogSink;
use crate::notebook::About;
use crate::outputs::Outputs;
use crate::report::{End, Report, report_of};
use crate::work::Work;
use btx_out::Sink;
use btx_text::{Fault, LineKind, LogLine};
use itoa::Buffer;
use std::alloc::{AllocError, Global};

// The last line of each log.
#[tactic(auto, unfolding(crate::specs::language::Reports::last_line))]
fn last_line(alloc: Global, report: &Report) -> Result<Vec<u8>, AllocError>
    ensures { IfOk result (λ line. line.items ≡ last_line report.now) }
{
    let mut buffer = Buffer::new();
    let mut line = Vec::from_slice(alloc, b"Ended: ")?;
    line.extend_from_slice(report.end.word().as_bytes())?;
    line.extend_from_slice(b", warnings ")?;
    line.extend_from_slice(buffer.format(report.warnings).as_bytes())?;
    line.extend_from_slice(b", errors ")?;
    line.extend_from_slice(buffer.format(report.errors).as_bytes())?;
    line.extend_from_slice(b", steps ")?;
    line.extend_from_slice(buffer.format(report.steps).as_bytes())?;
    Ok(line)
}

/// Writes the last line of the log, and answers the report that it gives: the whole end of a run whose style isn't executed.
pub fn log_end<L: LogSink>(alloc: Global, report: Report, log: &mut L) -> Result<Report, Fault>
    ensures report { IfOk result (λ answer. answer ≡ report) }
    ensures ok { OnOk result (Appends (L.received log.old) (L.received log.new) (ended_line (last_line report))) }
    ensures err { OnErr result (AppendsPrefix (L.received log.old) (L.received log.new) (ended_line (last_line report))) }
    ensures counts { CountsOfOne result (L.failures log.old, L.failures log.new) }
    ensures joined { L.joined log.new ≡ L.joined log.old }
    ensures counted { (counts : LogCounts) → CountsNoted (L.noted log.old, L.noted log.new) counts counts }
    ensures met { Hands (showing (L.noted log.old) (L.handed log.old)) (showing (L.noted log.new) (L.handed log.new)) (MetLast report) }
    ensures last { IfOk result (EndsWithLast (showing (L.noted log.old) (L.handed log.old)) (showing (L.noted log.new) (L.handed log.new))) }
    ensures whole { WholeUnlessCutOff result (L.wholeness log.old) (L.wholeness log.new) }
{
    let text = last_line(alloc, &report)?;
    log.log_line(&LogLine::new(text, LineKind::Plain), About::End)?;
    Ok(report)
}

// Ends the pending line of a run that finished.
fn finish<W: Sink, L: LogSink>(outputs: &mut Outputs<'_, W, L>, end: Ending) -> Result<(), Fault>
    requires { Writes outputs.old }
    ensures ok { OnOk result (FinishedAt outputs.old end outputs.new) }
    ensures err { OnErr result (FinishedPart outputs.old end outputs.new) }
    ensures log { outputs.new.log ≡ outputs.old.log }
    ensures counts { CountsOfBoth result outputs.old outputs.new }
{
    match end {
        Ending::Finished => outputs.finish(),
        Ending::Stopped | Ending::Limit(_) => Ok(()),
    }
}

/// Ends a run that ended as `end` says, after `steps` steps: writes the pending line of the list, if the run finished, and the last line of the log.
/// Answers the report.
pub fn conclude<W: Sink, L: LogSink>(
    work: &mut Work<'_, '_, W, L>,
    end: Ending,
    steps: u64,
) -> Result<Report, Fault>
    requires { Writes work.old.outputs }
    ensures report { IfOk result (λ report. report ≡ report_of (end_as end) steps work.old.store.deepest (log_counts work.old.outputs.log.warnings work.old.outputs.log.errors)) }
    ensures ok { OnOk result (Closes work.old end steps work.new.outputs) }
    ensures err { OnErr result (ClosesPart work.old end steps work.new.outputs) }
    ensures counted { HasCounts result work.new.outputs.log }
    ensures met { Hands (shown work.old.outputs.log) (shown work.new.outputs.log)
        (MetLast (report_of (end_as end) steps work.old.store.deepest (log_counts work.old.outputs.log.warnings work.old.outputs.log.errors))) }
    ensures last { IfOk result (EndsWithLast (shown work.old.outputs.log) (shown work.new.outputs.log)) }
    ensures counts { CountsOfBoth result work.old.outputs work.new.outputs }
{
    finish(&mut work.outputs, end)?;
    let counts = work.outputs.counts();
    let report = report_of(End::of(end), steps, work.store.deepest(), counts);
    work.outputs.end(work.alloc, report)
}
