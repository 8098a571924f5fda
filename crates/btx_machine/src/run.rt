//! A run whose files are read.
ghost use Rattle.std.specs.Prelude.{◌≡◌, ◌≤◌, [], IfOk, OnErr};
ghost use Rattle.btx_out.specs.laws.Breaking.{Collecting};
ghost use Rattle.btx_out.specs.refinement.Breakers.{holding};
ghost use Rattle.btx_out.specs.laws.Lengths.{IsLineLength};
ghost use Rattle.btx_step.specs.language.Starts.{first_store};
ghost use Rattle.btx_machine.specs.refinement.Faults.{CountsOfBoth, CountsOfTwo};
ghost use Rattle.btx_machine.specs.language.KeepingStep.{AtFault, Completes};
ghost use Rattle.btx_machine.specs.language.Product.{style_product};
ghost use Rattle.btx_machine.specs.refinement.Written.{received};
ghost use Rattle.btx_machine.specs.laws.Reports.{log_counts};
ghost use Rattle.btx_machine.specs.refinement.Counting.{ReportCounts};
ghost use Rattle.btx_machine.specs.refinement.Outputs.{HasCounts};
ghost use Rattle.btx_machine.specs.refinement.Places.{EndsWithLast, MeetsInStyle, showing, shown};
ghost use Rattle.btx_machine.specs.refinement.Wholeness.{WholeUnlessCutOff};

use crate::items::do_items;
use crate::journal::Journal;
use crate::last::conclude;
use crate::log_sink::LogSink;
use crate::outputs::Outputs;
use crate::report::{LogCounts, Report};
use crate::work::Work;
use btx_out::{LineLength, Sink};
use btx_step::{Job, Store};
use btx_text::Fault;
use std::alloc::Global;

/// Executes the style of a job: writes the list of references, in lines of at most this number of bytes where whitespace allows a break, and the
/// rest of the log, which goes on from what was logged before. At most `budget` steps are taken.
pub fn execute_style<'a, W: Sink, L: LogSink>(
    alloc: Global,
    job: &Job<'a>,
    counts: LogCounts,
    line: LineLength,
    budget: u64,
    bbl: &mut W,
    log: &mut L,
) -> Result<Report, Fault>
    ensures ok { IfOk result (λ report. Completes report (W.received bbl.old, L.received log.old) (W.received bbl.new, L.received log.new)
        (style_product job.now counts line budget)) }
    ensures bound { IfOk result (λ report. report.steps ≤ budget) }
    ensures err { OnErr result (AtFault (W.received bbl.old, L.received log.old) (W.received bbl.new, L.received log.new)
        (style_product job.now counts line) budget) }
    ensures counts { CountsOfTwo result (W.failures bbl.old, W.failures bbl.new) (L.failures log.old, L.failures log.new) }
    ensures joined { L.joined log.new ≡ L.joined log.old }
    ensures counted { ReportCounts result (L.noted log.old, L.noted log.new) counts }
    ensures met { MeetsInStyle job.now counts line budget result (showing (L.noted log.old) (L.handed log.old)) (showing (L.noted log.new) (L.handed log.new)) }
    ensures last { IfOk result (EndsWithLast (showing (L.noted log.old) (L.handed log.old)) (showing (L.noted log.new) (L.handed log.new))) }
    ensures whole { WholeUnlessCutOff result (L.wholeness log.old) (L.wholeness log.new) }
{
    let store = Store::new(alloc, job)?;
    let outputs = Outputs::new(bbl, line, Journal::new(log, counts));
    let mut work = Work {
        alloc,
        store,
        outputs,
    };
    let result = do_all(&mut work, job, budget);
    let (list, log) = work.into_sinks();
    let _ = list;
    let _ = log;
    result
}

// Does all items of a style, from the state in which nothing is done, and writes what a run writes last.
fn do_all<'a, W: Sink, L: LogSink>(
    work: &mut Work<'a, '_, W, L>,
    job: &Job<'a>,
    budget: u64,
) -> Result<Report, Fault>
    requires store { work.old.store ≡ first_store job.now }
    requires fresh { work.old.outputs.breaker ≡ holding work.old.outputs.breaker.line_length (Collecting []) }
    requires range { IsLineLength work.old.outputs.breaker.line_length }
    ensures ok { IfOk result (λ report. Completes report (received work.old.outputs) (received work.new.outputs)
        (style_product job.now (log_counts work.old.outputs.log.warnings work.old.outputs.log.errors) work.old.outputs.breaker.line_length budget)) }
    ensures bound { IfOk result (λ report. report.steps ≤ budget) }
    ensures err { OnErr result (AtFault (received work.old.outputs) (received work.new.outputs)
        (style_product job.now (log_counts work.old.outputs.log.warnings work.old.outputs.log.errors) work.old.outputs.breaker.line_length) budget) }
    ensures counted { HasCounts result work.new.outputs.log }
    ensures met { MeetsInStyle job.now (log_counts work.old.outputs.log.warnings work.old.outputs.log.errors) work.old.outputs.breaker.line_length budget result
        (shown work.old.outputs.log) (shown work.new.outputs.log) }
    ensures last { IfOk result (EndsWithLast (shown work.old.outputs.log) (shown work.new.outputs.log)) }
    ensures counts { CountsOfBoth result work.old.outputs work.new.outputs }
{
    let mut left = budget;
    let end = do_items(work, job, job.style().items(), &mut left)?;
    conclude(work, end, budget - left)
}
