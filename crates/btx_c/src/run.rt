//! A run over files that were handed in.
ghost use Rattle.std.specs.Prelude.{◌≡◌, ◌<◌, ◌≤◌, ◌⊎◌, [], Some, Err, IfOk, IfErr, OnErr, OnOk, length};
ghost use Rattle.btx_machine.specs.language.KeepingStep.{AtFault, Completes};
ghost use Rattle.btx_machine.specs.laws.Noting.{Printed};
ghost use Rattle.btx_machine.specs.laws.Reports.{log_counts};
ghost use Rattle.btx_run.specs.laws.Noted.{CountsOfNoted};
ghost use Rattle.btx_core.specs.refinement.ComputedProduct.{product, product_with};
ghost use Rattle.btx_c.specs.CallerFiles.{OtherFiles};
ghost use Rattle.btx_c.specs.Needs.{NeedsAnother};
ghost use Rattle.btx_c.specs.Noted.{HasNoted};
ghost use Rattle.btx_c.specs.Outcomes.{all_files, outcome};

use crate::cause::Cause;
use crate::handed::{BtxFile, CallerFiles};
use crate::index::Index;
use crate::kept::Kept;
use crate::noted::{Noted, Notes, Wanted};
use crate::supposed::needs_another;
use btx_run::{Options, Report, RunFault, run_noted};
use std::alloc::Global;

/// What a run wrote, up to one byte more than there is room for, and its report, or why it broke off.
#[derive(Drop)]
pub struct Ran {
    pub list: Vec<u8>,
    pub log: Vec<u8>,
    /// The events and the places of the log's lines, as many as were wanted, unless something was left out.
    pub noted: Option<Noted>,
    pub outcome: Result<Report, Cause>,
}

// Answers why a run broke off that met a fault: it asked for an unknown file, if `is_asking`, or memory was refused. That what it writes
// depends on such a file is seen by two more runs of no step.
fn cause_of(
    alloc: Global,
    index: &Index<'_>,
    name: &[u8],
    options: &Options,
    is_asking: bool,
) -> Cause
    ensures causes { (result ≡ Cause.Memory) ⊎ (result ≡ Cause.UnknownFile) }
    ensures asks { result ≡ Cause.UnknownFile → NeedsAnother index.now name.now }
{
    if is_asking && needs_another(alloc, index, name, options) {
        Cause::UnknownFile
    } else {
        Cause::Memory
    }
}

// Runs the job `name` over `files`, whatever others there are, and keeps the list and the log.
fn run_into(
    alloc: Global,
    name: &[u8],
    files: &[BtxFile<'_>],
    options: &Options,
    list: &mut Kept,
    log: &mut Kept,
    notes: &mut Notes<'_>,
) -> Result<Report, Cause>
    ghost others: { OtherFiles }
    ensures ok { IfOk result (λ report. Completes report (Some list.old.bytes.items, Some log.old.bytes.items)
        (Some list.new.bytes.items, Some log.new.bytes.items)
        (product (all_files files.now others) name.now options.now)) }
    ensures err { OnErr result (AtFault (Some list.old.bytes.items, Some log.old.bytes.items) (Some list.new.bytes.items, Some log.new.bytes.items)
        (product_with (all_files files.now others) name.now options.now) options.now.budget) }
    ensures causes { IfErr result (λ cause. (cause ≡ Cause.Memory) ⊎ (cause ≡ Cause.UnknownFile)) }
    ensures asks { result ≡ Err Cause.UnknownFile → NeedsAnother files.now name.now }
    ensures bound { IfOk result (λ report. report.steps ≤ options.now.budget) }
    ensures deep { IfOk result (λ report. report.deepest ≤ 4096) }
    ensures noted { OnOk result (Printed (Some notes.old, Some notes.new) (Some log.old.bytes.items, Some log.new.bytes.items)) }
    ensures counted { IfOk result (λ report. CountsOfNoted (Some notes.old, Some notes.new) report) }
{
    let Ok(index) = Index::new(alloc, &*files) else {
        return Err(Cause::Memory);
    };
    let mut finder = CallerFiles::new(alloc, &index);
    match run_noted(alloc, &mut finder, name, options, list, log, notes) {
        Ok(report) => Ok(report),
        Err(_) => Err(cause_of(alloc, &index, name, options, finder.failures.count > 0)),
    }
}

// Answers how a run ended: for want of room, if the list or the log is longer than its room; for want of memory, if events were left out; and else as
// `ended` has it.
fn outcome_of(
    ended: Result<Report, Cause>,
    is_list_full: bool,
    is_log_full: bool,
    is_short: bool,
) -> Result<Report, Cause>
    ensures { result ≡ outcome ended is_list_full is_log_full is_short }
{
    if is_list_full {
        Err(Cause::ListFull)
    } else if is_log_full {
        Err(Cause::LogFull)
    } else if is_short {
        Err(Cause::Memory)
    } else {
        ended
    }
}

/// Runs the job `name` over `files`, whatever others there are, and keeps at most `most_list` bytes of the list and `most_log` of the log, and
/// one more where there are more; and the events and the places of the first lines of the log, as many as are wanted.
pub fn run_handed(
    alloc: Global,
    name: &[u8],
    files: &[BtxFile<'_>],
    options: &Options,
    most_list: usize,
    most_log: usize,
    wanted: Wanted,
) -> Ran
    ghost others: { OtherFiles }
    ensures ok { IfOk result.outcome (λ report. Completes report (Some [], Some []) (Some result.list.items, Some result.log.items)
        (product (all_files files.now others) name.now options.now)) }
    ensures err { OnErr result.outcome (AtFault (Some [], Some []) (Some result.list.items, Some result.log.items)
        (product_with (all_files files.now others) name.now options.now) options.now.budget) }
    ensures fits { OnOk result.outcome ((length result.list.items ≤ most_list) × (length result.log.items ≤ most_log)) }
    ensures list_full { result.outcome ≡ Err Cause.ListFull → most_list < length result.list.items }
    ensures log_full { result.outcome ≡ Err Cause.LogFull → most_log < length result.log.items }
    ensures events { IfOk result.outcome (λ report. HasNoted result.log.items (log_counts report.warnings report.errors) wanted result.noted) }
    ensures asks { result.outcome ≡ Err Cause.UnknownFile → NeedsAnother files.now name.now }
    ensures bound { IfOk result.outcome (λ report. report.steps ≤ options.now.budget) }
    ensures deep { IfOk result.outcome (λ report. report.deepest ≤ 4096) }
{
    let mut list = Kept::new(alloc, most_list);
    let mut log = Kept::new(alloc, most_log);
    let mut notes = Notes::new(alloc, &*files, wanted);
    // The proof reads that the length of a line is in its range.
    let _line = options.line.get();
    let ended = run_into(alloc, name, files, options, &mut list, &mut log, &mut notes);
    let noted = notes.into_noted(wanted);
    let outcome = outcome_of(
        ended,
        list.bytes.len() > most_list,
        log.bytes.len() > most_log,
        noted.is_none(),
    );
    Ran {
        list: list.bytes,
        log: log.bytes,
        noted,
        outcome,
    }
}
