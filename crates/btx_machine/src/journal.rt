//! The log of a run.
ghost use Rattle.std.specs.Prelude.{◌≡◌, ◌∷◌, [], IfErr, IfOk, OnErr, OnOk};
ghost use Rattle.std.specs.Io.KnownBytes.{Appends};
ghost use Rattle.btx_out.specs.language.Pieces.{AppendsPrefix};
ghost use Rattle.btx_text.specs.language.LogLines.{is_error, is_warning};
ghost use Rattle.btx_aux.specs.refinement.Faults.{CountsOfOne};
ghost use Rattle.btx_machine.specs.language.Reports.{last_line};
ghost use Rattle.btx_machine.specs.language.Saying.{counted_if, ended_line};
ghost use Rattle.btx_machine.specs.laws.Noting.{AddsLines};
ghost use Rattle.btx_machine.specs.laws.Reports.{log_counts};
ghost use Rattle.btx_machine.specs.refinement.Counting.{CountsNoted};
ghost use Rattle.btx_machine.specs.refinement.Met.{AddsMet, met};
ghost use Rattle.btx_machine.specs.refinement.Outputs.{with_item};
ghost use Rattle.btx_machine.specs.refinement.Places.{EndsWithLast, Hands, MetLast, shown};
ghost use Rattle.btx_machine.specs.refinement.Wholeness.{WholeUnlessCutOff};

use crate::counted_since::CountedSince;
use crate::last::log_end;
use crate::log_sink::LogSink;
use crate::notebook::About;
use crate::report::{LogCounts, Report};
use btx_text::{Fault, LineKind, LogLine};
use std::alloc::Global;
use std::marker::Model;

/// Writes each line of a log when it happens, and counts the warnings and the errors. It keeps no line.
#[derive(Drop)]
pub struct Journal<'s, L: LogSink> {
    sink: &'s mut L,
    warnings: u64,
    errors: u64,
    // The number of the style's item that is done: what is logged says of which item it is.
    item: usize,
    since: CountedSince,
}

impl<'s, L: LogSink> Model for Journal<'s, L> {
    ghost use Rattle.btx_machine.specs.laws.Reports.{log_counts};
    ghost use Rattle.btx_machine.specs.refinement.Counting.{CountsNoted};
    ghost use Rattle.btx_machine.specs.refinement.Outputs.{Journal as Logged};

    ghost Value = { Logged };

    ghost view = { λ journal. record {
      sink = record { name = journal.sink.ghost_name; received = L.received journal.sink.now; failures = L.failures journal.sink.now };
      warnings = journal.warnings;
      errors = journal.errors;
      item = journal.item;
      joined = record { log = L.joined journal.sink.now; since = journal.since.at };
      noted = L.noted journal.sink.now;
      handed = L.handed journal.sink.now;
      wholeness = L.wholeness journal.sink.now;
    } };

    ghost invariant = { λ journal. CountsNoted (journal.since.at.noted, L.noted journal.sink.now) journal.since.at.counts (log_counts journal.warnings journal.errors) };
}

impl<'s, L: LogSink> Journal<'s, L> {
    /// Makes a log that goes on in `sink`, after lines of which `counts` were warnings and errors.
    pub fn new(sink: &'s mut L, counts: LogCounts) -> Self
        ensures name { result.sink.name ≡ sink.entry.ghost_name }
        ensures received { result.sink.received ≡ L.received sink.old }
        ensures failures { result.sink.failures ≡ L.failures sink.old }
        ensures warnings { result.warnings ≡ counts.warnings }
        ensures errors { result.errors ≡ counts.errors }
        ensures joined { result.joined.log ≡ L.joined sink.old }
        ensures since_noted { result.joined.since.noted ≡ L.noted sink.old }
        ensures since_counts { result.joined.since.counts ≡ counts }
        ensures noted { result.noted ≡ L.noted sink.old }
        ensures handed { result.handed ≡ L.handed sink.old }
        ensures whole { result.wholeness ≡ L.wholeness sink.old }
    {
        let since = counted_since(&*sink, counts);
        Journal {
            sink,
            warnings: counts.warnings,
            errors: counts.errors,
            item: 0,
            since,
        }
    }

    /// Answers how many warnings and errors the log has.
    pub fn counts(&self) -> LogCounts
        ensures warnings { result.warnings ≡ self.now.warnings }
        ensures errors { result.errors ≡ self.now.errors }
    {
        LogCounts {
            warnings: self.warnings,
            errors: self.errors,
        }
    }

    /// Notes that the style's item of this number is done from now on.
    pub fn begin_item(&mut self, number: usize)
        ensures { self.new ≡ with_item number self.old }
    {
        self.item = number;
    }

    /// Answers the number of the style's item that is done.
    pub fn item(&self) -> usize
        ensures { result ≡ self.now.item }
    {
        self.item
    }

    /// Notes a line, writes it, and counts it. The only fault is the device's; the log then received a prefix of the line.
    pub fn log_one(&mut self, line: &LogLine, about: About<'_>) -> Result<(), Fault>
        ensures ok { OnOk result (Appends self.old.sink.received self.new.sink.received (ended_line line.now.text)) }
        ensures err { OnErr result (AppendsPrefix self.old.sink.received self.new.sink.received (ended_line line.now.text)) }
        ensures fault { IfErr result (λ fault. fault ≡ Fault.Device) }
        ensures warnings { self.new.warnings ≡ counted_if (is_warning line.now.kind) self.old.warnings }
        ensures errors { self.new.errors ≡ counted_if (is_error line.now.kind) self.old.errors }
        ensures sink { self.new.sink.name ≡ self.old.sink.name }
        ensures item { self.new.item ≡ self.old.item }
        ensures joined { self.new.joined ≡ self.old.joined }
        ensures noted { AddsLines self.old.noted self.new.noted (line.now ∷ []) }
        ensures handed { AddsMet self.old.handed self.new.handed (met line.now about.entry ∷ []) }
        ensures whole { WholeUnlessCutOff result self.old.wholeness self.new.wholeness }
        ensures counts { CountsOfOne result (self.old.sink.failures, self.new.sink.failures) }
    {
        count(line.kind(), &mut self.warnings, &mut self.errors);
        self.sink.log_line(line, about)
    }

    /// Writes the last line, which isn't counted, and answers the report that it gives.
    pub fn end(&mut self, alloc: Global, report: Report) -> Result<Report, Fault>
        ensures report { IfOk result (λ answer. answer ≡ report) }
        ensures ok { OnOk result (Appends self.old.sink.received self.new.sink.received (ended_line (last_line report))) }
        ensures err { OnErr result (AppendsPrefix self.old.sink.received self.new.sink.received (ended_line (last_line report))) }
        ensures warnings { self.new.warnings ≡ self.old.warnings }
        ensures errors { self.new.errors ≡ self.old.errors }
        ensures met { Hands (shown self.old) (shown self.new) (MetLast report) }
        ensures last { IfOk result (EndsWithLast (shown self.old) (shown self.new)) }
        ensures sink { self.new.sink.name ≡ self.old.sink.name }
        ensures joined { self.new.joined ≡ self.old.joined }
        ensures whole { WholeUnlessCutOff result self.old.wholeness self.new.wholeness }
        ensures counts { CountsOfOne result (self.old.sink.failures, self.new.sink.failures) }
    {
        log_end(alloc, report, self.sink)
    }

    /// Gives the sink back.
    pub fn into_sink(self) -> &'s mut L
        ensures name { result.ghost_name ≡ self.entry.sink.name }
        ensures received { L.received result.now ≡ self.entry.sink.received }
        ensures failures { L.failures result.now ≡ self.entry.sink.failures }
        ensures joined { L.joined result.now ≡ self.entry.joined.log }
        ensures noted { L.noted result.now ≡ self.entry.noted }
        ensures handed { L.handed result.now ≡ self.entry.handed }
        ensures counted { CountsNoted (self.entry.joined.since.noted, self.entry.noted) self.entry.joined.since.counts (log_counts self.entry.warnings self.entry.errors) }
        ensures whole { L.wholeness result.now ≡ self.entry.wholeness }
    {
        self.sink
    }
}

// What a notebook has noted now, and these counts.
fn counted_since<L: LogSink>(sink: &L, counts: LogCounts) -> CountedSince
    ensures noted { result.at.noted ≡ L.noted sink.now }
    ensures counts { result.at.counts ≡ counts }
{
    CountedSince::new().of(&(sink, counts))
}

// Counts a line as a warning, as an error or not at all.
fn count(kind: LineKind, warnings: &mut u64, errors: &mut u64)
    ensures warnings { warnings.new ≡ counted_if (is_warning kind) warnings.old }
    ensures errors { errors.new ≡ counted_if (is_error kind) errors.old }
{
    match kind {
        LineKind::Plain => {}
        LineKind::Warning => *warnings = warnings.saturating_add(1),
        LineKind::Error => *errors = errors.saturating_add(1),
    }
}
