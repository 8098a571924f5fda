//! What is written and logged while a run goes on.
ghost use Rattle.std.specs.Prelude.{◌≡◌, ◌∷◌, [], IfOk, IsSome, OnErr, OnOk, map};
ghost use Rattle.std.specs.Io.KnownBytes.{Appends};
ghost use Rattle.btx_out.specs.language.Pieces.{AppendsPrefix};
ghost use Rattle.btx_bib.specs.language.MessageTexts.{message_line, position_of};
ghost use Rattle.btx_machine.specs.declared.ending.Ending.TheVariants.{Finished};
ghost use Rattle.btx_machine.specs.language.Reports.{last_line};
ghost use Rattle.btx_machine.specs.language.Saying.{ended_line, lines_logged, said_on};
ghost use Rattle.btx_machine.specs.laws.Noting.{AddsLines};
ghost use Rattle.btx_machine.specs.refinement.Met.{AddsMet, met};
ghost use Rattle.btx_machine.specs.refinement.Places.{EndsWithLast, Hands, HandsInItem, MetLast, MetOfMessages, MetWhile, lines_said, shown};
ghost use Rattle.btx_machine.specs.refinement.Saying.{current_key, wrote, pending_ended, line_logged, note_lines};

use crate::journal::Journal;
use crate::log_sink::LogSink;
use crate::notebook::{About, Executed, Standing};
use crate::report::{LogCounts, Report};
use btx_bib::{Message, SourcePosition};
use btx_out::{Breaker, LineLength, Sink};
use btx_step::lines::line_of;
use btx_step::{Job, Note, StepOutput};
use btx_text::{Fault, LogLine};
use std::alloc::Global;
use std::marker::Model;

/// Both outputs of a run: the list of references, with the breaker of its long lines, and the log.
#[derive(Drop)]
pub struct Outputs<'s, W: Sink, L: LogSink> {
    bbl: &'s mut W,
    breaker: Breaker,
    log: Journal<'s, L>,
}

impl<'s, W: Sink, L: LogSink> Model for Outputs<'s, W, L> {
    ghost use Rattle.btx_machine.specs.refinement.Outputs.{Outputs as Both};

    ghost Value = { Both };

    ghost view = { λ outputs. record {
      bbl = record { name = outputs.bbl.ghost_name; received = W.received outputs.bbl.now; failures = W.failures outputs.bbl.now };
      breaker = outputs.breaker;
      log = outputs.log;
    } };
}

impl<'s, W: Sink, L: LogSink> Outputs<'s, W, L> {
    ghost use Rattle.btx_out.specs.laws.Breaking.{Collecting};
    ghost use Rattle.btx_out.specs.refinement.Breakers.{holding};
    ghost use Rattle.btx_out.specs.laws.Lengths.{IsLineLength};
    ghost use Rattle.btx_machine.specs.laws.Reports.{log_counts};
    ghost use Rattle.btx_machine.specs.refinement.Closing.{FinishedAt, FinishedPart};
    ghost use Rattle.btx_machine.specs.refinement.Counting.{CountsNoted};
    ghost use Rattle.btx_machine.specs.refinement.Faults.{CountsOfBoth, Writes};
    ghost use Rattle.btx_machine.specs.refinement.Outputs.{with_item};
    ghost use Rattle.btx_machine.specs.refinement.Written.{Becomes, Stops};

    /// Makes outputs with nothing pending: `bbl` for the list, in lines of at most `line` bytes, and `log`, which goes on.
    pub fn new(bbl: &'s mut W, line: LineLength, log: Journal<'s, L>) -> Self
        ensures name { result.bbl.name ≡ bbl.entry.ghost_name }
        ensures received { result.bbl.received ≡ W.received bbl.old }
        ensures failures { result.bbl.failures ≡ W.failures bbl.old }
        ensures breaker { result.breaker ≡ holding line (Collecting []) }
        ensures range { IsLineLength line }
        ensures log { result.log ≡ log.entry }
        ensures writes { Writes result }
    {
        Outputs {
            bbl,
            breaker: Breaker::new(line),
            log,
        }
    }

    /// Gives the two sinks back.
    pub fn into_sinks(self) -> (&'s mut W, &'s mut L)
        ensures bbl_name { result.0.ghost_name ≡ self.entry.bbl.name }
        ensures bbl_received { W.received result.0.now ≡ self.entry.bbl.received }
        ensures bbl_failures { W.failures result.0.now ≡ self.entry.bbl.failures }
        ensures log_name { result.1.ghost_name ≡ self.entry.log.sink.name }
        ensures log_received { L.received result.1.now ≡ self.entry.log.sink.received }
        ensures log_failures { L.failures result.1.now ≡ self.entry.log.sink.failures }
        ensures log_joined { L.joined result.1.now ≡ self.entry.log.joined.log }
        ensures log_noted { L.noted result.1.now ≡ self.entry.log.noted }
        ensures log_handed { L.handed result.1.now ≡ self.entry.log.handed }
        ensures counted { CountsNoted (self.entry.log.joined.since.noted, self.entry.log.noted) self.entry.log.joined.since.counts
            (log_counts self.entry.log.warnings self.entry.log.errors) }
        ensures log_whole { L.wholeness result.1.now ≡ self.entry.log.wholeness }
    {
        (self.bbl, self.log.into_sink())
    }

    /// Notes that the style's item of this number is done from now on.
    pub fn begin_item(&mut self, number: usize)
        ensures { self.new ≡ record self.old { log = with_item number self.old.log } }
    {
        self.log.begin_item(number);
    }

    /// Answers how many warnings and errors the log has.
    pub fn counts(&self) -> LogCounts
        ensures warnings { result.warnings ≡ self.now.log.warnings }
        ensures errors { result.errors ≡ self.now.log.errors }
    {
        self.log.counts()
    }

    /// Writes and logs what `said` has, which came of the function named `executed` where the style stands so, in the entry `current` if there is one.
    pub fn say(
        &mut self,
        alloc: Global,
        job: &Job<'_>,
        executed: &[u8],
        current: Option<usize>,
        standing: Option<Standing<'_>>,
        said: StepOutput<'_>,
    ) -> Result<(), Fault>
        requires { Writes self.old }
        ensures ok { OnOk result (Becomes self.old self.new (λ out. said_on job.now executed.now current said.entry out)) }
        ensures err { OnErr result (Stops self.old self.new (λ out. said_on job.now executed.now current said.entry out)) }
        ensures writes { OnOk result (Writes self.new) }
        ensures handed { HandsInItem self.old.log self.new.log (MetWhile job.now executed.now current standing.entry (lines_said job.now executed.now current said.entry)) }
        ensures counts { CountsOfBoth result self.old self.new }
    {
        match said {
            StepOutput::Nothing => Ok(()),
            StepOutput::Wrote(text) => self.write(text.as_bytes()),
            StepOutput::EndedLine => self.end_line(),
            StepOutput::Noted(notes) => self.note_all(
                alloc,
                job,
                executed,
                current,
                standing,
                notes.as_slice(),
            ),
        }
    }

    /// Adds `bytes` to the pending line of the list of references.
    pub fn write(&mut self, bytes: &[u8]) -> Result<(), Fault>
        requires { Writes self.old }
        ensures ok { OnOk result (Becomes self.old self.new (λ out. wrote bytes.now out)) }
        ensures err { OnErr result (Stops self.old self.new (λ out. wrote bytes.now out)) }
        ensures writes { OnOk result (Writes self.new) }
        ensures log { self.new.log ≡ self.old.log }
        ensures counts { CountsOfBoth result self.old self.new }
    {
        self.breaker.put(bytes, self.bbl)
    }

    /// Ends the pending line.
    pub fn end_line(&mut self) -> Result<(), Fault>
        requires { Writes self.old }
        ensures ok { OnOk result (Becomes self.old self.new (λ out. pending_ended out)) }
        ensures err { OnErr result (Stops self.old self.new (λ out. pending_ended out)) }
        ensures writes { OnOk result (Writes self.new) }
        ensures log { self.new.log ≡ self.old.log }
        ensures counts { CountsOfBoth result self.old self.new }
    {
        self.breaker.newline(self.bbl)
    }

    // Logs what is noted while a function of this name is executed and the style stands so.
    fn note_all(
        &mut self,
        alloc: Global,
        job: &Job<'_>,
        executed: &[u8],
        current: Option<usize>,
        standing: Option<Standing<'_>>,
        notes: &[Note<'_>],
    ) -> Result<(), Fault>
        ensures ok { OnOk result (Becomes self.old self.new (λ out. lines_logged (note_lines job.now executed.now current notes.now) out)) }
        ensures err { OnErr result (Stops self.old self.new (λ out. lines_logged (note_lines job.now executed.now current notes.now) out)) }
        ensures handed { HandsInItem self.old.log self.new.log (MetWhile job.now executed.now current standing.entry (note_lines job.now executed.now current notes.now)) }
        ensures breaker { self.new.breaker ≡ self.old.breaker }
        ensures counts { CountsOfBoth result self.old self.new }
    {
        let key = key_at(job, current);
        let style = job.style();
        let about = About::Execution(Executed {
            style,
            item: self.log.item(),
            name: executed,
            entry: current,
            key,
            standing,
        });
        for note in notes {
            let line = line_of(alloc, style, executed, key, note)?;
            self.log_one(&line, about)?;
        }
        Ok(())
    }

    /// Logs messages of the databases, one after another; no more than one's line is held at a time.
    pub fn log_messages(&mut self, alloc: Global, messages: &[Message<'_>]) -> Result<(), Fault>
        ensures ok { OnOk result (Becomes self.old self.new (λ out. lines_logged (map message_line messages.now) out)) }
        ensures err { OnErr result (Stops self.old self.new (λ out. lines_logged (map message_line messages.now) out)) }
        ensures handed { HandsInItem self.old.log self.new.log (MetOfMessages messages.now) }
        ensures breaker { self.new.breaker ≡ self.old.breaker }
        ensures counts { CountsOfBoth result self.old self.new }
    {
        for message in messages {
            let line = message.log_line(alloc)?;
            self.log_one(&line, About::Databases(position_of(message)))?;
        }
        Ok(())
    }

    /// Logs a line of the log.
    pub fn log_one(&mut self, line: &LogLine, about: About<'_>) -> Result<(), Fault>
        ensures ok { OnOk result (Becomes self.old self.new (λ out. line_logged line.now out)) }
        ensures err { OnErr result (Stops self.old self.new (λ out. line_logged line.now out)) }
        ensures noted { AddsLines self.old.log.noted self.new.log.noted (line.now ∷ []) }
        ensures handed { AddsMet self.old.log.handed self.new.log.handed (met line.now about.entry ∷ []) }
        ensures item { self.new.log.item ≡ self.old.log.item }
        ensures breaker { self.new.breaker ≡ self.old.breaker }
        ensures counts { CountsOfBoth result self.old self.new }
    {
        self.log.log_one(line, about)
    }

    /// Ends the pending line of a run that finished, if there is anything in it.
    pub fn finish(&mut self) -> Result<(), Fault>
        requires { Writes self.old }
        ensures ok { OnOk result (FinishedAt self.old Finished self.new) }
        ensures err { OnErr result (FinishedPart self.old Finished self.new) }
        ensures log { self.new.log ≡ self.old.log }
        ensures counts { CountsOfBoth result self.old self.new }
    {
        self.breaker.finish(self.bbl)
    }

    /// Writes the last line of the log, and answers the report that it gives.
    pub fn end(&mut self, alloc: Global, report: Report) -> Result<Report, Fault>
        ensures report { IfOk result (λ answer. answer ≡ report) }
        ensures ok { OnOk result (Appends self.old.log.sink.received self.new.log.sink.received (ended_line (last_line report))) }
        ensures err { OnErr result (AppendsPrefix self.old.log.sink.received self.new.log.sink.received (ended_line (last_line report))) }
        ensures bbl { self.new.bbl ≡ self.old.bbl }
        ensures warnings { self.new.log.warnings ≡ self.old.log.warnings }
        ensures errors { self.new.log.errors ≡ self.old.log.errors }
        ensures met { Hands (shown self.old.log) (shown self.new.log) (MetLast report) }
        ensures last { IfOk result (EndsWithLast (shown self.old.log) (shown self.new.log)) }
        ensures counts { CountsOfBoth result self.old self.new }
    {
        self.log.end(alloc, report)
    }
}

ghost use Rattle.std.specs.Option.{option_copied};

// The key of the current entry, if there is one.
fn key_at<'a>(job: &Job<'a>, current: Option<usize>) -> Option<&'a [u8]>
    ensures { option_copied result ≡ current_key job.now current }
{
    match current {
        Some(entry) => Some(job.key(entry)),
        None => None,
    }
}

// The place of a database that a message is about, if it is about one.
fn position_of<'m>(message: &'m Message<'m>) -> Option<&'m SourcePosition<'m>>
    ensures { option_copied result ≡ position_of message.now }
{
    match message {
        Message::Wrong(_, position)
        | Message::UnknownKind(_, position)
        | Message::ExtraField(_, _, position)
        | Message::UndefinedString(_, position)
        | Message::OwnString(_, position) => Some(position),
        Message::BadReference(_, _) | Message::NestedReference(_, _) | Message::NoEntry(_) => None,
    }
}
