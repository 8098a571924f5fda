//! What explains a run: a pass that finds the visits that log errors, one that finds their steps, and one for each of these.
ghost use Rattle.std.specs.Prelude.{◌≡◌, ◌≤◌, ◌++◌, IfOk, IfSome, OnOk};
ghost use Rattle.btx_where.specs.Events.{AreNotesOf, Explains, GrowsBy, IsNoteOf, head_note, steps_before};
ghost use Rattle.btx_where.specs.Scenes.{IsScene};

use crate::course::{Event, RunTrace, StepRecord, Word};
use crate::items::do_items;
use crate::machine::beginning;
use crate::notes::{Known, note_event};
use crate::scene::StoppedState;
use crate::scratch::{ResettableSink, Scratch};
use crate::stand::ExecutionEnd;
use crate::stops::scene_after;
use btx_bst::{BuiltIn, Callee, Item, Style, StylePlaces};
use btx_code::Code;
use btx_machine::marks::Marks;
use btx_machine::outputs::Outputs;
use btx_machine::program::Program;
use btx_machine::report::report_of;
use btx_machine::work::Work;
use btx_machine::{End, Journal, LogCounts, Notebook, NotedLog, Report};
use btx_run::Options;
use btx_step::{Job, Store};
use btx_text::Fault;
use std::alloc::Global;

/// A run that is explained: its job, its options and the counts of its log before the style is executed.
#[derive(Drop)]
pub struct Explainer<'j, 'a, 'o> {
    pub alloc: Global,
    pub job: &'j Job<'a>,
    pub options: &'o Options,
    pub counts: LogCounts,
}

impl<'j, 'a, 'o> Explainer<'j, 'a, 'o> {
    /// Notes the places of the first `most` events that log errors, and of the end; answers the report of the run. `places` says where the style's tokens and
    /// items stand. What the runs write goes to `scratch`.
    pub fn explain<W: ResettableSink, L: ResettableSink, N: Notebook>(
        &self,
        places: &StylePlaces,
        most: usize,
        scratch: &mut Scratch<'_, W, L, N>,
        notes: &mut Vec<u8>,
    ) -> Result<Report, Fault>
        ensures bound { IfOk result (λ report. report.steps ≤ self.now.options.now.budget) }
        ensures notes { OnOk result (Explains self.now.job.now self.now.counts places.now notes.old.items notes.new.items) }
    {
        let style = self.job.style();
        let code = Code::of(self.alloc, style)?;
        let program = Program {
            job: self.job,
            code: &code,
        };
        let mut first = RunTrace::following(
            self.alloc,
            self.options.budget,
            Vec::new(self.alloc),
            most,
        );
        let report = self.pass(program, &mut first, scratch)?;
        if is_quiet(&first, &report) {
            return Ok(report);
        }
        let known = Known {
            style,
            code: &code,
            places,
        };
        let events = self.events(program, &first, &report, most, scratch)?;
        self.note_all(&known, events.as_slice(), scratch, notes)?;
        Ok(report)
    }

    // Runs the style, notes in `course` what is to be noted on the way, and answers the report.
    fn pass<W: ResettableSink, L: ResettableSink, N: Notebook>(
        &self,
        program: Program<'_, 'a>,
        course: &mut RunTrace,
        scratch: &mut Scratch<'_, W, L, N>,
    ) -> Result<Report, Fault>
        ensures bound { IfOk result (λ report. report.steps ≤ self.now.options.now.budget) }
    {
        scratch.forget();
        let store = Store::new(self.alloc, program.job)?;
        let mut noted = NotedLog::new(scratch.log, scratch.notebook);
        let outputs = Outputs::new(
            scratch.list,
            self.options.line,
            Journal::new(&mut noted, self.counts),
        );
        let mut work = Work {
            alloc: self.alloc,
            store,
            outputs,
        };
        let mut marks = Marks::new(self.alloc)?;
        let mut at = beginning(program.code, Callee::BuiltIn(BuiltIn::Skip));
        let mut left = self.options.budget;
        let stand = do_items(
            &mut work,
            program,
            program.job.style().items(),
            &mut marks,
            &mut at,
            &mut left,
            course,
        )?;
        Ok(report_of(
            end_of(stand),
            self.options.budget - left,
            work.store.deepest(),
            work.outputs.counts(),
        ))
    }

    // The events of a run: those that log errors, in the visits that `first` found to do so, and that at its end.
    fn events<W: ResettableSink, L: ResettableSink, N: Notebook>(
        &self,
        program: Program<'_, 'a>,
        first: &RunTrace,
        report: &Report,
        most: usize,
        scratch: &mut Scratch<'_, W, L, N>,
    ) -> Result<Vec<Event>, Fault> {
        let mut events = self.faults(program, first.faulty.as_slice(), most, scratch)?;
        if let Some(end) = end_event(self.alloc, program.job.style(), first, report) {
            events.push(end)?;
        }
        Ok(events)
    }

    // The events in these visits that log errors.
    fn faults<W: ResettableSink, L: ResettableSink, N: Notebook>(
        &self,
        program: Program<'_, 'a>,
        faulty: &[u64],
        most: usize,
        scratch: &mut Scratch<'_, W, L, N>,
    ) -> Result<Vec<Event>, Fault> {
        let followed = Vec::from_slice(self.alloc, faulty)?;
        let mut second = RunTrace::following(self.alloc, self.options.budget, followed, most);
        if !faulty.is_empty() {
            self.pass(program, &mut second, scratch)?;
        }
        Ok(second.events)
    }

    // Notes these events, one after another.
    fn note_all<W: ResettableSink, L: ResettableSink, N: Notebook>(
        &self,
        known: &Known<'_>,
        events: &[Event],
        scratch: &mut Scratch<'_, W, L, N>,
        notes: &mut Vec<u8>,
    ) -> Result<(), Fault>
        ensures { OnOk result (GrowsBy (AreNotesOf known.now.style.now self.now.job.now self.now.counts known.now.places.now events.now) notes.old.items notes.new.items) }
    {
        for event in events {
            self.note_one(known, event, scratch, notes)?;
        }
        Ok(())
    }

    // Notes an event, and where the run stood before its step, or where it was stopped.
    fn note_one<W: ResettableSink, L: ResettableSink, N: Notebook>(
        &self,
        known: &Known<'_>,
        event: &Event,
        scratch: &mut Scratch<'_, W, L, N>,
        notes: &mut Vec<u8>,
    ) -> Result<(), Fault>
        ensures { OnOk result (GrowsBy (IsNoteOf known.now.style.now self.now.job.now self.now.counts known.now.places.now event.now) notes.old.items notes.new.items) }
    {
        let found = self.scene_of(event, scratch)?;
        let since = known.tokens_since(self.alloc, event)?;
        let began = known.began(event);
        note_head(known, event, notes)?;
        known.note_since(notes, since.as_slice())?;
        known.note_found(self.alloc, notes, self.job, event.word, began, found)?;
        Ok(())
    }

    // The scene of an event, in its item: where the run stands before its step, or where it was stopped. Of literals that were left there is none.
    fn scene_of<W: ResettableSink, L: ResettableSink, N: Notebook>(
        &self,
        event: &Event,
        scratch: &mut Scratch<'_, W, L, N>,
    ) -> Result<Option<StoppedState<'a>>, Fault>
        ensures run { IfOk result (λ found. IfSome found (λ scene. IsScene self.now.job.now self.now.counts (steps_before event.now.word event.now.moment.steps) scene)) }
        ensures item { IfOk result (λ found. IfSome found (λ scene. scene.item ≡ event.now.item)) }
    {
        if event.word == Word::Left {
            return Ok(None);
        }
        scratch.forget();
        let mut noted = NotedLog::new(scratch.log, scratch.notebook);
        let found = scene_after(
            self.alloc,
            self.job,
            self.counts,
            self.options.line,
            event.word.steps_before(event.moment.steps),
            event.visit,
            scratch.list,
            &mut noted,
        )?;
        Ok(in_item(found, event.item))
    }
}

// A scene, if it stands in the item of this number.
fn in_item(found: Option<StoppedState<'_>>, item: usize) -> Option<StoppedState<'_>>
    ensures same { IfSome result (λ scene. found.entry ≡ Some scene) }
    ensures item { IfSome result (λ scene. scene.item ≡ item) }
{
    let scene = found?;
    if scene.item == item {
        Some(scene)
    } else {
        None
    }
}

// Notes what an event is, with its step and its errors, and the command of its item.
#[tactic(auto, using(btx_text::proofs::JoinLemmas::joins))]
fn note_head(known: &Known<'_>, event: &Event, notes: &mut Vec<u8>) -> Result<(), Fault>
    ensures { OnOk result (notes.new.items ≡ notes.old.items ++ head_note known.now.style.now known.now.places.now event.now) }
{
    let moment = &event.moment;
    let (before, behind) = (moment.before.errors, moment.after.errors);
    note_event(notes, event.word, moment.steps, before, behind)?;
    known.note_item(notes, event.item)?;
    Ok(())
}

// Whether a run logged no error in its visits, and did all of the style.
fn is_quiet(course: &RunTrace, report: &Report) -> bool {
    course.faulty.is_empty() && report.end == End::Finished
}

// The event at the end of a run: where it was stopped, or met a limit but in READ, which takes no step.
fn end_event(
    alloc: Global,
    style: &Style<'_>,
    course: &RunTrace,
    report: &Report,
) -> Option<Event> {
    let is_read = matches!(style.items().get(course.item), Some(Item::Read));
    let word = match report.end {
        End::Stopped => Word::Stop,
        End::Limit(_) if !is_read => Word::Limit,
        _ => return None,
    };
    let counts = LogCounts {
        warnings: report.warnings,
        errors: report.errors,
    };
    Some(Event {
        word,
        moment: StepRecord {
            steps: report.steps,
            before: counts,
            after: counts,
        },
        item: course.item,
        visit: course.visit,
        place: 0,
        since: Vec::new(alloc),
    })
}

// The end of a run.
fn end_of(stand: ExecutionEnd) -> End {
    match stand {
        ExecutionEnd::Finished => End::Finished,
        ExecutionEnd::Limit(limit) => End::Limit(limit),
        ExecutionEnd::Here(_) | ExecutionEnd::Somewhere => End::Stopped,
    }
}
