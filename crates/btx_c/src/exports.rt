//! The calls for C.
ghost use Rattle.std.specs.Prelude.{◌≡◌, ◌<◌, ◌≤◌, ◌⊎◌, IsTrue, length};
ghost use Rattle.btx_machine.specs.language.Product.{log_of};
ghost use Rattle.btx_core.specs.refinement.ComputedProduct.{product};
ghost use Rattle.btx_c.specs.Checks.{SaidClean, SaidEnding};
ghost use Rattle.btx_machine.specs.laws.Reports.{log_counts};
ghost use Rattle.btx_c.specs.Events.{ArePlaced, Divided, filled_places};
ghost use Rattle.btx_c.specs.CallerFiles.{OtherFiles};
ghost use Rattle.btx_c.specs.Needs.{EndsWithAuxFiles, NeedsAnother, NeedsNoOther, ReadsAuxFiles};
ghost use Rattle.btx_c.specs.Noted.{PutsEvents, PutsNoted};
ghost use Rattle.btx_c.specs.Options.{IsInRange, asked};
ghost use Rattle.btx_c.specs.Outcomes.{Broke, Overflows, Ran, Wrote, all_files, filled};

use crate::bounded::bound_style;
use crate::cause::Cause;
use crate::checked::check_style;
use crate::event::BtxEvent;
use crate::handed::BtxFile;
use crate::needs::{MissingFiles, needed};
use crate::noted::{Events, Noted, Wanted};
use crate::options::{BtxOptions, read_options};
use crate::place::BtxPlace;
use crate::places::places;
use crate::report::{BtxReport, broken_off, in_numbers};
use crate::run::run_handed;
use crate::verdict::{BtxBound, BtxVerdict, CLEAN, verdict_of};
use btx_text::Fault;
use std::alloc::Global;

/// The call did what it says.
pub const DONE: u32 = 0;

/// A number of the options is out of its range; nothing was written.
pub const REFUSED: u32 = 1;

/// Memory was refused.
pub const MEMORY: u32 = 2;

/// The run asked for a file of which nothing was said.
pub const ASKS: u32 = 3;

/// The list or the log is longer than its room.
pub const FULL: u32 = 4;

/// The run ends with its `.aux` files, so it needs no other file.
pub const ENDS: u32 = 5;

// Copies `bytes`, as many as `into` has room for, and answers how many there are in all.
fn copy_out(bytes: &[u8], into: &mut [u8]) -> usize
    ensures len { result ≡ length bytes.now }
    ensures bytes { into.new ≡ filled into.old bytes.now }
{
    let fits = bytes.len().min(into.len());
    into[..fits].copy_from_slice(&bytes[..fits]);
    bytes.len()
}

// Copies `events`, as many as `into` has room for, and answers how many lines there are.
fn put_events(events: &Events, into: &mut [BtxEvent]) -> usize
    ensures count { result ≡ events.now.count }
    ensures events { PutsEvents events.now result (into.old, into.new) }
{
    let fits = events.first.len().min(into.len());
    into[..fits].copy_from_slice(&events.first.as_slice()[..fits]);
    events.count
}

// Copies `places`, as many as `into` has room for.
fn put_places(places: &[BtxPlace], into: &mut [BtxPlace])
    ensures { into.new ≡ filled_places into.old places.now }
{
    let fits = places.len().min(into.len());
    into[..fits].copy_from_slice(&places[..fits]);
}

// Copies the events and the places of lines, as many as there is room for, and answers how many lines there are.
fn put_noted(noted: Option<Noted>, events: &mut [BtxEvent], places: &mut [BtxPlace]) -> usize
    ensures { PutsNoted noted result (events.old, events.new) (places.old, places.new) }
{
    match noted {
        Some(noted) => {
            put_places(noted.places.as_slice(), places);
            put_events(&noted.events, events)
        }
        None => 0,
    }
}

/// Writes the names of the files that a job needs and of which nothing was said, each with byte 10, and how many bytes these are.
#[unsafe(no_mangle)]
pub extern "C" fn btx_needs(
    alloc: Global,
    job: &[u8],
    files: &[BtxFile<'_>],
    names: &mut [u8],
    names_len: &mut usize,
) -> u32
    ensures answers { (result ≡ DONE) ⊎ ((result ≡ MEMORY) ⊎ (result ≡ ENDS)) }
    ensures names { result ≡ DONE → Wrote names_len.new (names.old, names.new) }
    ensures none { result ≡ ENDS → (names.new ≡ names.old) × (names_len.new ≡ 0) }
    ensures memory { result ≡ MEMORY → (names.new ≡ names.old) × (names_len.new ≡ names_len.old) }

    // If no name is written, the job needs no other file, whatever others there are.
    ensures complete { result ≡ DONE → names_len.new ≡ 0 → NeedsNoOther files.now job.now }
    ensures ended { result ≡ ENDS → NeedsNoOther files.now job.now }

    // The run ends with its `.aux` files only if their reading does, whatever other files there are; and it goes on only if that is whole.
    ensures ends { result ≡ ENDS → EndsWithAuxFiles files.now job.now }
    ensures whole { result ≡ DONE → names_len.new ≡ 0 → ReadsAuxFiles files.now job.now }
{
    match needed(alloc, job, files) {
        Ok(MissingFiles::Names(asked)) => {
            *names_len = copy_out(asked.as_slice(), names);
            DONE
        }
        Ok(MissingFiles::Ends) => {
            *names_len = 0;
            ENDS
        }
        Err(_) => MEMORY,
    }
}

/// Runs a job over files that are handed in.
#[unsafe(no_mangle)]
pub extern "C" fn btx_run(
    alloc: Global,
    job: &[u8],
    files: &[BtxFile<'_>],
    options: &BtxOptions,
    list: &mut [u8],
    log: &mut [u8],
    report: &mut BtxReport,
) -> u32
    ghost others: { OtherFiles }
    ensures answers { result ≤ FULL }
    ensures refused { result ≡ REFUSED → (¬ IsInRange options.now) × (report.new ≡ report.old) × (list.new ≡ list.old) × (log.new ≡ log.old) }

    // Whatever other files there are: the report, the list and the log are those of the product.
    ensures done { result ≡ DONE → Ran files.now others job.now options.now report.new (list.old, list.new) (log.old, log.new) }
    ensures bound { result ≡ DONE → report.new.steps ≤ options.now.budget }
    ensures fits { result ≡ DONE → (report.new.list_len ≤ length list.old) × (report.new.log_len ≤ length log.old) }
    ensures deep { result ≡ DONE → report.new.deepest ≤ 4096 }

    // A file is asked for only if the job needs one of which nothing was said, and a room is too small only for what the product has.
    ensures asks { result ≡ ASKS → NeedsAnother files.now job.now }
    ensures full { result ≡ FULL → Overflows files.now others job.now options.now report.new list.old log.old }

    // If memory was refused, a file was asked for of which nothing was said, or the room was too small, list and log are prefixes of the product's
    // and keep step.
    ensures broke { REFUSED < result → Broke files.now others job.now options.now report.new (list.old, list.new) (log.old, log.new) }
{
    btx_run_events(
        alloc,
        job,
        files,
        options,
        list,
        log,
        report,
        &mut [],
        &mut 0,
    )
}

/// Runs a job as `btx_run` does, and writes an event for each line of its log, and how many lines there are.
#[unsafe(no_mangle)]
pub extern "C" fn btx_run_events(
    alloc: Global,
    job: &[u8],
    files: &[BtxFile<'_>],
    options: &BtxOptions,
    list: &mut [u8],
    log: &mut [u8],
    report: &mut BtxReport,
    events: &mut [BtxEvent],
    events_len: &mut usize,
) -> u32
    ghost others: { OtherFiles }
    ensures answers { result ≤ FULL }
    ensures refused { result ≡ REFUSED → (¬ IsInRange options.now) × (report.new ≡ report.old) × (list.new ≡ list.old) × (log.new ≡ log.old)
        × (events.new ≡ events.old) × (events_len.new ≡ events_len.old) }

    // Whatever other files there are: the report, the list and the log are those of the product.
    ensures done { result ≡ DONE → Ran files.now others job.now options.now report.new (list.old, list.new) (log.old, log.new) }
    ensures bound { result ≡ DONE → report.new.steps ≤ options.now.budget }
    ensures fits { result ≡ DONE → (report.new.list_len ≤ length list.old) × (report.new.log_len ≤ length log.old) }
    ensures deep { result ≡ DONE → report.new.deepest ≤ 4096 }

    // A file is asked for only if the job needs one of which nothing was said, and a room is too small only for what the product has.
    ensures asks { result ≡ ASKS → NeedsAnother files.now job.now }
    ensures full { result ≡ FULL → Overflows files.now others job.now options.now report.new list.old log.old }

    // If memory was refused, a file was asked for of which nothing was said, or the room was too small, list and log are prefixes of the product's
    // and keep step.
    ensures broke { REFUSED < result → Broke files.now others job.now options.now report.new (list.old, list.new) (log.old, log.new) }

    // At `DONE` the log is the lines that the events divide it into, as many of them are warnings and errors as the report counts, and the first events are
    // written, as many as there is room for. After a greater answer there is none.
    ensures events { result ≡ DONE → Divided (log_of (product (all_files files.now others) job.now (asked options.now)))
        (log_counts report.new.warnings report.new.errors) events_len.new (events.old, events.new) }
    ensures no_events { REFUSED < result → (events.new ≡ events.old) × (events_len.new ≡ 0) }
{
    btx_run_places(
        alloc,
        job,
        files,
        options,
        list,
        log,
        report,
        events,
        &mut [],
        events_len,
    )
}

/// Runs a job as `btx_run_events` does, and writes for each line of its log also the place that it is about.
#[unsafe(no_mangle)]
pub extern "C" fn btx_run_places(
    alloc: Global,
    job: &[u8],
    files: &[BtxFile<'_>],
    options: &BtxOptions,
    list: &mut [u8],
    log: &mut [u8],
    report: &mut BtxReport,
    events: &mut [BtxEvent],
    places: &mut [BtxPlace],
    events_len: &mut usize,
) -> u32
    ghost others: { OtherFiles }
    ensures answers { result ≤ FULL }
    ensures refused { result ≡ REFUSED → (¬ IsInRange options.now) × (report.new ≡ report.old) × (list.new ≡ list.old) × (log.new ≡ log.old)
        × (events.new ≡ events.old) × (places.new ≡ places.old) × (events_len.new ≡ events_len.old) }

    // Whatever other files there are: the report, the list and the log are those of the product.
    ensures done { result ≡ DONE → Ran files.now others job.now options.now report.new (list.old, list.new) (log.old, log.new) }
    ensures bound { result ≡ DONE → report.new.steps ≤ options.now.budget }
    ensures fits { result ≡ DONE → (report.new.list_len ≤ length list.old) × (report.new.log_len ≤ length log.old) }
    ensures deep { result ≡ DONE → report.new.deepest ≤ 4096 }

    // A file is asked for only if the job needs one of which nothing was said, and a room is too small only for what the product has.
    ensures asks { result ≡ ASKS → NeedsAnother files.now job.now }
    ensures full { result ≡ FULL → Overflows files.now others job.now options.now report.new list.old log.old }

    // If memory was refused, a file was asked for of which nothing was said, or the room was too small, list and log are prefixes of the product's
    // and keep step.
    ensures broke { REFUSED < result → Broke files.now others job.now options.now report.new (list.old, list.new) (log.old, log.new) }

    // At `DONE` the log is the lines that the events divide it into, as many of them are warnings and errors as the report counts, and the first events are
    // written, as many as there is room for. After a greater answer there is none.
    ensures events { result ≡ DONE → Divided (log_of (product (all_files files.now others) job.now (asked options.now)))
        (log_counts report.new.warnings report.new.errors) events_len.new (events.old, events.new) }
    ensures no_events { REFUSED < result → (events.new ≡ events.old) × (events_len.new ≡ 0) }

    // At `DONE` the first places are written, one for each line, as many as there is room for. After a greater answer there is none.
    ensures places { result ≡ DONE → ArePlaced events_len.new (places.old, places.new) }
    ensures no_places { REFUSED < result → places.new ≡ places.old }
{
    let Some(options) = read_options(options) else {
        return REFUSED;
    };
    let list_room = list.len();
    let log_room = log.len();
    let wanted = Wanted {
        events: events.len(),
        places: places.len(),
    };
    let ran = run_handed(alloc, job, files, &options, list_room, log_room, wanted);
    let list_len = copy_out(ran.list.as_slice(), list);
    let log_len = copy_out(ran.log.as_slice(), log);
    match ran.outcome {
        Ok(answer) => {
            *report = in_numbers(answer, list_len, log_len);
            *events_len = put_noted(ran.noted, events, places);
            DONE
        }
        Err(cause) => {
            *report = broken_off(cause, list_len.min(list_room), log_len.min(log_room));
            *events_len = 0;
            cause.answer()
        }
    }
}

/// Runs a job once more over files that are handed in, and writes notes of where its style stands: at each of the first `most` events that log errors in its
/// execution, and where the run is stopped or meets a limit; and how many bytes these notes are.
#[unsafe(no_mangle)]
pub extern "C" fn btx_where(
    alloc: Global,
    job: &[u8],
    files: &[BtxFile<'_>],
    options: &BtxOptions,
    most: u32,
    notes: &mut [u8],
    notes_len: &mut usize,
) -> u32
    ensures answers { result ≤ FULL }
    ensures refused { result ≡ REFUSED → (¬ IsInRange options.now) × (notes.new ≡ notes.old) × (notes_len.new ≡ notes_len.old) }

    // The notes are whole, or longer than their room.
    ensures done { result ≡ DONE → Wrote notes_len.new (notes.old, notes.new) × (notes_len.new ≤ length notes.old) }
    ensures full { result ≡ FULL → Wrote notes_len.new (notes.old, notes.new) × (length notes.old < notes_len.new) }
    ensures none { (result ≡ MEMORY) ⊎ (result ≡ ASKS) → (notes.new ≡ notes.old) × (notes_len.new ≡ 0) }
{
    match read_options(options) {
        None => REFUSED,
        Some(options) => match places(alloc, job, files, &options, most as usize) {
            Ok(noted) => {
                *notes_len = copy_out(noted.as_slice(), notes);
                if noted.len() > notes.len() {
                    FULL
                } else {
                    DONE
                }
            }
            Err(cause) => {
                *notes_len = 0;
                match cause {
                    Cause::UnknownFile => ASKS,
                    _ => MEMORY,
                }
            }
        },
    }
}

/// Checks a style before any run, in at most `steps` steps of the check. It is called clean only if no run of it with a budget of at most 1,500,000,000 steps
/// logs a fault of its own, whatever the databases, as long as each entry's type is one that the style doesn't know or one of those that are written into
/// `types`, each with byte 10. Where it may go wrong is written into `notes`.
#[unsafe(no_mangle)]
pub extern "C" fn btx_check(
    alloc: Global,
    name: &[u8],
    text: &[u8],
    steps: u64,
    types: &mut [u8],
    notes: &mut [u8],
    verdict: &mut BtxVerdict,
) -> u32
    ensures answers { result ≤ FULL }
    ensures clean { result ≡ DONE → verdict.new.verdict ≡ CLEAN → SaidClean name.now text.now verdict.new.bodies verdict.new.types_len (types.old, types.new) }
    ensures done { result ≡ DONE → (verdict.new.types_len ≤ length types.old) × (verdict.new.notes_len ≤ length notes.old) }
    ensures none { (result ≡ MEMORY) ⊎ (result ≡ REFUSED) → (types.new ≡ types.old) × ((notes.new ≡ notes.old) × (verdict.new ≡ verdict.old)) }
{
    match check_style(alloc, name, text, steps) {
        Ok(said) => {
            let types_len = copy_out(said.types.as_slice(), types);
            let notes_len = copy_out(said.notes.as_slice(), notes);
            *verdict = BtxVerdict {
                verdict: verdict_of(said.is_clean, said.is_whole),
                literals: said.literals as u64,
                bodies: said.bodies as u64,
                types_len,
                notes_len,
            };
            if types_len > types.len() || notes_len > notes.len() {
                FULL
            } else {
                DONE
            }
        }
        Err(Fault::FileLimit) => REFUSED,
        Err(_) => MEMORY,
    }
}

/// Says of a style before any run whether each run of it ends, and within how many steps: `once` steps, and `each` more for each entry of the list, whatever the
/// databases, as long as each entry's type is one that the style doesn't know or one of those that are written into `types`, each with byte 10, and a global
/// string variable keeps at most `kept` bytes. Where no bound is known, `notes` say which token of the style is the first without one.
#[unsafe(no_mangle)]
pub extern "C" fn btx_check_ends(
    alloc: Global,
    name: &[u8],
    text: &[u8],
    kept: u32,
    types: &mut [u8],
    notes: &mut [u8],
    bound: &mut BtxBound,
) -> u32
    ensures answers { result ≤ FULL }
    ensures ends { result ≡ DONE → IsTrue bound.new.ends
        → SaidEnding name.now text.now kept (bound.new.once, bound.new.each) bound.new.types_len (types.old, types.new) }
    ensures done { result ≡ DONE → (bound.new.types_len ≤ length types.old) × (bound.new.notes_len ≤ length notes.old) }
    ensures none { (result ≡ MEMORY) ⊎ (result ≡ REFUSED) → (types.new ≡ types.old) × ((notes.new ≡ notes.old) × (bound.new ≡ bound.old)) }
{
    match bound_style(alloc, name, text, kept) {
        Ok(said) => {
            let types_len = copy_out(said.types.as_slice(), types);
            let notes_len = copy_out(said.notes.as_slice(), notes);
            *bound = BtxBound {
                once: said.once,
                each: said.each,
                types_len,
                notes_len,
                ends: said.ends,
            };
            if types_len > types.len() || notes_len > notes.len() {
                FULL
            } else {
                DONE
            }
        }
        Err(Fault::FileLimit) => REFUSED,
        Err(_) => MEMORY,
    }
}
