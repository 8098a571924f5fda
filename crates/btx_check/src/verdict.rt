//! The checker of styles.
ghost use Rattle.std.specs.Prelude.{◌≡◌, ℕ, List, [], ◌∷◌, IsTrue, true, false, Option, Some, None, ◌≤◌};
ghost use Rattle.std.specs.Result.{IfOk};
ghost use Rattle.btx_bst.specs.refinement.Views.{item_view};
ghost use Rattle.btx_check.specs.Promise.{StyleIsClean};
ghost use Rattle.std.specs.Option.{IfSome};
ghost use Rattle.btx_check.specs.Running.{Each, IsEmpty};
ghost use Rattle.btx_check.specs.Between.{IsGlobal, Visited, Found, Closes, FoundForEach, ItemFound, Begins};
ghost use Rattle.btx_check.specs.Verdicts.{IsRight};

use crate::entries::{Known, entries_of, starts_of, unknown_entries};
use crate::lasting::{all_within, globals_of, lasting_globals};
use crate::loops::all_in;
use crate::memo::VisitCache;
use crate::running::run_all;
use crate::state::State;
use crate::types::{MOST_BODIES, constants, likely_depth, meant_types};
use crate::work::{MOST_LOOPS, MOST_NESTED, Room, Warning, Work};
use btx_bst::{Callee, Item, Style, Token};
use std::alloc::{AllocError, Global};

/// What is found of a style that is clean.
#[derive(Drop)]
pub struct Clean {
    /// The functions that an entry's type may be.
    pub allowed: Vec<u32>,
    /// The greatest number of bodies that are ever open at once.
    pub deepest: usize,
    /// The greatest number of literals that was met on the stack. No clause speaks of it.
    pub literals: usize,
    /// How many steps the check took. No clause speaks of it.
    pub steps: u64,
}

/// What the checker says of a style.
#[derive(Drop)]
pub enum Verdict {
    /// It is clean.
    Clean(Clean),
    /// It isn't known to be clean: here a job may log a fault.
    NotKnownClean(Warning),
    /// The steps of the check didn't suffice, or it went too deep.
    Incomplete,
}

// Whether nothing is left on the stack in each of these.
fn all_empty(states: &[State]) -> bool
    ensures { IsTrue result → Each IsEmpty states.now }
{
    for a in states {
        if !a.is_empty() {
            return false;
        }
    }
    true
}

// Executes a function for a command, from each of `starts`. Whether it runs without a fault and leaves nothing.
fn visit(
    work: &mut Work,
    style: &Style,
    allowed: &[u32],
    deepest: usize,
    f: Callee,
    starts: Vec<State>,
    out: &mut Vec<State>,
) -> Result<bool, AllocError>
    ensures { IfOk result (λ ok. IsTrue ok → Visited style.now allowed.now f deepest starts.items out.new.items) }
{
    let room = Room {
        fuel: MOST_NESTED,
        deep: deepest,
        loops: MOST_LOOPS,
    };
    let mut memo = VisitCache::new(work.alloc)?;
    if !run_all(
        work,
        &mut memo,
        style,
        allowed,
        room,
        starts,
        Token::Run(f),
        out,
    )? {
        return Ok(false);
    }
    if !all_empty(out) {
        work.warn(f, None)?;
        return Ok(false);
    }
    Ok(true)
}

// EXECUTE: what is known of global variables after it, if it runs without a fault.
fn execute(
    work: &mut Work,
    style: &Style,
    allowed: &[u32],
    deepest: usize,
    f: Callee,
    before: &State,
) -> Result<Option<State>, AllocError>
    requires few { deepest ≤ 4096 }
    requires global { IsGlobal before.now }
    ensures { IfOk result (λ o. IfSome o (λ after. Found style.now allowed.now f deepest before.now after)) }
{
    let start = before.where_entry(false)?;
    let mut starts: Vec<State> = Vec::new(work.alloc);
    starts.push(start)?;
    let mut out: Vec<State> = Vec::new(work.alloc);
    if !visit(work, style, allowed, deepest, f, starts, &mut out)? {
        return Ok(None);
    }
    let after = globals_of(work, style, &out)?;
    let there = after.where_entry(false)?;
    if !all_within(work, &out, &there)? {
        work.gave_up = true;
        return Ok(None);
    }
    Ok(Some(after))
}

// Whether no more is known of global variables after visits than before them, and all ends of a visit say so, and what is said of entries.
fn closes(
    work: &Work,
    before: &State,
    after: &State,
    ends: &[State],
    entries: &[State],
) -> Result<bool, AllocError>
    ensures { IfOk result (λ ok. IsTrue ok → Closes before.now after.now ends.now entries.now) }
{
    let old = before.where_entry(false)?;
    let new = after.where_entry(false)?;
    let numbers = old.numbers_for(work.alloc, &new)?;
    if !old.is_within(&new, &numbers) {
        return Ok(false);
    }
    let here = after.where_entry(true)?;
    if !all_within(work, ends, &here)? {
        return Ok(false);
    }
    if !all_in(work, ends, entries)? {
        return Ok(false);
    }
    Ok(true)
}

// ITERATE and REVERSE: what is known after each visit, if they run without a fault.
fn iterate(
    work: &mut Work,
    style: &Style,
    allowed: &[u32],
    deepest: usize,
    f: Callee,
    before: &Known,
) -> Result<Option<Known>, AllocError>
    requires { deepest ≤ 4096 }
    ensures { IfOk result (λ o. IfSome o (λ after. FoundForEach style.now allowed.now f deepest before.now after)) }
{
    let globals = lasting_globals(work, style, allowed, f, &before.globals)?;
    let starts = starts_of(work.alloc, &globals, &before.entries)?;
    let mut out: Vec<State> = Vec::new(work.alloc);
    if !visit(work, style, allowed, deepest, f, starts, &mut out)? {
        return Ok(None);
    }
    let entries = entries_of(work, style, &out)?;
    if !closes(work, &before.globals, &globals, &out, &entries)? {
        work.gave_up = true;
        return Ok(None);
    }
    Ok(Some(Known { globals, entries }))
}

// A command: what is known after it, if it runs without a fault.
fn command(
    work: &mut Work,
    style: &Style,
    allowed: &[u32],
    deepest: usize,
    item: &Item,
    before: Known,
) -> Result<Option<Known>, AllocError>
    requires few { deepest ≤ 4096 }
    requires global { IsGlobal before.globals }
    ensures found { IfOk result (λ o. IfSome o (λ after. ItemFound style.now allowed.now deepest (item_view item.now) before after)) }
    ensures global { IfOk result (λ o. IfSome o (λ after. IsGlobal after.globals)) }
{
    match *item {
        Item::Execute(f) => match execute(work, style, allowed, deepest, f, &before.globals)? {
            None => Ok(None),
            Some(globals) => Ok(Some(Known {
                globals,
                entries: before.entries,
            })),
        },
        Item::Iterate(f) => iterate(work, style, allowed, deepest, f, &before),
        Item::Reverse(f) => iterate(work, style, allowed, deepest, f, &before),
        Item::Read => {
            let known = unknown_entries(work.alloc, style, before.globals)?;
            Ok(Some(known))
        }
        _ => Ok(Some(before)),
    }
}

/// Whether a style is known to be clean, for entries of these types, and with no more bodies open at once than this.
pub fn is_clean(
    work: &mut Work,
    style: &Style,
    allowed: &[u32],
    deepest: usize,
) -> Result<bool, AllocError>
    ensures { IfOk result (λ ok. IsTrue ok → StyleIsClean style.now allowed.now deepest) }
{
    if deepest > 4096 {
        return Ok(false);
    }
    let nothing = State::start(work.alloc, false, style)?;
    let mut known = unknown_entries(work.alloc, style, nothing)?;
    let items = style.items();
    for item in items {
        match command(work, style, allowed, deepest, item, known)? {
            None => return Ok(false),
            Some(after) => known = after,
        }
    }
    Ok(true)
}

// How often a check begins again, with more to keep descriptions apart by.
const MOST_ROUNDS: usize = 14;

/// Checks `style` in at most `steps` steps of the check. A style is called clean only if no run of it with a budget of at most 1,500,000,000 steps, whatever
/// databases whose entries have types that it doesn't know or that are allowed, logs a fault, ends at a limit of literals, bodies or loops, or has more bodies
/// open at once than is said. With too few steps the check is incomplete.
pub fn check(alloc: Global, style: &Style, steps: u64) -> Result<Verdict, AllocError>
    ensures { IfOk result (λ verdict. IsRight style.now verdict) }
{
    let mut work = Work::new(alloc, steps);
    judged(&mut work, style)
}

/// Checks a style. What the search went by stays with it.
pub fn judged(work: &mut Work, style: &Style) -> Result<Verdict, AllocError>
    ensures { IfOk result (λ verdict. IsRight style.now verdict) }
{
    let allowed = meant_types(work.alloc, style)?;
    let constants = constants(work.alloc, style)?;
    let mut bodies = likely_depth(work.alloc, style, &allowed)?;
    let mut before: Option<Warning> = None;
    for _ in 0..MOST_ROUNDS {
        work.begin();
        if is_clean(work, style, &allowed, bodies)? {
            return bounded(work, style, allowed, bodies);
        }
        match work.warning.take() {
            None => {
                if bodies == MOST_BODIES || work.is_out() {
                    break;
                }
                bodies = MOST_BODIES;
            }
            Some(warning) => {
                if !work.add_flags(style, &warning, &constants)? {
                    return Ok(Verdict::NotKnownClean(warning));
                }
                before = Some(warning);
            }
        }
    }
    work.drop_flags();
    Ok(not_clean(style, before))
}

// The verdict where a round didn't come to its end, or none was the last: the warning of the latest that did.
fn not_clean(style: &Style, before: Option<Warning>) -> Verdict
    ensures { IsRight style.now result }
{
    let _ = style.functions();
    match before {
        Some(warning) => Verdict::NotKnownClean(warning),
        None => Verdict::Incomplete,
    }
}

// The verdict on a style that is clean with at most so many bodies, with the least bound of open bodies that was found.
fn bounded(
    work: &mut Work,
    style: &Style,
    allowed: Vec<u32>,
    bodies: usize,
) -> Result<Verdict, AllocError>
    requires { StyleIsClean style.now allowed.items bodies }
    ensures { IfOk result (λ verdict. IsRight style.now verdict) }
{
    let literals = work.most_literals;
    let deepest = work.deepest(bodies);
    work.release();
    if deepest < bodies && is_clean(work, style, &allowed, deepest)? {
        return Ok(Verdict::Clean(Clean {
            allowed,
            deepest,
            literals,
            steps: work.taken(),
        }));
    }
    Ok(Verdict::Clean(Clean {
        allowed,
        deepest: bodies,
        literals,
        steps: work.taken(),
    }))
}
