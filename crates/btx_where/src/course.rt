//! What is followed of a run, and what is noted of it.
ghost use Rattle.std.specs.Prelude.{◌≡◌};
ghost use Rattle.btx_where.specs.Events.{steps_before};

use btx_bst::{BuiltIn, Callee, Token};
use btx_machine::LogCounts;
use std::alloc::{AllocError, Global};

/// What is noted of a run. An error was logged by a step; by the test of a loop that ended after it; or by the end of a command that left literals on the
/// stack. Or it is where the run was stopped, or where it met a limit.
#[derive(Clone, Copy, PartialEq, Eq, Debug)]
pub enum Word {
    Step,
    Test,
    Left,
    Stop,
    Limit,
}

impl Word {
    /// After how many steps the run stands that is shown, for an event of this word whose step is the last of `steps`.
    pub fn steps_before(self, steps: u64) -> u64
        ensures { result ≡ steps_before self steps }
    {
        match self {
            Word::Stop => steps,
            Word::Step | Word::Test | Word::Left | Word::Limit => steps.saturating_sub(1),
        }
    }
}

/// The number of a step, and what the log has counted before it and after it.
#[derive(Clone, Copy, PartialEq, Eq, Debug)]
pub struct StepRecord {
    pub steps: u64,
    pub before: LogCounts,
    pub after: LogCounts,
}

/// What is noted of a run: what it is, when; where in the style's items, in which visit of a function, and the place after its token, 0 if there is none. Of
/// literals that were left, for each, the uppermost first, the place after the token since whose step the stack has been as high. Before a step, for each of
/// the three on top, the place after the token that pushed it.
#[derive(Drop)]
pub struct Event {
    pub word: Word,
    pub moment: StepRecord,
    pub item: usize,
    pub visit: u64,
    pub place: usize,
    pub since: Vec<usize>,
}

/// What is followed of a run, and what is noted of it. A visit is one execution of a command's function; they are numbered from 0. Visits that are followed
/// are executed step by step, and their events are noted; of others only whether they logged errors.
#[derive(Drop)]
pub struct RunTrace {
    alloc: Global,
    // How many steps the run has.
    budget: u64,
    // The visits that are followed, in order, and how many of them are over.
    followed: Vec<u64>,
    over: usize,
    // For each literal, the lowest first, the place after the token since whose step the stack has been as high.
    since: Vec<usize>,
    // For each literal, the lowest first, the place after the token that pushed it, if it is a missing field: what `duplicate$` and `swap$` leave was pushed
    // before them. Nothing is said of other literals.
    origins: Vec<usize>,
    // How many visits that logged errors, or events, are noted at most.
    most: usize,
    /// The number of the item that is done.
    pub item: usize,
    /// The number of the visit that is executed, or comes next.
    pub visit: u64,
    /// The visits that logged errors, in order.
    pub faulty: Vec<u64>,
    /// What logged errors in visits that were followed, in order.
    pub events: Vec<Event>,
}

impl RunTrace {
    /// Follows these visits, which are in order, of a run with this budget, and notes at most `most` events.
    pub fn following(alloc: Global, budget: u64, followed: Vec<u64>, most: usize) -> Self {
        RunTrace {
            alloc,
            budget,
            followed,
            over: 0,
            since: Vec::new(alloc),
            origins: Vec::new(alloc),
            most,
            item: 0,
            visit: 0,
            faulty: Vec::new(alloc),
            events: Vec::new(alloc),
        }
    }

    /// Follows one visit, and notes no event.
    pub fn to(alloc: Global, budget: u64, visit: u64) -> Result<Self, AllocError> {
        let mut followed = Vec::new(alloc);
        followed.push(visit)?;
        Ok(RunTrace::following(alloc, budget, followed, 0))
    }

    /// The moment at which `left` steps are left.
    pub fn moment(&self, left: u64, before: LogCounts, after: LogCounts) -> StepRecord {
        StepRecord {
            steps: self.budget.saturating_sub(left),
            before,
            after,
        }
    }

    /// Answers whether the visit that comes next is followed.
    pub fn follows(&mut self) -> bool {
        if self.followed.get(self.over) == Some(&self.visit) {
            self.over = self.over.saturating_add(1);
            self.since.truncate(0);
            self.origins.truncate(0);
            return true;
        }
        false
    }

    /// The visit is over.
    pub fn end_visit(&mut self) {
        self.visit = self.visit.saturating_add(1);
    }

    /// The item of this number is done now.
    pub fn stand_in(&mut self, number: usize)
        ensures { self.new.item ≡ number }
    {
        self.item = number;
    }

    /// Notes that the visit logged errors, if it did.
    pub fn note_visit(&mut self, before: LogCounts, after: LogCounts) -> Result<(), AllocError> {
        if after.errors > before.errors && self.faulty.len() < self.most {
            self.faulty.push(self.visit)?;
        }
        Ok(())
    }

    /// The stack is as high as this after a step of a token, the one before a place.
    pub fn follow(&mut self, depth: usize, place: usize, token: Token) -> Result<(), AllocError> {
        let before = self.origins.len();
        keep_up(&mut self.since, depth, place)?;
        keep_up(&mut self.origins, depth, place)?;
        match token {
            Token::Run(Callee::BuiltIn(BuiltIn::Duplicate)) if depth > before => {
                duplicate_below(&mut self.origins)
            }
            Token::Run(Callee::BuiltIn(BuiltIn::Swap)) if depth == before => {
                swap(&mut self.origins)
            }
            _ => Ok(()),
        }
    }

    /// The place after the token since whose step the stack has been higher than `below`; 0 if there is none.
    pub fn since(&self, below: usize) -> usize {
        match self.since.get(below) {
            Some(place) => *place,
            None => 0,
        }
    }

    /// Notes that the test of a loop logged errors, the token before a place, if it did.
    pub fn note_test(&mut self, moment: &StepRecord, place: usize) -> Result<(), AllocError> {
        if self.is_noted(moment) {
            let since = Vec::new(self.alloc);
            self.add(Word::Test, moment, place, since)?;
        }
        Ok(())
    }

    /// Notes that a step logged errors, the token before a place, if it did.
    pub fn note_step(&mut self, moment: &StepRecord, place: usize) -> Result<(), AllocError> {
        if self.is_noted(moment) {
            let operands = topmost(self.alloc, self.origins.as_slice(), MOST_OPERANDS)?;
            self.add(Word::Step, moment, place, operands)?;
        }
        Ok(())
    }

    /// Notes that a command left `depth` literals, if that logged errors.
    pub fn note_left(&mut self, moment: &StepRecord, depth: usize) -> Result<(), AllocError> {
        if self.is_noted(moment) {
            let mut since = Vec::new(self.alloc);
            for turn in 0..depth.min(MOST_LITERALS) {
                since.push(self.since(depth.saturating_sub(turn).saturating_sub(1)))?;
            }
            self.add(Word::Left, moment, 0, since)?;
        }
        Ok(())
    }

    // Whether what happened in a moment is noted: it logged errors, and there is room.
    fn is_noted(&self, moment: &StepRecord) -> bool {
        moment.after.errors > moment.before.errors && self.events.len() < self.most
    }

    // Notes an event.
    fn add(
        &mut self,
        word: Word,
        moment: &StepRecord,
        place: usize,
        since: Vec<usize>,
    ) -> Result<(), AllocError> {
        let moment = *moment;
        let (item, visit) = (self.item, self.visit);
        self.events.push(Event {
            word,
            moment,
            item,
            visit,
            place,
            since,
        })?;
        Ok(())
    }
}

/// How many literals are shown.
pub const MOST_LITERALS: usize = 8;

// How many operands a built-in function takes at most.
const MOST_OPERANDS: usize = 3;

// Makes a list as long as the stack is high; what is new stands for literals of this place.
fn keep_up(places: &mut Vec<usize>, depth: usize, place: usize) -> Result<(), AllocError> {
    places.truncate(depth);
    for _more in places.len()..depth {
        places.push(place)?;
    }
    Ok(())
}

// The one on top is that below it once more.
fn duplicate_below(places: &mut Vec<usize>) -> Result<(), AllocError> {
    let _ = places.pop();
    if let Some(below) = places.last() {
        let below = *below;
        places.push(below)?;
    }
    Ok(())
}

// The two on top change their places.
fn swap(places: &mut Vec<usize>) -> Result<(), AllocError> {
    let (top, below) = (places.pop(), places.pop());
    for place in top.into_iter().chain(below) {
        places.push(place)?;
    }
    Ok(())
}

// The last of these places, the last one first.
fn topmost(alloc: Global, places: &[usize], most: usize) -> Result<Vec<usize>, AllocError> {
    let mut found = Vec::new(alloc);
    for place in places.iter().rev().take(most) {
        found.push(*place)?;
    }
    Ok(found)
}
