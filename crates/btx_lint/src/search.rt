//! What the search for places goes by, and what it notes on its way.
use crate::findings::{Condition, Fault, Finding, Growth, Operand};
use crate::least::Least;
use crate::reach::Reaches;
use crate::traces::Traces;
use btx_bst::Callee;
use btx_check::State;
use btx_check::adding::add;
use btx_check::description::Value;
use btx_check::loops::add_all;
use btx_check::work::{Place, Work};
use std::alloc::{AllocError, Global};

/// Descriptions before any fault of a visit, and after one.
#[derive(Drop)]
pub struct BeforeAndAfterFault {
    pub good: Vec<State>,
    pub spoilt: Vec<State>,
}

impl BeforeAndAfterFault {
    /// No descriptions.
    pub fn new(alloc: Global) -> BeforeAndAfterFault {
        BeforeAndAfterFault {
            good: Vec::new(alloc),
            spoilt: Vec::new(alloc),
        }
    }

    /// Where descriptions go before a fault, or after one.
    pub fn lane(&mut self, is_first: bool) -> &mut Vec<State> {
        if is_first {
            &mut self.good
        } else {
            &mut self.spoilt
        }
    }

    /// Adds all of these, each to one that it is like if there is one. One that describes nothing is left out.
    pub fn join(&mut self, work: &Work, from: BeforeAndAfterFault) -> Result<(), AllocError> {
        add_possible(work, from.good, &mut self.good)?;
        add_possible(work, from.spoilt, &mut self.spoilt)
    }

    /// The same without a look whether they describe anything.
    pub fn join_sure(&mut self, work: &Work, from: BeforeAndAfterFault) -> Result<(), AllocError> {
        add_all(work, from.good, &mut self.good)?;
        add_all(work, from.spoilt, &mut self.spoilt)
    }
}

// Adds those of `states` to `out` that describe something.
fn add_possible(work: &Work, states: Vec<State>, out: &mut Vec<State>) -> Result<(), AllocError> {
    for a in states {
        add(work, out, a)?;
    }
    Ok(())
}

/// An `if$`, and by how much its branches let the stack grow, where they were executed.
#[derive(Clone, Copy)]
pub struct Fork {
    pub place: Place,
    pub yes: Option<Growth>,
    pub no: Option<Growth>,
}

/// What the search goes by.
#[derive(Drop)]
pub struct Search {
    pub work: Work,
    pub allowed: Vec<u32>,
    /// The command, by its number.
    pub item: usize,
    /// The type of the entry.
    pub entry_type: Option<u32>,
    pub found: Vec<Finding>,
    pub forks: Vec<Fork>,
    /// Of each function: whether it can leave different numbers of literals from one description.
    pub uneven: Vec<bool>,
    /// What functions of the style led to.
    pub traces: Traces,
    /// What functions of the style can touch.
    pub reaches: Reaches,
    /// The least that was met in the function that is open: how much could still be opened, and how many literals were left untouched, with `SPARE_LITERALS`.
    pub least: Least,
    /// The numbers of what was found in the functions that are open, whether it was known before or not.
    pub noted: Vec<usize>,
    /// How often the type of the entry was asked for.
    pub types_asked: u64,
}

impl Search {
    /// Notes a fault at the place that was reached, if it isn't known there.
    pub fn note(
        &mut self,
        a: &State,
        executed: Callee,
        fault: Fault,
        operand: Option<Operand>,
        is_first: bool,
    ) -> Result<(), AllocError> {
        let place = match self.work.open.last() {
            Some(place) => *place,
            None => Place {
                function: None,
                token: 0,
            },
        };
        let entry_type = self.entry_type;
        for k in 0..self.found.len() {
            if k < self.found.len()
                && self.found[k].place == place
                && self.found[k].fault == fault
            {
                if is_first {
                    self.found[k].is_first = true;
                }
                self.noted.push(k)?;
                return add_type(&mut self.found[k].types, entry_type);
            }
        }
        self.noted.push(self.found.len())?;
        let mut types: Vec<Option<u32>> = Vec::new(self.work.alloc);
        types.push(entry_type)?;
        let conditions = conditions_of(self.work.alloc, a)?;
        let way = self.work.open.clone()?;
        self.found.push(Finding {
            fault,
            place,
            executed,
            operand,
            literals: a.height(),
            way,
            item: self.item,
            types,
            conditions,
            is_first,
        })?;
        Ok(())
    }

    /// The numbers of what was found after the first `before` notes, each once.
    pub fn noted_from(&mut self, before: usize) -> Result<Vec<usize>, AllocError> {
        let mut found: Vec<usize> = Vec::new(self.work.alloc);
        if self.noted.len() <= before {
            return Ok(found);
        }
        let mut is_there: Vec<bool> = vec![in self.work.alloc; false; self.found.len()]?;
        for k in before..self.noted.len() {
            if k < self.noted.len() {
                let number = self.noted[k];
                if number < is_there.len() && !is_there[number] {
                    is_there[number] = true;
                    found.push(number)?;
                }
            }
        }
        self.noted.truncate(before);
        self.noted.extend_from_slice(&found)?;
        Ok(found)
    }

    /// Notes by how much the branches of an `if$` let the stack grow.
    pub fn compare(
        &mut self,
        height: usize,
        yes: &[State],
        no: &[State],
    ) -> Result<(), AllocError> {
        let Some(place) = self.work.open.last() else {
            return Ok(());
        };
        let place = *place;
        let yes = growth(height, yes);
        let no = growth(height, no);
        for known in self.forks.iter_mut() {
            if known.place == place {
                known.yes = both_grown(known.yes, yes);
                known.no = both_grown(known.no, no);
                return Ok(());
            }
        }
        self.forks.push(Fork { place, yes, no })?;
        Ok(())
    }
}

/// Adds a type to others.
pub fn add_type(types: &mut Vec<Option<u32>>, entry_type: Option<u32>) -> Result<(), AllocError> {
    for known in types.iter() {
        if *known == entry_type {
            return Ok(());
        }
    }
    types.push(entry_type)?;
    Ok(())
}

// What is known of the fields of the entry.
fn conditions_of(alloc: Global, a: &State) -> Result<Vec<Condition>, AllocError> {
    let mut conditions: Vec<Condition> = Vec::new(alloc);
    let fields = a.fields();
    for k in 0..fields.len() {
        if let Some(Value::Text(m)) = a.value_of(fields[k]) {
            let is_given = !m.missing && !m.empty && !m.white;
            if k < u32::MAX as usize && (is_given || !m.full) {
                conditions.push(Condition {
                    field: k as u32,
                    is_given,
                })?;
            }
        }
    }
    Ok(conditions)
}

/// Whether all of these have the same number of literals.
pub fn is_even(states: &[State]) -> bool {
    for a in states {
        if a.height() != states[0].height() {
            return false;
        }
    }
    true
}

// By how many literals these have more than there were.
fn growth(height: usize, states: &[State]) -> Option<Growth> {
    let mut grown: Option<Growth> = None;
    for a in states {
        let by = difference(a.height(), height);
        grown = both_grown(
            grown,
            Some(Growth {
                least: by,
                most: by,
            }),
        );
    }
    grown
}

// The growth of both.
fn both_grown(one: Option<Growth>, other: Option<Growth>) -> Option<Growth> {
    match (one, other) {
        (Some(g), Some(h)) => Some(Growth {
            least: if h.least < g.least { h.least } else { g.least },
            most: if h.most > g.most { h.most } else { g.most },
        }),
        (None, _) => other,
        _ => one,
    }
}

// A difference of two heights of the stack.
fn difference(a: usize, b: usize) -> i64 {
    if a >= b {
        match i64::try_from(a - b) {
            Ok(n) => n,
            Err(_) => i64::MAX,
        }
    } else {
        match i64::try_from(b - a) {
            Ok(n) => 0 - n,
            Err(_) => i64::MIN,
        }
    }
}

/// Sets a mark.
pub fn mark(marks: &mut [bool], i: u32) {
    if (i as usize) < marks.len() {
        marks[i as usize] = true;
    }
}
