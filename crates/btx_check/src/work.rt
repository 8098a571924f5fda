//! What the search goes by: none of it is proved, and none has to be. What it finds is tested.
use crate::description::Value;
use crate::state::State;
use crate::types::ConstantVariables;
use btx_bst::{Callee, Style, Token};
use std::alloc::{AllocError, Global};

/// A place in a style: a token of a function, both by their numbers.
#[derive(Clone, Copy, PartialEq, Eq)]
pub struct Place {
    /// The function. The command itself has none.
    pub function: Option<u32>,
    /// The token of its body, from 0.
    pub token: usize,
}

/// Where a style may go wrong.
#[derive(Drop)]
pub struct Warning {
    /// The place, and those of its callers, the outermost first.
    pub places: Vec<Place>,
    /// What is executed there.
    pub executed: Callee,
    /// The field whose value may be missing where a string is wanted, if that is so.
    pub missing: Option<Callee>,
}

/// Steps that may still be taken, what was met so far, and by which variables and fields descriptions are kept apart.
#[derive(Drop)]
pub struct Work {
    /// Memory.
    pub alloc: Global,
    /// How many steps may still be taken.
    pub steps: u64,
    /// How many could be taken.
    pub all_steps: u64,
    /// How many are left when this round ends.
    pub floor: u64,
    /// How many of the flags an earlier round came to its end with.
    pub tried_flags: usize,
    /// Whether the search was given up: for want of steps, or since it went too deep.
    pub gave_up: bool,
    /// How many more bodies could always be opened.
    pub spare_bodies: usize,
    /// The greatest number of literals on the stack that was met.
    pub most_literals: usize,
    /// The variables and fields by which descriptions are kept apart.
    pub flags: Vec<Callee>,
    /// The open bodies, the outermost first.
    pub open: Vec<Place>,
    /// The first place where the style may go wrong.
    pub warning: Option<Warning>,
}

/// What a part of the search noted: how many steps it took, how many more bodies could always be opened, and the greatest number of literals.
#[derive(Clone, Copy)]
pub(crate) struct Notes {
    /// How many steps.
    pub steps: u64,
    /// How many more bodies could always be opened.
    pub spare_bodies: usize,
    /// The greatest number of literals on the stack.
    pub most_literals: usize,
}

impl Notes {
    /// The same where `bodies` more bodies could be opened.
    pub fn with_room(self, bodies: usize) -> Notes {
        Notes {
            steps: self.steps,
            spare_bodies: self.spare_bodies.saturating_add(bodies),
            most_literals: self.most_literals,
        }
    }
}

/// How many descriptions are kept for one place before they are distinguished by what is on top alone.
pub(crate) const MANY: usize = 48;

impl Work {
    /// A search of at most `steps` steps.
    pub fn new(alloc: Global, steps: u64) -> Work {
        Work {
            alloc,
            steps,
            all_steps: steps,
            floor: 0,
            tried_flags: 0,
            gave_up: false,
            spare_bodies: usize::MAX,
            most_literals: 0,
            flags: Vec::new(alloc),
            open: Vec::new(alloc),
            warning: None,
        }
    }

    /// Begins again, with the steps and the flags that there are. A round with flags may take half of the steps.
    pub(crate) fn begin(&mut self) {
        if !self.flags.is_empty() {
            self.floor = self.steps / 2;
        }
        self.gave_up = false;
        self.spare_bodies = usize::MAX;
        self.most_literals = 0;
        self.open.clear();
        self.warning = None;
    }

    /// Takes a step, if one is left.
    pub fn step(&mut self) -> bool {
        if self.is_out() || self.steps == 0 {
            self.gave_up = true;
            return false;
        }
        self.steps -= 1;
        true
    }

    /// Whether this round may take no more steps.
    pub(crate) fn is_out(&self) -> bool {
        self.steps <= self.floor
    }

    /// Lets what follows take all steps that are left.
    pub(crate) fn release(&mut self) {
        self.floor = 0;
    }

    /// Drops the flags with which no round came to its end.
    pub(crate) fn drop_flags(&mut self) {
        self.flags.truncate(self.tried_flags);
    }

    /// How many steps were taken.
    pub(crate) fn taken(&self) -> u64 {
        self.all_steps.saturating_sub(self.steps)
    }

    /// Notes that a body was opened, after which `spare` more can be.
    pub fn enter(&mut self, function: u32, spare: usize) -> Result<(), AllocError> {
        if spare < self.spare_bodies {
            self.spare_bodies = spare;
        }
        self.open.push(Place {
            function: Some(function),
            token: 0,
        })?;
        Ok(())
    }

    /// Notes that the next token of the open body follows.
    pub fn advance(&mut self) {
        if let Some(place) = self.open.last_mut() {
            if place.token < usize::MAX {
                place.token += 1;
            }
        }
    }

    /// Notes that the open body has ended.
    pub fn leave(&mut self) {
        let _ = self.open.pop();
    }

    /// Notes how many literals are on the stack.
    pub(crate) fn met(&mut self, literals: usize) {
        if self.most_literals < literals {
            self.most_literals = literals;
        }
    }

    /// Begins a part of the search, whose notes are its own. What was noted before is answered.
    pub(crate) fn begin_part(&mut self) -> Notes {
        let before = Notes {
            steps: self.steps,
            spare_bodies: self.spare_bodies,
            most_literals: self.most_literals,
        };
        self.spare_bodies = usize::MAX;
        self.most_literals = 0;
        before
    }

    /// Ends a part of the search: its notes, which are added to what was noted before.
    pub(crate) fn end_part(&mut self, before: Notes) -> Notes {
        let part = Notes {
            steps: before.steps.saturating_sub(self.steps),
            spare_bodies: self.spare_bodies,
            most_literals: self.most_literals,
        };
        self.spare_bodies = before.spare_bodies;
        self.most_literals = before.most_literals;
        self.note(part);
        part
    }

    // Adds the notes of a part of the search.
    fn note(&mut self, part: Notes) {
        if part.spare_bodies < self.spare_bodies {
            self.spare_bodies = part.spare_bodies;
        }
        self.met(part.most_literals);
    }

    /// Notes a part of the search once more, and takes as many steps as it took, if they are left.
    pub(crate) fn again(&mut self, part: Notes) -> bool {
        if self.steps.saturating_sub(self.floor) < part.steps {
            self.gave_up = true;
            self.steps = self.floor;
            return false;
        }
        self.steps -= part.steps;
        self.note(part);
        true
    }

    /// Notes what was executed where something may go wrong, and the field that may be missing there.
    pub(crate) fn warn(
        &mut self,
        executed: Callee,
        missing: Option<Callee>,
    ) -> Result<(), AllocError> {
        if self.warning.is_some() || self.gave_up {
            return Ok(());
        }
        let places = self.open.clone()?;
        self.warning = Some(Warning {
            places,
            executed,
            missing,
        });
        Ok(())
    }

    /// The greatest number of bodies that were open at once, where at most `bodies` could be.
    pub(crate) fn deepest(&self, bodies: usize) -> usize {
        if self.spare_bodies < bodies {
            bodies - self.spare_bodies
        } else {
            0
        }
    }

    /// Adds what descriptions should be kept apart by so that this warning may go. False if there is nothing new.
    pub(crate) fn add_flags(
        &mut self,
        style: &Style,
        warning: &Warning,
        constants: &ConstantVariables,
    ) -> Result<bool, AllocError> {
        let before = self.flags.len();
        self.tried_flags = before;
        match warning.missing {
            Some(field) => self.add_flag(field)?,
            None => {}
        }
        for place in warning.places.iter() {
            match place.function {
                Some(function) => self.add_read(style, function as usize, constants)?,
                None => {}
            }
        }
        Ok(self.flags.len() > before)
    }

    // Adds the variables of constants that a function reads.
    fn add_read(
        &mut self,
        style: &Style,
        function: usize,
        constants: &ConstantVariables,
    ) -> Result<(), AllocError> {
        if function >= style.functions() {
            return Ok(());
        }
        for token in style.body(function) {
            match *token {
                Token::Run(f) => {
                    if constants.has(f) {
                        self.add_flag(f)?;
                    }
                }
                _ => {}
            }
        }
        Ok(())
    }

    /// Whether descriptions are kept apart by variables of entries.
    pub(crate) fn keeps_entries(&self) -> bool {
        for flag in self.flags.iter() {
            match *flag {
                Callee::EntryInteger(_) => return true,
                _ => {}
            }
        }
        false
    }

    fn add_flag(&mut self, flag: Callee) -> Result<(), AllocError> {
        for known in self.flags.iter() {
            if *known == flag {
                return Ok(());
            }
        }
        self.flags.push(flag)?;
        Ok(())
    }
}

/// The field whose value stands on top, or just below, and may be missing.
pub(crate) fn missing_field(a: &State) -> Option<Callee> {
    for k in 0..a.stack.len() {
        if k < 3 {
            let number = a.stack[k];
            match a.value(number) {
                Value::Text(m) => {
                    if m.missing {
                        return field_of(a, number);
                    }
                }
                _ => {}
            }
        }
    }
    None
}

// The field of a number.
fn field_of(a: &State, number: usize) -> Option<Callee> {
    for k in 0..a.fields.len() {
        if a.fields[k] == Some(number) && k < u32::MAX as usize {
            return Some(Callee::Field(k as u32));
        }
    }
    None
}

/// How deep the search follows what a command executes: each function that another one executes counts, `if$`, `while$` and `call.type$` as well as those of the style.
/// This bounds the stack of the processor that the search takes. The greatest depth of a style in TeX Live is that of `ACM-Reference-Format`, 179.
pub const MOST_NESTED: usize = 320;

/// How many loops it follows in one another.
pub const MOST_LOOPS: usize = 20;

/// How much may still be opened: bodies and loops, and how deep the search may go.
#[derive(Clone, Copy)]
pub struct Room {
    pub fuel: usize,
    pub deep: usize,
    pub loops: usize,
}
