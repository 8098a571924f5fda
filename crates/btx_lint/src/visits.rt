//! The commands of a style in the search for places where it may go wrong, and what is found of all of them. No proof rests on it.
use crate::findings::{Cause, Fault, Finding};
use crate::least::Least;
use crate::reach::Reaches;
use crate::search::{BeforeAndAfterFault, Search, mark};
use crate::traces::Traces;
use btx_bst::{Callee, Item, Style, Token};
use btx_check::State;
use btx_check::entries::{Known, entries_of, starts_of, unknown_entries};
use btx_check::lasting::{globals_of, lasting_globals};
use btx_check::types::meant_types;
use btx_check::work::{MOST_LOOPS, MOST_NESTED, Place, Room, Work};
use std::alloc::{AllocError, Global};

/// What the search found.
#[derive(Drop)]
pub struct Traced {
    /// Where the style may go wrong.
    pub found: Vec<Finding>,
    /// Why literals are too many or too few.
    pub causes: Vec<Cause>,
    /// Whether it came to its end.
    pub is_whole: bool,
}

/// Searches a style for places where it may go wrong, with as many steps as a check had, and what it kept descriptions apart by.
pub fn trace(before: Work, style: &Style) -> Result<Traced, AllocError> {
    let alloc = before.alloc;
    let mut work = Work::new(alloc, before.all_steps);
    work.flags = before.flags;
    let reaches = Reaches::new(alloc, style, &work.flags)?;
    let room = most_room();
    let mut search = Search {
        work,
        allowed: meant_types(alloc, style)?,
        item: 0,
        entry_type: None,
        found: Vec::new(alloc),
        forks: Vec::new(alloc),
        uneven: vec![in alloc; false; style.functions()]?,
        traces: Traces::new(alloc)?,
        reaches,
        least: Least::new(room),
        noted: Vec::new(alloc),
        types_asked: 0,
    };
    let items = style.items();
    let nothing = State::start(alloc, false, style)?;
    let mut known = unknown_entries(alloc, style, nothing)?;
    for k in 0..items.len() {
        search.item = k;
        known = search.command(style, items[k], known)?;
    }
    search.into_traced(alloc, style)
}

impl Search {
    // A command: what is known after it.
    fn command(&mut self, style: &Style, item: Item, known: Known) -> Result<Known, AllocError> {
        let alloc = self.work.alloc;
        match item {
            Item::Execute(f) => {
                let mut starts: Vec<State> = Vec::new(alloc);
                starts.push(known.globals.where_entry(false)?)?;
                let ends = self.visit(style, f, &starts)?;
                Ok(Known {
                    globals: globals_of(&self.work, style, &ends.good)?,
                    entries: known.entries,
                })
            }
            Item::Iterate(f) | Item::Reverse(f) => {
                let globals = lasting_globals(&self.work, style, &self.allowed, f, &known.globals)?;
                let starts = starts_of(alloc, &globals, &known.entries)?;
                let mut ends = self.visit(style, f, &starts)?;
                ends.good.append(&mut ends.spoilt)?;
                let entries = entries_of(&self.work, style, &ends.good)?;
                Ok(Known { globals, entries })
            }
            Item::Read => unknown_entries(alloc, style, known.globals),
            _ => Ok(known),
        }
    }

    // A function, executed for a command, from each of these: where it ends.
    fn visit(
        &mut self,
        style: &Style,
        f: Callee,
        starts: &[State],
    ) -> Result<BeforeAndAfterFault, AllocError> {
        let room = most_room();
        let mut out = BeforeAndAfterFault::new(self.work.alloc);
        for start in starts {
            self.entry_type = None;
            self.work.open.clear();
            self.noted.clear();
            self.function(style, room, start.copy()?, true, f, &mut out)?;
        }
        self.left_over(style, f, &out.good, true)?;
        self.left_over(style, f, &out.spoilt, false)?;
        Ok(out)
    }

    // Notes literals that are left over when a command ends.
    fn left_over(
        &mut self,
        style: &Style,
        f: Callee,
        states: &[State],
        is_first: bool,
    ) -> Result<(), AllocError> {
        let token = match f {
            Callee::User(i) if (i as usize) < style.functions() => style.body(i as usize).len(),
            _ => 0,
        };
        let place = Place {
            function: number_of(f),
            token,
        };
        for a in states {
            if !a.is_empty() {
                self.work.open.clear();
                self.work.open.push(place)?;
                self.note(a, f, Fault::LeftOver, None, is_first)?;
            }
        }
        Ok(())
    }

    // What was found, with the causes: forks in functions that are uneven and use no other one that is.
    fn into_traced(self, alloc: Global, style: &Style) -> Result<Traced, AllocError> {
        let owners = owners(alloc, style)?;
        let reach = reaches(alloc, style, &self.uneven, &owners)?;
        let mut causes: Vec<Cause> = Vec::new(alloc);
        for fork in self.forks.iter() {
            match (fork.place.function, fork.yes, fork.no) {
                (Some(function), Some(yes), Some(no)) => {
                    let owner = owner_at(&owners, function);
                    if yes != no && at(&self.uneven, owner) && !at(&reach, owner) {
                        causes.push(Cause {
                            function: owner,
                            place: fork.place,
                            yes,
                            no,
                        })?;
                    }
                }
                _ => {}
            }
        }
        Ok(Traced {
            found: self.found,
            causes,
            is_whole: !self.work.gave_up,
        })
    }
}

// What can be opened in a command.
fn most_room() -> Room {
    Room {
        fuel: MOST_NESTED,
        deep: 4096,
        loops: MOST_LOOPS,
    }
}

// Of each function the one that has a name and holds it: itself, or the next one with a name, since the functions in a function have lower numbers than it.
fn owners(alloc: Global, style: &Style) -> Result<Vec<u32>, AllocError> {
    let mut owners: Vec<u32> = vec![in alloc; 0; style.functions()]?;
    let mut owner: u32 = 0;
    for k in 0..owners.len() {
        let i = owners.len() - 1 - k;
        if i < u32::MAX as usize {
            let number = i as u32;
            if style.name(Callee::User(number)) != b"{}".as_slice() {
                owner = number;
            }
        }
        owners[i] = owner;
    }
    Ok(owners)
}

fn owner_at(owners: &[u32], i: u32) -> u32 {
    if (i as usize) < owners.len() {
        owners[i as usize]
    } else {
        i
    }
}

// Of each function with a name: whether it uses another one, by itself or through others, that is uneven.
fn reaches(
    alloc: Global,
    style: &Style,
    uneven: &[bool],
    owners: &[u32],
) -> Result<Vec<bool>, AllocError> {
    let mut reach: Vec<bool> = vec![in alloc; false; style.functions()]?;
    for i in 0..style.functions() {
        let number = if i < u32::MAX as usize {
            i as u32
        } else {
            u32::MAX
        };
        let owner = owner_at(owners, number);
        for t in style.body(i) {
            match *t {
                Token::Run(Callee::User(j)) | Token::Quote(Callee::User(j)) => {
                    let used = owner_at(owners, j);
                    if (used != owner && at(uneven, used)) || at(&reach, j) {
                        mark(&mut reach, owner);
                        mark(&mut reach, number);
                    }
                }
                _ => {}
            }
        }
    }
    Ok(reach)
}

// The number of a function of the style.
fn number_of(f: Callee) -> Option<u32> {
    match f {
        Callee::User(i) => Some(i),
        _ => None,
    }
}

fn at(marks: &[bool], i: u32) -> bool {
    if (i as usize) < marks.len() {
        marks[i as usize]
    } else {
        false
    }
}
