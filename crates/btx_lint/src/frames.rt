//! The part of a description that a function of the style can touch: the literals on top, and the names in the functions that it leads to. No proof rests
//! on it.
use crate::reach::Reaches;
use btx_check::description::Value;
use btx_check::likeness::{mark_of_value, mixed};
use btx_check::state::{Names, State};
use std::alloc::{AllocError, Global};
use std::rc::RcSlice;

/// How many kinds of names there are.
pub const KINDS: usize = 5;

/// The numbers of the names of a kind.
pub fn names_of(a: &State, kind: usize) -> &[Option<usize>] {
    match kind {
        0 => a.global_integers(),
        1 => a.global_strings(),
        2 => a.entry_integers(),
        3 => a.entry_strings(),
        _ => a.fields(),
    }
}

// The numbers of the names that belong to a frame of the function `i`, kind by kind: those that it reaches, or all. None where a name has no number.
fn names_within(
    alloc: Global,
    reaches: &Reaches,
    is_whole: bool,
    a: &State,
    i: u32,
) -> Result<Vec<Option<usize>>, AllocError> {
    let mut names = Vec::with_capacity(alloc, 32)?;
    for kind in 0..KINDS {
        let numbers = names_of(a, kind);
        for k in 0..numbers.len() {
            if is_whole || reaches.has(i, kind, k) {
                names.push(numbers[k])?;
            }
        }
    }
    Ok(names)
}

/// What a function of the style can touch of a description. Its literals have numbers of their own, in the order of their places.
#[derive(Drop)]
pub struct Frame {
    /// How many literals of the stack belong to it.
    pub depth: usize,
    /// Whether nothing is below them, and that matters.
    pub is_bottom: bool,
    /// Whether all names belong to it.
    pub is_whole: bool,
    entry: bool,
    // The number in each place, from 1. 0 is none.
    places: Vec<usize>,
    values: Vec<Value>,
    // Of each number: 0 if it stands nowhere else, or by what it is known there.
    shared: Vec<usize>,
}

/// A place outside a frame.
#[derive(Clone, Copy, PartialEq, Eq)]
pub enum OuterPlace {
    /// On the stack, from the bottom.
    Stack(usize),
    /// A name, by its kind and number.
    Name(usize, usize),
}

/// A frame, and where it was taken from.
#[derive(Drop)]
pub struct Framed {
    pub frame: Frame,
    // Of each number of the description: that of the frame, from 1. 0 is none.
    inner: Vec<usize>,
    // Of each number of the frame: a place outside where it stands as well.
    anchors: Vec<Option<OuterPlace>>,
}

// Whether one of the literals on top is a function, which may touch anything.
fn has_function(a: &State, depth: usize) -> bool {
    let stack = a.stack();
    for k in 0..stack.len() {
        if k < depth && matches!(a.value(stack[k]), Value::Function(_)) {
            return true;
        }
    }
    false
}

fn at(numbers: &[usize], k: usize) -> usize {
    if k < numbers.len() { numbers[k] } else { 0 }
}

fn set(numbers: &mut [usize], k: usize, n: usize) {
    if k < numbers.len() {
        numbers[k] = n;
    }
}

impl Frame {
    /// Whether another frame is the same.
    pub fn is_same(&self, other: &Frame) -> bool {
        self.depth == other.depth
            && self.is_bottom == other.is_bottom
            && self.is_whole == other.is_whole
            && self.entry == other.entry
            && self.places == other.places
            && self.shared == other.shared
            && self.values == other.values
    }

    /// A mark of it: that of an equal one is the same.
    pub fn mark(&self) -> u64 {
        let mut mark = mixed(self.depth as u64, if self.entry { 1 } else { 2 });
        mark = mixed(mark, if self.is_bottom { 1 } else { 2 });
        for number in self.places.iter() {
            mark = mixed(mark, *number as u64);
        }
        self.mark_of_values(mark)
    }

    fn mark_of_values(&self, mark: u64) -> u64 {
        let mut mark = mark;
        for value in self.values.iter() {
            mark = mixed(mark, mark_of_value(*value));
        }
        mark ^ (mark >> 29)
    }
}

impl Framed {
    /// The frame of the function `i` in the description `a`: the literals on top down to `reaches.depth(i)`, and the names that it reaches.
    pub fn new(alloc: Global, reaches: &Reaches, a: &State, i: u32) -> Result<Framed, AllocError> {
        let touched = reaches.depth(i);
        let is_whole = reaches.is_whole(i) || has_function(a, touched);
        let depth = if is_whole || touched > a.height() {
            a.height()
        } else {
            touched
        };
        let mut framed = Framed {
            frame: Frame {
                depth,
                is_bottom: is_whole || touched > a.height(),
                is_whole,
                entry: a.has_entry(),
                places: Vec::with_capacity(alloc, 32)?,
                values: Vec::with_capacity(alloc, 32)?,
                shared: Vec::with_capacity(alloc, 32)?,
            },
            inner: vec![in alloc; 0; a.values_len()]?,
            anchors: Vec::with_capacity(alloc, 32)?,
        };
        framed.take_stack(a)?;
        let names = names_within(alloc, reaches, is_whole, a, i)?;
        framed.take_names(a, names.as_slice())?;
        framed.share_stack(a);
        if !is_whole {
            for kind in 0..KINDS {
                framed.share_names(reaches, a, i, kind);
            }
        }
        Ok(framed)
    }

    // A place that belongs to the frame, with this number in the description.
    fn take(&mut self, a: &State, number: usize) -> Result<(), AllocError> {
        let known = at(&self.inner, number);
        if known > 0 {
            self.frame.places.push(known)?;
            return Ok(());
        }
        self.frame.values.push(a.value(number))?;
        self.frame.shared.push(0)?;
        self.anchors.push(None)?;
        let new = self.frame.values.len();
        set(&mut self.inner, number, new);
        self.frame.places.push(new)?;
        Ok(())
    }

    fn take_stack(&mut self, a: &State) -> Result<(), AllocError> {
        let stack = a.stack();
        for k in 0..self.frame.depth {
            if k < stack.len() {
                self.take(a, stack[k])?;
            }
        }
        Ok(())
    }

    fn take_names(&mut self, a: &State, names: &[Option<usize>]) -> Result<(), AllocError> {
        for name in names {
            match name {
                None => self.frame.places.push(0)?,
                Some(number) => self.take(a, *number)?,
            }
        }
        Ok(())
    }

    // A place outside the frame: what it is known by, where its number stands in the frame as well.
    fn share(&mut self, number: usize, anchor: OuterPlace, by: usize) {
        let known = at(&self.inner, number);
        if known == 0 {
            return;
        }
        let inner = known - 1;
        if at(&self.frame.shared, inner) < by {
            set(&mut self.frame.shared, inner, by);
        }
        if inner < self.anchors.len() {
            self.anchors[inner] = Some(anchor);
        }
    }

    fn share_stack(&mut self, a: &State) {
        let stack = a.stack();
        for k in self.frame.depth..stack.len() {
            if k < stack.len() {
                self.share(stack[k], OuterPlace::Stack(stack.len() - k), 1);
            }
        }
    }

    fn share_names(&mut self, reaches: &Reaches, a: &State, i: u32, kind: usize) {
        let numbers = names_of(a, kind);
        for k in 0..numbers.len() {
            if let Some(number) = numbers[k] {
                if !reaches.has(i, kind, k) {
                    self.share(number, OuterPlace::Name(kind, k), reaches.flag(kind, k));
                }
            }
        }
    }
}

// The number at a place outside a frame.
fn number_at(a: &State, anchor: Option<OuterPlace>) -> Option<usize> {
    match anchor {
        None => None,
        Some(OuterPlace::Stack(height)) => {
            if height == 0 || height > a.height() {
                return None;
            }
            a.number_at(a.height() - height)
        }
        Some(OuterPlace::Name(kind, k)) => {
            let numbers = names_of(a, kind);
            if k < numbers.len() { numbers[k] } else { None }
        }
    }
}

/// What a function of the style made of a frame. Its literals have numbers of their own.
#[derive(Drop)]
pub struct End {
    // The literals above what is outside the frame, top first.
    stack: Vec<usize>,
    // The numbers of the names of the frame, from 1. 0 is none.
    names: Vec<usize>,
    // What became of each number that is shared with places outside, from 1. 0 is none.
    shared: Vec<usize>,
    values: Vec<Value>,
    entry: bool,
    // Of each number of the description: its own, from 1. 0 is none.
    inner: Vec<usize>,
}

impl End {
    /// What became of a frame that was taken from `from`, in `a`.
    pub fn new(
        alloc: Global,
        reaches: &Reaches,
        framed: &Framed,
        from: &State,
        a: &State,
        i: u32,
    ) -> Result<End, AllocError> {
        let below = from.height().saturating_sub(framed.frame.depth);
        let mut end = End {
            stack: Vec::with_capacity(alloc, 8)?,
            names: Vec::with_capacity(alloc, 32)?,
            shared: Vec::with_capacity(alloc, 32)?,
            values: Vec::with_capacity(alloc, 32)?,
            entry: a.has_entry(),
            inner: vec![in alloc; 0; a.values_len()]?,
        };
        end.take_stack(a, a.height().saturating_sub(below))?;
        let names = names_within(alloc, reaches, framed.frame.is_whole, a, i)?;
        end.take_names(a, names.as_slice())?;
        end.take_shared(framed, a)?;
        end.inner.clear();
        Ok(end)
    }

    // Its own number for one of the description, from 1.
    fn number(&mut self, a: &State, number: usize) -> Result<usize, AllocError> {
        let known = at(&self.inner, number);
        if known > 0 {
            return Ok(known);
        }
        self.values.push(a.value(number))?;
        let new = self.values.len();
        set(&mut self.inner, number, new);
        Ok(new)
    }

    // The same for a place that may have none.
    fn number_or_none(&mut self, a: &State, number: Option<usize>) -> Result<usize, AllocError> {
        match number {
            None => Ok(0),
            Some(number) => self.number(a, number),
        }
    }

    fn take_stack(&mut self, a: &State, count: usize) -> Result<(), AllocError> {
        let stack = a.stack();
        for k in 0..count {
            if k < stack.len() {
                let number = self.number(a, stack[k])?;
                self.stack.push(number)?;
            }
        }
        Ok(())
    }

    fn take_names(&mut self, a: &State, names: &[Option<usize>]) -> Result<(), AllocError> {
        for name in names {
            let number = self.number_or_none(a, *name)?;
            self.names.push(number)?;
        }
        Ok(())
    }

    fn take_shared(&mut self, framed: &Framed, a: &State) -> Result<(), AllocError> {
        for anchor in framed.anchors.iter() {
            let number = self.number_or_none(a, number_at(a, *anchor))?;
            self.shared.push(number)?;
        }
        Ok(())
    }

    /// The same in another description, of which an equal frame was taken.
    pub fn put_back(
        &self,
        alloc: Global,
        reaches: &Reaches,
        framed: &Framed,
        a: &State,
        i: u32,
    ) -> Result<State, AllocError> {
        let mut back = FrameRestorer {
            values: Vec::with_capacity(alloc, self.values.len().saturating_add(a.values_len()))?,
            moved: vec![in alloc; 0; a.values_len()]?,
            used: 0,
        };
        back.values.extend_from_slice(&self.values)?;
        let stack = back.stack(alloc, self, framed, a)?;
        let names = Names {
            global_integers: back.names(alloc, self, reaches, framed, a, i, 0)?,
            global_strings: back.names(alloc, self, reaches, framed, a, i, 1)?,
            entry_integers: back.names(alloc, self, reaches, framed, a, i, 2)?,
            entry_strings: back.names(alloc, self, reaches, framed, a, i, 3)?,
            fields: back.names(alloc, self, reaches, framed, a, i, 4)?,
        };
        Ok(State::of(stack, back.values, names, self.entry))
    }
}

// A description that is put together from an end and what is outside a frame.
#[derive(Drop)]
struct FrameRestorer {
    values: Vec<Value>,
    // Of each number outside: its new one, from 1. 0 is none.
    moved: Vec<usize>,
    // How many names of the frame have been put back.
    used: usize,
}

impl FrameRestorer {
    // The new number of one outside the frame.
    fn outer(
        &mut self,
        end: &End,
        framed: &Framed,
        a: &State,
        number: usize,
    ) -> Result<usize, AllocError> {
        let known = at(&framed.inner, number);
        if known > 0 {
            let shared = at(&end.shared, known - 1);
            if shared > 0 {
                return Ok(shared - 1);
            }
        }
        let moved = at(&self.moved, number);
        if moved > 0 {
            return Ok(moved - 1);
        }
        let new = self.values.len();
        self.values.push(a.value(number))?;
        set(&mut self.moved, number, self.values.len());
        Ok(new)
    }

    fn stack(
        &mut self,
        alloc: Global,
        end: &End,
        framed: &Framed,
        a: &State,
    ) -> Result<Vec<usize>, AllocError> {
        let room = end.stack.len().saturating_add(a.height()).saturating_add(8);
        let mut stack: Vec<usize> = Vec::with_capacity(alloc, room)?;
        for number in end.stack.iter() {
            stack.push(number.saturating_sub(1))?;
        }
        let below = a.stack();
        for k in framed.frame.depth..below.len() {
            if k < below.len() {
                let number = self.outer(end, framed, a, below[k])?;
                stack.push(number)?;
            }
        }
        Ok(stack)
    }

    fn names(
        &mut self,
        alloc: Global,
        end: &End,
        reaches: &Reaches,
        framed: &Framed,
        a: &State,
        i: u32,
        kind: usize,
    ) -> Result<RcSlice<Option<usize>>, AllocError> {
        let numbers = names_of(a, kind);
        let mut names: Vec<Option<usize>> = Vec::with_capacity(alloc, numbers.len())?;
        for k in 0..numbers.len() {
            let number = if framed.frame.is_whole || reaches.has(i, kind, k) {
                self.inner(end)
            } else {
                match numbers[k] {
                    None => None,
                    Some(number) => Some(self.outer(end, framed, a, number)?),
                }
            };
            names.push(number)?;
        }
        RcSlice::from_vec(names)
    }

    // The number of the next name of the frame.
    fn inner(&mut self, end: &End) -> Option<usize> {
        let number = at(&end.names, self.used);
        self.used = self.used.saturating_add(1);
        if number > 0 { Some(number - 1) } else { None }
    }
}
