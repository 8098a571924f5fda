//! Which descriptions are joined, and what is proposed for both: guesses, which `State::is_within` tests.
use crate::description::{Upper, Value};
use crate::likeness::{
    Fingerprint, mark_of_kind, mark_of_shape, mark_of_value, mixed, mixed_names,
};
use crate::state::{Names, State};
use crate::work::Work;
use btx_bst::Callee;
use std::alloc::{AllocError, Global};
use std::rc::RcSlice;

impl State {
    /// Whether this and another one are to be joined: they have the same on the stack, as far as that is distinguished, and the flags don't differ.
    pub(crate) fn is_like(&self, work: &Work, other: &State, is_coarse: bool) -> bool {
        if self.stack.len() != other.stack.len() || self.entry != other.entry {
            return false;
        }
        for k in 0..self.stack.len() {
            if k < other.stack.len() {
                let mine = self.value(self.stack[k]);
                let its = other.value(other.stack[k]);
                if is_coarse && k >= 2 {
                    if !is_same_kind(mine, its) {
                        return false;
                    }
                } else if !is_same_shape(mine, its) {
                    return false;
                }
            }
        }
        is_coarse || !self.differs(work, other)
    }

    /// The same, where their likenesses don't say already that they aren't alike.
    pub(crate) fn is_alike(&self, work: &Work, other: &State, is_coarse: bool) -> bool {
        self.likeness.may_be(other.likeness, is_coarse) && self.is_like(work, other, is_coarse)
    }

    /// The likeness of this description: that of all that it is like is the same.
    pub(crate) fn likeness_by(&self, work: &Work) -> Fingerprint {
        let mut coarse = mixed(self.stack.len() as u64, if self.entry { 1 } else { 2 });
        let mut fine = coarse;
        for k in 0..self.stack.len() {
            let value = self.value(self.stack[k]);
            let shape = mark_of_shape(value);
            fine = mixed(fine, shape);
            coarse = mixed(coarse, if k >= 2 { mark_of_kind(value) } else { shape });
        }
        for flag in work.flags.iter() {
            fine = mixed(fine, mark_of_flag(flag_of(self, *flag)));
        }
        Fingerprint { fine, coarse }
    }

    /// A mark of this description and a function of the style: that of an equal one is the same.
    pub(crate) fn mark_with(&self, function: u32) -> u64 {
        let mut mark = mixed(function as u64, if self.entry { 1 } else { 2 });
        mark = mixed(mark, self.stack.len() as u64);
        for number in self.stack.iter() {
            mark = mixed(mark, *number as u64);
        }
        for value in self.values.iter() {
            mark = mixed(mark, mark_of_value(*value));
        }
        mark = mixed_names(mark, &self.global_integers);
        mark = mixed_names(mark, &self.global_strings);
        mark = mixed_names(mark, &self.entry_integers);
        mark = mixed_names(mark, &self.entry_strings);
        mark = mixed_names(mark, &self.fields);
        mark ^ (mark >> 29)
    }

    // Whether a flag is known to be one thing here and another thing there.
    fn differs(&self, work: &Work, other: &State) -> bool {
        for flag in work.flags.iter() {
            if flag_of(self, *flag) != flag_of(other, *flag) {
                return true;
            }
        }
        false
    }

    /// Numbers of this state for those of another, as a guess: those that stand in the same places.
    pub(crate) fn numbers_for(
        &self,
        alloc: Global,
        other: &State,
    ) -> Result<Vec<usize>, AllocError> {
        let mut numbers: Vec<usize> = vec![in alloc; 0; other.values.len()]?;
        for k in 0..other.stack.len() {
            if k < self.stack.len() {
                put(&mut numbers, other.stack[k], self.stack[k]);
            }
        }
        put_names(&mut numbers, &other.global_integers, &self.global_integers);
        put_names(&mut numbers, &other.global_strings, &self.global_strings);
        put_names(&mut numbers, &other.entry_integers, &self.entry_integers);
        put_names(&mut numbers, &other.entry_strings, &self.entry_strings);
        put_names(&mut numbers, &other.fields, &self.fields);
        Ok(numbers)
    }

    /// A description of all that this and another one describe, as a guess. Where it is to be wide, bounds that grew go to the next threshold.
    pub(crate) fn joined(
        &self,
        alloc: Global,
        other: &State,
        is_wide: bool,
    ) -> Result<Option<State>, AllocError> {
        match self.both(alloc, other, is_wide)? {
            None => Ok(None),
            Some(both) => Ok(Some(both.state)),
        }
    }

    /// The same, with the numbers of both.
    pub(crate) fn both(
        &self,
        alloc: Global,
        other: &State,
        is_wide: bool,
    ) -> Result<Option<Both>, AllocError> {
        if self.stack.len() != other.stack.len() || self.entry != other.entry {
            return Ok(None);
        }
        let room = self.values.len().saturating_add(SPARE_PAIRS);
        let mut pairs = Pairs {
            first: self,
            second: other,
            is_wide,
            latest: vec![in alloc; None; self.values.len()]?,
            earlier: Vec::with_capacity(alloc, room)?,
            firsts: Vec::with_capacity(alloc, room)?,
            seconds: Vec::with_capacity(alloc, room)?,
            values: Vec::with_capacity(alloc, room)?,
        };
        let stack = pairs.stack(alloc, &self.stack, &other.stack)?;
        let names = Names {
            global_integers: pairs.names(alloc, &self.global_integers, &other.global_integers)?,
            global_strings: pairs.names(alloc, &self.global_strings, &other.global_strings)?,
            entry_integers: pairs.names(alloc, &self.entry_integers, &other.entry_integers)?,
            entry_strings: pairs.names(alloc, &self.entry_strings, &other.entry_strings)?,
            fields: pairs.names(alloc, &self.fields, &other.fields)?,
        };
        Ok(Some(Both {
            state: State::of(stack, pairs.values, names, self.entry),
            firsts: pairs.firsts,
            seconds: pairs.seconds,
        }))
    }
}

// For how many more pairs than numbers of the first state there is room at once.
const SPARE_PAIRS: usize = 8;

/// A description of all that two others describe, and for each of its numbers those of the two: a guess.
#[derive(Drop)]
pub struct Both {
    pub state: State,
    pub firsts: Vec<usize>,
    pub seconds: Vec<usize>,
}

// Pairs of numbers of two states, and what is known of both.
#[derive(Drop)]
struct Pairs<'a> {
    first: &'a State,
    second: &'a State,
    is_wide: bool,
    // Of each number of the first: the latest pair with it, and of each pair the one before it.
    latest: Vec<Option<usize>>,
    earlier: Vec<Option<usize>>,
    firsts: Vec<usize>,
    seconds: Vec<usize>,
    values: Vec<Value>,
}

impl<'a> Pairs<'a> {
    // The number of a pair.
    fn number(&mut self, i: usize, j: usize) -> Result<usize, AllocError> {
        let latest = if i < self.latest.len() {
            self.latest[i]
        } else {
            None
        };
        let mut at = latest;
        for _ in 0..self.seconds.len() {
            match at {
                None => break,
                Some(n) => {
                    if n < self.seconds.len() && self.seconds[n] == j {
                        return Ok(n);
                    }
                    at = if n < self.earlier.len() {
                        self.earlier[n]
                    } else {
                        None
                    };
                }
            }
        }
        let n = self.values.len();
        let value = joined_value(self.first.value(i), self.second.value(j), self.is_wide);
        if i < self.latest.len() {
            self.latest[i] = Some(n);
        }
        self.earlier.push(latest)?;
        self.firsts.push(i)?;
        self.seconds.push(j)?;
        self.values.push(value)?;
        Ok(n)
    }

    // The stack of both.
    fn stack(
        &mut self,
        alloc: Global,
        mine: &[usize],
        its: &[usize],
    ) -> Result<Vec<usize>, AllocError> {
        let mut stack: Vec<usize> = Vec::with_capacity(alloc, mine.len())?;
        for k in 0..mine.len() {
            if k < its.len() {
                let number = self.number(mine[k], its[k])?;
                stack.push(number)?;
            }
        }
        Ok(stack)
    }

    // The names of a kind that have a number in both.
    fn names(
        &mut self,
        alloc: Global,
        mine: &[Option<usize>],
        its: &[Option<usize>],
    ) -> Result<RcSlice<Option<usize>>, AllocError> {
        let mut names: Vec<Option<usize>> = Vec::with_capacity(alloc, mine.len())?;
        for k in 0..mine.len() {
            let other = if k < its.len() { its[k] } else { None };
            let number = self.name(mine[k], other)?;
            names.push(number)?;
        }
        RcSlice::from_vec(names)
    }

    // The number of a name that may have one in both.
    fn name(
        &mut self,
        mine: Option<usize>,
        its: Option<usize>,
    ) -> Result<Option<usize>, AllocError> {
        match mine {
            None => Ok(None),
            Some(i) => match its {
                None => Ok(None),
                Some(j) => {
                    let number = self.number(i, j)?;
                    Ok(Some(number))
                }
            },
        }
    }
}

/// What is known of either.
pub fn joined_value(a: Value, b: Value, is_wide: bool) -> Value {
    match (a, b) {
        (Value::Integer(low, high), Value::Integer(low2, high2)) => {
            Value::Integer(
                joined_low(low, low2, is_wide),
                joined_high(high, high2, is_wide),
            )
        }
        (Value::Text(m), Value::Text(n)) => Value::Text(m.joined(n)),
        (Value::Function(f), Value::Function(g)) => if f == g {
            Value::Function(f)
        } else {
            Value::Any
        },
        _ => Value::Any,
    }
}

// The thresholds of lower bounds, and of upper ones.
const LOWS: [i32; 4] = [2, 1, 0, -1];

const HIGHS: [i32; 4] = [-1, 0, 1, 2];

// The lesser of two lower bounds; a wide one at the next threshold.
fn joined_low(old: Option<i32>, new: Option<i32>, is_wide: bool) -> Option<i32> {
    match (old, new) {
        (Some(m), Some(n)) => {
            if m <= n {
                return old;
            }
            if !is_wide {
                return new;
            }
            for bound in LOWS {
                if bound <= n {
                    return Some(bound);
                }
            }
            None
        }
        _ => None,
    }
}

// The greater of two upper bounds; a wide one at the next threshold.
fn joined_high(old: Upper, new: Upper, is_wide: bool) -> Upper {
    match (old, new) {
        (Upper::Counter, Upper::Counter) => Upper::Counter,
        (Upper::Counter, Upper::Number(Some(n))) | (Upper::Number(Some(n)), Upper::Counter) => {
            if n <= 500_000_000 {
                Upper::Counter
            } else {
                Upper::Number(None)
            }
        }
        (Upper::Number(Some(m)), Upper::Number(Some(n))) => {
            if m >= n {
                return old;
            }
            if !is_wide {
                return new;
            }
            for bound in HIGHS {
                if bound >= n {
                    return Upper::Number(Some(bound));
                }
            }
            if n <= 500_000_000 {
                Upper::Counter
            } else {
                Upper::Number(None)
            }
        }
        _ => Upper::Number(None),
    }
}

// Whether two descriptions on the stack are distinguished.
fn is_same_shape(a: Value, b: Value) -> bool {
    match (a, b) {
        (Value::Integer(low, high), Value::Integer(low2, high2)) => {
            sign_of(low, high) == sign_of(low2, high2)
        }
        (Value::Text(m), Value::Text(n)) => m.full == n.full,
        (Value::Function(f), Value::Function(g)) => f == g,
        (Value::Any, Value::Any) => true,
        _ => false,
    }
}

// Whether two descriptions are of one kind, and the same function if they are functions.
fn is_same_kind(a: Value, b: Value) -> bool {
    match (a, b) {
        (Value::Integer(_, _), Value::Integer(_, _)) => true,
        (Value::Text(_), Value::Text(_)) => true,
        (Value::Function(f), Value::Function(g)) => f == g,
        (Value::Any, Value::Any) => true,
        _ => false,
    }
}

/// By what integers are distinguished: certainly above 0, certainly not, or open.
#[derive(Clone, Copy, PartialEq, Eq)]
pub enum Sign {
    Positive,
    NotPositive,
    Open,
}

/// The sign of an integer of these bounds.
pub fn sign_of(low: Option<i32>, high: Upper) -> Sign {
    match low {
        Some(m) => {
            if m > 0 {
                return Sign::Positive;
            }
        }
        None => {}
    }
    match high {
        Upper::Number(Some(n)) => {
            if n <= 0 {
                return Sign::NotPositive;
            }
        }
        _ => {}
    }
    Sign::Open
}

// What a flag is: an integer that is known, a field that is there or not, or open.
#[derive(Clone, Copy, PartialEq, Eq)]
enum Flag {
    Number(i32),
    Positive,
    NotPositive,
    Full,
    Blank,
    Open,
}

fn flag_of(state: &State, flag: Callee) -> Flag {
    match state.slot(flag) {
        None => Flag::Open,
        Some(number) => match state.value(number) {
            Value::Integer(low, high) => integer_flag(low, high),
            Value::Text(m) => if !m.full {
                Flag::Blank
            } else if !m.missing && !m.empty && !m.white {
                Flag::Full
            } else {
                Flag::Open
            },
            _ => Flag::Open,
        },
    }
}

// What tells flags apart in a likeness.
fn mark_of_flag(flag: Flag) -> u64 {
    match flag {
        Flag::Number(n) => mixed(n.unsigned_abs() as u64, 7),
        Flag::Positive => 1,
        Flag::NotPositive => 2,
        Flag::Full => 3,
        Flag::Blank => 4,
        Flag::Open => 5,
    }
}

fn integer_flag(low: Option<i32>, high: Upper) -> Flag {
    match (low, high) {
        (Some(m), Upper::Number(Some(n))) => {
            if m == n {
                return Flag::Number(m);
            }
        }
        _ => {}
    }
    match sign_of(low, high) {
        Sign::Positive => Flag::Positive,
        Sign::NotPositive => Flag::NotPositive,
        Sign::Open => Flag::Open,
    }
}

fn put(numbers: &mut [usize], j: usize, i: usize) {
    if j < numbers.len() {
        numbers[j] = i;
    }
}

fn put_names(numbers: &mut [usize], js: &[Option<usize>], is: &[Option<usize>]) {
    for k in 0..js.len() {
        if k < is.len() {
            match (js[k], is[k]) {
                (Some(j), Some(i)) => put(numbers, j, i),
                _ => {}
            }
        }
    }
}
