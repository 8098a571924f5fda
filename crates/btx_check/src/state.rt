//! Descriptions of states.
ghost use Rattle.std.specs.Prelude.{ℕ, ◌≡◌, ◌<◌, List, [], ◌∷◌, length, slice_get, slice_index_or, slice_set, Option, Some, None, option_map, IsTrue};
ghost use Rattle.std.specs.Option.{MatchOption, IfSome};
ghost use Rattle.std.specs.Result.{IfOk};
ghost use Rattle.std.specs.Rc.{rc_slice_items};
ghost use Rattle.btx_check.specs.declared.description.Value.TheVariants.{Any};
ghost use Rattle.btx_stack.specs.declared.literal.Literal.{Literal};
ghost use Rattle.btx_check.specs.Descriptions.{Is};
ghost use Rattle.btx_check.specs.States.{slot, putting, Abstract, pushing, pushing_new, knowing, with_stack, keeping};
ghost use Rattle.btx_check.specs.Inclusion.{Within, IsImpossible};
ghost use Rattle.btx_check.specs.Running.{Starts};
ghost use Rattle.btx_check.specs.Between.{IsGlobal, IsLocal, Combines, Shifted, IsShifted, where_entry};

use crate::description::{Mask, Upper, Value};
use crate::likeness::Fingerprint;
use crate::within::{fields_map, stack_maps, values_map};
use btx_bst::{Callee, Style};
use std::alloc::{AllocError, Global};
use std::marker::Model;
use std::rc::RcSlice;

/// What is known of a state. Literals have numbers; two places of one number hold the same literal.
#[derive(Drop)]
pub struct State {
    // Top first.
    pub(crate) stack: Vec<usize>,
    pub(crate) values: Vec<Value>,
    // The number of each name's value, if it has one. Copies of a description share these.
    pub(crate) global_integers: RcSlice<Option<usize>>,
    pub(crate) global_strings: RcSlice<Option<usize>>,
    pub(crate) entry_integers: RcSlice<Option<usize>>,
    pub(crate) entry_strings: RcSlice<Option<usize>>,
    pub(crate) fields: RcSlice<Option<usize>>,
    pub(crate) entry: bool,
    // Differs from the mark of a description that isn't like it. No clause speaks of it.
    pub(crate) likeness: Fingerprint,
}

impl Model for State {
    ghost Value = { Abstract };

    ghost view = { λ s. record {
      stack = s.stack.items;
      values = s.values.items;
      global_integers = rc_slice_items s.global_integers;
      global_strings = rc_slice_items s.global_strings;
      entry_integers = rc_slice_items s.entry_integers;
      entry_strings = rc_slice_items s.entry_strings;
      fields = rc_slice_items s.fields;
      entry = s.entry;
    } };
}

// Sets a name's number in the list of its kind.
macro_rules! number_put {
    ($alloc:ident, $state:ident.$numbers:ident, $name:ident, $number:ident) => {{
        $state.$numbers = with_number($alloc, &$state.$numbers, $name as usize, $number)?;
        Ok(())
    }};
}

// Answers false where one of these doesn't hold.
macro_rules! need_all {
    ($($test:expr),+ $(,)?) => {
        $(if !$test {
            return false;
        })+
    };
}

/// The numbers of the values of names, by the kinds of names. Copies of a description share these.
#[derive(Drop)]
pub struct Names {
    pub global_integers: RcSlice<Option<usize>>,
    pub global_strings: RcSlice<Option<usize>>,
    pub entry_integers: RcSlice<Option<usize>>,
    pub entry_strings: RcSlice<Option<usize>>,
    pub fields: RcSlice<Option<usize>>,
}

impl State {
    /// The description that has these parts: `stack`, the numbers of the literals, top first; `values`, what is known of each number; `names`, the number of
    /// each name's value, if it has one; and `entry`, whether an entry is current.
    pub fn of(stack: Vec<usize>, values: Vec<Value>, names: Names, entry: bool) -> State
        ensures stack { result.stack ≡ stack.items }
        ensures values { result.values ≡ values.items }
        ensures global_integers { result.global_integers ≡ rc_slice_items names.global_integers }
        ensures global_strings { result.global_strings ≡ rc_slice_items names.global_strings }
        ensures entry_integers { result.entry_integers ≡ rc_slice_items names.entry_integers }
        ensures entry_strings { result.entry_strings ≡ rc_slice_items names.entry_strings }
        ensures fields { result.fields ≡ rc_slice_items names.fields }
        ensures entry { result.entry ≡ entry }
    {
        State {
            stack,
            values,
            global_integers: names.global_integers,
            global_strings: names.global_strings,
            entry_integers: names.entry_integers,
            entry_strings: names.entry_strings,
            fields: names.fields,
            entry,
            likeness: Fingerprint::unknown(),
        }
    }

    /// A state of which nothing is known but whether an entry is current.
    pub fn start(alloc: Global, entry: bool, style: &Style) -> Result<State, AllocError>
        ensures starts { IfOk result (λ a. Starts a) }
        ensures entry { IfOk result (λ a. a.entry ≡ entry) }
    {
        Ok(State {
            stack: Vec::new(alloc),
            values: Vec::new(alloc),
            global_integers: no_numbers(alloc, style.global_integers())?,
            global_strings: no_numbers(alloc, style.global_strings())?,
            entry_integers: no_numbers(alloc, style.entry_integers())?,
            entry_strings: no_numbers(alloc, style.entry_strings())?,
            fields: no_numbers(alloc, style.fields())?,
            entry,
            likeness: Fingerprint::unknown(),
        })
    }

    /// The same once more.
    pub fn copy(&self) -> Result<State, AllocError>
        ensures { IfOk result (λ a. a ≡ self.now) }
    {
        Ok(State {
            stack: copied_numbers(&self.stack)?,
            values: copied_values(&self.values)?,
            global_integers: self.global_integers.clone()?,
            global_strings: self.global_strings.clone()?,
            entry_integers: self.entry_integers.clone()?,
            entry_strings: self.entry_strings.clone()?,
            fields: self.fields.clone()?,
            entry: self.entry,
            likeness: Fingerprint::unknown(),
        })
    }

    /// The same where an entry is current, or where none is.
    pub fn where_entry(&self, entry: bool) -> Result<State, AllocError>
        ensures { IfOk result (λ a. a ≡ where_entry entry self.now) }
    {
        let mut a = self.copy()?;
        a.entry = entry;
        Ok(a)
    }

    /// What this says of global variables, and of nothing else.
    pub(crate) fn globals(&self, alloc: Global) -> Result<State, AllocError>
        ensures { IfOk result (λ a. IsGlobal a) }
    {
        Ok(State {
            stack: Vec::new(alloc),
            values: copied_values(&self.values)?,
            global_integers: self.global_integers.clone()?,
            global_strings: self.global_strings.clone()?,
            entry_integers: no_numbers(alloc, self.entry_integers.len())?,
            entry_strings: no_numbers(alloc, self.entry_strings.len())?,
            fields: no_numbers(alloc, self.fields.len())?,
            entry: self.entry,
            likeness: Fingerprint::unknown(),
        })
    }

    /// What this says of the entry, and of nothing else.
    pub(crate) fn locals(&self, alloc: Global) -> Result<State, AllocError>
        ensures { IfOk result (λ a. IsLocal a) }
    {
        Ok(State {
            stack: Vec::new(alloc),
            values: copied_values(&self.values)?,
            global_integers: no_numbers(alloc, self.global_integers.len())?,
            global_strings: no_numbers(alloc, self.global_strings.len())?,
            entry_integers: self.entry_integers.clone()?,
            entry_strings: self.entry_strings.clone()?,
            fields: self.fields.clone()?,
            entry: self.entry,
            likeness: Fingerprint::unknown(),
        })
    }

    /// What this says of all but the entry, and another one of the entry, which is current.
    pub(crate) fn with_entry(&self, other: &State) -> Result<State, AllocError>
        ensures { IfOk result (λ a. Combines self.now other.now a) }
    {
        let alloc = *self.values.allocator();
        let n = self.values.len();
        let mut values = copied_values(&self.values)?;
        values.extend_from_slice(&other.values)?;
        Ok(State {
            stack: copied_numbers(&self.stack)?,
            values,
            global_integers: self.global_integers.clone()?,
            global_strings: self.global_strings.clone()?,
            entry_integers: shifted(alloc, &other.entry_integers, n)?,
            entry_strings: shifted(alloc, &other.entry_strings, n)?,
            fields: shifted(alloc, &other.fields, n)?,
            entry: true,
            likeness: Fingerprint::unknown(),
        })
    }

    /// The numbers of the literals on the stack, top first.
    pub fn stack(&self) -> &[usize]
        ensures { result.now ≡ self.now.stack }
    {
        &self.stack
    }

    /// The number of the literal that has `place` on the stack, from 0 on top.
    pub fn number_at(&self, place: usize) -> Option<usize>
        ensures { result ≡ slice_get self.now.stack place }
    {
        if place < self.stack.len() {
            Some(self.stack[place])
        } else {
            None
        }
    }

    /// What is known of the literal that has `place` on the stack, from 0 on top.
    pub fn value_at(&self, place: usize) -> Option<Value>
        ensures { result ≡ option_map (λ (n : ℕ). slice_index_or self.now.values n Any) (slice_get self.now.stack place) }
    {
        self.value_of(self.number_at(place))
    }

    /// What is known of a number, if there is one.
    pub fn value_of(&self, number: Option<usize>) -> Option<Value>
        ensures { result ≡ option_map (λ (n : ℕ). slice_index_or self.now.values n Any) number }
    {
        match number {
            None => None,
            Some(number) => Some(self.value(number)),
        }
    }

    /// The number of the value of each global integer variable, if it has one.
    pub fn global_integers(&self) -> &[Option<usize>]
        ensures { result.now ≡ self.now.global_integers }
    {
        &self.global_integers
    }

    /// The number of the value of each global string variable, if it has one.
    pub fn global_strings(&self) -> &[Option<usize>]
        ensures { result.now ≡ self.now.global_strings }
    {
        &self.global_strings
    }

    /// The number of the value of each integer variable of the entry, if it has one.
    pub fn entry_integers(&self) -> &[Option<usize>]
        ensures { result.now ≡ self.now.entry_integers }
    {
        &self.entry_integers
    }

    /// The number of the value of each string variable of the entry, if it has one.
    pub fn entry_strings(&self) -> &[Option<usize>]
        ensures { result.now ≡ self.now.entry_strings }
    {
        &self.entry_strings
    }

    /// The number of the value of each field of the entry, if it has one.
    pub fn fields(&self) -> &[Option<usize>]
        ensures { result.now ≡ self.now.fields }
    {
        &self.fields
    }

    /// Pushes a number.
    pub(crate) fn push(&mut self, number: usize) -> Result<(), AllocError>
        ensures { IfOk result (λ _. self.new ≡ pushing number self.old) }
    {
        self.stack.insert(0, number)?;
        Ok(())
    }

    /// Pushes a literal of which this is known, under a new number.
    pub fn push_new(&mut self, value: Value) -> Result<(), AllocError>
        ensures { IfOk result (λ _. self.new ≡ pushing_new value self.old) }
    {
        let number = self.values.len();
        self.values.push(value)?;
        self.stack.insert(0, number)?;
        Ok(())
    }

    /// A new number for what a variable keeps of a string.
    pub(crate) fn keep(&mut self, mask: Mask) -> Result<(), AllocError>
        ensures { IfOk result (λ _. self.new ≡ keeping mask self.old) }
    {
        self.values.push(Value::Text(mask.cut()))?;
        Ok(())
    }

    /// Pops the number on top.
    pub fn pop(&mut self) -> Option<usize>
        ensures { MatchOption result (self.old.stack ≡ []) (λ i. (self.old.stack ≡ i ∷ self.new.stack) × (self.new ≡ with_stack self.new.stack self.old)) }
    {
        if self.stack.is_empty() {
            return None;
        }
        Some(self.stack.remove(0))
    }

    /// Takes everything off the stack.
    pub(crate) fn clear(&mut self)
        ensures { self.new ≡ with_stack [] self.old }
    {
        self.stack.clear();
    }

    /// What is known of a number.
    pub fn value(&self, number: usize) -> Value
        ensures { result ≡ slice_index_or self.now.values number Any }
    {
        match self.values.get(number) {
            Some(value) => *value,
            None => Value::Any,
        }
    }

    /// Sets what is known of a number.
    pub fn know(&mut self, number: usize, value: Value)
        ensures { self.new ≡ knowing number value self.old }
    {
        if number < self.values.len() {
            self.values[number] = value;
        }
    }

    /// How many numbers there are.
    pub fn values_len(&self) -> usize
        ensures { result ≡ length self.now.values }
    {
        self.values.len()
    }

    /// How many literals are on the stack.
    pub fn height(&self) -> usize
        ensures { result ≡ length self.now.stack }
    {
        self.stack.len()
    }

    /// Whether there is room for a literal on the stack.
    pub(crate) fn has_room(&self) -> bool
        ensures { IsTrue result → length self.now.stack < 1000 }
    {
        self.stack.len() < 1000
    }

    /// Whether nothing is on the stack.
    pub fn is_empty(&self) -> bool
        ensures { IsTrue result → self.now.stack ≡ [] }
    {
        self.stack.is_empty()
    }

    /// The number of a name's value, if it has one.
    pub(crate) fn slot(&self, name: Callee) -> Option<usize>
        ensures { result ≡ slot self.now name }
    {
        match name {
            Callee::GlobalInteger(i) => number_in(&self.global_integers, i as usize),
            Callee::GlobalString(i) => number_in(&self.global_strings, i as usize),
            Callee::EntryInteger(i) => number_in(&self.entry_integers, i as usize),
            Callee::EntryString(i) => number_in(&self.entry_strings, i as usize),
            Callee::Field(i) => number_in(&self.fields, i as usize),
            _ => None,
        }
    }

    /// Sets the number of a name's value.
    pub(crate) fn put(
        &mut self,
        alloc: Global,
        name: Callee,
        number: usize,
    ) -> Result<(), AllocError>
        ensures { IfOk result (λ _. self.new ≡ putting name number self.old) }
    {
        match name {
            Callee::GlobalInteger(i) => number_put!(alloc, self.global_integers, i, number),
            Callee::GlobalString(i) => number_put!(alloc, self.global_strings, i, number),
            Callee::EntryInteger(i) => number_put!(alloc, self.entry_integers, i, number),
            Callee::EntryString(i) => number_put!(alloc, self.entry_strings, i, number),
            Callee::Field(i) => number_put!(alloc, self.fields, i, number),
            _ => Ok(()),
        }
    }

    /// Notes its likeness.
    pub(crate) fn mark(&mut self, likeness: Fingerprint)
        ensures { self.new ≡ self.old }
    {
        self.likeness = likeness;
    }

    /// Whether an entry is current.
    pub fn has_entry(&self) -> bool
        ensures { result ≡ self.now.entry }
    {
        self.entry
    }

    /// Whether no store is described, since one of the literals can't be.
    pub(crate) fn is_impossible(&self) -> bool
        ensures { IsTrue result → IsImpossible self.now }
    {
        for j in 0..self.values.len() {
            if is_nothing(self.values[j]) {
                return true;
            }
        }
        false
    }

    /// Whether no store is described, since the literal of this number can't be.
    pub fn is_impossible_at(&self, number: usize) -> bool
        ensures { IsTrue result → IsImpossible self.now }
    {
        if number >= self.values.len() {
            return false;
        }
        is_nothing(self.values[number])
    }

    /// Whether this says no less than the other one: a test for the numbers that stand in the same places.
    pub(crate) fn is_inside(&self, alloc: Global, other: &State) -> Result<bool, AllocError>
        ensures { IfOk result (λ ok. IsTrue ok → Within self.now other.now) }
    {
        let numbers = self.numbers_for(alloc, other)?;
        Ok(self.is_within(other, &numbers))
    }

    /// Whether this says no less than the other one, with these numbers for the other's.
    pub(crate) fn is_within(&self, other: &State, numbers: &[usize]) -> bool
        ensures { IsTrue result → Within self.now other.now }
    {
        if self.entry != other.entry {
            return false;
        }
        need_all!(
            stack_maps(numbers, &self.stack, &other.stack),
            fields_map(numbers, &self.global_integers, &other.global_integers),
            fields_map(numbers, &self.global_strings, &other.global_strings),
            fields_map(numbers, &self.entry_integers, &other.entry_integers),
            fields_map(numbers, &self.entry_strings, &other.entry_strings),
            fields_map(numbers, &self.fields, &other.fields),
        );
        values_map(numbers, &self.values, &other.values)
    }

    /// Whether this says no less than the other one, number for number: a test for those that are equal.
    pub(crate) fn is_same(&self, alloc: Global, other: &State) -> Result<bool, AllocError>
        ensures { IfOk result (λ ok. IsTrue ok → Within self.now other.now) }
    {
        let mut numbers: Vec<usize> = Vec::with_capacity(alloc, self.values.len())?;
        for k in 0..self.values.len() {
            numbers.push(k)?;
        }
        Ok(self.is_within(other, &numbers))
    }

    // Whether many numbers are neither a name's nor on the stack. They are counted at some lengths alone.
    fn is_loose(&self) -> bool {
        if self.values.len() < SPARE_NUMBERS || self.values.len() % 8 != 0 {
            return false;
        }
        let live = self
            .stack
            .len()
            .saturating_add(used(&self.global_integers))
            .saturating_add(used(&self.global_strings))
            .saturating_add(used(&self.entry_integers))
            .saturating_add(used(&self.entry_strings))
            .saturating_add(used(&self.fields));
        self.values.len() > live.saturating_add(SPARE_NUMBERS)
    }

    /// What says no more than this and another one, if there is one.
    pub(crate) fn merged(
        &self,
        alloc: Global,
        other: &State,
        likeness: Fingerprint,
    ) -> Result<Option<State>, AllocError>
        ensures { IfOk result (λ o. IfSome o (λ j. Within self.now j × Within other.now j)) }
    {
        match self.both(alloc, other, false)? {
            None => Ok(None),
            Some(both) => {
                if !self.is_within(&both.state, &both.firsts) {
                    return Ok(None);
                }
                if !other.is_within(&both.state, &both.seconds) {
                    return Ok(None);
                }
                let mut j = both.state;
                j.mark(likeness);
                Ok(Some(j))
            }
        }
    }

    /// The same without the numbers that nothing has any more, where they are many.
    pub(crate) fn tidied(self, alloc: Global) -> Result<State, AllocError>
        ensures { IfOk result (λ a. Within self a) }
    {
        if !self.is_loose() {
            return Ok(self);
        }
        match self.both(alloc, &self, false)? {
            None => Ok(self),
            Some(both) => {
                if self.is_within(&both.state, &both.firsts) {
                    return Ok(both.state);
                }
                Ok(self)
            }
        }
    }
}

// How many numbers that nothing has any more are borne.
const SPARE_NUMBERS: usize = 60;

// How many names have a number.
fn used(numbers: &[Option<usize>]) -> usize {
    let mut count: usize = 0;
    for number in numbers {
        if number.is_some() {
            count = count.saturating_add(1);
        }
    }
    count
}

/// Whether no literal is so.
pub(crate) fn is_nothing(value: Value) -> bool
    ensures { IsTrue result → (left : ℕ) (x : Literal) → Is left value x → ⊥ }
{
    match value {
        Value::Any => false,
        Value::Integer(low, high) => match high {
            Upper::Counter => false,
            Upper::Number(high) => match (low, high) {
                (Some(m), Some(n)) => n < m,
                _ => false,
            },
        },
        Value::Text(m) => !m.missing && !m.empty && !m.white && !m.full,
        Value::Function(_) => false,
    }
}

// How many further items a copy has room for.
const ROOM_TO_GROW: usize = 8;

// The same items once more, with room for some others.
macro_rules! copied {
    ($items:ident) => {{
        let room = $items.len().saturating_add(ROOM_TO_GROW);
        let mut copied = Vec::with_capacity(*$items.allocator(), room)?;
        copied.extend_from_slice($items)?;
        Ok(copied)
    }};
}

// The same numbers once more, with room for some others.
fn copied_numbers(numbers: &Vec<usize>) -> Result<Vec<usize>, AllocError>
    ensures { IfOk result (λ v. v.items ≡ numbers.now.items) }
{
    copied!(numbers)
}

// The same values once more, with room for some others.
fn copied_values(values: &Vec<Value>) -> Result<Vec<Value>, AllocError>
    ensures { IfOk result (λ v. v.items ≡ values.now.items) }
{
    copied!(values)
}

// `n` places without a number.
fn no_numbers(alloc: Global, n: usize) -> Result<RcSlice<Option<usize>>, AllocError>
    ensures { IfOk result (λ v. (i : ℕ) → slice_index_or (rc_slice_items v) i None ≡ None) }
{
    let numbers: Vec<Option<usize>> = vec![in alloc; None; n]?;
    let shared = RcSlice::from_vec(numbers)?;
    Ok(shared)
}

// These numbers, each greater by `n`.
fn shifted(
    alloc: Global,
    numbers: &[Option<usize>],
    n: usize,
) -> Result<RcSlice<Option<usize>>, AllocError>
    ensures { IfOk result (λ v. Shifted n numbers.now (rc_slice_items v)) }
{
    let mut greater: Vec<Option<usize>> = Vec::with_capacity(alloc, numbers.len())?;
    for number in numbers {
        let sum = shifted_number(*number, n);
        greater.push(sum)?;
    }
    let shared = RcSlice::from_vec(greater)?;
    Ok(shared)
}

// A number that is greater by `n`, if there is one.
fn shifted_number(number: Option<usize>, n: usize) -> Option<usize>
    ensures { IsShifted n number result }
{
    match number {
        None => None,
        Some(i) => i.checked_add(n),
    }
}

// The number at a place.
fn number_in(numbers: &[Option<usize>], i: usize) -> Option<usize>
    ensures { result ≡ slice_index_or numbers.now i None }
{
    if i < numbers.len() { numbers[i] } else { None }
}

// Sets the number at a place.
fn put_in(numbers: &mut [Option<usize>], i: usize, n: usize)
    ensures { numbers.new ≡ slice_set numbers.old i (Some n) }
{
    if i < numbers.len() {
        numbers[i] = Some(n);
    }
}

// The same numbers, but for that at the place `i`, which is `n`.
fn with_number(
    alloc: Global,
    numbers: &[Option<usize>],
    i: usize,
    n: usize,
) -> Result<RcSlice<Option<usize>>, AllocError>
    ensures { IfOk result (λ v. rc_slice_items v ≡ slice_set numbers.now i (Some n)) }
{
    let mut copied: Vec<Option<usize>> = Vec::from_slice(alloc, numbers)?;
    put_in(&mut copied, i, n);
    let shared = RcSlice::from_vec(copied)?;
    Ok(shared)
}
