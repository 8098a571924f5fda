//! The values of variables, by number.
ghost use Rattle.std.specs.Prelude.{◌≡◌, ◌<◌, ◌≤◌, ◌+◌, ◌*◌, ◌^◌, ◌⊎◌, pos, [], if◌then◌else◌, length, replicate, slice_get, slice_set};
ghost use Rattle.std.specs.Prelude.{IfOk, IfSome, IfNone};
ghost use Rattle.btx_text.specs.language.Limits.{greatest_string};
ghost use Rattle.btx_step.specs.language.Variables.{integer_of, string_of, values_of};
ghost use Rattle.btx_step.specs.refinement.Variables.{integer_in, integer_set, string_set};

use crate::list::item;
use btx_text::Text;
use std::alloc::{AllocError, Global};
use std::marker::Model;
use std::mem;

/// The values of the variables of all entries, those of an entry after those of the one before it.
#[derive(Drop)]
pub struct EntryValues<'a> {
    entries: usize,
    // How many integer variables each entry has.
    integers_each: usize,
    // How many string variables each entry has.
    strings_each: usize,
    integers: Vec<i32>,
    strings: Vec<Text<'a>>,
}

impl<'a> Model for EntryValues<'a> {
    ghost use Rattle.std.specs.Prelude.{List, length, ◌≡◌, ◌*◌};
    ghost use Rattle.btx_step.specs.language.Stores.{EntryVariables};
    ghost use Rattle.btx_step.specs.refinement.Variables.{rows};

    ghost Value = { List EntryVariables };

    ghost view = { λ v. rows v.entries v.integers_each v.strings_each v.integers.items v.strings.items };

    ghost invariant = { λ v. (length v.integers.items ≡ v.entries * v.integers_each) × (length v.strings.items ≡ v.entries * v.strings_each) };
}

/// Answers the integer at `index`, counted from 0, or 0 if there is none.
pub fn integer_at(integers: &[i32], index: u32) -> i32
    ensures { result ≡ integer_in (slice_get integers.now index) }
{
    match item(integers, index as usize) {
        Some(n) => *n,
        None => 0,
    }
}

impl<'a> EntryValues<'a> {
    /// The values before the first command: 0, and the empty string. `entries` is the number of entries, `integers` and `strings` that of the variables
    /// of each.
    #[tactic(auto, using(crate::proofs::EntryValueLemmas::first_rows))]
    pub fn new(
        alloc: Global,
        entries: usize,
        integers: usize,
        strings: usize,
    ) -> Result<Self, AllocError>
        ensures { IfOk result (λ values. values ≡ replicate entries (record { integers = replicate integers (pos 0); strings = replicate strings [] })) }
    {
        Ok(EntryValues {
            entries,
            integers_each: integers,
            strings_each: strings,
            integers: vec![in alloc; 0; product(entries, integers)?]?,
            strings: empty_strings(alloc, product(entries, strings)?)?,
        })
    }

    /// Answers the integer variable `number` of the entry `entry`, or 0 if there is none.
    #[tactic(auto, using(crate::proofs::EntryValueLemmas::integer_there, crate::proofs::EntryValueLemmas::integer_nowhere))]
    pub fn integer(&self, entry: usize, number: u32) -> i32
        ensures { result ≡ integer_of self.now entry number }
    {
        match place(self.entries, self.integers_each, entry, number) {
            Some(place) => self.integers[place],
            None => 0,
        }
    }

    /// Answers the string variable `number` of the entry `entry`, or the empty string if there is none. Shared bytes aren't copied.
    #[tactic(auto, using(crate::proofs::EntryValueLemmas::string_there, crate::proofs::EntryValueLemmas::string_nowhere))]
    pub fn string(&self, alloc: Global, entry: usize, number: u32) -> Result<Text<'a>, AllocError>
        ensures { IfOk result (λ text. text ≡ string_of self.now entry number) }
    {
        match place(self.entries, self.strings_each, entry, number) {
            Some(place) => self.strings[place].copy(alloc),
            None => Ok(Text::empty()),
        }
    }

    /// Answers the bytes of the string variable `number` of the entry `entry`, or none if there is none.
    #[tactic(auto, using(crate::proofs::EntryValueLemmas::string_there, crate::proofs::EntryValueLemmas::string_nowhere))]
    pub fn string_bytes(&self, entry: usize, number: u32) -> &[u8]
        ensures { result.now ≡ string_of self.now entry number }
    {
        match place(self.entries, self.strings_each, entry, number) {
            Some(place) => self.strings[place].as_bytes(),
            None => &[],
        }
    }

    /// Sets the integer variable `number` of the entry `entry` to `value`, if there is such a variable.
    #[tactic(auto, using(crate::proofs::EntryValueLemmas::integer_put, crate::proofs::EntryValueLemmas::integer_kept))]
    pub fn set_integer(&mut self, entry: usize, number: u32, value: i32)
        ensures { self.new ≡ slice_set self.old entry (integer_set number value (values_of self.old entry)) }
    {
        if let Some(place) = place(self.entries, self.integers_each, entry, number) {
            self.integers[place] = value;
        }
    }

    /// Sets the string variable `number` of the entry `entry` to `value`, if there is such a variable.
    #[tactic(auto, using(crate::proofs::EntryValueLemmas::string_put, crate::proofs::EntryValueLemmas::string_kept))]
    pub fn set_string(&mut self, entry: usize, number: u32, value: Text<'a>)
        ensures { self.new ≡ slice_set self.old entry (string_set number value.entry (values_of self.old entry)) }
    {
        if let Some(place) = place(self.entries, self.strings_each, entry, number) {
            self.strings[place] = value;
        }
    }

    /// Makes `bytes` the value of the string variable `number` of the entry `entry` and answers true: in the memory that its value had, unless that is
    /// shared. Or answers false and changes nothing, where there is no such variable or its value stands in a file. Where memory is refused the variable
    /// may be left empty.
    #[tactic(auto, using(crate::proofs::EntryValueLemmas::string_put_again))]
    pub fn write_string(
        &mut self,
        alloc: Global,
        entry: usize,
        number: u32,
        bytes: &[u8],
    ) -> Result<bool, AllocError>
        requires { length bytes.now ≤ greatest_string }
        ensures { IfOk result (λ done. self.new ≡ (if done then slice_set self.old entry (string_set number bytes.now (values_of self.old entry)) else self.old)) }
    {
        let Some(place) = place(self.entries, self.strings_each, entry, number) else {
            return Ok(false);
        };
        if self.strings[place].lent().is_some() {
            return Ok(false);
        }
        let text = mem::replace(&mut self.strings[place], Text::empty());
        self.strings[place] = text.prefix(alloc, 0)?.followed_by(alloc, bytes)?;
        Ok(true)
    }
}

// Where variable `number` of an entry stands, of `count` entries that have `each` variables; nowhere if there is no such entry or no such variable.
#[tactic(auto, using(crate::proofs::EntryValueLemmas::place_fits))]
fn place(count: usize, each: usize, entry: usize, number: u32) -> Option<usize>
    requires { count * each < 2 ^ 64 }
    ensures there { IfSome result (λ place. (entry < count) × (number < each) × (place ≡ entry * each + number)) }
    ensures nowhere { IfNone result ((count ≤ entry) ⊎ (each ≤ number)) }
{
    let number = number as usize;
    if entry < count && number < each {
        Some(entry * each + number)
    } else {
        None
    }
}

// The number of values, if memory could hold them.
fn product(entries: usize, each: usize) -> Result<usize, AllocError>
    ensures { IfOk result (λ count. count ≡ entries * each) }
{
    entries.checked_mul(each).ok_or(AllocError)
}

// Makes `count` empty strings.
#[tactic(auto, using(crate::proofs::Replicas::one_more))]
fn empty_strings<'a>(alloc: Global, count: usize) -> Result<Vec<Text<'a>>, AllocError>
    ensures { IfOk result (λ strings. strings.items ≡ replicate count []) }
{
    let mut strings = Vec::with_capacity(alloc, count)?;
    for _string in 0..count {
        strings.push(Text::empty())?;
    }
    Ok(strings)
}
