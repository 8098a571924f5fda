//! The store before the first command.
ghost use Rattle.std.specs.Prelude.{◌≡◌, [], IfOk, pos, replicate, slice_set};
ghost use Rattle.btx_step.specs.language.Starts.{first_store};
ghost use Rattle.btx_step.specs.refinement.Starts.{first_integers, first_values};

use super::Store;
use crate::job::Job;
use crate::values::EntryValues;
use btx_bst::Style;
use btx_names::NameFormatter;
use btx_stack::{Literals, Variable};
use std::alloc::{AllocError, Global};

impl<'a> Store<'a> {
    /// Makes the store before the first command of a job.
    pub fn new(alloc: Global, job: &Job<'a>) -> Result<Self, AllocError>
        ensures { IfOk result (λ store. store ≡ first_store job.now) }
    {
        Ok(Store {
            alloc,
            literals: Literals::new(alloc)?,
            integers: first_integers(alloc, job)?,
            strings: empty_variables(alloc, job.style().global_strings())?,
            entries: first_entries(alloc, job.style(), job.library().len())?,
            current: None,
            deepest: 0,
            names: NameFormatter::new(alloc),
            room: Vec::new(alloc),
        })
    }
}

// The global integers.
fn first_integers(alloc: Global, job: &Job<'_>) -> Result<Vec<i32>, AllocError>
    ensures { IfOk result (λ integers. integers.items ≡ first_integers job.now) }
{
    let mut integers = zeros(alloc, job.style().global_integers())?;
    put(&mut integers, 0, job.entry_max().get() as i32);
    put(&mut integers, 1, job.global_max().get() as i32);
    Ok(integers)
}

// Puts an integer at a place, if there is one.
fn put(integers: &mut Vec<i32>, place: usize, value: i32)
    ensures { integers.new.items ≡ slice_set integers.old.items place value }
{
    if place < integers.len() {
        integers[place] = value;
    }
}

// The integer 0, `count` times.
fn zeros(alloc: Global, count: usize) -> Result<Vec<i32>, AllocError>
    ensures { IfOk result (λ integers. integers.items ≡ replicate count (pos 0)) }
{
    vec![in alloc; 0; count]
}

// A variable without bytes, `count` times.
#[tactic(auto, using(crate::proofs::Replicas::one_more))]
fn empty_variables<'a>(alloc: Global, count: usize) -> Result<Vec<Variable<'a>>, AllocError>
    ensures { IfOk result (λ strings. strings.items ≡ replicate count []) }
{
    let mut strings = Vec::with_capacity(alloc, count)?;
    for _string in 0..count {
        strings.push(Variable::new(alloc))?;
    }
    Ok(strings)
}

// The first values of the variables of all entries.
fn first_entries<'a>(
    alloc: Global,
    style: &Style<'_>,
    count: usize,
) -> Result<EntryValues<'a>, AllocError>
    ensures { IfOk result (λ entries. entries ≡ replicate count (first_values style.now)) }
{
    EntryValues::new(alloc, count, style.entry_integers(), style.entry_strings())
}
