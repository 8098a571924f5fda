//! Descriptions that are added to those that were found.
ghost use Rattle.std.specs.Prelude.{◌≡◌, ◌<◌, length, slice_set, List, [], IsTrue, Option};
ghost use Rattle.std.specs.Option.{IfSome};
ghost use Rattle.std.specs.Result.{IfOk};
ghost use Rattle.btx_check.specs.States.{Abstract, pushing, pushing_new, knowing, with_stack, putting, putting_text};
ghost use Rattle.btx_check.specs.Inclusion.{Sub, Into};
ghost use Rattle.btx_check.specs.Answers.{Added};

use crate::description::{Mask, Value};
use crate::likeness::Fingerprint;
use crate::state::State;
use crate::work::{MANY, Work};
use btx_bst::Callee;
use std::alloc::{AllocError, Global};

// Sets one of these.
fn set_at(out: &mut Vec<State>, k: usize, j: State)
    requires { k < length out.old.items }
    ensures { out.new.items ≡ slice_set out.old.items k j }
{
    out[k] = j;
}

/// Adds a description to others. One that describes nothing is left out.
pub fn add(work: &Work, out: &mut Vec<State>, a: State) -> Result<(), AllocError>
    ensures { IfOk result (λ _. Added a out.old.items out.new.items) }
{
    if a.is_impossible() {
        return Ok(());
    }
    add_sure(work, out, a)
}

// Adds a description, unless the literal of this number can't be.
fn add_where(work: &Work, out: &mut Vec<State>, a: State, number: usize) -> Result<(), AllocError>
    ensures { IfOk result (λ _. Added a out.old.items out.new.items) }
{
    if a.is_impossible_at(number) {
        return Ok(());
    }
    add_sure(work, out, a)
}

/// Adds a description to others, to one that it is like if there is one, without a look whether it describes anything.
pub fn add_sure(work: &Work, out: &mut Vec<State>, a: State) -> Result<(), AllocError>
    ensures { IfOk result (λ _. Added a out.old.items out.new.items) }
{
    let mut b = a.tidied(work.alloc)?;
    if out.is_empty() {
        b.mark(Fingerprint::unknown());
        out.push(b)?;
        return Ok(());
    }
    let likeness = b.likeness_by(work);
    b.mark(likeness);
    add_possible(work, out, b)?;
    Ok(())
}

// Adds a description to others: to the first that it is like, unless that one says no more already.
fn add_possible(work: &Work, out: &mut Vec<State>, a: State) -> Result<(), AllocError>
    ensures { IfOk result (λ _. Added a out.old.items out.new.items) }
{
    let is_coarse = out.len() > MANY;
    for k in 0..out.len() {
        if out[k].is_alike(work, &a, is_coarse) {
            if a.is_inside(work.alloc, &out[k])? {
                return Ok(());
            }
            match out[k].merged(work.alloc, &a, a.likeness.joined(is_coarse))? {
                None => {}
                Some(j) => {
                    set_at(out, k, j);
                    return Ok(());
                }
            }
        }
    }
    out.push(a)?;
    Ok(())
}

/// Adds a description with a number pushed.
pub(crate) fn add_pushed(
    work: &Work,
    b: State,
    i: usize,
    out: &mut Vec<State>,
) -> Result<(), AllocError>
    ensures { IfOk result (λ _. Added (pushing i b) out.old.items out.new.items) }
{
    let mut a = b;
    a.push(i)?;
    add_sure(work, out, a)
}

/// Adds a description with two numbers pushed.
pub(crate) fn add_pushed_both(
    work: &Work,
    b: State,
    i: usize,
    j: usize,
    out: &mut Vec<State>,
) -> Result<(), AllocError>
    ensures { IfOk result (λ _. Added (pushing j (pushing i b)) out.old.items out.new.items) }
{
    let mut a = b;
    a.push(i)?;
    a.push(j)?;
    add_sure(work, out, a)
}

/// Adds a description with a new literal.
pub(crate) fn add_new(
    work: &Work,
    b: State,
    d: Value,
    out: &mut Vec<State>,
) -> Result<(), AllocError>
    ensures { IfOk result (λ _. Added (pushing_new d b) out.old.items out.new.items) }
{
    let mut a = b;
    a.push_new(d)?;
    add_sure(work, out, a)
}

/// Adds a description in which a number is known better.
pub fn add_known(
    work: &Work,
    b: State,
    i: usize,
    d: Value,
    out: &mut Vec<State>,
) -> Result<(), AllocError>
    ensures { IfOk result (λ _. Added (knowing i d b) out.old.items out.new.items) }
{
    let mut a = b;
    a.know(i, d);
    add_where(work, out, a, i)
}

/// Adds a description in which a number is known better, with a new literal.
pub(crate) fn add_found(
    work: &Work,
    b: State,
    i: usize,
    d: Value,
    answer: Value,
    out: &mut Vec<State>,
) -> Result<(), AllocError>
    ensures { IfOk result (λ _. Added (pushing_new answer (knowing i d b)) out.old.items out.new.items) }
{
    let mut a = b;
    a.know(i, d);
    a.push_new(answer)?;
    add_where(work, out, a, i)
}

/// A number, and what is known of it.
#[derive(Clone, Copy)]
pub struct Known {
    pub number: usize,
    pub value: Value,
}

/// Adds a description in which two numbers are known better, with a new literal.
pub(crate) fn add_tested(
    work: &Work,
    b: State,
    first: Known,
    second: Known,
    answer: Value,
    out: &mut Vec<State>,
) -> Result<(), AllocError>
    ensures { IfOk result (λ _. Added (pushing_new answer (knowing first.number first.value (knowing second.number second.value b))) out.old.items out.new.items) }
{
    let mut a = b;
    a.know(second.number, second.value);
    a.know(first.number, first.value);
    a.push_new(answer)?;
    if a.is_impossible_at(second.number) {
        return Ok(());
    }
    add_where(work, out, a, first.number)
}

/// Adds a description in which a name of which nothing was known has a number, which is pushed.
pub(crate) fn add_recalled(
    work: &Work,
    b: State,
    name: Callee,
    d: Value,
    out: &mut Vec<State>,
) -> Result<(), AllocError>
    ensures { IfOk result (λ _. Added (putting name (length b.values) (pushing_new d b)) out.old.items out.new.items) }
{
    let mut a = b;
    let number = a.values_len();
    a.push_new(d)?;
    a.put(work.alloc, name, number)?;
    add_sure(work, out, a)
}

/// Adds a description in which a name's value has another number.
pub(crate) fn add_put(
    work: &Work,
    b: State,
    name: Callee,
    i: usize,
    out: &mut Vec<State>,
) -> Result<(), AllocError>
    ensures { IfOk result (λ _. Added (putting name i b) out.old.items out.new.items) }
{
    let mut a = b;
    a.put(work.alloc, name, i)?;
    add_sure(work, out, a)
}

/// Adds a description in which a string variable keeps the first bytes of a string.
pub(crate) fn add_text_put(
    work: &Work,
    b: State,
    name: Callee,
    m: Mask,
    out: &mut Vec<State>,
) -> Result<(), AllocError>
    ensures { IfOk result (λ _. Added (putting_text name m b) out.old.items out.new.items) }
{
    let mut a = b;
    let number = a.values_len();
    a.keep(m)?;
    a.put(work.alloc, name, number)?;
    add_sure(work, out, a)
}

/// Adds a description with nothing on the stack.
pub(crate) fn add_without_stack(
    work: &Work,
    b: State,
    out: &mut Vec<State>,
) -> Result<(), AllocError>
    ensures { IfOk result (λ _. Added (with_stack [] b) out.old.items out.new.items) }
{
    let mut a = b;
    a.clear();
    add_sure(work, out, a)
}
