//! Rules of functions that say something of their operands: tests, comparisons, sums, differences and `*`.
ghost use Rattle.std.specs.Prelude.{◌≡◌, ℕ, List, IsTrue, true, false, Option, Some, None};
ghost use Rattle.std.specs.Result.{IfOk};
ghost use Rattle.btx_bst.specs.declared.built_in.BuiltIn.TheVariants as built_in;
ghost use Rattle.btx_bst.specs.declared.callee.Callee.TheVariants as callee;
ghost use Rattle.btx_check.specs.Answers.{Ruled, Comparable, BothAnswers};

use crate::adding::{add_found, add_new, add_tested};
use crate::bounds::{Compared, if_equal, if_greater, if_less};
use crate::description::Value;
use crate::operands::{Pair, fitting, pair_of, top_of};
use crate::state::State;
use crate::sums::{difference_of, sum_of};
use crate::work::Work;
use std::alloc::AllocError;

// Adds what follows a test of the string on top: what is known of it where the test holds, and where it doesn't, each with its answer.
macro_rules! add_either {
    ($work:ident, $t:ident, $so:expr => $answer:expr, $other:expr => $otherwise:expr, $out:ident) => {{
        let so = Value::Text($so);
        let other = Value::Text($other);
        add_found($work, $t.below.copy()?, $t.known.number, so, $answer, $out)?;
        add_found($work, $t.below, $t.known.number, other, $otherwise, $out)?;
        Ok(true)
    }};
}

// Adds what follows a comparison of the two integers on top: the right one is the first of the stack.
fn add_compared(
    work: &Work,
    mut t: Pair,
    compared: Compared,
    out: &mut Vec<State>,
) -> Result<(), AllocError>
    ensures { IfOk result (λ _. BothAnswers t.below t.first.number t.second.number compared.left compared.right compared.left_otherwise compared.right_otherwise out.old.items out.new.items) }
{
    t.first.value = compared.right;
    t.second.value = compared.left;
    add_tested(work, t.below.copy()?, t.first, t.second, Value::one(), out)?;
    t.first.value = compared.right_otherwise;
    t.second.value = compared.left_otherwise;
    add_tested(work, t.below, t.first, t.second, Value::zero(), out)?;
    Ok(())
}

/// `empty$`.
pub fn empty(work: &Work, a: State, out: &mut Vec<State>) -> Result<bool, AllocError>
    ensures { IfOk result (λ ok. IsTrue ok → Ruled (callee.BuiltIn built_in.Empty) a out.old.items out.new.items) }
{
    fitting!(top_of(a), t, t.known.value, Value::Text(m) => {
        add_either!(work, t, m.blank() => Value::one(), m.filled() => Value::zero(), out)
    })
}

/// `missing$`.
pub fn missing(work: &Work, a: State, out: &mut Vec<State>) -> Result<bool, AllocError>
    ensures { IfOk result (λ ok. IsTrue ok → Ruled (callee.BuiltIn built_in.Missing) a out.old.items out.new.items) }
{
    if !a.has_entry() {
        return Ok(false);
    }
    fitting!(top_of(a), t, t.known.value, Value::Text(m) => {
        add_either!(work, t, m.gone() => Value::one(), m.present() => Value::zero(), out)
    })
}

/// `num.names$`.
pub fn num_names(work: &Work, a: State, out: &mut Vec<State>) -> Result<bool, AllocError>
    ensures { IfOk result (λ ok. IsTrue ok → Ruled (callee.BuiltIn built_in.NumNames) a out.old.items out.new.items) }
{
    fitting!(top_of(a), t, t.known.value, Value::Text(m) => {
        if m.missing {
            return Ok(false);
        }
        add_either!(work, t, m.nothing() => Value::zero(), m.something() => Value::some_count(), out)
    })
}

/// `*`.
pub fn concatenate(work: &Work, a: State, out: &mut Vec<State>) -> Result<bool, AllocError>
    ensures { IfOk result (λ ok. IsTrue ok → Ruled (callee.BuiltIn built_in.Concatenate) a out.old.items out.new.items) }
{
    fitting!(pair_of(a), t, (t.first.value, t.second.value), (Value::Text(m), Value::Text(n)) => {
        if m.missing {
            return Ok(false);
        }
        if n.missing {
            return Ok(false);
        }
        let whole = n.followed(m);
        add_new(work, t.below, Value::Text(whole), out)?;
        Ok(true)
    })
}

/// `+`.
pub fn plus(work: &Work, a: State, out: &mut Vec<State>) -> Result<bool, AllocError>
    ensures { IfOk result (λ ok. IsTrue ok → Ruled (callee.BuiltIn built_in.Plus) a out.old.items out.new.items) }
{
    fitting!(pair_of(a), t, (t.first.value, t.second.value), (Value::Integer(low, high), Value::Integer(low2, high2)) => {
        add_new(work, t.below, sum_of(low2, high2, low, high), out)?;
        Ok(true)
    })
}

/// `-`.
pub fn minus(work: &Work, a: State, out: &mut Vec<State>) -> Result<bool, AllocError>
    ensures { IfOk result (λ ok. IsTrue ok → Ruled (callee.BuiltIn built_in.Minus) a out.old.items out.new.items) }
{
    fitting!(pair_of(a), t, (t.first.value, t.second.value), (Value::Integer(low, high), Value::Integer(low2, high2)) => {
        add_new(work, t.below, difference_of(low2, high2, low, high), out)?;
        Ok(true)
    })
}

/// `>`.
pub fn greater(work: &Work, a: State, out: &mut Vec<State>) -> Result<bool, AllocError>
    ensures { IfOk result (λ ok. IsTrue ok → Ruled (callee.BuiltIn built_in.Greater) a out.old.items out.new.items) }
{
    fitting!(pair_of(a), t, (t.first.value, t.second.value), (Value::Integer(low, high), Value::Integer(low2, high2)) => {
        add_compared(work, t, if_greater(low2, high2, low, high), out)?;
        Ok(true)
    })
}

/// `<`.
pub fn less(work: &Work, a: State, out: &mut Vec<State>) -> Result<bool, AllocError>
    ensures { IfOk result (λ ok. IsTrue ok → Ruled (callee.BuiltIn built_in.Less) a out.old.items out.new.items) }
{
    fitting!(pair_of(a), t, (t.first.value, t.second.value), (Value::Integer(low, high), Value::Integer(low2, high2)) => {
        add_compared(work, t, if_less(low2, high2, low, high), out)?;
        Ok(true)
    })
}

/// `=`.
pub fn equals(work: &Work, a: State, out: &mut Vec<State>) -> Result<bool, AllocError>
    ensures { IfOk result (λ ok. IsTrue ok → Ruled (callee.BuiltIn built_in.Equals) a out.old.items out.new.items) }
{
    match pair_of(a) {
        None => Ok(false),
        Some(t) => match (t.first.value, t.second.value) {
            (Value::Integer(low, high), Value::Integer(low2, high2)) => {
                add_compared(work, t, if_equal(low2, high2, low, high), out)?;
                Ok(true)
            }
            _ => {
                if !is_comparable(t.first.value, t.second.value) {
                    return Ok(false);
                }
                add_new(work, t.below.copy()?, Value::one(), out)?;
                add_new(work, t.below, Value::zero(), out)?;
                Ok(true)
            }
        },
    }
}

/// Whether `=` compares what is described so.
pub fn is_comparable(first: Value, second: Value) -> bool
    ensures { IsTrue result → Comparable first second }
{
    match (first, second) {
        (Value::Integer(_, _), Value::Integer(_, _)) => true,
        (Value::Text(m), Value::Text(n)) => !m.missing && !n.missing,
        _ => false,
    }
}
