//! Rules of variables and fields, and of `:=`.
ghost use Rattle.std.specs.Prelude.{◌≡◌, ◌<◌, ℕ, List, [], ◌∷◌, length, IsTrue, true, false, Option, Some, None};
ghost use Rattle.std.specs.Result.{IfOk};
ghost use Rattle.btx_bst.specs.declared.built_in.BuiltIn.TheVariants as built_in;
ghost use Rattle.btx_bst.specs.declared.callee.Callee.TheVariants as callee;
ghost use Rattle.btx_bst.specs.declared.token.Token.TheVariants as token;
ghost use Rattle.btx_check.specs.Answers.{Ruled, Stepped};
ghost use Rattle.btx_check.specs.Names.{IsName, NeedsEntry, kind_of, IsAssignable};

use crate::adding::{add_pushed, add_put, add_recalled, add_text_put};
use crate::description::{Mask, Value};
use crate::operands::{fitting, pair_of};
use crate::state::State;
use crate::work::Work;
use btx_bst::{Callee, Style};
use std::alloc::AllocError;

/// What is known of a name of which nothing else is known.
pub(crate) fn kind_of(name: Callee) -> Value
    ensures { result ≡ kind_of name }
{
    match name {
        Callee::GlobalInteger(_) | Callee::EntryInteger(_) => Value::any_integer(),
        Callee::GlobalString(_) | Callee::EntryString(_) => Value::Text(Mask::any_text()),
        Callee::Field(_) => Value::Text(Mask::any_field()),
        _ => Value::Any,
    }
}

/// Whether it is a variable or a field.
pub(crate) fn is_name(callee: Callee) -> bool
    ensures { IsTrue result → IsName callee }
{
    match callee {
        Callee::BuiltIn(_) | Callee::User(_) => false,
        _ => true,
    }
}

/// Whether the value of a name can be asked for.
pub(crate) fn has_value(a: &State, name: Callee) -> bool
    ensures { IsTrue result → NeedsEntry name a.now }
{
    match name {
        Callee::GlobalInteger(_) | Callee::GlobalString(_) => true,
        _ => a.has_entry(),
    }
}

/// A variable or a field.
pub(crate) fn name(
    work: &Work,
    a: State,
    f: Callee,
    out: &mut Vec<State>,
) -> Result<bool, AllocError>
    ensures { IfOk result (λ ok. IsTrue ok → Ruled f a out.old.items out.new.items) }
{
    if !a.has_room() {
        return Ok(false);
    }
    if !is_name(f) {
        return Ok(false);
    }
    if !has_value(&a, f) {
        return Ok(false);
    }
    match a.slot(f) {
        Some(i) => {
            add_pushed(work, a, i, out)?;
            Ok(true)
        }
        None => {
            add_recalled(work, a, f, kind_of(f), out)?;
            Ok(true)
        }
    }
}

/// Whether a literal of which `value` is known can be assigned to `f`: an integer to an integer variable of the style, a string that is there to a string
/// variable. A variable of entries needs an entry.
pub(crate) fn is_assignable(style: &Style, a: &State, f: Callee, value: Value) -> bool
    ensures { IsTrue result → IsAssignable style.now f value a.now }
{
    match (f, value) {
        (Callee::GlobalInteger(k), Value::Integer(_, _)) => (k as usize) < style.global_integers(),
        (Callee::GlobalString(k), Value::Text(m)) => (k as usize) < style.global_strings()
            && !m.missing,
        (Callee::EntryInteger(k), Value::Integer(_, _)) => (k as usize) < style.entry_integers()
            && a.has_entry(),
        (Callee::EntryString(k), Value::Text(m)) => (k as usize) < style.entry_strings()
            && !m.missing
            && a.has_entry(),
        _ => false,
    }
}

/// `:=`.
pub fn assign(
    work: &Work,
    style: &Style,
    a: State,
    out: &mut Vec<State>,
) -> Result<bool, AllocError>
    ensures { IfOk result (λ ok. IsTrue ok → (allowed : List ℕ) (deep loops : ℕ) → Stepped style.now allowed (token.Run (callee.BuiltIn built_in.Assign)) (a ∷ []) deep loops out.old.items out.new.items) }
{
    fitting!(pair_of(a), t, t.first.value, Value::Function(f) => {
        if !is_assignable(style, &t.below, f, t.second.value) {
            return Ok(false);
        }
        match t.second.value {
            Value::Integer(_, _) => {
                add_put(work, t.below, f, t.second.number, out)?;
                Ok(true)
            }
            Value::Text(m) => {
                add_text_put(work, t.below, f, m, out)?;
                Ok(true)
            }
            _ => Ok(false),
        }
    })
}
