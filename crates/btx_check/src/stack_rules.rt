//! Rules of functions of the stack itself, and of `write$`.
ghost use Rattle.std.specs.Prelude.{◌≡◌, ℕ, List, IsTrue, true, false, Option, Some, None};
ghost use Rattle.std.specs.Result.{IfOk};
ghost use Rattle.btx_bst.specs.declared.built_in.BuiltIn.TheVariants as built_in;
ghost use Rattle.btx_bst.specs.declared.callee.Callee.TheVariants as callee;
ghost use Rattle.btx_check.specs.Answers.{Ruled};

use crate::adding::{add_pushed_both, add_sure, add_without_stack};
use crate::description::Value;
use crate::operands::{fitting, pair_of, taking, top_of};
use crate::state::State;
use crate::work::Work;
use std::alloc::AllocError;

/// `duplicate$`.
pub fn duplicate(work: &Work, a: State, out: &mut Vec<State>) -> Result<bool, AllocError>
    ensures { IfOk result (λ ok. IsTrue ok → Ruled (callee.BuiltIn built_in.Duplicate) a out.old.items out.new.items) }
{
    taking!(top_of(a), t => add_pushed_both(work, t.below, t.known.number, t.known.number, out))
}

/// `pop$`.
pub fn pop(work: &Work, a: State, out: &mut Vec<State>) -> Result<bool, AllocError>
    ensures { IfOk result (λ ok. IsTrue ok → Ruled (callee.BuiltIn built_in.Pop) a out.old.items out.new.items) }
{
    taking!(top_of(a), t => add_sure(work, out, t.below))
}

/// `skip$`.
pub fn skip(work: &Work, a: State, out: &mut Vec<State>) -> Result<bool, AllocError>
    ensures { IfOk result (λ ok. IsTrue ok → Ruled (callee.BuiltIn built_in.Skip) a out.old.items out.new.items) }
{
    add_sure(work, out, a)?;
    Ok(true)
}

/// `stack$`.
pub fn stack(work: &Work, a: State, out: &mut Vec<State>) -> Result<bool, AllocError>
    ensures { IfOk result (λ ok. IsTrue ok → Ruled (callee.BuiltIn built_in.Stack) a out.old.items out.new.items) }
{
    add_without_stack(work, a, out)?;
    Ok(true)
}

/// `swap$`.
pub fn swap(work: &Work, a: State, out: &mut Vec<State>) -> Result<bool, AllocError>
    ensures { IfOk result (λ ok. IsTrue ok → Ruled (callee.BuiltIn built_in.Swap) a out.old.items out.new.items) }
{
    taking!(pair_of(a), t => add_pushed_both(work, t.below, t.first.number, t.second.number, out))
}

/// `write$`.
pub fn write(work: &Work, a: State, out: &mut Vec<State>) -> Result<bool, AllocError>
    ensures { IfOk result (λ ok. IsTrue ok → Ruled (callee.BuiltIn built_in.Write) a out.old.items out.new.items) }
{
    fitting!(top_of(a), t, t.known.value, Value::Text(m) => {
        if m.missing {
            return Ok(false);
        }
        add_sure(work, out, t.below)?;
        Ok(true)
    })
}
