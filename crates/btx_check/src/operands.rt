//! What stands on top of the stack.
ghost use Rattle.std.specs.Prelude.{◌≡◌, IsTrue};
ghost use Rattle.std.specs.Option.{IfSome};
ghost use Rattle.std.specs.Result.{IfOk};
ghost use Rattle.btx_check.specs.Answers.{TopIs, TwoAre, ThreeAre, OpFits, Taken, Followed};

use crate::adding::{Known, add_new, add_sure};
use crate::description::Value;
use crate::state::State;
use crate::work::Work;
use btx_step::OperandKind;
use btx_step::operands::Operand;
use std::alloc::AllocError;

// Goes on with what stands on top of the stack, whatever it is, if it is there.
macro_rules! taking {
    ($taken:expr, $top:ident => $then:expr) => {
        match $taken {
            None => Ok(false),
            Some($top) => {
                $then?;
                Ok(true)
            }
        }
    };
}

// Goes on with what stands on top of the stack, where it is there and of this form; otherwise the function may go wrong.
macro_rules! fitting {
    ($taken:expr, $top:ident, $value:expr, $form:pat => $then:block) => {
        match $taken {
            None => Ok(false),
            Some($top) => match $value {
                $form => $then,
                _ => Ok(false),
            },
        }
    };
}

pub(crate) use fitting;
pub(crate) use taking;

/// The number on top, what is known of it, and what is below it.
#[derive(Drop)]
pub(crate) struct Top {
    pub known: Known,
    pub below: State,
}

/// What stands on top, if there is something.
pub(crate) fn top_of(a: State) -> Option<Top>
    ensures { IfSome result (λ t. TopIs a t.known.number t.known.value t.below) }
{
    if !a.has_room() {
        return None;
    }
    let mut below = a;
    let number = below.pop()?;
    let value = below.value(number);
    let known = Known { number, value };
    Some(Top { known, below })
}

/// The two numbers on top, what is known of them, and what is below them.
#[derive(Drop)]
pub(crate) struct Pair {
    pub first: Known,
    pub second: Known,
    pub below: State,
}

/// The two literals on top of the stack, if there are two.
#[tactic(auto, using(crate::proofs::RunLemmas::two_are))]
pub(crate) fn pair_of(a: State) -> Option<Pair>
    ensures { IfSome result (λ t. TwoAre a t.first.number t.second.number t.first.value t.second.value t.below) }
{
    let Top { known, below } = top_of(a)?;
    let next = top_of(below)?;
    Some(Pair {
        first: known,
        second: next.known,
        below: next.below,
    })
}

/// The three numbers on top, what is known of them, and what is below them.
#[derive(Drop)]
pub(crate) struct Triple {
    pub first: Known,
    pub second: Known,
    pub third: Known,
    pub below: State,
}

/// The three literals on top of the stack, if there are three.
#[tactic(auto, using(crate::proofs::RunLemmas::three_are))]
pub(crate) fn triple_of(a: State) -> Option<Triple>
    ensures { IfSome result (λ t. ThreeAre a t.first.number t.second.number t.third.number t.first.value t.second.value t.third.value t.below) }
{
    let p = pair_of(a)?;
    let t = top_of(p.below)?;
    Some(Triple {
        first: p.first,
        second: p.second,
        third: t.known,
        below: t.below,
    })
}

/// Whether an operand gets what it wants from each literal that is described so.
pub fn is_fit(value: Value, operand: Operand) -> bool
    ensures { IsTrue result → OpFits operand value }
{
    match operand {
        Operand::Any => true,
        Operand::Of(OperandKind::Integer) => matches!(value, Value::Integer(_, _)),
        Operand::Of(OperandKind::Function) => matches!(value, Value::Function(_)),
        Operand::Of(OperandKind::TextOrMissing) => matches!(value, Value::Text(_)),
        Operand::Of(OperandKind::Text) => match value {
            Value::Text(m) => !m.missing,
            _ => false,
        },
    }
}

/// Takes these operands, the first from the top, if each is there and fits: what is left below them.
pub(crate) fn take(a: State, operands: &[Operand]) -> Option<State>
    ensures { IfSome result (λ b. Taken operands.now a b) }
{
    if !a.has_room() {
        return None;
    }
    let mut below = a;
    for operand in operands {
        let number = below.pop()?;
        if !is_fit(below.value(number), *operand) {
            return None;
        }
    }
    Some(below)
}

/// Adds what is left below operands, with a literal of which this is known, if one is pushed. False if they weren't taken.
pub(crate) fn follows(
    work: &Work,
    taken: Option<State>,
    pushes: Option<Value>,
    out: &mut Vec<State>,
) -> Result<bool, AllocError>
    ensures { IfOk result (λ ok. IsTrue ok → Followed taken pushes out.old.items out.new.items) }
{
    let Some(below) = taken else {
        return Ok(false);
    };
    match pushes {
        Some(value) => add_new(work, below, value, out)?,
        None => add_sure(work, out, below)?,
    }
    Ok(true)
}
