//! The rules of functions of which no more need be known than what they push in place of operands that fit.
ghost use Rattle.std.specs.Prelude.{◌≡◌, IsTrue, Some, false};
ghost use Rattle.std.specs.Option.{IfSome};
ghost use Rattle.std.specs.Result.{IfOk};
ghost use Rattle.btx_bst.specs.declared.callee.Callee.TheVariants as callee;
ghost use Rattle.btx_check.specs.Answers.{PlainRule, Ruled};

use crate::description::{Mask, Value};
use crate::operands::{follows, take};
use crate::state::State;
use crate::work::Work;
use btx_bst::BuiltIn;
use btx_step::operands::operands_of;
use std::alloc::AllocError;

/// What a function pushes in place of its operands, and whether an entry has to be current.
#[derive(Clone, Copy)]
pub struct Plain {
    pub needs_entry: bool,
    pub pushes: Option<Value>,
}

// The row of a function that pushes a literal of which this is known.
fn pushing(value: Value) -> Plain
    ensures { result ≡ record { needs_entry = false; pushes = Some value } }
{
    Plain {
        needs_entry: false,
        pushes: Some(value),
    }
}

// The row of a function, if it has one: of the others more has to be known than what they push, or nothing is known yet. A row may say too little, as that any
// string is pushed; then the checker knows less, and is as right as before.
fn plain_of(function: BuiltIn) -> Option<Plain>
    ensures { IfSome result (λ plain. PlainRule function plain) }
{
    let any_text = Value::Text(Mask::any_text());
    let of_entry = Plain {
        needs_entry: true,
        pushes: Some(any_text),
    };
    let nothing = Plain {
        needs_entry: false,
        pushes: None,
    };
    Some(match function {
        BuiltIn::AddPeriod => pushing(any_text),
        BuiltIn::ChangeCase => pushing(any_text),
        BuiltIn::ChrToInt => pushing(Value::any_integer()),
        BuiltIn::Cite => of_entry,
        BuiltIn::FormatName => pushing(any_text),
        BuiltIn::IntToChr => pushing(any_text),
        BuiltIn::IntToStr => pushing(any_text),
        BuiltIn::NewLine => nothing,
        BuiltIn::Preamble => pushing(any_text),
        BuiltIn::Purify => pushing(any_text),
        BuiltIn::Quote => pushing(any_text),
        BuiltIn::Substring => pushing(any_text),
        BuiltIn::TextLength => pushing(Value::any_count()),
        BuiltIn::TextPrefix => pushing(any_text),
        BuiltIn::Top => nothing,
        BuiltIn::Type => of_entry,
        BuiltIn::Warning => nothing,
        BuiltIn::Width => pushing(Value::any_count()),
        _ => return None,
    })
}

/// The step of such a function, from a description: what follows is added to the others. False if it may go wrong, or isn't of this kind.
pub fn plain_step(
    work: &Work,
    a: State,
    function: BuiltIn,
    out: &mut Vec<State>,
) -> Result<bool, AllocError>
    ensures { IfOk result (λ ok. IsTrue ok → Ruled (callee.BuiltIn function) a out.old.items out.new.items) }
{
    let Some(plain) = plain_of(function) else {
        return Ok(false);
    };
    if plain.needs_entry && !a.has_entry() {
        return Ok(false);
    }
    let taken = take(a, operands_of(function));
    follows(work, taken, plain.pushes, out)
}
