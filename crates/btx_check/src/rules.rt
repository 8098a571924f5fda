//! The rule of each function of one step, and of the tokens that push.
ghost use Rattle.std.specs.Prelude.{◌≡◌, ℕ, List, [], ◌∷◌, IsTrue, true, false, Option, Some, None};
ghost use Rattle.std.specs.Result.{IfOk};
ghost use Rattle.std.specs.List.{list_all};
ghost use Rattle.btx_text.specs.language.Class as white;
ghost use Rattle.btx_bst.specs.declared.callee.Callee.TheVariants as callee;
ghost use Rattle.btx_stack.specs.declared.literal.Literal.TheVariants.{Text as TextLiteral};
ghost use Rattle.btx_check.specs.declared.description.Value.TheVariants as value;
ghost use Rattle.btx_check.specs.Descriptions.{Is};
ghost use Rattle.btx_check.specs.Answers.{Ruled, Stepped};

use crate::adding::add_new;
use crate::description::{Mask, Upper, Value};
use crate::state::State;
use crate::work::Work;
use crate::{known_rules, name_rules, plain_rules, stack_rules};
use btx_bst::{BuiltIn, Callee, Style, Token};
use btx_text::classify::is_white;
use std::alloc::AllocError;

/// A function of one step, from a description: what follows is added to the others. False if it may go wrong, or isn't of one step.
pub fn one_step(work: &Work, a: State, f: Callee, out: &mut Vec<State>) -> Result<bool, AllocError>
    ensures { IfOk result (λ ok. IsTrue ok → Ruled f a out.old.items out.new.items) }
{
    match f {
        Callee::BuiltIn(b) => built_in(work, a, b, out),
        Callee::User(_) => Ok(false),
        _ => name_rules::name(work, a, f, out),
    }
}

// A built-in function of one step.
fn built_in(work: &Work, a: State, b: BuiltIn, out: &mut Vec<State>) -> Result<bool, AllocError>
    ensures { IfOk result (λ ok. IsTrue ok → Ruled (callee.BuiltIn b) a out.old.items out.new.items) }
{
    match b {
        BuiltIn::Duplicate => stack_rules::duplicate(work, a, out),
        BuiltIn::Pop => stack_rules::pop(work, a, out),
        BuiltIn::Skip => stack_rules::skip(work, a, out),
        BuiltIn::Stack => stack_rules::stack(work, a, out),
        BuiltIn::Swap => stack_rules::swap(work, a, out),
        BuiltIn::Write => stack_rules::write(work, a, out),
        BuiltIn::Empty => known_rules::empty(work, a, out),
        BuiltIn::Missing => known_rules::missing(work, a, out),
        BuiltIn::NumNames => known_rules::num_names(work, a, out),
        BuiltIn::Plus => known_rules::plus(work, a, out),
        BuiltIn::Minus => known_rules::minus(work, a, out),
        BuiltIn::Greater => known_rules::greater(work, a, out),
        BuiltIn::Less => known_rules::less(work, a, out),
        BuiltIn::Equals => known_rules::equals(work, a, out),
        BuiltIn::Concatenate => known_rules::concatenate(work, a, out),
        _ => plain_rules::plain_step(work, a, b, out),
    }
}

/// The mask of a string.
pub fn mask_of(text: &[u8]) -> Mask
    ensures { (left : ℕ) → Is left (value.Text result) (TextLiteral text.now) }
{
    let is_empty = text.is_empty();
    let is_white = is_blank(text);
    Mask {
        missing: false,
        empty: is_empty,
        white: !is_empty && is_white,
        full: !is_empty && !is_white,
    }
}

// Whether a string is of whitespace alone.
fn is_blank(text: &[u8]) -> bool
    ensures { result ≡ list_all white.is_white text.now }
{
    text.iter().all(|byte| is_white(*byte))
}

/// A token that pushes a literal, from a description.
pub fn push_token(
    work: &Work,
    style: &Style,
    a: State,
    t: Token,
    out: &mut Vec<State>,
) -> Result<bool, AllocError>
    ensures { IfOk result (λ ok. IsTrue ok → (allowed : List ℕ) (deep loops : ℕ) → Stepped style.now allowed t (a ∷ []) deep loops out.old.items out.new.items) }
{
    if !a.has_room() {
        return Ok(false);
    }
    match t {
        Token::Text(i) => {
            let mask = mask_of(style.text(i));
            add_new(work, a, Value::Text(mask), out)?;
            Ok(true)
        }
        Token::Integer(n) => {
            add_new(
                work,
                a,
                Value::Integer(Some(n), Upper::Number(Some(n))),
                out,
            )?;
            Ok(true)
        }
        Token::Quote(f) => {
            add_new(work, a, Value::Function(f), out)?;
            Ok(true)
        }
        Token::Run(_) => Ok(false),
    }
}
