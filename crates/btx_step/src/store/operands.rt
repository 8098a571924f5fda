//! How operands are taken: first it is asked whether all of a function's operands are there and fit; only then the function pops each as what it is.
ghost use Rattle.std.specs.Prelude.{◌≡◌, ◌<◌, ◌≤◌, ◌+◌, ◌∷◌, [], None, true, length, drop, is_some, IfOk, OnOk, IfSome, IfNone};
ghost use Rattle.btx_stack.specs.declared.literal.Literal.TheVariants as literal;
ghost use Rattle.btx_stack.specs.refinement.Stacks.{below_top, has_function, has_text, integer_on};
ghost use Rattle.btx_step.specs.declared.said.Note.TheVariants as note;
ghost use Rattle.btx_step.specs.language.Answers.{with_literals};
ghost use Rattle.btx_step.specs.language.Operands.{Does, or_default, wrong};
ghost use Rattle.btx_step.specs.language.Table.{row, runs};
ghost use Rattle.btx_step.specs.refinement.Answers.{gives};
ghost use Rattle.btx_step.specs.refinement.Operands.{Fit, WrongAt, has_text_or_missing, stands};

use super::Store;
use crate::literal::{Literal, OperandKind};
use crate::next::Next;
use crate::operands::{Default, Operand, default_of, operands_of};
use crate::outcome::Outcome;
use crate::said::{Note, Notes, StepOutput};
use btx_bst::{BuiltIn, Callee};
use btx_stack::Literals;
use btx_text::Text;
use std::alloc::AllocError;

impl<'a> Store<'a> {
    // Logs that operands of a function are missing or don't fit, and pushes its default; or answers none, and changes nothing, where all are there and fit.
    #[tactic(auto, using(crate::proofs::OperandLemmas::by_lack, crate::proofs::OperandLemmas::by_kind, crate::proofs::OperandLemmas::fitting))]
    pub(super) fn check_operands(
        &mut self,
        function: BuiltIn,
    ) -> Result<Option<Outcome<'a>>, AllocError>
        ensures some { IfOk result (λ misfit. IfSome misfit (λ o. (does : Does (row function).operands) → gives o self.new ≡ runs function does self.old)) }
        ensures none { IfOk result (λ misfit. IfNone misfit (Fit function self.old)) }
        ensures same { IfOk result (λ misfit. IfNone misfit (self.new ≡ self.old)) }
    {
        let operands = operands_of(function);
        let there = self.literals.len();
        if there < operands.len() {
            let notes = Notes::empty_stack(self.alloc, operands.len() - there)?;
            return Ok(Some(self.fall_back(default_of(function), there, notes)));
        }
        match self.first_wrong(operands) {
            Some((place, wanted)) => {
                drop_literals(&mut self.literals, place);
                let value = self.take()?;
                let notes = Notes::one(self.alloc, Note::WrongKind(value, wanted))?;
                let left = operands.len() - place - 1;
                Ok(Some(self.fall_back(default_of(function), left, notes)))
            }
            None => Ok(None),
        }
    }

    // Finds the first operand of a wrong kind, from the top: its place, and what was wanted there. All operands are on the stack.
    #[tactic(auto, using(crate::proofs::OperandLemmas::wrong_steps))]
    fn first_wrong(&self, operands: &[Operand]) -> Option<(usize, OperandKind)>
        requires { length operands.now ≤ length self.now.literals }
        ensures none { IfNone result (wrong operands.now self.now.literals ≡ []) }
        ensures some { IfSome result (λ r. WrongAt r.0 r.1 operands.now self.now.literals) }
    {
        for (place, operand) in operands.iter().enumerate() {
            match *operand {
                Operand::Of(wanted) if !self.is(place, wanted) => return Some((place, wanted)),
                _ => {}
            }
        }
        None
    }

    // Whether a literal of the kind `wanted` stands `place` below the top one.
    #[tactic(auto, using(crate::proofs::OperandLemmas::text_or_missing))]
    fn is(&self, place: usize, wanted: OperandKind) -> bool
        ensures { result ≡ stands wanted (drop place self.now.literals) }
    {
        match wanted {
            OperandKind::Integer => self.literals.integer_at(place).is_some(),
            OperandKind::Text => self.literals.text_at(place).is_some(),
            OperandKind::Function => self.literals.function_at(place).is_some(),
            OperandKind::TextOrMissing => {
                self.literals.missing_at(place) || self.literals.text_at(place).is_some()
            }
        }
    }

    // Logs `notes`, and leaves the default in place of a result. Of the operands `left` are still on the stack, and are popped, unless the default is to leave them.
    fn fall_back(&mut self, default: Default, left: usize, notes: Notes<'a>) -> Outcome<'a>
        requires { left ≤ length self.old.literals }
        ensures { gives result self.new ≡ or_default None default notes.entry self.old.literals (drop left self.old.literals) self.old }
    {
        match default {
            Default::Push(instead) => {
                drop_literals(&mut self.literals, left);
                self.complain_all(notes, instead)
            }
            Default::Back => Outcome::saying(Next::Nothing, StepOutput::Noted(notes)),
        }
    }

    // Pops a literal.
    pub(super) fn take(&mut self) -> Result<Literal<'a>, AllocError>
        requires { 0 < length self.old.literals }
        ensures value { IfOk result (λ x. self.old.literals ≡ x ∷ below_top self.old.literals) }
        ensures rest { OnOk result (self.new ≡ with_literals (below_top self.old.literals) self.old) }
        ensures room { OnOk result (length self.new.literals < 1000) }
    {
        let _count = self.literals.len();
        match self.literals.pop(self.alloc)? {
            Some(value) => Ok(value),
            None => unreachable!(),
        }
    }

    // Pops an integer.
    pub(super) fn take_integer(&mut self) -> Result<i32, AllocError>
        requires { is_some (integer_on self.old.literals) ≡ true }
        ensures value { IfOk result (λ n. self.old.literals ≡ literal.Integer n ∷ below_top self.old.literals) }
        ensures rest { OnOk result (self.new ≡ with_literals (below_top self.old.literals) self.old) }
    {
        match self.literals.pop(self.alloc)? {
            Some(Literal::Integer(n)) => Ok(n),
            _ => unreachable!(),
        }
    }

    // Pops a string.
    pub(super) fn take_text(&mut self) -> Result<Text<'a>, AllocError>
        requires { has_text self.old.literals ≡ true }
        ensures value { IfOk result (λ text. self.old.literals ≡ literal.Text text ∷ below_top self.old.literals) }
        ensures rest { OnOk result (self.new ≡ with_literals (below_top self.old.literals) self.old) }
    {
        match self.literals.pop(self.alloc)? {
            Some(Literal::Text(text)) => Ok(text),
            _ => unreachable!(),
        }
    }

    // Pops a function.
    pub(super) fn take_function(&mut self) -> Result<Callee, AllocError>
        requires { has_function self.old.literals ≡ true }
        ensures value { IfOk result (λ f. self.old.literals ≡ literal.Function f ∷ below_top self.old.literals) }
        ensures rest { OnOk result (self.new ≡ with_literals (below_top self.old.literals) self.old) }
    {
        match self.literals.pop(self.alloc)? {
            Some(Literal::Function(function)) => Ok(function),
            _ => unreachable!(),
        }
    }

    // Pops a string, or the value of a missing field, which is none.
    pub(super) fn take_text_or_missing(&mut self) -> Result<Option<Text<'a>>, AllocError>
        requires { has_text_or_missing self.old.literals ≡ true }
        ensures text { IfOk result (λ o. IfSome o (λ text. self.old.literals ≡ literal.Text text ∷ below_top self.old.literals)) }
        ensures missing { IfOk result (λ o. IfNone o (self.old.literals ≡ literal.Missing ∷ below_top self.old.literals)) }
        ensures rest { OnOk result (self.new ≡ with_literals (below_top self.old.literals) self.old) }
    {
        match self.literals.pop(self.alloc)? {
            Some(Literal::Text(text)) => Ok(Some(text)),
            Some(Literal::Missing) => Ok(None),
            _ => unreachable!(),
        }
    }
}

// Pops `count` literals, which are there.
#[tactic(auto, using(crate::proofs::OperandLemmas::drop_steps))]
fn drop_literals(literals: &mut Literals<'_>, count: usize)
    requires { count ≤ length literals.old }
    ensures { literals.new ≡ drop count literals.old }
{
    for _literal in 0..count {
        literals.drop_top();
    }
}

// A string that was made, with what was wrong. Where the string is too long, or memory is refused, the function that calls this is left at once.
macro_rules! made {
    ($answer:expr) => {
        match $answer {
            Ok(answer) => answer,
            Err(Fault::StringLimit) => return Ok(Outcome::quiet(Next::End(Limit::String))),
            Err(Fault::Memory) => return Err(AllocError),
            Err(Fault::Device | Fault::FileLimit) => unreachable!(),
        }
    };
}

pub(super) use made;
