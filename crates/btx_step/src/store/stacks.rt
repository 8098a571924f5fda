//! The stack itself, and what is written and shown.
ghost use Rattle.std.specs.Prelude.{◌≡◌, [], map, IfOk, OnOk};
ghost use Rattle.btx_bst.specs.declared.built_in.BuiltIn.TheVariants as built_in;
ghost use Rattle.btx_step.specs.declared.said.Note.TheVariants as note;
ghost use Rattle.btx_step.specs.language.Answers.{done};
ghost use Rattle.btx_step.specs.language.Table.{runs};
ghost use Rattle.btx_step.specs.refinement.Answers.{gives};
ghost use Rattle.btx_step.specs.refinement.Operands.{Fit};
ghost use Rattle.btx_step.specs.refinement.Stacks as spec;

use super::Store;
use crate::next::Next;
use crate::outcome::{Outcome, Stepped};
use crate::said::{Note, Notes, StepOutput};
use crate::stand_in::StandIn;
use btx_stack::Literals;
use std::alloc::{AllocError, Global};

impl<'a> Store<'a> {
    // `duplicate$`
    pub(super) fn duplicate(&mut self) -> Stepped<'a>
        requires { Fit built_in.Duplicate self.old }
        ensures { IfOk result (λ o. gives o self.new ≡ runs built_in.Duplicate spec.duplicates self.old) }
    {
        let value = self.take()?.share()?;
        let copy = value.copy(self.alloc)?;
        self.literals.put(value)?;
        self.push(copy)
    }

    // `swap$`
    pub(super) fn swap(&mut self) -> Stepped<'a>
        requires { Fit built_in.Swap self.old }
        ensures { IfOk result (λ o. gives o self.new ≡ runs built_in.Swap spec.swaps self.old) }
    {
        let top = self.take()?;
        let below = self.take()?;
        self.literals.put(top)?;
        self.literals.put(below)?;
        Ok(Outcome::quiet(Next::Nothing))
    }

    // `pop$`
    pub(super) fn drop_top(&mut self) -> Stepped<'a>
        requires { Fit built_in.Pop self.old }
        ensures { IfOk result (λ o. gives o self.new ≡ runs built_in.Pop (λ value. done) self.old) }
    {
        self.take()?;
        Ok(Outcome::quiet(Next::Nothing))
    }

    // `top$`
    pub(super) fn show_top(&mut self) -> Stepped<'a>
        requires { Fit built_in.Top self.old }
        ensures { IfOk result (λ o. gives o self.new ≡ runs built_in.Top spec.shows_top self.old) }
    {
        let value = self.take()?;
        self.complain(Note::Shown(value), StandIn::Nothing)
    }

    // `stack$`
    pub(super) fn show_stack(&mut self) -> Stepped<'a>
        ensures { IfOk result (λ o. gives o self.new ≡ spec.shows_stack self.old) }
    {
        let notes = take_shown(self.alloc, &mut self.literals)?;
        Ok(Outcome::saying(Next::Nothing, StepOutput::Noted(notes)))
    }

    // `warning$`
    pub(super) fn warn(&mut self) -> Stepped<'a>
        requires { Fit built_in.Warning self.old }
        ensures { IfOk result (λ o. gives o self.new ≡ runs built_in.Warning spec.warns self.old) }
    {
        let text = self.take_text()?;
        self.complain(Note::Warning(text), StandIn::Nothing)
    }

    // `write$`
    pub(super) fn write(&mut self) -> Stepped<'a>
        requires { Fit built_in.Write self.old }
        ensures { IfOk result (λ o. gives o self.new ≡ runs built_in.Write spec.writes self.old) }
    {
        let text = self.take_text()?;
        Ok(Outcome::saying(Next::Nothing, StepOutput::Wrote(text)))
    }
}

// Takes all literals off the stack, as lines of the log.
#[tactic(auto, using(std::proofs::Common::append_assoc))]
fn take_shown<'a>(alloc: Global, literals: &mut Literals<'a>) -> Result<Notes<'a>, AllocError>
    ensures notes { IfOk result (λ notes. notes ≡ map note.Shown literals.old) }
    ensures none { OnOk result (literals.new ≡ []) }
{
    let mut notes = Notes::new(alloc);
    while let Some(value) = literals.pop(alloc)? {
        notes.push(Note::Shown(value))?;
    }
    Ok(notes)
}
