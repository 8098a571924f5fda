//! Choices and loops.
ghost use Rattle.std.specs.Prelude.{◌≡◌, IfOk};
ghost use Rattle.btx_bst.specs.declared.built_in.BuiltIn.TheVariants as built_in;
ghost use Rattle.btx_step.specs.language.Control as spec;
ghost use Rattle.btx_step.specs.language.Table.{runs};
ghost use Rattle.btx_step.specs.refinement.Answers.{gives};
ghost use Rattle.btx_step.specs.refinement.Control as kept_spec;
ghost use Rattle.btx_step.specs.refinement.Operands.{Fit};

use super::Store;
use crate::literal::{Literal, OperandKind};
use crate::next::Next;
use crate::outcome::{Outcome, Stepped};
use crate::said::{Note, Notes, StepOutput};
use std::alloc::AllocError;

impl<'a> Store<'a> {
    // `if$`
    pub(super) fn choose(&mut self) -> Stepped<'a>
        requires { Fit built_in.If self.old }
        ensures { IfOk result (λ o. gives o self.new ≡ runs built_in.If kept_spec.chooses self.old) }
    {
        let otherwise = self.take_function()?;
        let then = self.take_function()?;
        let n = self.take_integer()?;
        let chosen = if is_positive(n) { then } else { otherwise };
        Ok(Outcome::quiet(Next::Run(chosen)))
    }

    // `while$`
    pub(super) fn start_loop(&mut self) -> Stepped<'a>
        requires { Fit built_in.While self.old }
        ensures { IfOk result (λ o. gives o self.new ≡ runs built_in.While kept_spec.loops self.old) }
    {
        let body = self.take_function()?;
        let test = self.take_function()?;
        Ok(Outcome::quiet(Next::Loop(test, body)))
    }

    /// Pops what a loop's test left, and answers whether the body runs, if it is an integer above 0, and what is said.
    pub fn test(&mut self) -> Result<(bool, StepOutput<'a>), AllocError>
        ensures { IfOk result (λ turn. spec.tested_as turn.0 turn.1 self.new ≡ spec.tested self.old.literals self.old) }
    {
        let note = match self.literals.pop(self.alloc)? {
            Some(Literal::Integer(n)) => return Ok((is_positive(n), StepOutput::Nothing)),
            Some(other) => Note::WrongKind(other, OperandKind::Integer),
            None => Note::EmptyStack,
        };
        Ok((false, StepOutput::Noted(Notes::one(self.alloc, note)?)))
    }
}

// Whether an integer is above 0.
#[inline(always)]
pub(super) fn is_positive(n: i32) -> bool
    ensures { result ≡ spec.is_positive n }
{
    0 < n
}
