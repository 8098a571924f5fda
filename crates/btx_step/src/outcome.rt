//! What a step gives beside the store.
ghost use Rattle.std.specs.Prelude.{◌≡◌};
ghost use Rattle.btx_step.specs.declared.said.StepOutput.TheVariants as words;

use crate::next::Next;
use crate::said::StepOutput;
use std::alloc::AllocError;

/// What follows a step, and what it says.
#[derive(Drop)]
pub struct Outcome<'a> {
    pub next: Next,
    pub said: StepOutput<'a>,
}

/// What a step answers: its outcome, unless memory is refused.
pub type Stepped<'a> = Result<Outcome<'a>, AllocError>;

impl<'a> Outcome<'a> {
    /// Makes the outcome of a step that says nothing.
    pub fn quiet(next: Next) -> Self
        ensures next { result.next ≡ next }
        ensures said { result.said ≡ words.Nothing }
    {
        Outcome {
            next,
            said: StepOutput::Nothing,
        }
    }

    /// Makes the outcome of a step that says something.
    pub fn saying(next: Next, said: StepOutput<'a>) -> Self
        ensures next { result.next ≡ next }
        ensures said { result.said ≡ said.entry }
    {
        Outcome { next, said }
    }
}
