//! The current entry.
ghost use Rattle.std.specs.Prelude.{◌≡◌, IfOk};
ghost use Rattle.btx_bst.specs.declared.built_in.BuiltIn.TheVariants as built_in;
ghost use Rattle.btx_step.specs.laws.Applied.{FollowsRule};
ghost use Rattle.btx_step.specs.language.Table.{runs_missing};
ghost use Rattle.btx_step.specs.refinement.Answers.{gives};
ghost use Rattle.btx_step.specs.refinement.Entries as kept_spec;
ghost use Rattle.btx_step.specs.refinement.Operands.{Fit};
ghost use Rattle.btx_step.specs.refinement.Table.{misses_entry};

use super::Store;
use crate::job::Job;
use crate::next::Next;
use crate::outcome::{Outcome, Stepped};
use crate::said::{Note, Notes};
use crate::stand_in::StandIn;
use btx_bst::Callee;

impl<'a> Store<'a> {
    // A field.
    pub(super) fn push_field(&mut self, job: &Job<'a>, field: u32) -> Stepped<'a>
        ensures { IfOk result (λ o. gives o self.new ≡ kept_spec.field_pushed job.now field self.old.current self.old) }
    {
        match self.current {
            Some(entry) => Ok(match job.library().value(entry, field) {
                Some(text) => self.push_lent(text),
                None => self.push_missing(),
            }),
            None => self.miss_entry(),
        }
    }

    // `cite$`
    pub(super) fn cite(&mut self, job: &Job<'a>) -> Stepped<'a>
        ensures { IfOk result (λ o. gives o self.new ≡ kept_spec.cites job.now self.old.current self.old) }
    {
        match self.current {
            Some(entry) => Ok(self.push_text(job.key(entry))),
            None => self.miss_entry(),
        }
    }

    // `type$`
    pub(super) fn push_type(&mut self, job: &Job<'a>) -> Stepped<'a>
        ensures { IfOk result (λ o. gives o self.new ≡ kept_spec.gives_type job.now self.old.current self.old) }
    {
        match self.current {
            Some(entry) => Ok(self.push_text(job.type_name(entry))),
            None => self.miss_entry(),
        }
    }

    // `call.type$`
    pub(super) fn call_type(&mut self, job: &Job<'a>) -> Stepped<'a>
        ensures { IfOk result (λ o. gives o self.new ≡ kept_spec.calls_type job.now self.old.current self.old) }
    {
        match self.current {
            Some(entry) => Ok(Outcome::quiet(match job.runner(entry) {
                Some(function) => Next::Run(Callee::User(function)),
                None => Next::Nothing,
            })),
            None => self.miss_entry(),
        }
    }

    // `missing$`, in an entry
    #[tactic(auto, using(crate::proofs::OperandLemmas::missing_in_entry))]
    pub(super) fn find_missing(&mut self) -> Stepped<'a>
        requires fit { Fit built_in.Missing self.old }
        requires rule { FollowsRule built_in.Missing self.old.current }
        ensures { IfOk result (λ o. gives o self.new ≡ runs_missing self.old.current self.old) }
    {
        let text = self.take_text_or_missing()?;
        Ok(self.push_truth(text.is_none()))
    }

    // `missing$` without an entry: its operand, of whatever kind, is taken off the stack.
    pub(super) fn miss_entry_for_missing(&mut self) -> Stepped<'a>
        ensures { IfOk result (λ o. gives o self.new ≡ misses_entry self.old.literals self.old) }
    {
        let mut notes = Notes::new(self.alloc);
        if self.literals.pop(self.alloc)?.is_none() {
            notes.push(Note::EmptyStack)?;
        }
        notes.push(Note::NoEntry)?;
        Ok(self.complain_all(notes, StandIn::Nothing))
    }

    // `preamble$`
    pub(super) fn push_preamble(&mut self, job: &Job<'a>) -> Outcome<'a>
        ensures { gives result self.new ≡ kept_spec.gives_preamble job.now self.old }
    {
        self.push_lent(job.library().preamble().as_bytes())
    }
}
