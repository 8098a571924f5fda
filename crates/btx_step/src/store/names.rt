//! Names.
ghost use Rattle.std.specs.Prelude.{◌≡◌, ◌++◌, IfOk, OnOk};
ghost use Rattle.btx_bst.specs.declared.built_in.BuiltIn.TheVariants as built_in;
ghost use Rattle.btx_step.specs.language.Names as spec;
ghost use Rattle.btx_step.specs.language.Table.{runs};
ghost use Rattle.btx_step.specs.refinement.Answers.{gives};
ghost use Rattle.btx_step.specs.refinement.Names as kept_spec;
ghost use Rattle.btx_step.specs.refinement.Operands.{Fit};
ghost use Rattle.btx_text.specs.language.Lists.{only_if};

use super::Store;
use super::operands::made;
use crate::job::Job;
use crate::literal::Literal;
use crate::next::Next;
use crate::outcome::{Outcome, Stepped};
use crate::said::{Note, Notes, StepOutput};
use btx_strings::Complaints;
use btx_text::{Fault, Limit, Text};
use std::alloc::{AllocError, Global};

impl<'a> Store<'a> {
    // `num.names$`
    pub(super) fn count_names(&mut self) -> Stepped<'a>
        requires { Fit built_in.NumNames self.old }
        ensures { IfOk result (λ o. gives o self.new ≡ runs built_in.NumNames kept_spec.counts_names self.old) }
    {
        let names = self.take_text()?;
        Ok(self.push_number(btx_names::num_names(names.as_bytes())))
    }

    // `format.name$`
    pub(super) fn format_name(&mut self, job: &Job<'a>) -> Stepped<'a>
        requires { Fit built_in.FormatName self.old }
        ensures { IfOk result (λ o. gives o self.new ≡ runs built_in.FormatName (spec.formats_name job.now) self.old) }
    {
        let format = self.take_text()?;
        let number = self.take_integer()?;
        let names = self.take_text()?;
        let answer = made!(
            self.names
                .format(names.as_bytes(), number, format.as_bytes(), job.mode())
        );
        let said = name_said(self.alloc, answer.complaints, names, number, format)?;
        let pushed = self.push(Literal::Text(Text::owned(answer.text)))?;
        Ok(Outcome::saying(pushed.next, said))
    }
}

// What is logged of a name.
fn name_said<'a>(
    alloc: Global,
    complaints: Complaints,
    names: Text<'a>,
    number: i32,
    format: Text<'a>,
) -> Result<StepOutput<'a>, AllocError>
    ensures { IfOk result (λ said. said ≡ kept_spec.name_said complaints names.entry number format.entry) }
{
    if !(complaints.x10 || complaints.x11 || complaints.x12 || complaints.x13) {
        return Ok(StepOutput::Nothing);
    }
    let names = names.share()?;
    let mut notes = Notes::new(alloc);
    push_if(
        &mut notes,
        complaints.x10,
        Note::NoSuchName(number, names.copy(alloc)?),
    )?;
    push_if(
        &mut notes,
        complaints.x11,
        Note::FinalComma(number, names.copy(alloc)?),
    )?;
    push_if(
        &mut notes,
        complaints.x12,
        Note::TooManyCommas(number, names),
    )?;
    push_if(&mut notes, complaints.x13, Note::IllegalFormat(format))?;
    Ok(StepOutput::Noted(notes))
}

// A line where something was wrong.
fn push_if<'a>(notes: &mut Notes<'a>, is_wrong: bool, note: Note<'a>) -> Result<(), AllocError>
    ensures { OnOk result (notes.new ≡ notes.old ++ only_if is_wrong note.entry) }
{
    if is_wrong {
        notes.push(note)?;
    }
    Ok(())
}
