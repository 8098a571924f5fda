//! What a step writes and logs.
ghost use Rattle.std.specs.Prelude.{◌≡◌, [], ◌∷◌, ◌++◌, OnOk, IfOk, replicate};
ghost use Rattle.btx_step.specs.declared.said.Note.TheVariants as note;

use crate::literal::{Literal, OperandKind};
use btx_bst::Callee;
use btx_text::Text;
use std::alloc::{AllocError, Global};
use std::marker::Model;

/// A line of the log: a message, or a literal that a style shows.
#[derive(Drop)]
pub enum Note<'a> {
    /// The literal stack was empty.
    EmptyStack,
    /// A literal of another kind was wanted.
    WrongKind(Literal<'a>, OperandKind),
    /// Two literals can't be compared.
    Incomparable,
    /// A result is out of range.
    Overflow,
    /// A function is no variable.
    NotAssignable(Callee),
    /// There is no current entry.
    NoEntry,
    /// An integer isn't an ASCII code.
    NotAscii(i32),
    /// A string isn't one byte.
    NotOneCharacter(Text<'a>),
    /// A string names no case conversion.
    NoConversion(Text<'a>),
    /// There is no name of this number in a list of names.
    NoSuchName(i32, Text<'a>),
    /// The name of this number has a comma at its end.
    FinalComma(i32, Text<'a>),
    /// The name of this number has more than two commas.
    TooManyCommas(i32, Text<'a>),
    /// A format of names is illegal.
    IllegalFormat(Text<'a>),
    /// Literals were left after a command.
    LeftOver,
    /// A string of a first number of bytes was cut to a second number.
    Cut(usize, usize),
    /// A warning of the style's own.
    Warning(Text<'a>),
    /// A literal that the style shows.
    Shown(Literal<'a>),
}

/// Lines of the log, in order.
#[derive(Drop)]
pub struct Notes<'a> {
    notes: Vec<Note<'a>>,
}

impl<'a> Model for Notes<'a> {
    ghost use Rattle.std.specs.Prelude.{List};
    ghost use Rattle.btx_step.specs.declared.said.Note.{Note as OneNote};

    ghost Value = { List OneNote };

    ghost view = { λ notes. notes.notes.items };
}

/// What a step says: nothing, a text that is appended to the pending line, the end of that line, or lines of the log.
#[derive(Drop)]
pub enum StepOutput<'a> {
    Nothing,
    Wrote(Text<'a>),
    EndedLine,
    Noted(Notes<'a>),
}

impl<'a> Notes<'a> {
    /// Makes an empty list of lines.
    pub fn new(alloc: Global) -> Self
        ensures { result ≡ [] }
    {
        Notes {
            notes: Vec::new(alloc),
        }
    }

    /// Makes a list of one line.
    pub fn one(alloc: Global, note: Note<'a>) -> Result<Self, AllocError>
        ensures { IfOk result (λ notes. notes ≡ note.entry ∷ []) }
    {
        let mut notes = Notes::new(alloc);
        notes.push(note)?;
        Ok(notes)
    }

    /// Makes a list that says `times` times that the stack was empty.
    #[tactic(auto, using(crate::proofs::Replicas::one_more))]
    pub fn empty_stack(alloc: Global, times: usize) -> Result<Self, AllocError>
        ensures { IfOk result (λ notes. notes ≡ replicate times note.EmptyStack) }
    {
        let mut notes = Notes::new(alloc);
        for _time in 0..times {
            notes.push(Note::EmptyStack)?;
        }
        Ok(notes)
    }

    /// Adds a line at the end.
    pub fn push(&mut self, note: Note<'a>) -> Result<(), AllocError>
        ensures { OnOk result (self.new ≡ self.old ++ note.entry ∷ []) }
    {
        self.notes.push(note).map_err(AllocError::from)
    }

    /// Answers the lines, in order.
    pub fn as_slice(&self) -> &[Note<'a>]
        ensures { result.now ≡ self.now }
    {
        self.notes.as_slice()
    }
}
