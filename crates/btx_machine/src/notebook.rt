//! Notebooks: what is handed each message of a log, as a value.
ghost use Rattle.std.specs.Prelude.{◌∷◌, [], List, Option, None};
ghost use Rattle.btx_text.specs.language.LogLines.{Line};
ghost use Rattle.btx_machine.specs.laws.Noting.{AddsLines};
ghost use Rattle.btx_machine.specs.refinement.Met.{AddsMet, Met, met};

use crate::marks::Marks;
use btx_bib::SourcePosition;
use btx_bst::Style;
use btx_code::Code;
use btx_text::LogLine;

/// Where a style stands while a token of it is executed.
#[derive(Clone, Copy)]
pub struct Standing<'e> {
    /// The code of the style.
    pub code: &'e Code,
    /// The place of the code after the token: of a loop's test that after its `while$`, and the end of the code where a command runs its function itself.
    pub place: usize,
    /// What is open around the token.
    pub marks: &'e Marks,
}

/// What is executed where a message is met.
#[derive(Clone, Copy)]
pub struct Executed<'e> {
    /// The style that is executed.
    pub style: &'e Style<'e>,
    /// The number of the style's item that is done: of its commands and the mistakes of its text, from 0.
    pub item: usize,
    /// The name of the function that is executed, or the word of the command whose function has ended.
    pub name: &'e [u8],
    /// The number of the current entry, if there is one.
    pub entry: Option<usize>,
    /// The key of the current entry, if there is one.
    pub key: Option<&'e [u8]>,
    /// Where the style stands. None where a command's function has ended.
    pub standing: Option<Standing<'e>>,
}

/// Where a message of a log is met.
#[derive(Clone, Copy)]
pub enum About<'e> {
    /// In the `.aux` files, or where the style and the databases are looked for.
    Files,
    /// In the text of this style.
    Style(&'e Style<'e>),
    /// In the databases, and the place that the message is about, if it is about one.
    Databases(Option<&'e SourcePosition<'e>>),
    /// While the style is executed.
    Execution(Executed<'e>),
    /// At the end of the run, whose report the line gives.
    End,
}

/// What is handed each message of a log.
pub trait Notebook {
    /// The lines that it was handed, in order, as long as it shows them. One that lost a line shows none any more.
    ghost noted: { Self → Option (List Line) };

    /// The same, each with where it was met.
    ghost handed: { Self → Option (List Met) };

    /// Takes a line of the log, which is written next, and where it was met.
    fn note(&mut self, line: &LogLine, about: About<'_>)
        ensures noted { AddsLines (noted self.old) (noted self.new) (line.now ∷ []) }
        ensures handed { AddsMet (handed self.old) (handed self.new) (met line.now about.entry ∷ []) };
}

/// A notebook that keeps nothing.
#[derive(Drop)]
pub struct Unnoted {}

impl Notebook for Unnoted {
    ghost noted = { λ _. None };

    ghost handed = { λ _. None };

    #[inline(always)]
    fn note(&mut self, _line: &LogLine, _about: About<'_>) {}
}
