//! The places of messages in a database.
use crate::grammar::line_counter::LineCounter;
use crate::message::SourcePosition;
use crate::spelling::Word;

/// A database whose lines are counted where messages are made.
#[derive(Drop)]
pub struct LineSource<'a> {
    /// The name of the file.
    pub file: Word<'a>,
    /// Its lines.
    pub lines: LineCounter<'a>,
}

impl<'a> LineSource<'a> {
    ghost use Rattle.std.specs.Prelude.{◌≡◌, ◌-◌, length};
    ghost use Rattle.btx_bib.specs.refinement.Sites.{site_database};
    ghost use Rattle.btx_bib.specs.language.Messages.{position_at, position_before};

    // The spot in this line, where this rest of the text begins.
    fn position_of(&self, line: usize, rest: &[u8]) -> SourcePosition<'a>
        ensures { result ≡ record { file = self.now.file; line = line; at = length self.now.lines - length rest.now } }
    {
        SourcePosition::of(&self.file, line, self.lines.bytes_before(rest))
    }

    /// The spot of the byte with which this rest of the text begins.
    pub fn position_at(&mut self, rest: &[u8]) -> SourcePosition<'a>
        ensures spot { result ≡ position_at (site_database self.old) rest.now }
        ensures same { self.new ≡ self.old }
    {
        let line = self.lines.line_at(rest);
        self.position_of(line, rest)
    }

    /// The spot where this rest of the text begins, with the line of the last byte before it.
    pub fn position_before(&mut self, rest: &[u8]) -> SourcePosition<'a>
        ensures spot { result ≡ position_before (site_database self.old) rest.now }
        ensures same { self.new ≡ self.old }
    {
        let line = self.lines.line_before(rest);
        self.position_of(line, rest)
    }
}
