//! A place in a style's text, from which words are read.
ghost use Rattle.std.specs.Prelude.{◌≡◌, ◌≤◌, length};
ghost use Rattle.btx_bst.specs.language.Places.{Place, ink, skipped};
ghost use Rattle.btx_bst.specs.language.Lists.{brace_in, closing, front_of, letters_at, next_name, opening, quoted_at};
ghost use Rattle.btx_bst.specs.language.Words.{met_in};
ghost use Rattle.btx_bst.specs.refinement.Views.{complaint_view, read_text, read_unit, word_view};
ghost use Rattle.btx_bst.specs.laws.Places.{beginning};
ghost use Rattle.btx_bst.specs.laws.Recorded.{spot_at};

use crate::complaint::Complaint;
use crate::fronts::{behind_white, letters_len, name_len, quote_len, word_front};
use crate::span::Spot;
use crate::word::Word;
use btx_text::Lines;
use std::marker::Model;

/// A place in a text.
#[derive(Drop)]
pub struct Cursor<'a> {
    number: usize,
    line: &'a [u8],
    lines: Lines<'a>,
}

impl<'a> Model for Cursor<'a> {
    ghost use Rattle.std.specs.Prelude.{◌<◌, ◌+◌, ◌^◌, length};
    ghost use Rattle.btx_bst.specs.language.Places.{Place, place_at};

    ghost Value = { Place };

    ghost view = { λ cursor. place_at cursor.number cursor.line.now cursor.lines };

    ghost invariant = { λ cursor. cursor.number + length cursor.lines < 2 ^ 64 };
}

impl<'a> Cursor<'a> {
    /// The place before the first line of a text.
    #[tactic(auto, using(crate::proofs::PlaceLemmas::line_steps))]
    pub fn of(text: &'a [u8]) -> Self
        ensures { result ≡ beginning text.now }
    {
        Cursor {
            number: 0,
            line: &[],
            lines: Lines::of(text),
        }
    }

    /// The number of the line.
    pub fn number(&self) -> usize
        ensures { result ≡ self.now.number }
    {
        self.number
    }

    /// The place, as it is recorded.
    pub fn spot(&self) -> Spot
        ensures { result ≡ spot_at self.now }
    {
        Spot {
            line: self.number,
            left: self.line.len(),
        }
    }

    /// Goes to what stands next.
    #[tactic(auto, using(crate::proofs::PlaceLemmas::ink_steps))]
    pub fn go_to_ink(&mut self)
        ensures { self.new ≡ ink self.old }
    {
        loop {
            self.line = behind_white(self.line);
            if !self.line.is_empty() {
                return;
            }
            match self.lines.next() {
                Some(line) => {
                    self.line = line;
                    self.number += 1;
                }
                None => return,
            }
        }
    }

    /// Goes to the end of the next empty line, or of the text.
    #[tactic(auto, using(crate::proofs::PlaceLemmas::skip_steps))]
    pub fn skip(&mut self)
        ensures { self.new ≡ skipped self.old }
    {
        self.line = &[];
        while let Some(line) = self.lines.next() {
            self.number += 1;
            if line.is_empty() {
                return;
            }
        }
    }

    /// Takes the word of a body that stands here.
    pub fn word(&mut self) -> Word<'a>
        ensures word { word_view result ≡ (met_in self.old self.old.line).word }
        ensures place { self.new ≡ (met_in self.old self.old.line).place }
    {
        match self.line {
            [] => Word::Ended,
            [first, after @ ..] => {
                let (word, rest) = word_front(*first, after, self.line);
                self.line = rest;
                word
            }
        }
    }

    // Takes a brace.
    fn brace(&mut self, brace: u8, complaint: Complaint<'a>) -> Result<(), Complaint<'a>>
        ensures { read_unit result self.new ≡ brace_in brace (complaint_view complaint.entry) (ink self.old) (ink self.old).line }
    {
        self.go_to_ink();
        match self.line {
            [] => Err(Complaint::EndOfFile),
            [first, after @ ..] => {
                if *first != brace {
                    return Err(complaint);
                }
                self.line = after;
                Ok(())
            }
        }
    }

    /// Takes a `{`.
    pub fn opening(&mut self) -> Result<(), Complaint<'a>>
        ensures { read_unit result self.new ≡ opening self.old }
    {
        self.brace(b'{', Complaint::NoOpen)
    }

    /// Takes a `}`.
    pub fn closing(&mut self) -> Result<(), Complaint<'a>>
        ensures { read_unit result self.new ≡ closing self.old }
    {
        self.brace(b'}', Complaint::NoClose)
    }

    // Takes the first `len` bytes of the line, or complains where that is none.
    fn front(&mut self, len: usize, complaint: Complaint<'a>) -> Result<&'a [u8], Complaint<'a>>
        requires { len ≤ length self.old.line }
        ensures { read_text result self.new ≡ front_of (complaint_view complaint.entry) self.old self.old.line len }
    {
        if len == 0 {
            return Err(complaint);
        }
        let (front, rest) = self.line.split_at(len);
        self.line = rest;
        Ok(front)
    }

    /// Takes a name.
    pub fn name(&mut self) -> Result<&'a [u8], Complaint<'a>>
        ensures { read_text result self.new ≡ next_name self.old }
    {
        self.go_to_ink();
        if self.line.is_empty() {
            return Err(Complaint::EndOfFile);
        }
        self.front(name_len(self.line), Complaint::NoName)
    }

    /// Takes a text in quotes.
    pub fn quoted(&mut self) -> Result<&'a [u8], Complaint<'a>>
        ensures { read_text result self.new ≡ quoted_at self.old }
    {
        self.go_to_ink();
        match self.line {
            [] => Err(Complaint::EndOfFile),
            [first, after @ ..] => {
                if *first != b'"' {
                    return Err(Complaint::NoQuote);
                }
                let (text, behind) = after.split_at(quote_len(after));
                match behind {
                    [] => Err(Complaint::NoQuote),
                    [_, rest @ ..] => {
                        self.line = rest;
                        Ok(text)
                    }
                }
            }
        }
    }

    /// Takes letters.
    pub fn letters(&mut self) -> Result<&'a [u8], Complaint<'a>>
        ensures { read_text result self.new ≡ letters_at self.old }
    {
        self.front(letters_len(self.line), Complaint::NoCommand)
    }

    /// What is left of the line.
    pub fn line(&self) -> &'a [u8]
        ensures { result.now ≡ self.now.line }
    {
        self.line
    }
}
