//! The lines of a text, one at a time.
ghost use Rattle.std.specs.Prelude.{◌≡◌};
ghost use Rattle.btx_text.specs.language.Lines.{lines_of};

use crate::trimming::without_trailing_white;
use memchr::memchr;
use std::marker::Model;

/// The lines of a text, first to last: it is cut at its line feeds, and each line loses the whitespace at its end.
#[derive(Drop)]
pub struct Lines<'a> {
    rest: &'a [u8],
}

impl<'a> Model for Lines<'a> {
    ghost use Rattle.std.specs.Prelude.{List, ℕ};
    ghost use Rattle.btx_text.specs.language.Lines.{lines_of};

    ghost Value = { List (List ℕ) };

    ghost view = { λ lines. lines_of lines.rest.now };
}

impl<'a> Lines<'a> {
    /// The lines of a text.
    pub fn of(text: &'a [u8]) -> Self
        ensures { result ≡ lines_of text.now }
    {
        Lines { rest: text }
    }
}

impl<'a> Iterator for Lines<'a> {
    ghost use Rattle.std.specs.Iterator.{YieldsFirstRef, item_count};

    type Item = &'a [u8];

    ghost next_gives = { YieldsFirstRef (λ lines. lines) };

    ghost remaining = { item_count (λ lines. lines) };

    #[tactic(auto, using(crate::proofs::LineLemmas::line_steps))]
    fn next(&mut self) -> Option<&'a [u8]> {
        if self.rest.is_empty() {
            return None;
        }
        match memchr(b'\n', self.rest) {
            Some(end) => {
                let line = &self.rest[..end];
                self.rest = &self.rest[end + 1..];
                Some(without_trailing_white(line))
            }
            None => {
                let line = self.rest;
                self.rest = &[];
                Some(without_trailing_white(line))
            }
        }
    }
}
