//! The text of a name while it is written, piece by piece.
ghost use Rattle.std.specs.Prelude.{◌≡◌, ◌++◌, ◌+◌, ◌<◌, ◌≤◌, ℕ, List, [], ◌∷◌, false, length, drop, take, IsTrue};
ghost use Rattle.btx_text.specs.language.Limits.{greatest_string};
ghost use Rattle.btx_names.specs.language.FormattedNames as spec;
ghost use Rattle.btx_names.specs.refinement.Becomes.{Becomes};

use crate::name_tokens::TokenSeparator;
use btx_text::{Elements, Fault, GREATEST_STRING, TextMode};
use std::alloc::Global;

/// The text of a name so far. It is one byte longer than a string may be at most, since the end of a piece may take a byte away.
#[derive(Drop)]
pub struct Writer {
    text: Vec<u8>,
    // Where the latest piece begins.
    start: usize,
    // Whether the latest piece is known to stay three characters long or longer, whatever is added.
    is_long: bool,
    mode: TextMode,
    ghost kept: { length text.items ≤ greatest_string + 1 },
    ghost begun: { start ≤ length text.items },
    ghost long: { IsTrue is_long → (more : List ℕ) → spec.is_short mode (drop start text.items ++ more) ≡ false },
}

impl Writer {
    /// Nothing so far.
    pub fn new(alloc: Global) -> Writer {
        Writer {
            text: Vec::new(alloc),
            start: 0,
            is_long: false,
            mode: TextMode::Bytes,
        }
    }

    /// Begins a text, whose bytes are read in a mode, in the memory of the one before.
    pub fn begin(&mut self, mode: TextMode)
        ensures text { self.new.text.items ≡ [] }
        ensures mode { self.new.mode ≡ mode }
    {
        self.text.clear();
        self.start = 0;
        self.is_long = false;
        self.mode = mode;
    }

    /// How its bytes are read.
    pub fn mode(&self) -> TextMode
        ensures { result ≡ self.now.mode }
    {
        self.mode
    }

    /// The text so far.
    pub fn text(&self) -> &[u8]
        ensures { result.now ≡ self.now.text.items }
    {
        &self.text
    }

    /// Begins a piece.
    pub fn begin_piece(&mut self)
        ensures text { self.new.text.items ≡ self.old.text.items }
        ensures start { self.new.start ≡ length self.old.text.items }
        ensures mode { self.new.mode ≡ self.old.mode }
    {
        self.is_long = false;
        self.start = self.text.len();
    }

    /// Adds bytes, unless the text would grow too long. Most pieces have none before their tokens, and none after them.
    pub fn push(&mut self, bytes: &[u8]) -> Result<(), Fault>
        ensures text { Becomes (greatest_string + 1) result self.new.text.items (self.old.text.items ++ bytes.now) }
        ensures start { self.new.start ≡ self.old.start }
        ensures mode { self.new.mode ≡ self.old.mode }
    {
        if bytes.is_empty() {
            return Ok(());
        }
        if bytes.len() > GREATEST_STRING + 1 - self.text.len() {
            return Err(Fault::StringLimit);
        }
        self.text.extend_from_slice(bytes)?;
        Ok(())
    }

    /// Adds what joins a token to the next.
    pub fn push_tie(&mut self, joint: TokenSeparator, is_last: bool) -> Result<(), Fault>
        ensures text { Becomes (greatest_string + 1) result self.new.text.items
            (self.old.text.items ++ spec.tie_of self.old.mode (drop self.old.start self.old.text.items) joint is_last ∷ []) }
        ensures start { self.new.start ≡ self.old.start }
        ensures mode { self.new.mode ≡ self.old.mode }
    {
        let tie = self.tie_of(joint, is_last);
        self.push(&[tie])?;
        if tie == b' ' {
            self.is_long = true;
        }
        Ok(())
    }

    // What joins a token to the next, after the piece so far.
    fn tie_of(&self, joint: TokenSeparator, is_last: bool) -> u8
        ensures { result ≡ spec.tie_of self.now.mode (drop self.now.start self.now.text.items) joint is_last }
    {
        match joint {
            TokenSeparator::Tie => b'~',
            TokenSeparator::Hyphen => b'-',
            TokenSeparator::Space if is_last || self.is_short() => b'~',
            TokenSeparator::Space => b' ',
        }
    }

    // Whether the piece so far has fewer than three characters.
    fn is_short(&self) -> bool
        ensures { result ≡ spec.is_short self.now.mode (drop self.now.start self.now.text.items) }
    {
        !self.is_long && is_short(&self.text[self.start..], self.mode)
    }

    /// Finishes a piece: of a final `~~` one goes, and a single final `~` may become a space.
    pub fn finish_piece(&mut self)
        ensures text { self.new.text.items ≡ take self.old.start self.old.text.items ++ spec.finished self.old.mode (drop self.old.start self.old.text.items) }
        ensures mode { self.new.mode ≡ self.old.mode }
    {
        self.is_long = false;
        if !ends_in_tie(&self.text[self.start..]) {
            return;
        }
        let last = self.text.len() - 1;
        if ends_in_tie(&self.text[self.start..last]) {
            self.text.truncate(last);
            return;
        }
        if !is_short(&self.text[self.start..last], self.mode) {
            self.text[last] = b' ';
        }
    }
}

// Whether a text has fewer than three characters. It reads no further than the third.
#[tactic(auto, using(crate::proofs::TieLemmas::short_steps))]
fn is_short(text: &[u8], mode: TextMode) -> bool
    ensures { result ≡ spec.is_short mode text.now }
{
    let mut count: usize = 0;
    for element in Elements::of_text(text, mode) {
        if !element.is_character() {
            continue;
        }
        count += 1;
        if count == 3 {
            return false;
        }
    }
    true
}

// Whether a text ends in `~`.
fn ends_in_tie(text: &[u8]) -> bool
    ensures value { result ≡ spec.ends_in_tie text.now }
    ensures some { IsTrue result → 0 < length text.now }
{
    matches!(text, [.., b'~'])
}
