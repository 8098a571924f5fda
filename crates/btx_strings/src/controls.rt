//! The control sequences of special characters.
ghost use Rattle.std.specs.Prelude.{◌≡◌, length, take_while};
ghost use Rattle.btx_strings.specs.language.Controls.{control_name, glyphs_of, is_white_glyph, letters_of};
ghost use Rattle.btx_text.specs.language.Class.{is_alpha};

use crate::conversions::Conversion;
use btx_text::classify::{is_alpha, is_white};
use std::marker::Model;

/// A control sequence of a special character, or another byte of it.
#[derive(Clone, Copy, Debug)]
pub enum Glyph<'a> {
    /// A control sequence, by what stands after its backslash.
    Control(&'a [u8]),
    /// A byte, which may be a brace.
    Plain(u8),
}

// The control sequences with which the whitespace directly after them goes.
#[derive(Clone, Copy)]
pub(crate) enum Sequences {
    // All of them.
    All,
    // Those that a conversion turns into letters.
    MadeLetters(Conversion),
}

impl Sequences {
    ghost use Rattle.btx_strings.specs.refinement.Glyphs.{is_of};

    // Whether a control sequence is among them.
    fn has(self, name: &[u8]) -> bool
        ensures { result ≡ is_of self name.now }
    {
        match self {
            Sequences::All => true,
            Sequences::MadeLetters(conversion) => conversion.makes_letters(name),
        }
    }
}

/// The glyphs of a special character, first to last. It takes no memory.
#[derive(Drop)]
pub struct Glyphs<'a> {
    rest: &'a [u8],
}

impl<'a> Model for Glyphs<'a> {
    ghost use Rattle.std.specs.Prelude.{List};
    ghost use Rattle.btx_strings.specs.language.Controls.{Glyph as SpecGlyph, glyphs_of};

    ghost Value = { List SpecGlyph };

    ghost view = { λ it. glyphs_of it.rest.now };
}

impl<'a> Glyphs<'a> {
    /// The glyphs of a special character.
    pub fn of(special: &'a [u8]) -> Glyphs<'a>
        ensures { result ≡ glyphs_of special.now }
    {
        Glyphs { rest: special }
    }
}

impl<'a> Glyph<'a> {
    ghost use Rattle.btx_strings.specs.refinement.Glyphs.{glyph_of, gone_after, is_of};

    // Whether whitespace after this glyph goes; `gone` says whether whitespace before it went. After a control sequence of `sequences` it goes.
    pub(crate) fn is_white_gone(self, gone: bool, sequences: Sequences) -> bool
        ensures { result ≡ gone_after (is_of sequences) gone (glyph_of self.entry) }
    {
        match self {
            Glyph::Control(name) => sequences.has(name),
            Glyph::Plain(byte) => is_white(byte) && gone,
        }
    }

    /// Whether it is a byte of whitespace.
    pub fn is_white(&self) -> bool
        ensures { result ≡ is_white_glyph (glyph_of self.now) }
    {
        match self {
            Glyph::Control(_) => false,
            Glyph::Plain(byte) => is_white(*byte),
        }
    }
}

impl<'a> Iterator for Glyphs<'a> {
    ghost use Rattle.std.specs.Iterator.{YieldsFirstBy, item_count};
    ghost use Rattle.btx_strings.specs.refinement.Glyphs.{glyph_of};

    type Item = Glyph<'a>;

    ghost next_gives = { YieldsFirstBy glyph_of (λ glyphs. glyphs) };

    ghost remaining = { item_count (λ glyphs. glyphs) };

    #[tactic(auto, using(crate::proofs::ControlLemmas::glyph_steps))]
    fn next(&mut self) -> Option<Glyph<'a>> {
        let (&first, others) = self.rest.split_first()?;
        if first != b'\\' {
            self.rest = others;
            return Some(Glyph::Plain(first));
        }
        let (name, rest) = others.split_at(control_len(others));
        self.rest = rest;
        Some(Glyph::Control(name))
    }
}

/// The letters that a control sequence stands for, by what follows its backslash: both of `oe OE ae AE ss`, the first of
/// `i j o aa l O AA L`, none of any other.
#[tactic(auto, unfolding(crate::specs::language::Controls::letters_of))]
pub fn letters(name: &[u8]) -> &[u8]
    ensures { result.now ≡ letters_of name.now }
{
    match name {
        b"oe" | b"OE" | b"ae" | b"AE" | b"ss" => name,
        b"i" | b"j" | b"o" | b"aa" | b"l" | b"O" | b"AA" | b"L" => &name[..1],
        _ => &[],
    }
}

// How many bytes belong to a backslash, of those after it.
#[tactic(auto, unfolding(crate::specs::language::Controls::control_name))]
fn control_len(rest: &[u8]) -> usize
    ensures { result ≡ length (control_name rest.now) }
{
    let letters = letters_len(rest);
    if letters > 0 {
        return letters;
    }
    match rest {
        [] | [b'{' | b'}', ..] => 0,
        _ => 1,
    }
}

// How many alpha bytes a text begins with.
fn letters_len(rest: &[u8]) -> usize
    ensures { result ≡ length (take_while is_alpha rest.now) }
{
    rest.iter().take_while(|byte| is_alpha(**byte)).count()
}
