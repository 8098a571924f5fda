//! The elements of a string, one at a time.
ghost use Rattle.std.specs.Prelude.{◌≡◌, ◌≤◌, ◌<◌, ◌+◌, ◌^◌, length, slice_index};
ghost use Rattle.btx_text.specs.declared.element_kind.TextMode.TheVariants.{Bytes};
ghost use Rattle.btx_text.specs.language.Elements.{elements_of, extent, group_len, is_character, kind_at};
ghost use Rattle.btx_text.specs.refinement.Elements.{depth_past};
ghost use Rattle.btx_text.specs.laws.Elements.{text_of};

use crate::depths::depth_after;
use crate::element_kind::{Kind, TextMode};
use crate::sequences::{begins_sequence, sequence_size};
use std::marker::Model;

/// An element of a string. Its text has at least one byte.
#[derive(Clone, Copy, Debug)]
pub struct Element<'a> {
    /// What it is.
    pub kind: Kind,
    /// Its bytes in the string.
    pub text: &'a [u8],
    /// The index of its first byte in the string.
    pub start: usize,
    /// The brace depth before it.
    pub depth: usize,
    pub ghost some: { 0 < length text.now },
}

/// The elements of a string, first to last. It takes no memory.
#[derive(Drop)]
pub struct Elements<'a> {
    mode: TextMode,
    rest: &'a [u8],
    start: usize,
    depth: usize,
}

impl<'a> Model for Elements<'a> {
    ghost use Rattle.std.specs.Prelude.{List, ◌+◌, ◌^◌, ◌<◌, ◌≤◌, length};
    ghost use Rattle.btx_text.specs.language.Elements.{Element, elements_from};

    ghost Value = { List Element };

    ghost view = { λ it. elements_from it.mode 0 it.start it.depth it.rest.now };

    ghost invariant = { λ it. (it.depth ≤ it.start) × (it.start + length it.rest.now < 2 ^ 64) };
}

impl<'a> Elements<'a> {
    /// The elements of a string of bytes. None is [`Kind::Wide`].
    pub fn of(string: &'a [u8]) -> Elements<'a>
        ensures value { result ≡ elements_of Bytes string.now }
        ensures joined { text_of result ≡ string.now }
        ensures len { length result ≤ length string.now }
    {
        Elements::of_text(string, TextMode::Bytes)
    }

    /// The elements of a string that is read in a mode.
    #[tactic(auto, unfolding(crate::specs::language::Elements::elements_of), using(crate::proofs::ElementLemmas::lengths))]
    pub fn of_text(string: &'a [u8], mode: TextMode) -> Elements<'a>
        ensures value { result ≡ elements_of mode string.now }
        ensures joined { text_of result ≡ string.now }
        ensures len { length result ≤ length string.now }
    {
        Elements {
            mode,
            rest: string,
            start: 0,
            depth: 0,
        }
    }
}

impl<'a> Element<'a> {
    /// Whether it counts as one character of text: bytes that are no brace, special characters and wide ones do.
    pub fn is_character(&self) -> bool
        ensures { result ≡ is_character self.now.kind }
    {
        !matches!(self.kind, Kind::Open | Kind::Close)
    }
}

impl<'a> Iterator for Elements<'a> {
    ghost use Rattle.std.specs.Iterator.{YieldsFirstBy, item_count};
    ghost use Rattle.btx_text.specs.refinement.Parts.{part_of};

    type Item = Element<'a>;

    ghost next_gives = { YieldsFirstBy part_of (λ parts. parts) };

    ghost remaining = { item_count (λ parts. parts) };

    #[inline(always)]
    #[tactic(auto, using(crate::proofs::ElementLemmas::element_steps))]
    fn next(&mut self) -> Option<Element<'a>> {
        let (&first, _) = self.rest.split_first()?;
        let kind = kind_at(self.mode, self.depth, first, self.rest);
        let (text, rest) = self.rest.split_at(extent(kind, first, self.rest));
        let element = Element {
            kind,
            text,
            start: self.start,
            depth: self.depth,
        };
        self.rest = rest;
        self.start += text.len();
        self.depth = depth_past(kind, self.depth, first);
        Some(element)
    }
}

// The kind of the element that begins here, with the byte `first`.
#[tactic(auto, unfolding(crate::specs::language::Elements::kind_at))]
fn kind_at(mode: TextMode, depth: usize, first: u8, rest: &[u8]) -> Kind
    requires { slice_index rest.now 0 ≡ first }
    ensures { result ≡ kind_at mode depth rest.now }
{
    if depth == 0 && rest.starts_with(b"{\\") {
        return Kind::Special;
    }
    if matches!(mode, TextMode::Utf8) && begins_sequence(first, rest) {
        return Kind::Wide;
    }
    match first {
        b'{' => Kind::Open,
        b'}' => Kind::Close,
        _ => Kind::Byte,
    }
}

// How many bytes the element of a kind has that begins here, with the byte `first`.
fn extent(kind: Kind, first: u8, rest: &[u8]) -> usize
    requires { slice_index rest.now 0 ≡ first }
    ensures { result ≡ extent kind rest.now }
{
    match kind {
        Kind::Special => group_len(rest),
        Kind::Wide => sequence_size(first),
        Kind::Byte | Kind::Open | Kind::Close => 1,
    }
}

/// How many bytes of a string there are until the brace depth is back at 0, or to its end.
#[inline(never)]
#[tactic(auto, using(crate::proofs::ElementLemmas::group_steps))]
pub fn group_len(rest: &[u8]) -> usize
    ensures { result ≡ group_len 0 rest.now }
{
    let mut depth = 0;
    for (i, &byte) in rest.iter().enumerate() {
        depth = depth_after(depth, byte);
        if depth == 0 {
            return i + 1;
        }
    }
    rest.len()
}

// The depth after an element of a kind, which begins with the byte `first`.
fn depth_past(kind: Kind, depth: usize, first: u8) -> usize
    requires { depth + 1 < 2 ^ 64 }
    ensures { result ≡ depth_past kind depth first }
{
    match kind {
        Kind::Special => 0,
        Kind::Wide => depth,
        Kind::Byte | Kind::Open | Kind::Close => depth_after(depth, first),
    }
}
