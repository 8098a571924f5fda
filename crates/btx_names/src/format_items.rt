//! The items of a name's format, one at a time.
ghost use Rattle.std.specs.Prelude.{◌≡◌, not};
ghost use Rattle.btx_names.specs.language.Formats as spec;

use crate::format_pieces::inside_item;
use crate::runs::{Stop, run_len};
use std::marker::Model;

/// A part of a name, as a format names it.
#[derive(Clone, Copy, PartialEq, Eq)]
pub enum PartName {
    /// First, by the letter `f`.
    First,
    /// von, by the letter `v`.
    Von,
    /// Last, by the letter `l`.
    Last,
    /// Jr, by the letter `j`.
    Jr,
}

/// A piece of a format that names a part.
#[derive(Clone, Copy)]
pub struct Piece<'a> {
    /// What stands before the tokens.
    pub before: &'a [u8],
    /// The part.
    pub part: PartName,
    /// Whether its tokens stand in full: the letter stands twice.
    pub is_full: bool,
    /// What stands between two tokens, if the format says so.
    pub between: Option<&'a [u8]>,
    /// What stands after the tokens.
    pub after: &'a [u8],
}

/// What a format is made of.
#[derive(Clone, Copy)]
pub enum Item<'a> {
    /// Bytes outside braces, which are copied.
    Literal(&'a [u8]),
    /// A group in braces without a letter.
    Plain(&'a [u8]),
    /// A group in braces with the letter of a part.
    Name(Piece<'a>),
    /// Anything else: a stray or unclosed brace, or a letter out of place.
    Illegal,
}

/// The items of a format, first to last. It takes no memory.
#[derive(Drop)]
pub struct Items<'a> {
    rest: &'a [u8],
}

impl<'a> Model for Items<'a> {
    ghost use Rattle.std.specs.Prelude.{List};
    ghost use Rattle.btx_names.specs.language.Formats.{FormatItem as SpecItem, items_of};

    ghost Value = { List SpecItem };

    ghost view = { λ items. items_of items.rest.now };
}

impl<'a> Items<'a> {
    /// The items of a format.
    pub fn of(format: &'a [u8]) -> Items<'a>
        ensures { result ≡ spec.items_of format.now }
    {
        Items { rest: format }
    }
}

impl<'a> Iterator for Items<'a> {
    ghost use Rattle.std.specs.Iterator.{YieldsFirstBy, item_count};
    ghost use Rattle.btx_names.specs.refinement.ItemViews.{item_view};

    type Item = Item<'a>;

    ghost next_gives = { YieldsFirstBy item_view (λ items. items) };

    ghost remaining = { item_count (λ items. items) };

    #[tactic(auto, using(crate::proofs::FormatLemmas::item_steps))]
    fn next(&mut self) -> Option<Item<'a>> {
        let (&first, others) = self.rest.split_first()?;
        if first == b'}' {
            self.rest = others;
            return Some(Item::Illegal);
        }
        if first != b'{' {
            let (literal, after) = self.rest.split_at(run_len(self.rest, Stop::Brace));
            self.rest = after;
            return Some(Item::Literal(literal));
        }
        let (inside, after) = others.split_at(run_len(others, Stop::Closing));
        if after.is_empty() {
            self.rest = after;
            return Some(Item::Illegal);
        }
        self.rest = &after[1..];
        Some(inside_item(inside))
    }
}

/// Whether a format is legal.
pub fn is_legal(format: &[u8]) -> bool
    ensures { result ≡ spec.is_legal format.now }
{
    for item in Items::of(format) {
        if matches!(item, Item::Illegal) {
            return false;
        }
    }
    true
}
