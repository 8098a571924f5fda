//! The groups of a name's format.
ghost use Rattle.std.specs.Prelude.{◌≡◌, drop, if◌then◌else◌};
ghost use Rattle.std.specs.Option.{option_copied};
ghost use Rattle.btx_names.specs.language.Formats as spec;
ghost use Rattle.btx_names.specs.refinement.ItemViews.{item_view};

use crate::format_items::{Item, PartName, Piece};
use crate::runs::{Stop, run_len};

/// The item that a group is, of what stands in its braces.
#[tactic(auto, unfolding(crate::specs::language::Formats::inside_item))]
pub fn inside_item(inside: &[u8]) -> Item<'_>
    ensures { item_view result ≡ spec.inside_item inside.now }
{
    let (before, rest) = inside.split_at(run_len(inside, Stop::Letter));
    let Some((&letter, rest)) = rest.split_first() else {
        return Item::Plain(before);
    };
    match part_named(letter) {
        Some(part) => piece_item(before, letter, rest, part),
        None => Item::Illegal,
    }
}

// The part that a letter names.
#[tactic(auto, unfolding(crate::specs::language::Formats::part_named))]
fn part_named(letter: u8) -> Option<PartName>
    ensures { result ≡ spec.part_named letter }
{
    match letter {
        b'f' | b'F' => Some(PartName::First),
        b'v' | b'V' => Some(PartName::Von),
        b'l' | b'L' => Some(PartName::Last),
        b'j' | b'J' => Some(PartName::Jr),
        _ => None,
    }
}

// A piece with a part, of what follows its letter.
#[tactic(auto, unfolding(crate::specs::language::Formats::piece_item))]
fn piece_item<'a>(before: &'a [u8], letter: u8, rest: &'a [u8], part: PartName) -> Item<'a>
    ensures { item_view result ≡ spec.piece_item before.now letter rest.now part }
{
    let is_full = is_doubled(letter, rest);
    let behind = behind_letters(is_full, rest);
    let between = between_of(behind);
    let after = after_of(behind);
    if run_len(after, Stop::Letter) != after.len() {
        return Item::Illegal;
    }
    Item::Name(Piece {
        before,
        part,
        is_full,
        between,
        after,
    })
}

// Whether a letter stands again at the beginning of what follows it.
fn is_doubled(letter: u8, rest: &[u8]) -> bool
    ensures { result ≡ spec.is_doubled letter rest.now }
{
    match rest {
        [second, ..] => second.eq_ignore_ascii_case(&letter),
        [] => false,
    }
}

// What follows one or two letters.
fn behind_letters(is_full: bool, rest: &[u8]) -> &[u8]
    ensures { result.now ≡ (if is_full then drop 1 rest.now else rest.now) }
{
    match rest {
        [_, behind @ ..] if is_full => behind,
        _ => rest,
    }
}

// The braced string that a text begins with, without its braces.
fn between_of(text: &[u8]) -> Option<&[u8]>
    ensures { option_copied result ≡ spec.between_of text.now }
{
    match text {
        [b'{', inside @ ..] => Some(&inside[..run_len(inside, Stop::Closing)]),
        _ => None,
    }
}

// What follows that string.
fn after_of(text: &[u8]) -> &[u8]
    ensures { result.now ≡ spec.behind_between text.now }
{
    match text {
        [b'{', inside @ ..] => match &inside[run_len(inside, Stop::Closing)..] {
            [_, after @ ..] => after,
            [] => &[],
        },
        _ => text,
    }
}
