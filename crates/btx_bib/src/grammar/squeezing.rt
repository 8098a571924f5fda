//! How much of a text squeezing leaves as it is.
ghost use Rattle.std.specs.Prelude.{◌≡◌, ◌+◌, ◌<◌, ◌≤◌, true, false, length, slice_index, take};
ghost use Rattle.btx_bib.specs.refinement.Grammar.Squeezing.{AreKeptBytes, is_squeezed, stays_squeezed, white_after};

use crate::grammar::byte_sets::is_gap;
use crate::grammar::plain::{BLOCK, lanes_before};
use std::simd::prelude::*;

/// Whether the last byte of a text is whitespace. `was_white` says whether the byte before the text is.
#[inline(always)]
pub fn white_behind(was_white: bool, text: &[u8]) -> bool
    ensures { result ≡ white_after was_white text.now }
{
    match text.split_last() {
        Some((&last, _)) => is_gap(last),
        None => was_white,
    }
}

// How many bytes of the block at a place squeezing leaves as they are. Whitespace is taken to be all up to the space, so that it takes one comparison.
#[inline(always)]
fn kept_in_block(text: &[u8], place: usize) -> usize
    requires behind { 0 < place }
    requires within { place + 16 ≤ length text.now }
    ensures kept { AreKeptBytes text.now place (place + result) }
    ensures bound { result ≤ 16 }
{
    let block = u8x16::from_slice(&text[place..]);
    let before = u8x16::from_slice(&text[place - 1..]);
    let space = u8x16::splat(b' ');
    let no_single_space = block.simd_ne(space) | before.simd_le(space);
    lanes_before((block.simd_le(space) & no_single_space).to_bitmask())
}

// How many bytes at a place squeezing leaves as they are, as far as one block shows: where less than a block is left, none.
#[inline(always)]
fn kept_at(text: &[u8], place: usize) -> usize
    requires behind { 0 < place }
    requires within { place ≤ length text.now }
    ensures kept { AreKeptBytes text.now place (place + result) }
    ensures bound { place + result ≤ length text.now }
{
    if text.len() - place < BLOCK {
        return 0;
    }
    kept_in_block(text, place)
}

// Whether squeezing leaves the byte at a place as it is, if it leaves those before it so.
#[inline(always)]
fn stays(was_white: bool, text: &[u8], place: usize, byte: u8) -> bool
    requires { place ≤ length text.now }
    ensures { result ≡ stays_squeezed (white_after was_white (take place text.now)) byte }
{
    !is_gap(byte) || (byte == b' ' && !white_behind(was_white, &text[..place]))
}

/// How many bytes a text begins with that squeezing leaves as they are. `was_white` says whether the byte before the text is whitespace. After each byte that is
/// looked at by itself, those of a block are passed at once.
pub fn kept_len(was_white: bool, text: &[u8]) -> usize
    ensures kept { is_squeezed was_white (take result text.now) ≡ true }
    ensures bound { result ≤ length text.now }
    ensures ended { result < length text.now → stays_squeezed (white_after was_white (take result text.now)) (slice_index text.now result) ≡ false }
{
    let mut place = 0;
    while let Some(&byte) = text.get(place) {
        if !stays(was_white, text, place, byte) {
            return place;
        }
        place += 1;
        place += kept_at(text, place);
    }
    place
}
