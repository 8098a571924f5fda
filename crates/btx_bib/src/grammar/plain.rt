//! What is enclosed in its plainest form, read in one pass.
ghost use Rattle.std.specs.Prelude.{◌≡◌, ◌+◌, ◌<◌, ◌≤◌, true, length, drop, Ok, IfSome};
ghost use Rattle.btx_bib.specs.refinement.Grammar.PlainFields.{enclosed_part};
ghost use Rattle.btx_bib.specs.refinement.Grammar.Squeezing.{ArePlainBytes, IsSqueezedLen, is_behind_white, lanes_before, stands, stays_squeezed};
ghost use Rattle.btx_bib.specs.language.Grammar.ByteSets as bytes;
ghost use Rattle.btx_bib.specs.language.Grammar.Values as spec;
ghost use Rattle.btx_bib.specs.declared.grammar.byte_sets.ByteSet.TheVariants as set;
ghost use Rattle.btx_bib.specs.declared.grammar.byte_sets.Enclosure.TheVariants as enclosed_by;
ghost use Rattle.btx_bib.specs.declared.grammar.value_ends.Ends.TheVariants as ends;

use crate::grammar::byte_sets::{ByteSet, Enclosure, ends_enclosed, ends_in_gap, is_gap, run_len};
use btx_text::depths::depth_after;
use std::simd::prelude::*;

// Plain bytes are those from `#` to `z`, and a space where no whitespace stands before it: they leave the depth alone, and what is read squeezed. They are
// passed in blocks of this number of bytes.
pub(super) const BLOCK: usize = 16;

// How many lanes of a block come before the first whose bit is set.
#[inline(always)]
pub(super) fn lanes_before(bits: u64) -> usize
    ensures { result ≡ lanes_before bits }
{
    if bits == 0 {
        BLOCK
    } else {
        bits.trailing_zeros() as usize
    }
}

// How many lower-case letters stand first in the block with which a text begins: bytes of a name, which goes on after them.
#[inline(always)]
fn letters_in_block(text: &[u8]) -> usize
    requires { 16 ≤ length text.now }
    ensures value { bytes.longest_run_len set.NameByte text.now ≡ result + bytes.longest_run_len set.NameByte (drop result text.now) }
    ensures bound { result ≤ 16 }
{
    let block = u8x16::from_slice(text);
    let no_letter = (block - u8x16::splat(b'a')).simd_gt(u8x16::splat(b'z' - b'a'));
    lanes_before(no_letter.to_bitmask())
}

/// How many bytes of a name a text begins with. Most are lower-case letters, of which those of a block are passed at once.
#[inline(always)]
pub fn name_len(text: &[u8]) -> usize
    ensures value { result ≡ bytes.longest_run_len set.NameByte text.now }
    ensures bound { result ≤ length text.now }
{
    if text.len() < BLOCK {
        return run_len(ByteSet::NameByte, text);
    }
    let letters = letters_in_block(text);
    letters + run_len(ByteSet::NameByte, &text[letters..])
}

// With how many plain bytes the block at a place begins. A byte below `#` wraps round to one above `z`, and whitespace is taken to be all up to the space, so
// that each takes one comparison.
#[inline(always)]
fn plain_in_block(text: &[u8], place: usize) -> usize
    requires behind { 0 < place }
    requires within { place + 16 ≤ length text.now }
    ensures plain { ArePlainBytes text.now place (place + result) }
    ensures bound { result ≤ 16 }
{
    let block = u8x16::from_slice(&text[place..]);
    let before = u8x16::from_slice(&text[place - 1..]);
    let no_word_byte = (block - u8x16::splat(b'#')).simd_gt(u8x16::splat(b'z' - b'#'));
    let no_single_space = block.simd_ne(u8x16::splat(b' ')) | before.simd_le(u8x16::splat(b' '));
    lanes_before((no_word_byte & no_single_space).to_bitmask())
}

// How many plain bytes stand at a place, as far as one block shows: where less than a block is left, none.
#[inline(always)]
fn plain_len(text: &[u8], place: usize) -> usize
    requires behind { 0 < place }
    requires within { place ≤ length text.now }
    ensures plain { ArePlainBytes text.now place (place + result) }
    ensures bound { place + result ≤ length text.now }
{
    if text.len() - place < BLOCK {
        return 0;
    }
    plain_in_block(text, place)
}

// Whether whitespace stands before a place, or nothing.
#[inline(always)]
fn is_behind_white(text: &[u8], place: usize) -> bool
    requires { place ≤ length text.now }
    ensures { result ≡ is_behind_white text.now place }
{
    place == 0 || is_gap(text[place - 1])
}

// Whether the byte at a place leaves what stands before it squeezed.
#[inline(always)]
fn stays_squeezed(text: &[u8], place: usize, byte: u8) -> bool
    requires { place ≤ length text.now }
    ensures { result ≡ stays_squeezed (is_behind_white text.now place) byte }
{
    !is_gap(byte) || (byte == b' ' && !is_behind_white(text, place))
}

// How many bytes stand before the first that ends what is enclosed, if they are squeezed and don't begin with whitespace. After each byte that is looked at
// by itself, plain ones are passed at once.
#[inline(always)]
fn squeezed_len(enclosure: Enclosure, text: &[u8]) -> Option<usize>
    ensures value { IfSome result (λ len. IsSqueezedLen enclosure text.now len) }
    ensures bound { IfSome result (λ len. len ≤ length text.now) }
{
    let mut depth = 0;
    let mut place = 0;
    while let Some(&byte) = text.get(place) {
        if ends_enclosed(enclosure, depth, byte) {
            return Some(place);
        }
        if !stays_squeezed(text, place, byte) {
            return None;
        }
        depth = depth_after(depth, byte);
        place += 1;
        place += plain_len(text, place);
    }
    None
}

// The same of a group.
#[inline(never)]
fn squeezed_in_group(text: &[u8]) -> Option<usize>
    ensures value { IfSome result (λ len. IsSqueezedLen enclosed_by.Group text.now len) }
    ensures bound { IfSome result (λ len. len ≤ length text.now) }
{
    squeezed_len(Enclosure::Group, text)
}

// The same of what is quoted.
#[inline(never)]
fn squeezed_in_quotes(text: &[u8]) -> Option<usize>
    ensures value { IfSome result (λ len. IsSqueezedLen enclosed_by.Quotes text.now len) }
    ensures bound { IfSome result (λ len. len ≤ length text.now) }
{
    squeezed_len(Enclosure::Quotes, text)
}

// The same of either: each has a loop of its own.
#[inline(always)]
fn squeezed_in(enclosure: Enclosure, text: &[u8]) -> Option<usize>
    ensures value { IfSome result (λ len. IsSqueezedLen enclosure text.now len) }
    ensures bound { IfSome result (λ len. len ≤ length text.now) }
{
    match enclosure {
        Enclosure::Group => squeezed_in_group(text),
        Enclosure::Quotes => squeezed_in_quotes(text),
    }
}

/// What is enclosed, if it stands as a field's value, and the text after what closes it.
#[inline(always)]
pub fn plain_enclosed(enclosure: Enclosure, text: &[u8]) -> Option<(&[u8], &[u8])>
    ensures value { IfSome result (λ got. spec.enclosed_in enclosure text.now ≡ Ok (enclosed_part enclosure got.0.now, got.1.now)) }
    ensures plain { IfSome result (λ got. stands ends.Trimmed got.0.now ≡ true) }
{
    let (inner, after) = text.split_at(squeezed_in(enclosure, text)?);
    if ends_in_gap(inner) {
        return None;
    }
    let (&byte, behind) = after.split_first()?;
    match enclosure {
        Enclosure::Group => Some((inner, behind)),
        Enclosure::Quotes => {
            if byte == b'"' {
                Some((inner, behind))
            } else {
                None
            }
        }
    }
}
