//! Fields that are passed over: what is read of them is where they end.
ghost use Rattle.std.specs.Prelude.{◌≡◌, ◌+◌, ◌<◌, ◌≤◌, None, true, length, IfSome};
ghost use Rattle.btx_bib.specs.language.Grammar.Values.{next_part};
ghost use Rattle.btx_bib.specs.refinement.Grammar.PassedFields.{IsField, IsLastPart, IsValuePlace, first_from, solid_bits, unlike_letter_bits};

use crate::grammar::parts::next_part;
use crate::grammar::plain::{BLOCK, lanes_before};
use crate::grammar::plain_fields::{Purpose, plain_field, plain_part};
use std::simd::prelude::*;

// Which bytes of the block after the first byte of a text are no whitespace.
#[inline(always)]
fn solid_bits(text: &[u8]) -> u64
    requires { 17 ≤ length text.now }
    ensures { result ≡ solid_bits text.now }
{
    let block = u8x16::from_slice(&text[1..]);
    let no_space = block.simd_ne(u8x16::splat(b' ')) & block.simd_ne(u8x16::splat(b'\n'));
    let no_white = no_space
        & block.simd_ne(u8x16::splat(b'\t'))
        & block.simd_ne(u8x16::splat(b'\r'));
    no_white.to_bitmask()
}

// Which bytes of this block are no lower-case letters.
#[inline(always)]
fn unlike_letter_bits(text: &[u8]) -> u64
    requires { 17 ≤ length text.now }
    ensures { result ≡ unlike_letter_bits text.now }
{
    let block = u8x16::from_slice(&text[1..]);
    let unlike_letter = (block - u8x16::splat(b'a')).simd_gt(u8x16::splat(b'z' - b'a'));
    unlike_letter.to_bitmask()
}

// The place of the first bit that is set, from a place on; one after the block, if none is.
#[inline(always)]
fn first_from(bits: u64, place: usize) -> usize
    requires { place < 64 }
    ensures value { result ≡ first_from bits place }
    ensures bound { result ≤ place + 64 }
{
    place + lanes_before(bits >> place)
}

// The place of a field's value, if the comma before the field stands here, and after it, within a block, a name of lower-case letters, `=` and the first byte
// of the value.
#[inline(always)]
fn value_place(text: &[u8]) -> Option<usize>
    ensures value { IfSome result (λ place. IsValuePlace text.now place) }
    ensures bound { IfSome result (λ place. place ≤ length text.now) }
{
    if text.len() <= BLOCK || text[0] != b',' {
        return None;
    }
    let solid = solid_bits(text);
    let name = first_from(solid, 0);
    if name >= BLOCK {
        return None;
    }
    let behind = first_from(unlike_letter_bits(text), name);
    if behind == name || behind >= BLOCK {
        return None;
    }
    let sign = first_from(solid, behind);
    if sign >= BLOCK || text[1 + sign] != b'=' {
        return None;
    }
    let value = first_from(solid, sign + 1);
    if value >= BLOCK {
        return None;
    }
    Some(1 + value)
}

// Whether a comma stands here: no part of a value follows then.
#[inline(always)]
fn begins_with_comma(text: &[u8]) -> bool
    ensures { result ≡ true → next_part text.now ≡ None }
{
    !text.is_empty() && text[0] == b','
}

// The text after the part of a value that stands here, if no other part follows.
#[inline(always)]
fn behind_last_part(text: &[u8]) -> Option<&[u8]>
    ensures { IfSome result (λ rest. IsLastPart text.now rest.now) }
{
    let value = plain_part(Purpose::Passing, text)?;
    if begins_with_comma(value.rest) {
        return Some(value.rest);
    }
    match next_part(value.rest) {
        Some(_) => None,
        None => Some(value.rest),
    }
}

// The text after the field that stands here with the comma before it, if its value has one part.
#[inline(never)]
fn behind_any_field(text: &[u8]) -> Option<&[u8]>
    ensures { IfSome result (λ rest. IsField text.now rest.now) }
{
    match plain_field(Purpose::Passing, text) {
        Some(field) => Some(field.value.rest),
        None => None,
    }
}

/// The text after the field that stands here with the comma before it, if its value has one part. Most begin within one block.
#[inline(always)]
pub fn behind_field(text: &[u8]) -> Option<&[u8]>
    ensures { IfSome result (λ rest. IsField text.now rest.now) }
{
    let Some(place) = value_place(text) else {
        return behind_any_field(text);
    };
    behind_last_part(&text[place..])
}
