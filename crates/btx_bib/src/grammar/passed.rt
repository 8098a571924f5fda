//! What is enclosed, passed over whatever it is.
ghost use Rattle.std.specs.Prelude.{◌≡◌, ◌+◌, ◌≤◌, length, Ok, IfSome};
ghost use Rattle.btx_bib.specs.language.Grammar.ByteSets as lengths;
ghost use Rattle.btx_bib.specs.language.Grammar.Values as spec;
ghost use Rattle.btx_bib.specs.declared.grammar.byte_sets.Enclosure.TheVariants as enclosed_by;
ghost use Rattle.btx_bib.specs.refinement.Grammar.PlainFields.{enclosed_part};
ghost use Rattle.btx_bib.specs.refinement.Grammar.ByteSets.{AreUnmarked};

use crate::grammar::byte_sets::{Enclosure, ends_enclosed};
use crate::grammar::plain::{BLOCK, lanes_before};
use btx_text::depths::depth_after;
use std::simd::prelude::*;

// How many bytes of the block at a place come before the first brace, in quotes also before the first `"`.
#[inline(always)]
fn unmarked_in_block(enclosure: Enclosure, text: &[u8], place: usize) -> usize
    requires { place + 16 ≤ length text.now }
    ensures unmarked { AreUnmarked enclosure text.now place (place + result) }
    ensures bound { result ≤ 16 }
{
    let block = u8x16::from_slice(&text[place..]);
    let braces = block.simd_eq(u8x16::splat(b'{')) | block.simd_eq(u8x16::splat(b'}'));
    match enclosure {
        Enclosure::Group => lanes_before(braces.to_bitmask()),
        Enclosure::Quotes => {
            lanes_before((braces | block.simd_eq(u8x16::splat(b'"'))).to_bitmask())
        }
    }
}

// How many bytes before a brace, in quotes also before a `"`, stand at a place, as far as one block shows: where less than a block is left, none.
#[inline(always)]
fn unmarked_len(enclosure: Enclosure, text: &[u8], place: usize) -> usize
    requires { place ≤ length text.now }
    ensures unmarked { AreUnmarked enclosure text.now place (place + result) }
    ensures bound { place + result ≤ length text.now }
{
    if text.len() - place < BLOCK {
        return 0;
    }
    unmarked_in_block(enclosure, text, place)
}

// How many bytes stand before the first that ends what is enclosed, if there is one.
#[inline(always)]
fn passed_len(enclosure: Enclosure, text: &[u8]) -> Option<usize>
    ensures value { IfSome result (λ len. len ≡ lengths.enclosed_len enclosure 0 text.now) }
    ensures bound { IfSome result (λ len. len ≤ length text.now) }
{
    let mut depth = 0;
    let mut place = unmarked_len(enclosure, text, 0);
    while let Some(&byte) = text.get(place) {
        if ends_enclosed(enclosure, depth, byte) {
            return Some(place);
        }
        depth = depth_after(depth, byte);
        place += 1;
        place += unmarked_len(enclosure, text, place);
    }
    None
}

// The same of a group.
#[inline(never)]
fn passed_in_group(text: &[u8]) -> Option<usize>
    ensures value { IfSome result (λ len. len ≡ lengths.enclosed_len enclosed_by.Group 0 text.now) }
    ensures bound { IfSome result (λ len. len ≤ length text.now) }
{
    passed_len(Enclosure::Group, text)
}

// The same of what is quoted.
#[inline(never)]
fn passed_in_quotes(text: &[u8]) -> Option<usize>
    ensures value { IfSome result (λ len. len ≡ lengths.enclosed_len enclosed_by.Quotes 0 text.now) }
    ensures bound { IfSome result (λ len. len ≤ length text.now) }
{
    passed_len(Enclosure::Quotes, text)
}

// The same of either: each has a loop of its own.
#[inline(always)]
fn passed_in(enclosure: Enclosure, text: &[u8]) -> Option<usize>
    ensures value { IfSome result (λ len. len ≡ lengths.enclosed_len enclosure 0 text.now) }
    ensures bound { IfSome result (λ len. len ≤ length text.now) }
{
    match enclosure {
        Enclosure::Group => passed_in_group(text),
        Enclosure::Quotes => passed_in_quotes(text),
    }
}

/// What is enclosed, and the text after what closes it.
#[inline(always)]
pub fn passed_enclosed(enclosure: Enclosure, text: &[u8]) -> Option<(&[u8], &[u8])>
    ensures { IfSome result (λ got. spec.enclosed_in enclosure text.now ≡ Ok (enclosed_part enclosure got.0.now, got.1.now)) }
{
    let (inner, after) = text.split_at(passed_in(enclosure, text)?);
    let (&byte, behind) = after.split_first()?;
    match enclosure {
        Enclosure::Group => Some((inner, behind)),
        Enclosure::Quotes => {
            if byte == b'"' {
                Some((inner, behind))
            } else {
                None
            }
        }
    }
}
