//! Where the tokens and the items of a style stand in its text.
ghost use Rattle.std.specs.Prelude.{◌≡◌, ◌≤◌, IfOk, length, option_map, slice_get};
ghost use Rattle.btx_bst.specs.laws.Recorded.{Recorded};
ghost use Rattle.btx_bst.specs.laws.StylePlaces as spec;
ghost use Rattle.btx_bst.specs.language.Fronts.{len_till};
ghost use Rattle.btx_bst.specs.laws.Fronts.{is_line_feed};

use crate::bodies::Bodies;
use crate::recorder::Recorder;
use crate::span::{Span, Spot, Stretch};
use btx_text::trimming::without_trailing_white;
use std::alloc::{AllocError, Global};
use std::marker::Model;

/// Where each token of each function of a style stands, and each of its items: a command at its word, a message of a body at the word that it is about, and
/// another message at the place where it is met.
#[derive(Drop)]
pub struct StylePlaces {
    bodies: Bodies<Stretch>,
    items: Vec<Stretch>,
    ends: Vec<usize>,
}

impl Model for StylePlaces {
    ghost use Rattle.btx_bst.specs.laws.StylePlaces.{StylePlaces as Known};

    ghost Value = { Known };

    ghost use Rattle.btx_bst.specs.laws.StylePlaces.{places_in};

    ghost view = { λ places. places_in places.ends.items places.bodies places.items.items };
}

impl StylePlaces {
    ghost use Rattle.std.specs.Prelude.{◌≡◌, slice_get};
    ghost use Rattle.btx_bst.specs.laws.StylePlaces.{places_in, token_span};

    /// The places that were recorded, given where the lines of the text end.
    pub fn of(recorder: Recorder, ends: Vec<usize>) -> Self
        ensures { result ≡ places_in ends.items recorder.bodies recorder.items }
    {
        let (bodies, items) = recorder.into_parts();
        StylePlaces {
            bodies,
            items,
            ends,
        }
    }

    /// Where a token stands, by the numbers of its function and of itself in it, both from 0.
    #[tactic(auto, using(crate::proofs::StylePlaceLemmas::span_steps))]
    pub fn token(&self, function: usize, token: usize) -> Option<Span>
        ensures { result ≡ token_span self.now function token }
    {
        if function >= self.bodies.len() {
            return None;
        }
        span_at(self.ends.as_slice(), self.bodies.body(function), token)
    }

    /// Where an item stands, by its number, from 0.
    #[tactic(auto, using(crate::proofs::StylePlaceLemmas::span_steps))]
    pub fn item(&self, number: usize) -> Option<Span>
        ensures { result ≡ slice_get self.now.items number }
    {
        span_at(self.ends.as_slice(), self.items.as_slice(), number)
    }
}

// The part of a number among some, by its bytes, given where the lines end.
fn span_at(ends: &[usize], parts: &[Stretch], number: usize) -> Option<Span>
    ensures { result ≡ option_map (spec.span_of ends.now) (slice_get parts.now number) }
{
    let part = parts.get(number)?;
    Some(Span {
        line: part.from.line,
        from: byte_of(ends, part.from),
        to: byte_of(ends, part.to),
    })
}

// The byte of a spot, given where the lines end.
fn byte_of(ends: &[usize], spot: Spot) -> usize
    ensures { result ≡ spec.byte_of ends.now spot }
{
    match ends.get(spot.line.saturating_sub(1)) {
        Some(end) => end.saturating_sub(spot.left),
        None => 0,
    }
}

// How many bytes stand before the next line feed, or to the end.
#[tactic(auto, using(crate::proofs::FrontLemmas::len_steps))]
fn line_len(text: &[u8]) -> usize
    ensures value { result ≡ len_till is_line_feed text.now }
    ensures bound { result ≤ length text.now }
{
    for (i, &byte) in text.iter().enumerate() {
        if byte == b'\n' {
            return i;
        }
    }
    text.len()
}

/// For each line of a text the byte after it, before the whitespace at its end.
pub fn line_ends(alloc: Global, text: &[u8]) -> Result<Vec<usize>, AllocError>
    ensures { IfOk result (λ ends. ends.items ≡ spec.line_ends text.now) }
{
    let mut ends = Vec::new(alloc);
    let mut rest = text;
    let mut start = 0;
    while !rest.is_empty() {
        let len = line_len(rest);
        let (line, after) = rest.split_at(len);
        ends.push(start + without_trailing_white(line).len())?;
        match after {
            [] => return Ok(ends),
            [_, next @ ..] => {
                rest = next;
                start += len + 1;
            }
        }
    }
    Ok(ends)
}
