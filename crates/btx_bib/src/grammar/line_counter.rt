//! The lines of places.
ghost use Rattle.std.specs.Prelude.{◌≡◌, ◌≤◌, ◌+◌, ◌-◌, drop, length, take};
ghost use Rattle.btx_bib.specs.language.Grammar.PlaceLines as spec;
ghost use Rattle.btx_bib.specs.refinement.Grammar.PlaceLines as refined;

use std::marker::Model;
use std::simd::prelude::*;

// Line feeds are counted in blocks of this number of bytes.
const BLOCK: usize = 32;

/// A text and how far its lines have been counted. Where the places that are asked for ascend, no call goes back by more than a block.
#[derive(Drop)]
pub struct LineCounter<'a> {
    text: &'a [u8],
    counted: usize,
    feeds: usize,
}

impl<'a> Model for LineCounter<'a> {
    ghost use Rattle.std.specs.Prelude.{◌≡◌, ◌≤◌, List, ℕ, length, take};
    ghost use Rattle.btx_bib.specs.refinement.Grammar.PlaceLines.{feeds_in};

    ghost Value = { List ℕ };

    ghost view = { λ counter. counter.text.now };

    ghost invariant = { λ counter. (counter.counted ≤ length counter.text.now) × (counter.feeds ≡ feeds_in (take counter.counted counter.text.now)) };
}

// How many line feeds the block has that begins at a place.
#[inline(always)]
fn feeds_in_block(text: &[u8], place: usize) -> usize
    requires within { place + 32 ≤ length text.now }
    ensures { result ≡ refined.feeds_in (take 32 (drop place text.now)) }
{
    let block = u8x32::from_slice(&text[place..]);
    block.simd_eq(u8x32::splat(b'\n')).to_bitmask().count_ones() as usize
}

// How many line feeds a short text has.
#[tactic(auto, using(crate::proofs::GrammarLemmas::PlaceLemmas::feed_counts))]
fn feeds_one_by_one(text: &[u8]) -> usize
    ensures value { result ≡ refined.feeds_in text.now }
    ensures bound { result ≤ length text.now }
{
    text.iter().filter(|byte| **byte == b'\n').count()
}

// How many line feeds stand from `start` up to `end`, by the block that ends there: the bytes of it before `start` don't count.
#[inline(always)]
fn feeds_at_end(text: &[u8], start: usize, end: usize) -> usize
    requires block { 32 ≤ end }
    requires within { end ≤ length text.now }
    requires order { start ≤ end }
    requires reach { end ≤ start + 32 }
    ensures { result ≡ refined.feeds_in (take (end - start) (drop start text.now)) }
{
    let place = end - BLOCK;
    let block = u8x32::from_slice(&text[place..]);
    let feeds = block.simd_eq(u8x32::splat(b'\n')).to_bitmask();
    (feeds >> (start - place)).count_ones() as usize
}

// How many line feeds stand from `start` up to `end`, which is at most a block away: byte by byte only where no block ends there.
#[inline(always)]
fn feeds_in_rest(text: &[u8], start: usize, end: usize) -> usize
    requires within { end ≤ length text.now }
    requires order { start ≤ end }
    requires reach { end ≤ start + 32 }
    ensures { result ≡ refined.feeds_in (take (end - start) (drop start text.now)) }
{
    if end < BLOCK {
        return feeds_one_by_one(&text[start..end]);
    }
    feeds_at_end(text, start, end)
}

// How many line feeds a text has before `place`, where `start_feeds` stand before `start`: block by block, and then what is left.
fn feeds_from(text: &[u8], start: usize, start_feeds: usize, place: usize) -> usize
    requires order { start ≤ place }
    requires within { place ≤ length text.now }
    requires feeds { start_feeds ≡ refined.feeds_in (take start text.now) }
    ensures value { result ≡ refined.feeds_in (take place text.now) }
    ensures bound { result ≤ place }
{
    let mut feeds = start_feeds;
    let mut counted = start;
    while place - counted > BLOCK {
        feeds += feeds_in_block(text, counted);
        counted += BLOCK;
    }
    feeds + feeds_in_rest(text, counted, place)
}

// How many line feeds a text has before `place`, where `counted_feeds` stand before `counted`.
fn feeds_before(text: &[u8], counted: usize, counted_feeds: usize, place: usize) -> usize
    requires within { place ≤ length text.now }
    requires feeds { counted_feeds ≡ refined.feeds_in (take counted text.now) }
    ensures value { result ≡ refined.feeds_in (take place text.now) }
    ensures bound { result ≤ place }
{
    if place < counted {
        return feeds_from(text, 0, 0, place);
    }
    feeds_from(text, counted, counted_feeds, place)
}

impl<'a> LineCounter<'a> {
    /// The counter of a text.
    pub fn of(text: &'a [u8]) -> Self
        ensures { result ≡ text.now }
    {
        LineCounter {
            text,
            counted: 0,
            feeds: 0,
        }
    }

    // How many lines have begun when `count` bytes have been read.
    #[tactic(auto, using(crate::proofs::GrammarLemmas::PlaceLemmas::line_steps))]
    fn lines_begun(&mut self, count: usize) -> usize
        ensures line { result ≡ spec.lines_begun count self.old }
        ensures same { self.new ≡ self.old }
    {
        let Some(place) = count.min(self.text.len()).checked_sub(1) else {
            return 0;
        };
        self.feeds = feeds_before(self.text, self.counted, self.feeds, place);
        self.counted = place;
        self.feeds + 1
    }

    /// Answers how many bytes of the text are before this rest of it.
    pub fn bytes_before(&self, rest: &[u8]) -> usize
        ensures { result ≡ length self.now - length rest.now }
    {
        self.text.len().saturating_sub(rest.len())
    }

    /// The line of the byte with which this rest of the text begins.
    pub fn line_at(&mut self, rest: &[u8]) -> usize
        ensures line { result ≡ refined.line_at self.old rest.now }
        ensures same { self.new ≡ self.old }
    {
        self.lines_begun(self.text.len().saturating_sub(rest.len()) + 1)
    }

    /// The line of the last byte before this rest of the text.
    pub fn line_before(&mut self, rest: &[u8]) -> usize
        ensures line { result ≡ refined.line_before self.old rest.now }
        ensures same { self.new ≡ self.old }
    {
        self.lines_begun(self.text.len().saturating_sub(rest.len()))
    }
}
