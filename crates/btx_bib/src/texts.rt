//! The values that an entry has.
ghost use Rattle.std.specs.Prelude.{◌≡◌, ◌≤◌, IfOk, IfSome, OnErr, length, option_copied};
ghost use Rattle.btx_text.specs.language.Limits.{greatest_string};
ghost use Rattle.btx_bib.specs.refinement.Values.{IsAdded, IsWithin, text_at};

use crate::places::Place;
use btx_text::Text;
use std::alloc::{AllocError, Global};
use std::marker::Model;

/// A string of at most 1,000,000 bytes that stands in a file: lent, not copied.
#[derive(Drop)]
pub struct Piece<'a> {
    bytes: &'a [u8],
}

impl<'a> Model for Piece<'a> {
    ghost use Rattle.std.specs.Prelude.{◌≤◌, ℕ, List, length};
    ghost use Rattle.btx_text.specs.language.Limits.{greatest_string};

    ghost Value = { List ℕ };

    ghost view = { λ piece. piece.bytes.now };

    ghost invariant = { λ piece. length piece.bytes.now ≤ greatest_string };
}

impl<'a> Piece<'a> {
    /// A string, if it stands in a file.
    #[inline(always)]
    fn of(text: &Text<'a>) -> Option<Piece<'a>>
        ensures { IfSome result (λ piece. piece ≡ text.now) }
    {
        let bytes = text.lent()?;
        Some(Piece { bytes })
    }

    /// The bytes.
    #[inline(always)]
    fn as_bytes(&self) -> &'a [u8]
        ensures value { result.now ≡ self.now }
        ensures within { length self.now ≤ greatest_string }
    {
        self.bytes
    }

    /// The string.
    #[inline(always)]
    fn to_text(&self) -> Text<'a>
        ensures { result ≡ self.now }
    {
        Text::borrowed(self.bytes)
    }
}

/// Values, each of which has a place: those that stand in a file are lent, in half the room of one that was made.
#[derive(Drop)]
pub struct Texts<'a> {
    pub lent: Vec<Piece<'a>>,
    pub made: Vec<Text<'a>>,
}

impl<'a> Texts<'a> {
    /// The value at a place.
    #[inline(always)]
    pub fn at(&self, place: Place) -> Option<&[u8]>
        requires { IsWithin (length self.now.lent.items) (length self.now.made.items) place }
        ensures value { option_copied result ≡ text_at self.now.lent.items self.now.made.items place }
        ensures within { IfSome result (λ text. length text.now ≤ greatest_string) }
    {
        match place {
            Place::Missing => None,
            Place::Lent(number) => Some(self.lent[number as usize].as_bytes()),
            Place::Made(number) => Some(self.made[number as usize].as_bytes()),
        }
    }

    /// The value at a place once more.
    #[inline(always)]
    pub fn copied(&self, alloc: Global, place: Place) -> Result<Option<Text<'a>>, AllocError>
        requires { IsWithin (length self.now.lent.items) (length self.now.made.items) place }
        ensures { IfOk result (λ copy. copy ≡ text_at self.now.lent.items self.now.made.items place) }
    {
        match place {
            Place::Missing => Ok(None),
            Place::Lent(number) => Ok(Some(self.lent[number as usize].to_text())),
            Place::Made(number) => Ok(Some(self.made[number as usize].copy(alloc)?)),
        }
    }

    /// Adds a value, and answers its place. More values than a place can number are want of memory.
    #[inline(always)]
    #[tactic(auto, using(crate::proofs::TextLemmas::added_steps))]
    pub fn add(&mut self, text: Text<'a>) -> Result<Place, AllocError>
        ensures added { IfOk result (λ place. IsAdded self.old.lent.items self.old.made.items self.new.lent.items self.new.made.items text.entry place) }
        ensures same_lent { OnErr result (self.new.lent.items ≡ self.old.lent.items) }
        ensures same_made { OnErr result (self.new.made.items ≡ self.old.made.items) }
    {
        match Piece::of(&text) {
            Some(piece) => {
                let place = Place::Lent(number_of(self.lent.len())?);
                self.lent.push(piece)?;
                Ok(place)
            }
            None => {
                let place = Place::Made(number_of(self.made.len())?);
                self.made.push(text)?;
                Ok(place)
            }
        }
    }
}

// The number of the value after the first `count`; want of memory where it doesn't fit 32 bits.
#[inline(always)]
fn number_of(count: usize) -> Result<u32, AllocError>
    ensures { IfOk result (λ number. number ≡ count) }
{
    match u32::try_from(count) {
        Ok(number) => Ok(number),
        Err(_) => Err(AllocError),
    }
}
