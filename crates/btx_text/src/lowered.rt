//! Keys and names in lower case.
ghost use Rattle.std.specs.Prelude.{◌≡◌, ◌+◌, ◌≤◌, false, length, IfOk};
ghost use Rattle.btx_text.specs.language.Keys.{folded};
ghost use Rattle.btx_text.specs.refinement.Lowered.{AreLower};

use crate::keys::fold_key;
use std::alloc::{AllocError, Global};
use std::marker::Model;
use std::simd::prelude::*;

// Where the bytes are.
#[derive(Drop)]
enum Kept<'t> {
    // In the text itself, which has no capital letter.
    Lent(&'t [u8]),
    // In a copy.
    Made(Vec<u8>),
}

/// A key or a name with its letters `A-Z` in lower case, seen as its bytes.
#[derive(Drop)]
pub struct Lowered<'t> {
    kept: Kept<'t>,
}

impl<'t> Model for Lowered<'t> {
    ghost use Rattle.std.specs.Prelude.{List, ℕ};

    ghost Value = { List ℕ };

    ghost use Rattle.btx_text.specs.refinement.Lowered.{lowered_in};

    ghost view = { λ lowered. lowered_in lowered.kept };
}

impl<'t> Lowered<'t> {
    /// A key or a name in lower case. It is copied only where it has a capital letter.
    pub fn of(alloc: Global, text: &'t [u8]) -> Result<Self, AllocError>
        ensures { IfOk result (λ lowered. lowered ≡ folded text.now) }
    {
        if !has_capital(text) {
            return Ok(Lowered {
                kept: Kept::Lent(text),
            });
        }
        let mut bytes = Vec::from_slice(alloc, text)?;
        fold_key(bytes.as_mut_slice());
        Ok(Lowered {
            kept: Kept::Made(bytes),
        })
    }

    /// The bytes.
    pub fn as_bytes(&self) -> &[u8]
        ensures { result.now ≡ self.now }
    {
        match &self.kept {
            Kept::Lent(bytes) => bytes,
            Kept::Made(bytes) => bytes.as_slice(),
        }
    }

    /// The bytes, owned.
    pub fn into_bytes(self, alloc: Global) -> Result<Vec<u8>, AllocError>
        ensures { IfOk result (λ bytes. bytes.items ≡ self.entry) }
    {
        match self.kept {
            Kept::Lent(bytes) => Vec::from_slice(alloc, bytes),
            Kept::Made(bytes) => Ok(bytes),
        }
    }
}

// Bytes are looked at in blocks of this number of them.
const BLOCK: usize = 8;

// Whether the block at a place has one of the letters `A-Z`. Other bytes come out above the 26 letters, those below `A` by wrapping round.
#[inline(always)]
fn has_capital_in_block(text: &[u8], place: usize) -> bool
    requires { place + 8 ≤ length text.now }
    ensures { result ≡ false → AreLower text.now place (place + 8) }
{
    let block = u8x8::from_slice(&text[place..]);
    let is_capital = (block - u8x8::splat(b'A')).simd_lt(u8x8::splat(26));
    is_capital.to_bitmask() != 0
}

// Whether a short text has one of the letters `A-Z`.
fn has_capital_in_few(text: &[u8]) -> bool
    ensures { result ≡ false → folded text.now ≡ text.now }
{
    for byte in text {
        if byte.is_ascii_uppercase() {
            return true;
        }
    }
    false
}

// Whether a text has one of the letters `A-Z`. The last block ends where the text does, so it may share bytes with the one before it.
fn has_capital(text: &[u8]) -> bool
    ensures { result ≡ false → folded text.now ≡ text.now }
{
    if text.len() < BLOCK {
        return has_capital_in_few(text);
    }
    let last = text.len() - BLOCK;
    let mut place = 0;
    while place < last {
        if has_capital_in_block(text, place) {
            return true;
        }
        place += BLOCK;
    }
    has_capital_in_block(text, last)
}
