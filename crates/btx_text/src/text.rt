//! A string of at most 1,000,000 bytes.
ghost use Rattle.std.specs.Prelude.{◌≡◌, ◌≤◌, ◌+◌, ◌++◌, [], length, take, IfOk, IfSome};
ghost use Rattle.std.specs.Rc.{rc_slice_items};
ghost use Rattle.btx_text.specs.language.Limits.{greatest_string};

use std::alloc::{AllocError, Global};
use std::marker::Model;
use std::rc::RcSlice;

// The length in bytes that most strings put together from others don't exceed.
const MOSTLY_JOINED: usize = 128;

// Where the bytes are.
#[derive(Drop)]
enum Kept<'a> {
    // In a file.
    Borrowed(&'a [u8]),
    // Here alone.
    Owned(Vec<u8>),
    // In several places.
    Shared(RcSlice<u8>),
}

/// A string of at most 1,000,000 bytes, seen as its bytes.
#[derive(Drop)]
pub struct Text<'a> {
    kept: Kept<'a>,
}

impl<'a> Model for Text<'a> {
    ghost use Rattle.std.specs.Prelude.{◌≤◌, ℕ, List, length};

    ghost Value = { List ℕ };

    ghost use Rattle.btx_text.specs.refinement.Texts.{bytes_of};
    ghost use Rattle.btx_text.specs.language.Limits.{greatest_string};

    ghost view = { λ text. bytes_of text.kept };

    ghost invariant = { λ text. length (bytes_of text.kept) ≤ greatest_string };
}

impl<'a> Text<'a> {
    /// No bytes.
    pub fn empty() -> Self
        ensures { result ≡ [] }
    {
        Text::borrowed(&[])
    }

    /// Bytes of a file, which are not copied.
    pub fn borrowed(bytes: &'a [u8]) -> Self
        requires { length bytes.now ≤ greatest_string }
        ensures { result ≡ bytes.now }
    {
        Text {
            kept: Kept::Borrowed(bytes),
        }
    }

    /// Bytes that were computed.
    pub fn owned(bytes: Vec<u8>) -> Self
        requires { length bytes.items ≤ greatest_string }
        ensures { result ≡ bytes.items }
    {
        Text {
            kept: Kept::Owned(bytes),
        }
    }

    /// Bytes that stand in several places.
    pub fn of_shared(bytes: RcSlice<u8>) -> Self
        requires { length (rc_slice_items bytes) ≤ greatest_string }
        ensures { result ≡ rc_slice_items bytes }
    {
        Text {
            kept: Kept::Shared(bytes),
        }
    }

    /// The bytes.
    pub fn as_bytes(&self) -> &[u8]
        ensures value { result.now ≡ self.now }
        ensures within { length self.now ≤ greatest_string }
    {
        match &self.kept {
            Kept::Borrowed(bytes) => bytes,
            Kept::Owned(bytes) => bytes.as_slice(),
            Kept::Shared(bytes) => bytes.as_slice(),
        }
    }

    /// The bytes, if they stand in a file.
    pub fn lent(&self) -> Option<&'a [u8]>
        ensures value { IfSome result (λ bytes. bytes.now ≡ self.now) }
        ensures within { length self.now ≤ greatest_string }
    {
        match &self.kept {
            Kept::Borrowed(bytes) => Some(bytes),
            Kept::Owned(_) | Kept::Shared(_) => None,
        }
    }

    /// The number of bytes.
    pub fn len(&self) -> usize
        ensures length { result ≡ length self.now }
        ensures within { length self.now ≤ greatest_string }
    {
        self.as_bytes().len()
    }

    /// The same string, of which copies take no more memory.
    pub fn share(self) -> Result<Text<'a>, AllocError>
        ensures { IfOk result (λ text. text ≡ self.entry) }
    {
        match self.kept {
            Kept::Owned(bytes) => Ok(Text {
                kept: Kept::Shared(RcSlice::from_vec(bytes)?),
            }),
            kept => Ok(Text { kept }),
        }
    }

    /// The bytes, of which copies take no more memory. Only those of a file are copied.
    pub fn into_shared(self, alloc: Global) -> Result<RcSlice<u8>, AllocError>
        ensures { IfOk result (λ shared. rc_slice_items shared ≡ self.entry) }
    {
        match self.kept {
            Kept::Borrowed(bytes) => RcSlice::from_slice(alloc, bytes),
            Kept::Owned(bytes) => RcSlice::from_vec(bytes),
            Kept::Shared(bytes) => Ok(bytes),
        }
    }

    /// The same string once more. Only of one that was computed and isn't shared the bytes are copied.
    pub fn copy(&self, alloc: Global) -> Result<Text<'a>, AllocError>
        ensures { IfOk result (λ text. text ≡ self.now) }
    {
        let kept = match &self.kept {
            Kept::Borrowed(bytes) => Kept::Borrowed(bytes),
            Kept::Owned(bytes) => Kept::Owned(Vec::from_slice(alloc, bytes.as_slice())?),
            Kept::Shared(bytes) => Kept::Shared(bytes.clone()?),
        };
        Ok(Text { kept })
    }

    /// This string with more bytes after it. They are put after those of a string that was computed and isn't shared.
    pub fn followed_by(self, alloc: Global, more: &[u8]) -> Result<Text<'a>, AllocError>
        requires { length self + length more.now ≤ greatest_string }
        ensures { IfOk result (λ text. text ≡ self.entry ++ more.now) }
    {
        let mut bytes = match self.kept {
            Kept::Owned(bytes) => bytes,
            Kept::Borrowed(first) => copy_with_room(alloc, first, more.len())?,
            Kept::Shared(first) => copy_with_room(alloc, first.as_slice(), more.len())?,
        };
        bytes.extend_from_slice(more)?;
        Ok(Text::owned(bytes))
    }

    /// The first bytes of this string.
    pub fn prefix(self, alloc: Global, count: usize) -> Result<Text<'a>, AllocError>
        requires { count ≤ length self }
        ensures { IfOk result (λ text. text ≡ take count self.entry) }
    {
        match self.kept {
            Kept::Borrowed(bytes) => Ok(Text::borrowed(&bytes[..count])),
            Kept::Owned(mut bytes) => {
                bytes.truncate(count);
                Ok(Text::owned(bytes))
            }
            Kept::Shared(bytes) => Ok(Text::owned(Vec::from_slice(
                alloc,
                &bytes.as_slice()[..count],
            )?)),
        }
    }
}

// A copy of the bytes, with room for this number of bytes after them.
fn copy_with_room(alloc: Global, bytes: &[u8], room: usize) -> Result<Vec<u8>, AllocError>
    requires { length bytes.now + room ≤ greatest_string }
    ensures { IfOk result (λ copy. copy.items ≡ bytes.now) }
{
    let mut copy = Vec::with_capacity(alloc, (bytes.len() + room).max(MOSTLY_JOINED))?;
    copy.extend_from_slice(bytes)?;
    Ok(copy)
}
