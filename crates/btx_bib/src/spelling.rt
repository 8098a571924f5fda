//! Keys and names, as files and values spell them.
ghost use Rattle.std.specs.Prelude.{◌≡◌, ◌≤◌, IfOk, length};
ghost use Rattle.btx_text.specs.language.Limits.{greatest_string};

use btx_text::Text;
use std::alloc::{AllocError, Global};
use std::marker::Model;
use std::rc::RcSlice;

/// A piece of a file's bytes, of any length: borrowed, not copied.
#[derive(Drop)]
pub struct Word<'a> {
    bytes: &'a [u8],
}

impl<'a> Model for Word<'a> {
    ghost use Rattle.std.specs.Prelude.{List, ℕ};

    ghost Value = { List ℕ };

    ghost view = { λ word. word.bytes.now };
}

impl<'a> Word<'a> {
    /// The piece of these bytes.
    pub fn new(bytes: &'a [u8]) -> Self
        ensures { result ≡ bytes.now }
    {
        Word { bytes }
    }

    /// The bytes.
    pub fn as_bytes(&self) -> &'a [u8]
        ensures { result.now ≡ self.now }
    {
        self.bytes
    }

    /// The same piece once more.
    pub fn copy(&self) -> Word<'a>
        ensures { result ≡ self.now }
    {
        Word { bytes: self.bytes }
    }
}

// Where a key or a name is spelled.
#[derive(Drop)]
enum Source<'a> {
    // In a file.
    File(&'a [u8]),
    // In the value of a field that doesn't stand in a file. Such keys are rare, so what they share takes the room of a pointer.
    Value(RcSlice<u8>),
}

/// A key or a name as a file or a value spells it.
#[derive(Drop)]
pub struct Spelling<'a> {
    source: Source<'a>,
}

impl<'a> Model for Spelling<'a> {
    ghost use Rattle.std.specs.Prelude.{List, ℕ};

    ghost Value = { List ℕ };

    ghost use Rattle.btx_bib.specs.refinement.Spellings.{spelled_in};

    ghost view = { λ spelling. spelled_in spelling.source };
}

impl<'a> Spelling<'a> {
    /// The spelling of a file.
    pub fn of_file(bytes: &'a [u8]) -> Self
        ensures { result ≡ bytes.now }
    {
        Spelling {
            source: Source::File(bytes),
        }
    }

    /// The spelling of a value.
    pub fn of_value(text: Text<'a>, alloc: Global) -> Result<Self, AllocError>
        ensures { IfOk result (λ spelling. spelling ≡ text.entry) }
    {
        let source = match text.lent() {
            Some(bytes) => Source::File(bytes),
            None => Source::Value(text.into_shared(alloc)?),
        };
        Ok(Spelling { source })
    }

    /// The bytes.
    pub fn as_bytes(&self) -> &[u8]
        ensures { result.now ≡ self.now }
    {
        match &self.source {
            Source::File(bytes) => bytes,
            Source::Value(bytes) => bytes.as_slice(),
        }
    }

    /// The same spelling once more.
    pub fn copy(&self, alloc: Global) -> Result<Spelling<'a>, AllocError>
        ensures { IfOk result (λ copy. copy ≡ self.now) }
    {
        let source = match &self.source {
            Source::File(bytes) => Source::File(bytes),
            Source::Value(bytes) => Source::Value(bytes.clone()?),
        };
        Ok(Spelling { source })
    }

    /// The spelling as a string, which it is short enough for.
    pub fn to_text(&self, alloc: Global) -> Result<Text<'a>, AllocError>
        requires { length self.now ≤ greatest_string }
        ensures { IfOk result (λ text. text ≡ self.now) }
    {
        match &self.source {
            Source::File(bytes) => Ok(Text::borrowed(bytes)),
            Source::Value(bytes) => Ok(Text::of_shared(bytes.clone()?)),
        }
    }
}
