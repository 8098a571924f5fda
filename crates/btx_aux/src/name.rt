//! Names of files.
ghost use Rattle.std.specs.Prelude.{◌≡◌, IfOk, nat_eq};
ghost use Rattle.btx_aux.specs.language.Names.{has_ending, with_ending};

use std::alloc::{AllocError, Global};
use std::marker::Model;

/// A name of a file.
#[derive(Drop)]
pub struct Name {
    bytes: Vec<u8>,
}

impl Model for Name {
    ghost use Rattle.std.specs.Prelude.{List, ℕ};

    ghost Value = { List ℕ };

    ghost view = { λ name. name.bytes.items };
}

impl Name {
    /// A name of these bytes.
    pub fn new(bytes: Vec<u8>) -> Self
        ensures { result ≡ bytes.items }
    {
        Name { bytes }
    }

    /// The bytes of the name.
    pub fn as_slice(&self) -> &[u8]
        ensures { result.now ≡ self.now }
    {
        self.bytes.as_slice()
    }
}

/// Whether a name ends so.
pub fn has_ending(name: &[u8], ending: &[u8]) -> bool
    ensures { result ≡ has_ending ending.now name.now }
{
    name.ends_with(ending)
}

/// A name with an ending, which isn't put on where it stands already.
pub fn with_ending(alloc: Global, name: &[u8], ending: &[u8]) -> Result<Vec<u8>, AllocError>
    ensures { IfOk result (λ whole. whole.items ≡ with_ending ending.now name.now) }
{
    let mut whole = Vec::from_slice(alloc, name)?;
    if !has_ending(name, ending) {
        whole.extend_from_slice(ending)?;
    }
    Ok(whole)
}
