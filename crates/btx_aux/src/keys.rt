//! The keys that are listed, found without case by a table.
ghost use Rattle.std.specs.Prelude.{◌≡◌, [], ◌∷◌, ◌++◌, true, if◌then◌else◌, None, IfOk, IfSome, OnOk, length, map, option_copied, position};
ghost use Rattle.std.specs.List.{IsDistinct};
ghost use Rattle.std.specs.Str.{bytes_eq};
ghost use Rattle.btx_text.specs.language.Keys.{folded};
ghost use Rattle.btx_aux.specs.refinement.Entries.{texts_of};
ghost use Rattle.btx_aux.specs.language.Job.{is_empty};
ghost use Rattle.btx_aux.specs.language.Names.{is_same_key, listed_as, with_key};
ghost use Rattle.btx_aux.specs.refinement.KeyTable.{listed_by};

use btx_text::fold_key;
use indexmap::IndexSet;
use std::alloc::{AllocError, Global};
use std::marker::Model;

/// Keys in the order in which they were listed, no two of which are equal without case. A table of their lowered forms finds the place of
/// each. Until a key has a capital letter, these are the keys as they are spelled, and no key is kept twice.
#[derive(Drop)]
pub struct Keys {
    lowered: IndexSet<Vec<u8>>,
    // The keys as they are spelled, where one of them has a capital letter.
    spelled: Option<Vec<Vec<u8>>>,
}

impl Model for Keys {
    ghost use Rattle.std.specs.Prelude.{List, ℕ};
    ghost use Rattle.btx_aux.specs.refinement.Entries.{texts_of};
    ghost use Rattle.btx_aux.specs.refinement.KeyTable.{IsTableOf, spelled_in};

    ghost Value = { List (List ℕ) };

    ghost view = { λ keys. texts_of (spelled_in keys.spelled keys.lowered.keys) };

    ghost invariant = { λ keys. IsTableOf keys.lowered.keys (spelled_in keys.spelled keys.lowered.keys) };
}

impl Keys {
    /// No key.
    pub fn new(alloc: Global) -> Self
        ensures { result ≡ [] }
    {
        Keys {
            lowered: IndexSet::new(alloc),
            spelled: None,
        }
    }

    /// How many keys are listed.
    pub fn len(&self) -> usize
        ensures { result ≡ length self.now }
    {
        self.as_slice().len()
    }

    /// Whether no key is listed.
    pub fn is_empty(&self) -> bool
        ensures { result ≡ is_empty self.now }
    {
        self.as_slice().is_empty()
    }

    /// All keys, in order.
    pub fn as_slice(&self) -> &[Vec<u8>]
        ensures { texts_of result.now ≡ self.now }
    {
        match &self.spelled {
            Some(spelled) => spelled.as_slice(),
            None => self.lowered.as_slice(),
        }
    }

    /// The place of the listed key whose lowered form this is.
    pub fn position(&self, lowered: &[u8]) -> Option<usize>
        ensures { result ≡ position (bytes_eq lowered.now) (map folded self.now) }
    {
        self.lowered.get_index_of(lowered)
    }

    /// The listed key whose lowered form this is.
    pub fn find(&self, lowered: &[u8]) -> Option<&[u8]>
        ensures { option_copied result ≡ listed_by self.now lowered.now }
    {
        let place = self.position(lowered)?;
        let key = self.as_slice().get(place)?;
        Some(key.as_slice())
    }

    /// No two keys are equal without case: a law, the contract of a function that does nothing.
    pub fn differ(&self)
        ensures { IsDistinct is_same_key self.now }
    {
        // Reading the table shows that no two of its keys are equal.
        let _names = self.lowered.as_slice();
    }

    /// Lists a key without a capital letter, if it isn't listed, where no listed key has such a letter either. Answers whether that is so.
    pub fn add_plainly(&mut self, alloc: Global, key: &[u8]) -> Result<bool, AllocError>
        ensures listed { IfOk result (λ plain. self.new ≡ (if plain then with_key self.old key.now else self.old)) }
        ensures same { IfOk result (λ plain. plain ≡ true → IfSome (listed_as self.old key.now) (λ earlier. earlier ≡ key.now)) }
    {
        if self.spelled.is_some() {
            return Ok(false);
        }
        let lowered = lowered(alloc, key)?;
        if lowered.as_slice() != key {
            return Ok(false);
        }
        self.lowered.insert(lowered)?;
        Ok(true)
    }

    /// Lists a key, given with its lowered form, which no listed key has.
    pub fn add(&mut self, alloc: Global, key: &[u8], lowered: Vec<u8>) -> Result<(), AllocError>
        requires form { lowered.items ≡ folded key.now }
        requires absent { listed_by self.old lowered.items ≡ None }
        ensures { OnOk result (self.new ≡ self.old ++ key.now ∷ []) }
    {
        let key = Vec::from_slice(alloc, key)?;
        match &mut self.spelled {
            Some(spelled) => {
                spelled.reserve(1)?;
                self.lowered.insert(lowered)?;
                spelled.push_reserved(key);
                Ok(())
            }
            None => {
                let mut spelled = copies(alloc, self.lowered.as_slice())?;
                spelled.push(key)?;
                self.lowered.insert(lowered)?;
                self.spelled = Some(spelled);
                Ok(())
            }
        }
    }
}

// The same keys once more.
fn copies(alloc: Global, keys: &[Vec<u8>]) -> Result<Vec<Vec<u8>>, AllocError>
    ensures { IfOk result (λ copies. texts_of copies.items ≡ texts_of keys.now) }
{
    let mut copies = Vec::new(alloc);
    for key in keys {
        copies.push(Vec::from_slice(alloc, key.as_slice())?)?;
    }
    Ok(copies)
}

/// The lowered form of a key.
pub fn lowered(alloc: Global, key: &[u8]) -> Result<Vec<u8>, AllocError>
    ensures { IfOk result (λ lowered. lowered.items ≡ folded key.now) }
{
    let mut lowered = Vec::from_slice(alloc, key)?;
    fold_key(lowered.as_mut_slice());
    Ok(lowered)
}
