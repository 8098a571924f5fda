//! The keys of the entries that are stored: none, so each entry is read.
use btx_bib::grammar::reader::StoredKeys;
use std::alloc::{AllocError, Global};

/// No key is stored.
#[derive(Drop)]
pub struct NoKeys;

impl StoredKeys for NoKeys {
    ghost use Rattle.btx_read.specs.Records.{no_key};

    ghost is_stored = { λ _ key. no_key key };

    fn is_stored(&self, _alloc: Global, _key: &[u8]) -> Result<bool, AllocError> {
        Ok(false)
    }
}
