//! The numbers of the files that a caller hands in, found by name.

use crate::handed::BtxFile;
use indexmap::IndexMap;
use std::alloc::{AllocError, Global};

/// The numbers of the files that a caller handed in, from 0. Of two files with one name the first counts.
#[derive(Drop)]
pub struct FileNumbers<'f> {
    by_name: IndexMap<&'f [u8], usize>,
}

impl<'f> FileNumbers<'f> {
    /// Numbers these files.
    pub fn of(alloc: Global, files: &[BtxFile<'f>]) -> Result<Self, AllocError> {
        let mut by_name = IndexMap::new(alloc);
        for (number, file) in files.iter().enumerate() {
            if !by_name.contains_key(file.name) {
                by_name.insert(file.name, number)?;
            }
        }
        Ok(FileNumbers { by_name })
    }

    /// Answers the number of the file `name`.
    pub fn number_of(&self, name: &[u8]) -> Option<usize> {
        self.by_name.get(name).copied()
    }
}
