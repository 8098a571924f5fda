//! Formats of names, kept as they were read.
ghost use Rattle.std.specs.Prelude.{◌≡◌, ◌++◌, IfOk, IfSome, IsSomeAnd, IsTrue, OnOk, slice_get, true};
ghost use Rattle.std.specs.List.{flat_map};
ghost use Rattle.btx_names.specs.language.Formats.{is_legal, items_of};
ghost use Rattle.btx_names.specs.refinement.KeptItems.{items_in};

use crate::format_items::Items;
use crate::kept_item::KeptItem;
use std::alloc::{AllocError, Global};

// How many bytes a format has at most that is kept.
const LONGEST_FORMAT: usize = 256;

/// A legal format with its items.
#[derive(Drop)]
pub struct KeptFormat {
    text: Vec<u8>,
    items: Vec<KeptItem>,
    ghost read: { items_in items.items ≡ items_of text.items },
}

impl KeptFormat {
    /// A format as it is read, if it is legal.
    #[tactic(auto, using(crate::proofs::KeptItemLemmas::item_pushed))]
    pub fn read(alloc: Global, format: &[u8]) -> Result<Option<KeptFormat>, AllocError>
        ensures { IfOk result (λ found. IfSome found (λ kept. kept.text.items ≡ format.now)) }
    {
        let mut items = Vec::new(alloc);
        for item in Items::of(format) {
            match KeptItem::of(alloc, item)? {
                Some(item) => items.push(item)?,
                None => return Ok(None),
            }
        }
        Ok(Some(KeptFormat {
            text: Vec::from_slice(alloc, format)?,
            items,
        }))
    }

    /// Its items, first to last.
    pub fn items(&self) -> &[KeptItem]
        ensures { items_in result.now ≡ items_of self.now.text.items }
    {
        &self.items
    }
}

/// The formats that are kept: the first legal ones that were asked for and are short.
#[derive(Drop)]
pub struct KeptFormats {
    alloc: Global,
    // How many are kept at most.
    most: usize,
    formats: Vec<KeptFormat>,
    // The index after the format that was found last.
    next: usize,
}

impl KeptFormats {
    /// With no format kept, and room for `most` of them.
    pub fn new(alloc: Global, most: usize) -> KeptFormats {
        KeptFormats {
            alloc,
            most,
            formats: Vec::new(alloc),
            next: 0,
        }
    }

    /// A format as it was read, if it is kept.
    pub fn find(&mut self, format: &[u8]) -> Option<&KeptFormat>
        ensures { IfSome result (λ kept. kept.now.text.items ≡ format.now) }
    {
        let at = self.position(format)?;
        self.next = at + 1;
        Some(&self.formats[at])
    }

    // The index of a format, if it is kept. The one after the format that was found last is looked at first: a style mostly asks for a name in
    // several formats, always in the same order.
    fn position(&self, format: &[u8]) -> Option<usize>
        ensures { IfSome result (λ at. IsSomeAnd (slice_get self.now.formats.items at) (λ kept. kept.text.items ≡ format.now)) }
    {
        if self.is_at(self.next, format) {
            return Some(self.next);
        }
        for at in 0..self.formats.len() {
            if self.is_at(at, format) {
                return Some(at);
            }
        }
        None
    }

    // Whether a format is kept at an index.
    fn is_at(&self, at: usize, format: &[u8]) -> bool
        ensures { IsTrue result → IsSomeAnd (slice_get self.now.formats.items at) (λ kept. kept.text.items ≡ format.now) }
    {
        match self.formats.get(at) {
            Some(kept) => kept.text.as_slice() == format,
            None => false,
        }
    }

    /// Keeps a format, if it is legal and short and there is room.
    pub fn keep(&mut self, format: &[u8]) -> Result<(), AllocError> {
        if self.formats.len() >= self.most || format.len() > LONGEST_FORMAT {
            return Ok(());
        }
        if let Some(kept) = KeptFormat::read(self.alloc, format)? {
            self.formats.push(kept)?;
        }
        Ok(())
    }
}
