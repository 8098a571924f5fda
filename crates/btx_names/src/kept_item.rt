//! Items of a format that own their bytes.
ghost use Rattle.std.specs.Prelude.{◌≡◌, IfOk, MatchOption};
ghost use Rattle.btx_names.specs.language.Formats as spec;
ghost use Rattle.btx_names.specs.refinement.ItemViews.{item_view, piece_view};
ghost use Rattle.btx_names.specs.refinement.KeptItems.{kept_view, kept_piece_view};

use crate::format_items::{Item, PartName, Piece};
use std::alloc::{AllocError, Global};

/// A piece of a format that names a part.
#[derive(Drop)]
pub struct KeptPiece {
    before: Vec<u8>,
    /// The part.
    pub part: PartName,
    is_full: bool,
    between: Option<Vec<u8>>,
    after: Vec<u8>,
}

/// What a legal format is made of.
#[derive(Drop)]
pub enum KeptItem {
    /// Bytes outside braces.
    Literal(Vec<u8>),
    /// A group without a letter.
    Plain(Vec<u8>),
    /// A group with the letter of a part.
    Name(KeptPiece),
}

impl KeptPiece {
    // A copy of a piece.
    fn of(alloc: Global, piece: Piece<'_>) -> Result<KeptPiece, AllocError>
        ensures { IfOk result (λ kept. kept_piece_view kept ≡ piece_view piece.entry) }
    {
        let between = match piece.between {
            Some(between) => Some(Vec::from_slice(alloc, between)?),
            None => None,
        };
        Ok(KeptPiece {
            before: Vec::from_slice(alloc, piece.before)?,
            part: piece.part,
            is_full: piece.is_full,
            between,
            after: Vec::from_slice(alloc, piece.after)?,
        })
    }

    /// The piece.
    #[inline(always)]
    pub fn as_piece(&self) -> Piece<'_>
        ensures { piece_view result ≡ kept_piece_view self.now }
    {
        Piece {
            before: &self.before,
            part: self.part,
            is_full: self.is_full,
            between: self.between.as_deref(),
            after: &self.after,
        }
    }
}

impl KeptItem {
    /// A copy of an item, if it isn't illegal.
    pub fn of(alloc: Global, item: Item<'_>) -> Result<Option<KeptItem>, AllocError>
        ensures { IfOk result (λ found. MatchOption found (item_view item.entry ≡ spec.Illegal) (λ kept. kept_view kept ≡ item_view item.entry)) }
    {
        Ok(Some(match item {
            Item::Literal(text) => KeptItem::Literal(Vec::from_slice(alloc, text)?),
            Item::Plain(text) => KeptItem::Plain(Vec::from_slice(alloc, text)?),
            Item::Name(piece) => KeptItem::Name(KeptPiece::of(alloc, piece)?),
            Item::Illegal => return Ok(None),
        }))
    }

    /// The item.
    #[inline(always)]
    pub fn as_item(&self) -> Item<'_>
        ensures { item_view result ≡ kept_view self.now }
    {
        match self {
            KeptItem::Literal(text) => Item::Literal(text),
            KeptItem::Plain(text) => Item::Plain(text),
            KeptItem::Name(piece) => Item::Name(piece.as_piece()),
        }
    }
}
