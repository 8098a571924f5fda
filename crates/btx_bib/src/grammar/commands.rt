//! The commands of a database, and what is wanted at a place.
use crate::grammar::byte_sets::Delimiter;

/// What a name after an `@` begins.
#[derive(Clone, Copy, Debug, PartialEq, Eq)]
pub enum DatabaseCommand {
    /// `@comment`.
    Comment,
    /// `@preamble`.
    Preamble,
    /// `@string`.
    Definition,
    /// An entry, of the type of this name.
    Entry,
}

/// What is wanted at a place.
#[derive(Clone, Copy, Debug, PartialEq, Eq)]
pub enum Expected {
    /// The next `@`.
    Item,
    /// The closing delimiter.
    Closing(Delimiter),
    /// One more field of an entry, or its end.
    Fields(Delimiter),
}
