//! What is wrong at a place of a database.
use crate::grammar::byte_sets::Delimiter;

/// What is wrong at a place of a database.
#[derive(Clone, Copy, Debug, PartialEq, Eq)]
pub enum SyntaxError {
    /// A name was expected.
    NoName,
    /// A `{` or a `(` was expected.
    NoDelimiter,
    /// A `,` or the item's closing delimiter was expected.
    NoComma(Delimiter),
    /// An `=` was expected.
    NoEquals,
    /// The item's closing delimiter was expected.
    NoClosing(Delimiter),
    /// A part of a value was expected.
    NoValue,
    /// A quoted part has a `}` that closes nothing.
    Unbalanced,
    /// The file ends inside an item.
    EndOfFile,
    /// An entry has the key of one that is stored. The reader never reports this by itself: it takes who knows the stored keys.
    Repeated,
}
