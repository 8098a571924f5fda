//! What the elements of a string are, and how its bytes are read.

/// What an element of a string is.
#[derive(Clone, Copy, Debug, PartialEq, Eq)]
pub enum Kind {
    /// A byte that is no brace.
    Byte,
    /// An opening brace, one byte.
    Open,
    /// A closing brace, one byte.
    Close,
    /// A special character: at depth 0 a `{` directly before a backslash, with all up to its matching `}`, or without one the rest
    /// of the string.
    Special,
    /// A well-formed sequence of UTF-8 of two to four bytes, outside special characters.
    Wide,
}

/// How the bytes of a string are read.
#[derive(Clone, Copy, Debug, PartialEq, Eq)]
pub enum TextMode {
    /// Each byte is by itself: no element is [`Kind::Wide`].
    Bytes,
    /// A well-formed sequence of UTF-8 is one character.
    Utf8,
}
