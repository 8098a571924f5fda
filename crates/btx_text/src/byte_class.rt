//! The classes of bytes.

/// The class of a byte: each byte has exactly one.
#[derive(Clone, Copy, Debug, PartialEq, Eq)]
pub enum Class {
    /// A space, a tab or a carriage return.
    White,
    /// A letter `A-Z` or `a-z`, or a byte from 128 up, which has no case.
    Alpha,
    /// A digit `0-9`.
    Digit,
    /// A separator of words, `~` or `-`.
    Sep,
    /// Any other byte.
    Other,
}
