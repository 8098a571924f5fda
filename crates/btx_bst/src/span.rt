//! Where things of a style stand in its text.

/// A place in a style's text, as it is recorded: the line, and how many bytes of it are left.
#[derive(Clone, Copy, Debug, PartialEq, Eq)]
pub struct Spot {
    /// The number of the line, from 1 up.
    pub line: usize,
    /// How many bytes are left of the line, without the whitespace at its end.
    pub left: usize,
}

/// A part of a style's text, from one spot to another.
#[derive(Clone, Copy, Debug, PartialEq, Eq)]
pub struct Stretch {
    /// Where it begins.
    pub from: Spot,
    /// Where it ends.
    pub to: Spot,
}

/// A part of a style's text, by the bytes of the file.
#[derive(Clone, Copy, Debug, PartialEq, Eq)]
pub struct Span {
    /// The number of the line in which it begins, from 1 up.
    pub line: usize,
    /// The byte where it begins.
    pub from: usize,
    /// The byte after its last one.
    pub to: usize,
}
