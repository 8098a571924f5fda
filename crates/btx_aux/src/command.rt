//! The commands of an `.aux` file.

/// A command that counts. Lines of any other are ignored.
#[derive(Clone, Copy, PartialEq, Eq)]
pub enum Command {
    /// `\citation`: keys.
    Citation,
    /// `\bibdata`: databases.
    Bibdata,
    /// `\bibstyle`: the style.
    Bibstyle,
    /// `\@input`: a further file.
    Input,
}

/// What ends the reading of a line before its `}`, or after it.
#[derive(Clone, Copy, PartialEq, Eq)]
pub enum Slip {
    /// Whitespace in the argument.
    WhiteSpace,
    /// The line ends within the argument.
    Unclosed,
    /// The argument's `}` isn't the last byte of the line.
    StuffAfter,
}
