//! The words of a body.
use crate::complaint::Complaint;

/// A word of a body.
#[derive(Clone, Copy)]
pub enum Word<'a> {
    /// A `{`.
    Open,
    /// A `}`.
    Close,
    /// A string.
    String(&'a [u8]),
    /// An integer.
    Integer(i32),
    /// A name after a `'`.
    Quoted(&'a [u8]),
    /// A name.
    Name(&'a [u8]),
    /// A literal that is left out.
    Faulty(Complaint<'a>),
    /// A string that doesn't end.
    Unended,
    /// The end of the file.
    Ended,
}
