//! A record of a database.
use crate::content::Content;

/// A record: what it says, and where.
#[derive(Drop)]
pub struct Record<'a> {
    /// What it says.
    pub content: Content<'a>,
    /// How many bytes of the database are before its first byte.
    pub start: usize,
    /// How many bytes of the database are before the byte after its last.
    pub end: usize,
    /// The line of its first byte, from 1 up.
    pub line: usize,
}
