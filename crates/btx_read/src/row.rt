//! Records as rows of numbers.

/// A record as a row of numbers, with its texts in a room of texts.
#[repr(C)]
#[derive(Clone, Copy)]
pub struct Row {
    /// What the record is: a number of `kind_of`.
    pub kind: u32,
    /// Whether its text is there: one that is longer than a string may be is left out.
    pub is_whole: bool,
    /// How many bytes of the database are before its first byte.
    pub start: usize,
    /// How many bytes of the database are before the byte after its last.
    pub end: usize,
    /// The line of its first byte, from 1 up.
    pub line: usize,
    /// How many bytes of the room are before its name.
    pub name_at: usize,
    /// How many bytes its name has: of an entry its type, of a field and a string its name.
    pub name_len: usize,
    /// How many bytes of the room are before its text.
    pub text_at: usize,
    /// How many bytes its text has: of an entry its key, of what is wrong the line that a run logs.
    pub text_len: usize,
}
