//! How the reading of databases ended.

/// How the reading of databases ended.
#[derive(Clone, Copy, Debug, PartialEq, Eq)]
pub enum End {
    /// All databases were read.
    Whole,
    /// A database is longer than a file may be.
    FileLimit,
    /// A string is longer than a string may be.
    StringLimit,
}
