//! The limits that end a run.

/// A limit that ends a run.
#[derive(Clone, Copy, Debug, PartialEq, Eq)]
pub enum Limit {
    /// More than 1,000 literals on the stack.
    Literals,
    /// More than 4,096 open bodies.
    Calls,
    /// More than 4,096 running loops.
    Loops,
    /// A string of more than 1,000,000 bytes.
    String,
    /// A file of more than 2,147,483,647 bytes.
    File,
    /// More than 20 open `.aux` files.
    Files,
}

/// The greatest number of literals on the stack.
pub const MOST_LITERALS: usize = 1_000;

/// The greatest length of a string, in bytes.
pub const GREATEST_STRING: usize = 1_000_000;

/// The greatest length of a file, in bytes.
pub const GREATEST_FILE: usize = 2_147_483_647;
