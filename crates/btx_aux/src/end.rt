//! How the reading of the `.aux` files ends.

/// How the reading of the `.aux` files ends.
#[derive(Clone, Copy, Debug, PartialEq, Eq)]
pub enum End {
    /// All of it was read.
    Whole,
    /// An include would have opened a file beside 20 that were open.
    TooManyOpen,
    /// There is no top file.
    TopMissing,
    /// A file has more bytes than a file may have.
    FileLimit,
}
