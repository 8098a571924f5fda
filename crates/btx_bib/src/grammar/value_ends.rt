//! What becomes of the ends of a value.

/// What becomes of the space that a value begins or ends with.
#[derive(Clone, Copy, Debug, PartialEq, Eq)]
pub enum Ends {
    /// It stays, as in a `@string` and a `@preamble`.
    Kept,
    /// It goes, as in a field.
    Trimmed,
}
