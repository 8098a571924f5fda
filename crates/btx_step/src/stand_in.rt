//! What stands in for a result.

/// What is pushed where a function has no result, since an operand was missing or wrong.
#[derive(Clone, Copy, PartialEq, Eq, Debug)]
pub enum StandIn {
    /// Nothing.
    Nothing,
    /// The integer 0.
    Zero,
    /// The empty string.
    Empty,
}
