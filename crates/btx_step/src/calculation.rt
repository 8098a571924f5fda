//! What is done with two integers.

/// A calculation with two integers.
#[derive(Clone, Copy, PartialEq, Eq, Debug)]
pub enum Calculation {
    Greater,
    Less,
    Plus,
    Minus,
}
