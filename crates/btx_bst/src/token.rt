//! The tokens of functions.
use crate::callee::Callee;

/// A token of a function's body: what is pushed or executed.
#[derive(Clone, Copy, Debug, PartialEq, Eq)]
pub enum Token {
    /// The string of this number among the texts of the style.
    Text(u32),
    /// An integer.
    Integer(i32),
    /// A function, a variable or a field as a literal.
    Quote(Callee),
    /// What is executed.
    Run(Callee),
}
