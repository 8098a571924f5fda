//! What stands on the literal stack, and what functions take of it.
pub use btx_stack::Literal;

/// The kind of literal that a built-in function expects.
#[derive(Clone, Copy, PartialEq, Eq, Debug)]
pub enum OperandKind {
    Integer,
    Text,
    Function,
    TextOrMissing,
}
