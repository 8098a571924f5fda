//! What is known of the literals on top of the stack.
use btx_bst::Callee;

/// What is known of a literal.
#[derive(Clone, Copy)]
pub enum Known {
    /// Nothing: there may be none.
    Anything,
    /// It is this function.
    Function(Callee),
    /// It is this integer.
    Integer(i32),
    /// It is an integer, which is at most this.
    AtMost(u64),
    /// It is a string, of at most as many bytes as a global variable keeps.
    Kept,
}
