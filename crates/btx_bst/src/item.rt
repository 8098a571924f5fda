//! The items of a style.
use crate::callee::Callee;
use crate::message::Message;

/// An item of a style: a command that takes effect, or what is wrong at its place.
#[derive(Clone, Copy, Debug)]
pub enum Item<'a> {
    /// What is wrong.
    Message(Message<'a>),
    /// ENTRY.
    Entry,
    /// FUNCTION, and the function's number.
    Function(u32),
    /// READ.
    Read,
    /// EXECUTE.
    Execute(Callee),
    /// ITERATE.
    Iterate(Callee),
    /// REVERSE.
    Reverse(Callee),
    /// SORT.
    Sort,
    /// INTEGERS.
    Integers,
    /// STRINGS.
    Strings,
    /// MACRO.
    Macro,
}
