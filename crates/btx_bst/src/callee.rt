//! What a name of a style names.
use crate::built_in::BuiltIn;

/// What a name names, and what a style's token may execute. Those of each kind are numbered from 0, in the order in which they are
/// declared.
#[derive(Clone, Copy, Debug, PartialEq, Eq)]
pub enum Callee {
    /// A built-in function.
    BuiltIn(BuiltIn),
    /// A function of the style, with a name or without one.
    User(u32),
    /// A field of each entry.
    Field(u32),
    /// An integer variable of each entry.
    EntryInteger(u32),
    /// A string variable of each entry.
    EntryString(u32),
    /// An integer variable.
    GlobalInteger(u32),
    /// A string variable.
    GlobalString(u32),
}

/// What a list of names declares.
#[derive(Clone, Copy, Debug, PartialEq, Eq)]
pub enum Kind {
    /// Fields.
    Field,
    /// Integer variables of each entry.
    EntryInteger,
    /// String variables of each entry.
    EntryString,
    /// Integer variables.
    GlobalInteger,
    /// String variables.
    GlobalString,
}
