//! What is read of a database.
use crate::grammar::fields::Field;
use crate::grammar::slip::SyntaxError;
use crate::grammar::values::Value;

/// What is read.
#[derive(Drop)]
pub enum Event<'a> {
    /// An `@comment`.
    Comment,
    /// The value of a `@preamble`.
    Preamble(Value<'a>),
    /// The name and the value of a `@string`.
    Definition(&'a [u8], Value<'a>),
    /// The type and the key of an entry.
    Entry(&'a [u8], &'a [u8]),
    /// A field of the entry.
    Field(Field<'a>),
    /// The end of the item.
    ItemEnd,
    /// What is wrong.
    Wrong(SyntaxError),
}

/// What is read, and the text from its end on.
#[derive(Drop)]
pub struct Placed<'a> {
    /// What is read.
    pub event: Event<'a>,
    /// The text from its end on.
    pub rest: &'a [u8],
}
