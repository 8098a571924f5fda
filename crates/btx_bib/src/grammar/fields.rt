//! A field of an entry.
use crate::grammar::values::Value;

/// A field of an entry.
#[derive(Drop)]
pub struct Field<'a> {
    /// Its name.
    pub name: &'a [u8],
    /// Its value.
    pub value: Value<'a>,
}
