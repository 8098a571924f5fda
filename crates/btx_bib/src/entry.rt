//! The entries of the list.
use crate::spelling::Spelling;
use crate::values::Values;

/// An entry of the list: its key as the list spells it, the number of the style's function for its type if the style
/// has one, and for each declared field its value or that it is missing.
#[derive(Drop)]
pub struct Entry<'a> {
    pub(crate) key: Spelling<'a>,
    pub(crate) kind: Option<u32>,
    pub(crate) values: Values<'a>,
}
