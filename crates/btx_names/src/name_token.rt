//! The tokens of a name as they are kept while it is written.

use crate::name_tokens::TokenSeparator;
use crate::place::Place;

/// A token of a name, with what each piece of a format may ask of it. Its bytes stand in the list of names.
#[derive(Clone, Copy)]
pub struct NameToken {
    /// Its bytes.
    pub text: Place,
    /// What joins it to the next token.
    pub joint: TokenSeparator,
    /// Its bytes from where its abbreviation begins; none, where it has none.
    pub lettered: Place,
    /// How many tokens directly after it have no abbreviation.
    pub bare_behind: usize,
}
