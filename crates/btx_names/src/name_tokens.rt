//! What joins the tokens of a name.
ghost use Rattle.std.specs.Prelude.{◌≡◌};
ghost use Rattle.btx_names.specs.language.Tokens.{joint_of};

/// What joins a token to the next one.
#[derive(Clone, Copy, PartialEq, Eq)]
pub enum TokenSeparator {
    /// Whitespace, a comma, or the end of the name.
    Space,
    /// A `~`.
    Tie,
    /// A `-`.
    Hyphen,
}

// What joins a token to the next, of the text directly after it.
pub(crate) fn joint_of(after: &[u8]) -> TokenSeparator
    ensures { result ≡ joint_of after.now }
{
    match after {
        [b'~', ..] => TokenSeparator::Tie,
        [b'-', ..] => TokenSeparator::Hyphen,
        _ => TokenSeparator::Space,
    }
}
