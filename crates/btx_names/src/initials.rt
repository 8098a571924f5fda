//! Tokens, abbreviated.
ghost use Rattle.std.specs.Prelude.{◌≡◌};
ghost use Rattle.btx_names.specs.language.FormattedNames as spec;
ghost use Rattle.btx_names.specs.refinement.Lettered.{from_abbreviation};
ghost use Rattle.btx_names.specs.refinement.NameTokens.{Hold};
ghost use Rattle.btx_names.specs.refinement.Places.{bytes_at};

use crate::name_token::NameToken;
use btx_text::classify::is_alpha;
use btx_text::{Elements, TextMode};

/// What stands for a token that is abbreviated: its first letter or special character, at any depth. It may be nothing. The bytes in
/// which the token has its place are given.
#[tactic(auto, using(crate::proofs::InitialLemmas::initial_steps))]
pub fn initial_of<'a>(bytes: &'a [u8], token: &NameToken, mode: TextMode) -> &'a [u8]
    requires { Hold bytes.now token.now }
    ensures { result.now ≡ spec.initial_of mode (bytes_at bytes.now token.now.text) }
{
    match Elements::of_text(token.lettered.of(bytes), mode).next() {
        Some(element) => element.text,
        None => &[],
    }
}

/// A token's text from where its abbreviation begins; none, where it has none.
#[tactic(auto, using(crate::proofs::InitialLemmas::lettered_steps))]
pub fn from_abbreviation(token: &[u8]) -> &[u8]
    ensures { result.now ≡ from_abbreviation token.now }
{
    for start in 0..token.len() {
        if begins_initial(&token[start..]) {
            return &token[start..];
        }
    }
    &[]
}

// Whether an abbreviation begins here.
fn begins_initial(text: &[u8]) -> bool
    ensures { result ≡ spec.begins_initial text.now }
{
    match text {
        [b'{', b'\\', ..] => true,
        [first, ..] => is_alpha(*first),
        [] => false,
    }
}
