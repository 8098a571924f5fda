//! Places in the list of a name's tokens.
ghost use Rattle.std.specs.Prelude.{◌≡◌};
ghost use Rattle.btx_names.specs.refinement.NameTokens.{token_of};
ghost use Rattle.btx_names.specs.refinement.PartViews.{part_tokens};
ghost use Rattle.btx_names.specs.language.NameParts as spec;
ghost use Rattle.btx_names.specs.refinement.Steps as steps;

use crate::name_token::NameToken;
use crate::name_tokens::TokenSeparator;
use crate::part::Part;
use crate::von_tokens::is_von;

/// What is asked of a token.
#[derive(Clone, Copy, PartialEq, Eq)]
pub enum TokenTest {
    /// That it is von.
    Von,
    /// That no `-` joins it to the next.
    Apart,
}

// Whether a token passes a test.
fn passes(test: TokenTest, bytes: &[u8], token: &NameToken) -> bool
    ensures { result ≡ steps.passes test (token_of bytes.now token.now) }
{
    match test {
        TokenTest::Von => is_von(token.text.of(bytes)),
        TokenTest::Apart => !matches!(token.joint, TokenSeparator::Hyphen),
    }
}

/// How many tokens there are up to the last one before the final token that passes a test, 0 where none does.
#[tactic(auto, using(crate::proofs::CountLemmas::last_steps))]
pub fn up_to_last_before_final(part: Part<'_>, test: TokenTest) -> usize
    ensures { result ≡ spec.up_to_last (steps.passes test) (spec.before_final (part_tokens part.entry)) }
{
    let mut place = part.tokens.len().saturating_sub(1);
    while place > 0 {
        if passes(test, part.bytes, &part.tokens[place - 1]) {
            return place;
        }
        place -= 1;
    }
    0
}

/// How many tokens stand before the first that passes a test.
#[tactic(auto, using(crate::proofs::CountLemmas::first_steps))]
pub fn before_first(part: Part<'_>, test: TokenTest) -> usize
    ensures { result ≡ spec.before_first (steps.passes test) (part_tokens part.entry) }
{
    for (place, token) in part.tokens.iter().enumerate() {
        if passes(test, part.bytes, token) {
            return place;
        }
    }
    part.tokens.len()
}
