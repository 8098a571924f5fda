//! Ranges of the tokens of a name.
ghost use Rattle.std.specs.Prelude.{◌≡◌, ◌≤◌, length, take, drop};
ghost use Rattle.std.specs.List.{All};
ghost use Rattle.btx_names.specs.refinement.NameTokens.{Hold, lettered_of_bare};

use crate::name_token::NameToken;

/// A range of the tokens of a name.
#[derive(Clone, Copy)]
pub struct Part<'t> {
    /// The list of names, in which its tokens have their places.
    pub bytes: &'t [u8],
    /// Its tokens, first to last.
    pub tokens: &'t [NameToken],
    pub ghost counted: { lettered_of_bare tokens.now ≡ 0 },
    pub ghost held: { All (Hold bytes.now) tokens.now },
}

impl<'t> Part<'t> {
    ghost use Rattle.btx_names.specs.refinement.PartViews.{part_tokens};

    /// Its first tokens, and the others.
    #[tactic(auto, using(crate::proofs::PartLemmas::split_steps))]
    pub fn split_at(self, count: usize) -> (Part<'t>, Part<'t>)
        requires { count ≤ length (part_tokens self) }
        ensures front { part_tokens result.0 ≡ take count (part_tokens self.entry) }
        ensures back { part_tokens result.1 ≡ drop count (part_tokens self.entry) }
    {
        let (front, back) = self.tokens.split_at(count);
        (
            Part {
                bytes: self.bytes,
                tokens: front,
            },
            Part {
                bytes: self.bytes,
                tokens: back,
            },
        )
    }
}
