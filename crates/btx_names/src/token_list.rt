//! The tokens of a name, kept in one list.
ghost use Rattle.std.specs.Prelude.{◌≡◌, ℕ, List};
ghost use Rattle.std.specs.List.{All};
ghost use Rattle.btx_names.specs.refinement.NameTokens.{Hold, lettered_of_bare, tokens_in};

use crate::name_token::NameToken;
use std::alloc::Global;

/// The tokens of a name, section by section. Their places are those in the list of names.
#[derive(Drop)]
pub struct TokenList {
    /// All tokens.
    pub tokens: Vec<NameToken>,
    /// Whether commas part the name.
    pub has_commas: bool,
    /// How many stand in the first section.
    pub surname: usize,
    /// How many stand in the second of three sections.
    pub jr: usize,
    pub ghost counted: { lettered_of_bare tokens.items ≡ 0 },
}

impl TokenList {
    /// Without any.
    pub fn new(alloc: Global) -> TokenList {
        TokenList {
            tokens: Vec::new(alloc),
            has_commas: false,
            surname: 0,
            jr: 0,
        }
    }

    /// Tokens of a name, of which the first `surname` stand in the first section, and the next `jr` in the second of three.
    pub fn of(tokens: Vec<NameToken>, has_commas: bool, surname: usize, jr: usize) -> TokenList
        ensures tokens { (bytes : List ℕ) → tokens_in bytes result.tokens.items ≡ tokens_in bytes tokens.items }
        ensures held { (bytes : List ℕ) → All (Hold bytes) tokens.items → All (Hold bytes) result.tokens.items }
        ensures commas { result.has_commas ≡ has_commas }
        ensures surname { result.surname ≡ surname }
        ensures jr { result.jr ≡ jr }
    {
        let mut tokens = tokens;
        count_bare(&mut tokens);
        TokenList {
            tokens,
            has_commas,
            surname,
            jr,
        }
    }
}

// Counts after each token those that have no abbreviation.
fn count_bare(tokens: &mut [NameToken])
    ensures tokens { (bytes : List ℕ) → tokens_in bytes tokens.new ≡ tokens_in bytes tokens.old }
    ensures held { (bytes : List ℕ) → All (Hold bytes) tokens.old → All (Hold bytes) tokens.new }
    ensures counted { lettered_of_bare tokens.new ≡ 0 }
{
    let mut bare = 0;
    let mut place = tokens.len();
    while place > 0 {
        place -= 1;
        tokens[place].bare_behind = bare;
        bare = if tokens[place].lettered.len == 0 {
            bare + 1
        } else {
            0
        };
    }
}
