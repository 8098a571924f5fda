//! Where the parts of a name begin and end in the list of its tokens.
ghost use Rattle.std.specs.Prelude.{◌≡◌, ◌≤◌, length};
ghost use Rattle.std.specs.List.{All};
ghost use Rattle.btx_names.specs.language.NameParts as spec;
ghost use Rattle.btx_names.specs.refinement.NameParts as kept;
ghost use Rattle.btx_names.specs.refinement.NameTokens.{Hold};
ghost use Rattle.btx_names.specs.refinement.PartViews.{part_tokens};

use crate::part::Part;
use crate::token_counts::{TokenTest, before_first, up_to_last_before_final};
use crate::token_list::TokenList;

/// Where von and Last begin in the section of the surname, as counts of tokens.
#[derive(Clone, Copy)]
pub struct Ranges {
    /// How many tokens stand before von.
    pub von_start: usize,
    /// How many tokens stand before Last.
    pub last_start: usize,
}

impl Ranges {
    ghost use Rattle.btx_names.specs.refinement.TokenLists.{AreRangesOf};

    /// Where von and Last begin in a name, of the list of its tokens and the list of names that has their bytes.
    pub fn of(names: &[u8], list: &TokenList) -> Ranges
        requires surname { list.now.surname ≤ length list.now.tokens.items }
        requires held { All (Hold names.now) list.now.tokens.items }
        ensures { AreRangesOf names.now list.now result }
    {
        let all = Part {
            bytes: names,
            tokens: &list.tokens,
        };
        let (surname, _) = all.split_at(list.surname);
        if list.has_commas {
            return Ranges {
                von_start: 0,
                last_start: von_end(surname),
            };
        }
        Ranges::without_commas(surname)
    }

    // Where von and Last begin in a name without commas.
    fn without_commas(name: Part<'_>) -> Ranges
        ensures von_start { result.von_start ≡ kept.von_start (part_tokens name.entry) }
        ensures last_start { result.last_start ≡ spec.last_start (part_tokens name.entry) }
    {
        let end = von_end(name);
        if end > 0 {
            return Ranges {
                von_start: before_first(name, TokenTest::Von),
                last_start: end,
            };
        }
        let last_start = up_to_last_before_final(name, TokenTest::Apart);
        Ranges {
            von_start: last_start,
            last_start,
        }
    }
}

// How many tokens there are up to the last von token before the final one.
fn von_end(surname: Part<'_>) -> usize
    ensures { result ≡ spec.von_end (part_tokens surname.entry) }
{
    up_to_last_before_final(surname, TokenTest::Von)
}
