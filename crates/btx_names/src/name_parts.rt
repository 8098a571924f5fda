//! The four parts of a name: First, von, Last and Jr.
ghost use Rattle.std.specs.Prelude.{◌≡◌};
ghost use Rattle.std.specs.List.{All};
ghost use Rattle.btx_names.specs.language.FormattedNames.{tokens_of_part};
ghost use Rattle.btx_names.specs.language.NameParts as spec;
ghost use Rattle.btx_names.specs.refinement.NameTokens.{Hold};
ghost use Rattle.btx_names.specs.refinement.PartViews.{part_tokens};
ghost use Rattle.btx_names.specs.refinement.TokenLists.{AreRangesOf, IsListOf};

use crate::format_items::PartName;
use crate::name_ranges::Ranges;
use crate::part::Part;
use crate::token_list::TokenList;

/// A part of a name, of the list of its tokens, the list of names that has their bytes, and where its parts begin.
pub fn part_in<'t>(names: &'t [u8], list: &'t TokenList, ranges: Ranges, part: PartName) -> Part<'t>
    requires sections { (sections : spec.Sections) × IsListOf names.now list.now sections }
    requires held { All (Hold names.now) list.now.tokens.items }
    requires ranges { AreRangesOf names.now list.now ranges }
    ensures { (sections : spec.Sections) → IsListOf names.now list.now sections → part_tokens result ≡ tokens_of_part part (spec.parts_by sections) }
{
    let all = Part {
        bytes: names,
        tokens: &list.tokens,
    };
    let (surname, others) = all.split_at(list.surname);
    let (jr, behind) = others.split_at(list.jr);
    let (before, others) = surname.split_at(ranges.von_start);
    let (von, last) = others.split_at(ranges.last_start - ranges.von_start);
    let first = if list.has_commas { behind } else { before };
    match part {
        PartName::First => first,
        PartName::Von => von,
        PartName::Last => last,
        PartName::Jr => jr,
    }
}
