//! A name with the list that it stands in.
ghost use Rattle.std.specs.Prelude.{◌≡◌, ◌≤◌, ◌||◌, drop, length, slice_get, OnOk, MatchOption, None, Some, [], IsTrue};
ghost use Rattle.std.specs.List.{All};
ghost use Rattle.btx_names.specs.refinement.NamesFrom.{names_from};
ghost use Rattle.btx_names.specs.language.NameLists.{names_of};
ghost use Rattle.btx_names.specs.language.NameParts as spec;
ghost use Rattle.btx_names.specs.refinement.NameTokens.{Hold};
ghost use Rattle.btx_names.specs.refinement.Places.{bytes_at};
ghost use Rattle.btx_names.specs.refinement.Steps.{first_name_len};
ghost use Rattle.btx_names.specs.refinement.TokenLists.{AreRangesOf, IsListOf};

use crate::format_items::PartName;
use crate::name_parts::part_in;
use crate::name_ranges::Ranges;
use crate::name_reading::ReadName;
use crate::part::Part;
use crate::place::Place;
use crate::separators::name_len;
use crate::token_list::TokenList;
use btx_strings::Complaints;
use std::alloc::{AllocError, Global};

/// A name of a list of names, with its tokens. It owns the bytes of all of them.
#[derive(Drop)]
pub struct KeptName {
    names: Vec<u8>,
    // How many names of the list precede this one.
    before: usize,
    // Its place in the list.
    place: Place,
    list: TokenList,
    // Where its parts begin.
    ranges: Ranges,
    // Whether it ends in a comma.
    ends_in_comma: bool,
    // Whether it has a third comma.
    has_third_comma: bool,
    ghost inside: { place.from ≤ length names.items },
    ghost onwards: { drop before (names_of names.items) ≡ names_from names.items place.from },
    ghost measured: { place.len ≡ first_name_len 0 (drop place.from names.items) },
    ghost named: { slice_get (names_of names.items) before ≡ Some (bytes_at names.items place) },
    ghost held: { All (Hold names.items) list.tokens.items },
    ghost divided: { IsListOf names.items list (spec.sections_of (bytes_at names.items place)) },
    ghost ranged: { AreRangesOf names.items list ranges },
    ghost ending: { ends_in_comma ≡ spec.ends_in_comma (bytes_at names.items place) },
    ghost third: { has_third_comma ≡ spec.has_third_comma (spec.sections_of (bytes_at names.items place)) },
}

// A name of a list of which it is known where it begins.
#[derive(Clone, Copy)]
struct Known {
    // How many names of the list precede it.
    before: usize,
    from: usize,
}

impl KeptName {
    ghost use Rattle.btx_names.specs.refinement.Answered.{complaints_with};
    ghost use Rattle.btx_names.specs.language.FormattedNames.{tokens_of_part};
    ghost use Rattle.btx_names.specs.refinement.KeptNames.{IsFound, kept_bytes, kept_parts};
    ghost use Rattle.btx_names.specs.refinement.PartViews.{part_tokens};

    /// Puts the name of a list that `before` others precede into `found`, if there is one, and else none.
    pub fn find(
        alloc: Global,
        names: &[u8],
        before: usize,
        found: &mut Option<KeptName>,
    ) -> Result<(), AllocError>
        ensures { OnOk result (IsFound names.now before found.new) }
    {
        KeptName::find_in(Vec::new(alloc), TokenList::new(alloc), names, before, found)
    }

    /// Whether this is the name of a list that `before` others precede.
    pub fn is(&self, names: &[u8], before: usize) -> bool
        ensures { IsTrue result → slice_get (names_of names.now) before ≡ Some (kept_bytes self.now) }
    {
        self.before == before && self.names.as_slice() == names
    }

    /// Puts the name of a list that `before` others precede into `found`, if there is one, and else none. It takes the place of this one: where it
    /// stands in the same list and later, it is found from this one on, and its bytes and tokens are kept in the memory of this one's.
    pub fn go_to(
        self,
        names: &[u8],
        before: usize,
        found: &mut Option<KeptName>,
    ) -> Result<(), AllocError>
        ensures { OnOk result (IsFound names.now before found.new) }
    {
        if self.names.as_slice() != names {
            return KeptName::find_in(self.names, self.list, names, before, found);
        }
        if before <= self.before {
            return KeptName::find_in_kept(self.names, self.list, before, found);
        }
        match start_behind(&self.names, self.place) {
            Some(next) => {
                let known = Known {
                    before: self.before + 1,
                    from: next,
                };
                KeptName::find_from(self.names, self.list, known, before, found)
            }
            None => {
                *found = None;
                Ok(())
            }
        }
    }

    // The same. What the two buffers hold is of no account.
    #[tactic(auto, using(crate::proofs::KeptLemmas::find_steps))]
    fn find_in(
        buffer: Vec<u8>,
        list: TokenList,
        names: &[u8],
        before: usize,
        found: &mut Option<KeptName>,
    ) -> Result<(), AllocError>
        ensures { OnOk result (IsFound names.now before found.new) }
    {
        let mut kept = buffer;
        kept.clear();
        kept.extend_from_slice(names)?;
        KeptName::find_in_kept(kept, list, before, found)
    }

    // The same. What the second buffer holds is of no account.
    #[tactic(auto, using(crate::proofs::KeptLemmas::find_steps))]
    fn find_in_kept(
        names: Vec<u8>,
        list: TokenList,
        before: usize,
        found: &mut Option<KeptName>,
    ) -> Result<(), AllocError>
        ensures { OnOk result (IsFound names.items before found.new) }
    {
        if names.is_empty() {
            *found = None;
            return Ok(());
        }
        let first = Known { before: 0, from: 0 };
        KeptName::find_from(names, list, first, before, found)
    }

    // The same. It is found from the name on that is known.
    #[tactic(auto, using(crate::proofs::KeptLemmas::find_steps))]
    fn find_from(
        names: Vec<u8>,
        list: TokenList,
        known: Known,
        before: usize,
        found: &mut Option<KeptName>,
    ) -> Result<(), AllocError>
        requires inside { known.from ≤ length names.items }
        requires onwards { drop known.before (names_of names.items) ≡ names_from names.items known.from }
        requires earlier { known.before ≤ before }
        ensures { OnOk result (IsFound names.items before found.new) }
    {
        let Some(from) = name_start(&names, known.from, before - known.before) else {
            *found = None;
            return Ok(());
        };
        let read = ReadName::at(&names, from, list)?;
        let ranges = Ranges::of(&names, &read.list);
        let kept = KeptName {
            names,
            before,
            place: read.place,
            list: read.list,
            ranges,
            ends_in_comma: read.ends_in_comma,
            has_third_comma: read.has_third_comma,
        };
        *found = Some(kept);
        Ok(())
    }

    /// One of its parts.
    pub fn part(&self, part: PartName) -> Part<'_>
        ensures { part_tokens result ≡ tokens_of_part part (kept_parts self.now) }
    {
        part_in(&self.names, &self.list, self.ranges, part)
    }

    /// Whether something is wrong with it.
    pub fn is_wrong(&self) -> bool
        ensures { result ≡ (spec.ends_in_comma (kept_bytes self.now) || spec.has_third_comma (spec.sections_of (kept_bytes self.now))) }
    {
        self.ends_in_comma || self.has_third_comma
    }

    /// What is wrong with it, and with a format that is legal or not.
    pub fn complaints(&self, is_legal: bool) -> Complaints
        ensures { result ≡ complaints_with (spec.ends_in_comma (kept_bytes self.now)) (spec.has_third_comma (spec.sections_of (kept_bytes self.now))) is_legal }
    {
        Complaints {
            x9: false,
            x10: false,
            x11: self.ends_in_comma,
            x12: self.has_third_comma,
            x13: !is_legal,
        }
    }
}

// Where the name begins that `left` others precede, of the names from a place on.
#[tactic(auto, using(crate::proofs::KeptLemmas::pass_steps))]
fn name_start(names: &[u8], from: usize, left: usize) -> Option<usize>
    requires { from ≤ length names.now }
    ensures { MatchOption result (slice_get (names_from names.now from) left ≡ None)
        (λ start. (start ≤ length names.now) × (drop left (names_from names.now from) ≡ names_from names.now start)) }
{
    let mut start = from;
    for _passed in 0..left {
        start = next_start(names, start)?;
    }
    Some(start)
}

// Where the name after the one that begins at a place begins, if there is one.
fn next_start(names: &[u8], start: usize) -> Option<usize>
    requires { start ≤ length names.now }
    ensures { MatchOption result (drop 1 (names_from names.now start) ≡ [])
        (λ next. (next ≤ length names.now) × (drop 1 (names_from names.now start) ≡ names_from names.now next)) }
{
    let len = name_len(&names[start..]);
    start_behind(names, Place { from: start, len })
}

// Where the name after the one of a place begins, if there is one.
fn start_behind(names: &[u8], place: Place) -> Option<usize>
    requires inside { place.from ≤ length names.now }
    requires measured { place.len ≡ first_name_len 0 (drop place.from names.now) }
    ensures { MatchOption result (drop 1 (names_from names.now place.from) ≡ [])
        (λ next. (next ≤ length names.now) × (drop 1 (names_from names.now place.from) ≡ names_from names.now next)) }
{
    if names.len() - place.from - place.len < 3 {
        return None;
    }
    Some(place.from + place.len + 3)
}
