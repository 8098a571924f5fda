//! Values: parts joined by `#`.
ghost use Rattle.std.specs.Prelude.{◌≡◌, ◌∷◌, [], IfSome};
ghost use Rattle.btx_bib.specs.refinement.Grammar.Tokens.{seen};
ghost use Rattle.btx_bib.specs.language.Grammar.Values as language;
ghost use Rattle.btx_bib.specs.refinement.Grammar.Values as spec;

use crate::grammar::parts::{Part, next_part, read_part};
use crate::grammar::tokens::Read;
use std::marker::Model;

/// A value that was read whole: its first part, and the text from its second part on if it has one.
#[derive(Drop)]
pub struct Value<'a> {
    first: Part<'a>,
    others: Option<&'a [u8]>,
}

impl<'a> Model for Value<'a> {
    ghost use Rattle.std.specs.Prelude.{List, ◌∷◌};
    ghost use Rattle.btx_bib.specs.language.Grammar.Values.{Part as SpecPart};
    ghost use Rattle.btx_bib.specs.refinement.Grammar.PartViews.{part_view, parts_from, AreWhole};

    ghost Value = { List SpecPart };

    ghost view = { λ value. part_view value.first ∷ parts_from value.others };

    ghost invariant = { λ value. AreWhole value.others };
}

/// The parts of a value, first to last. It takes no memory.
#[derive(Drop)]
pub struct Parts<'a> {
    first: Option<Part<'a>>,
    others: Option<&'a [u8]>,
}

impl<'a> Model for Parts<'a> {
    ghost use Rattle.std.specs.Prelude.{List};
    ghost use Rattle.btx_bib.specs.language.Grammar.Values.{Part as SpecPart};
    ghost use Rattle.btx_bib.specs.refinement.Grammar.PartViews.{parts_with, AreWhole};

    ghost Value = { List SpecPart };

    ghost view = { λ parts. parts_with parts.first parts.others };

    ghost invariant = { λ parts. AreWhole parts.others };
}

impl<'a> Value<'a> {
    ghost use Rattle.btx_bib.specs.refinement.Grammar.PartViews.{part_view};

    // Its part, if it has one alone.
    pub(crate) fn lone_part(&self) -> Option<Part<'a>>
        ensures { IfSome result (λ part. self.now ≡ part_view part ∷ []) }
    {
        match self.others {
            None => Some(self.first),
            Some(_) => None,
        }
    }

    /// Its parts.
    pub fn parts(&self) -> Parts<'a>
        ensures { result ≡ self.now }
    {
        Parts {
            first: Some(self.first),
            others: self.others,
        }
    }
}

impl<'a> Iterator for Parts<'a> {
    ghost use Rattle.std.specs.Iterator.{YieldsFirstBy, item_count};
    ghost use Rattle.btx_bib.specs.refinement.Grammar.PartViews.{part_view};

    type Item = Part<'a>;

    ghost next_gives = { YieldsFirstBy part_view (λ parts. parts) };

    ghost remaining = { item_count (λ parts. parts) };

    #[tactic(auto, using(crate::proofs::GrammarLemmas::ValueLemmas::parts_steps))]
    fn next(&mut self) -> Option<Part<'a>> {
        if let Some(part) = self.first {
            self.first = None;
            return Some(part);
        }
        let text = self.others?;
        match read_part(text) {
            Ok((part, after)) => {
                self.others = next_part(after);
                Some(part)
            }
            Err(_) => {
                self.others = None;
                None
            }
        }
    }
}

// Where the value ends that begins here.
#[tactic(auto, using(crate::proofs::GrammarLemmas::ValueLemmas::value_steps))]
fn end_of_value(text: &[u8]) -> Read<'_, ()>
    ensures { seen (λ none. none) result ≡ spec.value_end (language.value_at text.now) }
{
    let mut rest = text;
    loop {
        let after = match read_part(rest) {
            Ok((_, after)) => after,
            Err((slip, place)) => return Err((slip, place)),
        };
        match next_part(after) {
            Some(next) => rest = next,
            None => return Ok(((), after)),
        }
    }
}

/// A value.
#[tactic(auto, using(crate::proofs::GrammarLemmas::ValueLemmas::value_parts))]
pub fn read_value(text: &[u8]) -> Read<'_, Value<'_>>
    ensures { seen (λ value. value) result ≡ language.value_at text.now }
{
    let (first, after) = read_part(text)?;
    let Some(others) = next_part(after) else {
        return Ok((
            Value {
                first,
                others: None,
            },
            after,
        ));
    };
    let (_, rest) = end_of_value(others)?;
    Ok((
        Value {
            first,
            others: Some(others),
        },
        rest,
    ))
}
