//! The names of a string, one at a time.
ghost use Rattle.std.specs.Prelude.{◌≡◌, ◌≤◌, ◌+◌, length, pos};
ghost use Rattle.btx_text.specs.language.Limits.{greatest_string};
ghost use Rattle.btx_names.specs.language.NameLists.{names_of};

use crate::separators::name_len;
use std::marker::Model;

/// The names of a string, first to last: the pieces between its separators. It takes no memory.
#[derive(Drop)]
pub struct Names<'a> {
    rest: &'a [u8],
    is_done: bool,
}

impl<'a> Model for Names<'a> {
    ghost use Rattle.std.specs.Prelude.{List, ℕ, [], if◌then◌else◌};
    ghost use Rattle.btx_names.specs.language.NameLists.{pieces_from};

    ghost Value = { List (List ℕ) };

    ghost view = { λ names. if names.is_done then [] else pieces_from 0 0 names.rest.now };
}

impl<'a> Names<'a> {
    /// The names of a string. The empty string has none, and a name may be empty.
    #[tactic(auto, using(crate::proofs::NameLemmas::names_start))]
    pub fn of(string: &'a [u8]) -> Names<'a>
        ensures value { result ≡ names_of string.now }
        ensures len { length result ≤ length string.now + 1 }
    {
        Names {
            rest: string,
            is_done: string.is_empty(),
        }
    }
}

impl<'a> Iterator for Names<'a> {
    ghost use Rattle.std.specs.Iterator.{YieldsFirstRef, item_count};

    type Item = &'a [u8];

    ghost next_gives = { YieldsFirstRef (λ names. names) };

    ghost remaining = { item_count (λ names. names) };

    fn next(&mut self) -> Option<&'a [u8]> {
        if self.is_done {
            return None;
        }
        let (name, after) = self.rest.split_at(name_len(self.rest));
        if let [_, _, _, rest @ ..] = after {
            self.rest = rest;
            return Some(name);
        }
        self.is_done = true;
        Some(name)
    }
}

/// How many names a string holds.
pub fn num_names(names: &[u8]) -> i32
    requires { length names.now ≤ greatest_string }
    ensures { result ≡ pos (length (names_of names.now)) }
{
    Names::of(names).count() as i32
}
