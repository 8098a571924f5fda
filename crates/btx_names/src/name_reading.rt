//! A name of a list, read once: its tokens, and the commas between them.
ghost use Rattle.std.specs.Prelude.{◌≡◌, ◌≤◌, ◌<◌, ◌+◌, ◌-◌, ◌==◌, ◌++◌, ◌^◌, ℕ, List, [], ◌∷◌, drop, length, nat_lt, IfOk, OnOk, if◌then◌else◌};
ghost use Rattle.std.specs.List.{All};
ghost use Rattle.btx_names.specs.declared.runs.Stop.TheVariants.{Break};
ghost use Rattle.btx_names.specs.language.Runs as spec;
ghost use Rattle.btx_names.specs.refinement.NameTokens.{Hold, tokens_in};
ghost use Rattle.btx_names.specs.refinement.Tokens.{token_at};

use crate::initials::from_abbreviation;
use crate::name_token::NameToken;
use crate::name_tokens::joint_of;
use crate::place::Place;
use crate::runs::{Stop, is_break, run_len};
use crate::separators::separates;
use crate::token_list::TokenList;
use std::alloc::AllocError;

/// A name of a list.
#[derive(Drop)]
pub struct ReadName {
    /// Its bytes in the list.
    pub place: Place,
    /// Its tokens.
    pub list: TokenList,
    /// Whether it ends in a comma.
    pub ends_in_comma: bool,
    /// Whether it has a third comma that a token follows.
    pub has_third_comma: bool,
}

// The tokens and the commas that were read so far.
#[derive(Drop)]
struct NameBuilder {
    tokens: Vec<NameToken>,
    // How many commas there are outside the tokens.
    commas: usize,
    // How many of them a token follows.
    followed: usize,
    // How many tokens precede the first comma, where there is one.
    before_first: usize,
    // How many tokens precede the second comma, where there are two.
    before_second: usize,
}

impl ReadName {
    ghost use Rattle.btx_names.specs.refinement.ReadNames.{IsNameAt};

    /// The name of a list that begins at a place. What `list` holds is of no account.
    pub fn at(names: &[u8], from: usize, list: TokenList) -> Result<ReadName, AllocError>
        requires { from ≤ length names.now }
        ensures { IfOk result (IsNameAt names.now from) }
    {
        let mut draft = NameBuilder::new(list.tokens);
        let mut place = from;
        while place < names.len() {
            if !is_break(names[place]) {
                place += draft.push(names, place)?;
                continue;
            }
            if separates(0, &names[place..]) {
                return Ok(draft.ended(from, place + 1));
            }
            if names[place] == b',' {
                draft.comma();
            }
            place += 1;
        }
        Ok(draft.ended(from, names.len()))
    }
}

impl NameBuilder {
    // Without any, in the memory of some tokens.
    fn new(tokens: Vec<NameToken>) -> NameBuilder
        ensures tokens { result.tokens.items ≡ [] }
        ensures commas { result.commas ≡ 0 }
        ensures followed { result.followed ≡ 0 }
    {
        let mut tokens = tokens;
        tokens.clear();
        NameBuilder {
            tokens,
            commas: 0,
            followed: 0,
            before_first: 0,
            before_second: 0,
        }
    }

    // A comma comes next.
    fn comma(&mut self)
        requires { self.old.commas + 1 < 2 ^ 64 }
        ensures { self.new ≡ record self.old {
          commas = self.old.commas + 1;
          before_first = if self.old.commas == 0 then length self.old.tokens.items else self.old.before_first;
          before_second = if self.old.commas == 1 then length self.old.tokens.items else self.old.before_second;
        } }
    {
        if self.commas == 0 {
            self.before_first = self.tokens.len();
        }
        if self.commas == 1 {
            self.before_second = self.tokens.len();
        }
        self.commas += 1;
    }

    // The token that begins at a place of the list of names comes next. It answers how many bytes it has.
    fn push(&mut self, names: &[u8], from: usize) -> Result<usize, AllocError>
        requires inside { from ≤ length names.now }
        requires held { All (Hold names.now) self.old.tokens.items }
        ensures len { IfOk result (λ len. len ≡ spec.run_len Break 0 (drop from names.now)) }
        ensures tokens { OnOk result (tokens_in names.now self.new.tokens.items
            ≡ tokens_in names.now self.old.tokens.items ++ token_at (drop from names.now) ∷ []) }
        ensures held { OnOk result (All (Hold names.now) self.new.tokens.items) }
        ensures followed { OnOk result (self.new ≡ record self.old { tokens = self.new.tokens; followed = self.old.commas }) }
    {
        let rest = &names[from..];
        let (text, after) = rest.split_at(run_len(rest, Stop::Break));
        let len = text.len();
        let lettered = from_abbreviation(text).len();
        self.followed = self.commas;
        self.tokens.push(NameToken {
            text: Place { from, len },
            joint: joint_of(after),
            lettered: Place {
                from: from + len - lettered,
                len: lettered,
            },
            bare_behind: 0,
        })?;
        Ok(len)
    }

    // The name, which begins and ends at these places.
    fn ended(self, from: usize, end: usize) -> ReadName
        requires inside { from ≤ end }
        requires ordered { 1 < self.followed → self.before_first ≤ self.before_second }
        ensures place { result.place ≡ record { from = from; len = end - from } }
        ensures tokens { (bytes : List ℕ) → tokens_in bytes result.list.tokens.items ≡ tokens_in bytes self.tokens.items }
        ensures held { (bytes : List ℕ) → All (Hold bytes) self.tokens.items → All (Hold bytes) result.list.tokens.items }
        ensures commas { result.list.has_commas ≡ nat_lt 0 self.followed }
        ensures surname { result.list.surname ≡ (if nat_lt 0 self.followed then self.before_first else length self.tokens.items) }
        ensures jr { result.list.jr ≡ (if nat_lt 1 self.followed then self.before_second - self.before_first else 0) }
        ensures ending { result.ends_in_comma ≡ nat_lt self.followed self.commas }
        ensures third { result.has_third_comma ≡ nat_lt 2 self.followed }
    {
        let surname = if self.followed > 0 {
            self.before_first
        } else {
            self.tokens.len()
        };
        let jr = if self.followed > 1 {
            self.before_second - self.before_first
        } else {
            0
        };
        ReadName {
            place: Place {
                from,
                len: end - from,
            },
            list: TokenList::of(self.tokens, self.followed > 0, surname, jr),
            ends_in_comma: self.commas > self.followed,
            has_third_comma: self.followed > 2,
        }
    }
}
