//! The bodies of functions, all in one list of tokens, or of what is recorded of each token.
ghost use Rattle.std.specs.Prelude.{◌≡◌, ◌≤◌, ◌<◌, [], ◌∷◌, ◌++◌, OnOk, length, take, slice_index_or};

use std::alloc::{AllocError, Global};
use std::marker::Model;

/// Where the tokens of a function lie.
#[derive(Clone, Copy)]
pub struct Range {
    /// The index of the first.
    pub from: usize,
    /// The index after the last.
    pub to: usize,
}

/// Bodies, in the order of their numbers.
#[derive(Drop)]
pub struct Bodies<T> {
    tokens: Vec<T>,
    ranges: Vec<Range>,
}

impl<T> Model for Bodies<T> {
    ghost use Rattle.std.specs.Prelude.{◌≤◌, List, length, map, All};
    ghost use Rattle.btx_bst.specs.refinement.Ranges.{tokens_in};

    ghost Value = { List (List T) };

    ghost view = { λ b. map (tokens_in b.tokens.items) b.ranges.items };

    ghost invariant = { λ b. All (λ r. (r.from ≤ r.to) × (r.to ≤ length b.tokens.items)) b.ranges.items };
}

impl<T: Copy> Bodies<T> {
    /// No body.
    pub fn new(alloc: Global) -> Self
        ensures { result ≡ [] }
    {
        Bodies {
            tokens: Vec::new(alloc),
            ranges: Vec::new(alloc),
        }
    }

    /// How many bodies there are.
    pub fn len(&self) -> usize
        ensures { result ≡ length self.now }
    {
        self.ranges.len()
    }

    /// One more body.
    pub fn add(&mut self, body: &[T]) -> Result<(), AllocError>
        ensures { OnOk result (self.new ≡ self.old ++ body.now ∷ []) }
    {
        let from = self.tokens.len();
        self.tokens.extend_from_slice(body)?;
        self.ranges.push(Range {
            from,
            to: self.tokens.len(),
        })?;
        Ok(())
    }

    /// Leaves the first bodies alone.
    pub fn cut(&mut self, count: usize)
        ensures { self.new ≡ take count self.old }
    {
        self.ranges.truncate(count);
    }

    /// The tokens of the function of a number.
    pub fn body(&self, number: usize) -> &[T]
        requires { number < length self.now }
        ensures { result.now ≡ slice_index_or self.now number [] }
    {
        let range = self.ranges[number];
        &self.tokens[range.from..range.to]
    }
}
