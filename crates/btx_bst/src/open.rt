//! The functions whose bodies are being read.
ghost use Rattle.std.specs.Prelude.{◌≡◌, [], ◌∷◌, ◌++◌, OnOk};
ghost use Rattle.btx_bst.specs.refinement.Pending.{is_nested};
ghost use Rattle.btx_bst.specs.refinement.Views.{open_bodies, left_alone};

use std::alloc::{AllocError, Global};
use std::marker::Model;

/// The tokens so far of the innermost function, and those of the functions round it, or what is recorded of each: one list, in which each
/// function but the outermost has a start.
#[derive(Drop)]
pub struct Open<T> {
    tokens: Vec<T>,
    starts: Vec<usize>,
}

impl<T> Model for Open<T> {
    ghost use Rattle.std.specs.Prelude.{reverse};
    ghost use Rattle.btx_bst.specs.refinement.Views.{OpenBodies};

    ghost Value = { OpenBodies T };

    ghost use Rattle.btx_bst.specs.refinement.Pending.{opened_in, StartsNest};

    ghost view = { λ o. opened_in o.tokens.items (reverse o.starts.items) };

    ghost invariant = { λ o. StartsNest o.tokens.items (reverse o.starts.items) };
}

impl<T: Copy> Open<T> {
    /// One function, without tokens.
    pub fn new(alloc: Global) -> Self
        ensures { result ≡ open_bodies [] [] }
    {
        Open {
            tokens: Vec::new(alloc),
            starts: Vec::new(alloc),
        }
    }

    /// Whether the innermost function stands inside another.
    pub fn is_nested(&self) -> bool
        ensures { result ≡ is_nested self.now.around }
    {
        !self.starts.is_empty()
    }

    /// One more token.
    pub fn push(&mut self, token: T) -> Result<(), AllocError>
        ensures { OnOk result (self.new ≡ open_bodies (self.old.tokens ++ token ∷ []) self.old.around) }
    {
        self.tokens.push(token)?;
        Ok(())
    }

    /// A function inside the innermost one.
    pub fn open(&mut self) -> Result<(), AllocError>
        ensures { OnOk result (self.new ≡ open_bodies [] (self.old.tokens ∷ self.old.around)) }
    {
        self.starts.push(self.tokens.len())?;
        Ok(())
    }

    /// Leaves the innermost function.
    pub fn leave(&mut self)
        ensures { self.new ≡ left_alone self.old.around }
    {
        match self.starts.pop() {
            Some(start) => self.tokens.truncate(start),
            None => self.tokens.clear(),
        }
    }

    /// One function, without tokens, in place of all.
    pub fn reset(&mut self)
        ensures { self.new ≡ open_bodies [] [] }
    {
        self.tokens.clear();
        self.starts.clear();
    }

    /// The tokens of the innermost function.
    pub fn tokens(&self) -> &[T]
        ensures { result.now ≡ self.now.tokens }
    {
        match self.starts.last() {
            Some(start) => &self.tokens[*start..],
            None => self.tokens.as_slice(),
        }
    }
}
