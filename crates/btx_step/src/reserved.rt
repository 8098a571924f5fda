//! A stack whose memory is taken once, when it is made.

ghost use Rattle.std.specs.Prelude.{◌≡◌, ◌<◌, ◌≤◌, List, [], ◌∷◌, length, vec_len, vec_capacity, IfOk, IfSome, IfNone, reverse, option_copied};
ghost use Rattle.btx_step.specs.refinement.Top.{top, below_top};

use std::alloc::{AllocError, Global};
use std::marker::Model;

/// At most N values, the last one on top. No call but `new` takes memory.
#[derive(Drop)]
pub struct Reserved<T: Drop, const N: usize> {
    items: Vec<T>,
}

impl<T: Drop, const N: usize> Model for Reserved<T, N> {
    ghost Value = { List T };

    ghost view = { λ s. reverse s.items.items };

    ghost invariant = { λ s. (vec_len s.items ≤ N) × (N ≤ vec_capacity s.items) };
}

impl<T: Drop, const N: usize> Reserved<T, N> {
    /// Makes an empty stack, and reserves room for N values.
    pub fn new(alloc: Global) -> Result<Self, AllocError>
        ensures { IfOk result (λ s. s ≡ []) }
    {
        Ok(Reserved {
            items: Vec::with_capacity(alloc, N)?,
        })
    }

    /// Answers how many values there are.
    pub fn len(&self) -> usize
        ensures length { result ≡ length self.now }
        ensures within { length self.now ≤ N }
    {
        self.items.len()
    }

    /// Answers the top value, if there is one.
    pub fn top(&self) -> Option<&T>
        ensures { option_copied result ≡ top self.now }
    {
        self.items.last()
    }

    /// Replaces the top value by `value`.
    pub fn replace_top(&mut self, value: T)
        requires { 0 < length self.old }
        ensures { self.new ≡ value ∷ below_top self.old }
    {
        self.items.pop();
        self.items.push_reserved(value);
    }

    /// Pushes `value`.
    pub fn push(&mut self, value: T)
        requires { length self.old < N }
        ensures { self.new ≡ value ∷ self.old }
    {
        self.items.push_reserved(value);
    }

    /// Pops the top value, if there is one.
    pub fn pop(&mut self) -> Option<T>
        ensures value { result ≡ top self.old }
        ensures rest { self.new ≡ below_top self.old }
        ensures some { IfSome result (λ value. self.old ≡ value ∷ self.new) }
        ensures none { IfNone result (self.old ≡ []) }
        ensures room { IfSome result (λ _. length self.new < N) }
    {
        self.items.pop()
    }
}
