//! Where the counts of a log begin, as proofs see it.
ghost use Rattle.std.specs.Prelude.{◌≡◌};
ghost use Rattle.std.specs.Borrow.{ftrue};
ghost use Rattle.btx_machine.specs.refinement.Counting.{CountingStart, no_start};

use std::marker::Model;

/// What a notebook had noted when a log began to count, and what was counted before. Only proofs speak of it: at run time there is nothing here.
#[derive(Drop)]
pub struct CountedSince {
    pub ghost at: { CountingStart },
}

impl Model for CountedSince {
    ghost also_owns = { λ _. ftrue };
}

impl CountedSince {
    /// No line yet.
    pub fn new() -> CountedSince
        ensures { result.at ≡ no_start }
    {
        CountedSince {}
    }

    /// A beginning, which a proof picks by what is seen.
    pub fn of<T>(&self, seen: &T) -> CountedSince
        ghost at: { CountingStart }
        ensures { result.at ≡ at }
    {
        CountedSince {}
    }
}
