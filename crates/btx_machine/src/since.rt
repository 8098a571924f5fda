//! Where a log and a notebook begin, as proofs see it.
ghost use Rattle.std.specs.Prelude.{◌≡◌};
ghost use Rattle.std.specs.Borrow.{ftrue};
ghost use Rattle.btx_machine.specs.refinement.Joined.{Beginning, no_beginning};

use std::marker::Model;

/// What a log and a notebook had when they were joined. Only proofs speak of it: at run time there is nothing here.
#[derive(Drop)]
pub struct Since {
    pub ghost at: { Beginning },
}

impl Model for Since {
    ghost also_owns = { λ _. ftrue };
}

impl Since {
    /// No beginning yet.
    pub fn new() -> Since
        ensures { result.at ≡ no_beginning }
    {
        Since {}
    }

    /// A beginning, which a proof picks by what is seen.
    pub fn of<T>(&self, seen: &T) -> Since
        ghost at: { Beginning }
        ensures { result.at ≡ at }
    {
        Since {}
    }
}
