//! The answers of a finder over files that were handed in.
ghost use Rattle.std.specs.Prelude.{◌≡◌, [], Ok, IfOk, OnErr, OnOk};
ghost use Rattle.btx_aux.specs.language.Answers.{answers_after};
ghost use Rattle.btx_aux.specs.language.Fetches.{is_device_fetch};
ghost use Rattle.btx_c.specs.CallerFiles.{WereHeld};

use btx_aux::{Fetched, History};
use std::alloc::Global;
use std::marker::Model;

/// The answers that a finder has given. Each text among them was held in memory.
#[derive(Drop)]
pub struct Answers {
    history: History,
}

impl Model for Answers {
    ghost use Rattle.std.specs.Prelude.{List};
    ghost use Rattle.btx_aux.specs.language.Answers.{FinderAnswer};
    ghost use Rattle.btx_c.specs.CallerFiles.{WereHeld};

    ghost Value = { List FinderAnswer };

    ghost view = { λ answers. answers.history };

    ghost invariant = { λ answers. WereHeld answers.history };
}

impl Answers {
    /// No answer yet.
    pub fn none(alloc: Global) -> Self
        ensures { result ≡ [] }
    {
        Answers {
            history: History::new(alloc),
        }
    }

    /// Hands on the answer of a fetch and adds it, as `History::answer`.
    pub fn answer(
        &mut self,
        alloc: Global,
        name: &[u8],
        answer: Fetched,
        into: &mut Vec<u8>,
    ) -> Fetched
        ensures same { IfOk result (λ found. answer ≡ Ok found) }
        ensures kept { OnOk result (into.new.items ≡ into.old.items) }
        ensures fault { OnErr result (into.new.items ≡ []) }
        ensures grows { self.new ≡ answers_after result name.now into.new.items self.old }
        ensures device { is_device_fetch result ≡ is_device_fetch answer }
    {
        let answer = self.history.answer(alloc, name, answer, into);
        // The proof reads how many bytes there may be.
        let _len = into.len();
        answer
    }

    /// Does nothing. It says to proofs that each text was held in memory.
    pub fn were_held(&self)
        ensures { WereHeld self.now }
    {
        let _history = &self.history;
    }
}
