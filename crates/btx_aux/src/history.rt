//! The answers that a finder has given.
ghost use Rattle.std.specs.Prelude.{◌≡◌, ◌++◌, ◌∷◌, [], Ok, IfOk, OnErr, OnOk};
ghost use Rattle.btx_aux.specs.language.Answers.{answers_after};
ghost use Rattle.btx_aux.specs.language.Fetches.{is_device_fetch};
ghost use Rattle.btx_aux.specs.language.Files.{file_of};

use crate::fetch_fault::{FetchFault, Fetched};
use std::alloc::{AllocError, Global};
use std::marker::Model;
use std::snapshot::Snapshot;

// An answer, which only proofs read: it takes no memory.
#[derive(Drop)]
struct Noted {
    name: Snapshot<Vec<u8>>,
    found: Snapshot<bool>,
    bytes: Snapshot<Vec<u8>>,
}

/// The answers that a finder has given, as proofs see them. When the program runs it is their number.
#[derive(Drop)]
pub struct History {
    noted: Vec<Noted>,
}

impl Model for History {
    ghost use Rattle.std.specs.Prelude.{List};
    ghost use Rattle.btx_aux.specs.language.Answers.{FinderAnswer};

    ghost Value = { List FinderAnswer };

    ghost use Rattle.btx_aux.specs.refinement.Noted.{answers_of};

    ghost view = { λ history. answers_of history.noted.items };
}

impl History {
    /// No answer yet.
    pub fn new(alloc: Global) -> Self
        ensures { result ≡ [] }
    {
        History {
            noted: Vec::new(alloc),
        }
    }

    /// Adds the answer to this name: the file's bytes, or that there is no such file. The fault is want of memory, for the name.
    pub fn note(
        &mut self,
        alloc: Global,
        name: &[u8],
        found: bool,
        bytes: &Vec<u8>,
    ) -> Result<(), AllocError>
        ensures ok { OnOk result (self.new ≡ self.old ++ record { name = name.now; bytes = file_of found bytes.now.items } ∷ []) }
        ensures err { OnErr result (self.new ≡ self.old) }
    {
        let name = Vec::from_slice(alloc, name)?;
        self.noted.push(Noted {
            name: Snapshot::of(&name),
            found: Snapshot::of(&found),
            bytes: Snapshot::of(bytes),
        })?;
        Ok(())
    }

    /// Hands on the answer of a fetch of this name, which left the bytes `into`, and adds it. After a fault nothing is added, and `into` is emptied; so
    /// too if memory is refused for the name, which is the answer then.
    pub fn answer(
        &mut self,
        alloc: Global,
        name: &[u8],
        answer: Fetched,
        into: &mut Vec<u8>,
    ) -> Fetched
        ensures same { IfOk result (λ found. answer ≡ Ok found) }
        ensures kept { OnOk result (into.new.items ≡ into.old.items) }
        ensures fault { OnErr result (into.new.items ≡ []) }
        ensures grows { self.new ≡ answers_after result name.now into.new.items self.old }
        ensures device { is_device_fetch result ≡ is_device_fetch answer }
    {
        let fault = match answer {
            Ok(found) => match self.note(alloc, name, found, into) {
                Ok(()) => return Ok(found),
                Err(_) => FetchFault::Memory,
            },
            Err(fault) => fault,
        };
        into.clear();
        Err(fault)
    }
}
