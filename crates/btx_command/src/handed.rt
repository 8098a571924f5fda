//! What was handed to the system, as proofs see it.
ghost use Rattle.std.specs.Prelude.{◌≡◌, ◌++◌, ℕ, Bool, List, []};
ghost use Rattle.std.specs.Borrow.{ftrue};
ghost use Rattle.btx_text.specs.declared.failures.Failures.{Failures};
ghost use Rattle.btx_text.specs.language.Counts.{failures_after};
ghost use Rattle.btx_text.specs.refinement.Counts.{no_failures};
ghost use Rattle.btx_command.specs.Acts.{Act, TakenFile};

use std::marker::Model;

/// Bytes that were handed to the system. Only proofs speak of them: at run time there is nothing here.
#[derive(Drop)]
pub struct WrittenBytes {
    pub ghost bytes: { List ℕ },
}

impl Model for WrittenBytes {
    ghost also_owns = { λ _. ftrue };
}

impl WrittenBytes {
    /// No byte yet.
    pub fn new() -> WrittenBytes
        ensures { result.bytes ≡ [] }
    {
        WrittenBytes {}
    }

    /// These bytes.
    pub fn of(bytes: &[u8]) -> WrittenBytes
        ensures { result.bytes ≡ bytes.now }
    {
        WrittenBytes::new().and(&bytes)
    }

    /// These bytes, and then others, which a proof picks by what is seen.
    pub fn and<T>(&self, seen: &T) -> WrittenBytes
        ghost more: { List ℕ }
        ensures { result.bytes ≡ self.now.bytes ++ more }
    {
        WrittenBytes {}
    }
}

/// The calls of a file, by how often one failed and whether the last one did. Only proofs speak of them: at run time there is nothing here.
#[derive(Drop)]
pub struct Calls {
    pub ghost failures: { Failures },
}

impl Model for Calls {
    ghost also_owns = { λ _. ftrue };
}

impl Calls {
    /// No call yet.
    pub fn new() -> Calls
        ensures { result.failures ≡ no_failures }
    {
        Calls {}
    }

    /// These calls, and then one more; whether it failed a proof says by what is seen.
    pub fn and<T>(&self, seen: &T) -> Calls
        ghost failed: { Bool }
        ensures { result.failures ≡ failures_after failed self.now.failures }
    {
        Calls {}
    }
}

/// What was done outside. Only proofs speak of it: at run time there is nothing here.
#[derive(Drop)]
pub struct Acts {
    pub ghost done: { List (Act TakenFile) },
}

impl Model for Acts {
    ghost also_owns = { λ _. ftrue };
}

impl Acts {
    /// Nothing yet.
    pub fn new() -> Acts
        ensures { result.done ≡ [] }
    {
        Acts {}
    }

    /// These acts, and then others, which a proof picks by what is seen.
    pub fn and<T>(&self, seen: &T) -> Acts
        ghost more: { List (Act TakenFile) }
        ensures { result.done ≡ self.now.done ++ more }
    {
        Acts {}
    }
}
