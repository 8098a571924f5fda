//! How many bytes of a string a variable keeps.
ghost use Rattle.std.specs.Prelude.{◌≡◌};
ghost use Rattle.std.specs.Option.{SomeIff};
ghost use Rattle.btx_step.specs.refinement.Limits.{IsKeptBytes};

use std::marker::Model;

/// The greatest number of bytes of a string that a variable keeps: a number from 1 to 1,000,000, and no other.
#[derive(Clone, Copy, Debug, PartialEq, Eq)]
pub struct KeptBytes {
    bytes: u32,
}

impl Model for KeptBytes {
    ghost use Rattle.std.specs.Prelude.{ℕ};
    ghost use Rattle.btx_step.specs.refinement.Limits.{IsKeptBytes};

    ghost Value = { ℕ };

    ghost view = { λ kept. kept.bytes };

    ghost invariant = { λ kept. IsKeptBytes kept.bytes };

    ghost inverse = { λ n. record { bytes = n } };
}

impl KeptBytes {
    /// Makes a limit of `bytes` bytes, or answers None exactly if that is 0 or above 1,000,000.
    pub fn new(bytes: u32) -> Option<KeptBytes>
        ensures { SomeIff result (IsKeptBytes bytes) bytes }
    {
        if (1..=1_000_000).contains(&bytes) {
            Some(KeptBytes { bytes })
        } else {
            None
        }
    }

    /// Answers the number of bytes.
    pub fn get(self) -> u32
        ensures value { result ≡ self }
        ensures range { IsKeptBytes result }
    {
        self.bytes
    }

    /// Answers the default for a variable of an entry.
    pub fn of_entries() -> KeptBytes
        ensures { result ≡ 250 }
    {
        KeptBytes { bytes: 250 }
    }

    /// Answers the default for a global variable.
    pub fn of_globals() -> KeptBytes
        ensures { result ≡ 20000 }
    {
        KeptBytes { bytes: 20_000 }
    }
}
