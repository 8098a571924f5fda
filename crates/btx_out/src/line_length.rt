//! The greatest length of a line.
ghost use Rattle.std.specs.Prelude.{◌≡◌};
ghost use Rattle.std.specs.Option.{SomeIff};
ghost use Rattle.btx_out.specs.laws.Lengths.{IsLineLength};

use std::marker::Model;

/// The greatest number of bytes in a line that is broken: a number from 20 to 1,000, and no other. 79 by default.
#[derive(Clone, Copy, Debug, PartialEq, Eq)]
pub struct LineLength {
    bytes: u32,
}

impl Model for LineLength {
    ghost use Rattle.std.specs.Prelude.{ℕ};
    ghost use Rattle.btx_out.specs.laws.Lengths.{IsLineLength};

    ghost Value = { ℕ };

    ghost view = { λ line. line.bytes };

    ghost invariant = { λ line. IsLineLength line.bytes };

    ghost inverse = { λ n. record { bytes = n } };
}

impl LineLength {
    /// A length of this number of bytes; None exactly where the number is below 20 or above 1,000.
    pub fn new(bytes: u32) -> Option<LineLength>
        ensures { SomeIff result (IsLineLength bytes) bytes }
    {
        if (20..=1000).contains(&bytes) {
            Some(LineLength { bytes })
        } else {
            None
        }
    }

    /// The number of bytes.
    pub fn get(self) -> u32
        ensures value { result ≡ self }
        ensures range { IsLineLength result }
    {
        self.bytes
    }
}

impl Default for LineLength {
    ghost is_default = { λ line. line ≡ 79 };

    fn default() -> Self {
        LineLength { bytes: 79 }
    }
}
