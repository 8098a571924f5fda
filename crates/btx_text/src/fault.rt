//! What a call can fail with.
use std::alloc::{AllocError, AllocFailed};
use thiserror::Error;

/// What a call can fail with.
#[derive(Clone, Copy, Debug, PartialEq, Eq, Error)]
pub enum Fault {
    /// Memory was refused.
    #[error("out of memory")]
    Memory,
    /// A file could not be read or an output not be written.
    #[error("device error")]
    Device,
    /// A file has more than 2,147,483,647 bytes.
    #[error("a file is too long")]
    FileLimit,
    /// A string has more than 1,000,000 bytes.
    #[error("a string is too long")]
    StringLimit,
}

impl From<AllocError> for Fault {
    ghost use Rattle.std.specs.Prelude.{◌≡◌};
    ghost use Rattle.btx_text.specs.declared.fault.Fault.TheVariants.{Memory};

    ghost from_gives = { λ _ fault. fault ≡ Memory };

    fn from(_error: AllocError) -> Fault {
        Fault::Memory
    }
}

impl<T: Drop> From<AllocFailed<T>> for Fault {
    ghost use Rattle.std.specs.Prelude.{◌≡◌};
    ghost use Rattle.btx_text.specs.declared.fault.Fault.TheVariants.{Memory};

    ghost from_gives = { λ _ fault. fault ≡ Memory };

    fn from(_error: AllocFailed<T>) -> Fault {
        Fault::Memory
    }
}
