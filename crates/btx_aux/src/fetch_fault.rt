//! Why a file could not be fetched.
ghost use Rattle.std.specs.Prelude.{◌≡◌};
ghost use Rattle.btx_aux.specs.refinement.Fetches.{fault_of};

use btx_text::Fault;
use thiserror::Error;

/// Why a file could not be fetched.
#[derive(Clone, Copy, Debug, PartialEq, Eq, Error)]
pub enum FetchFault {
    /// Memory was refused.
    #[error("out of memory")]
    Memory,
    /// The device failed.
    #[error("device error")]
    Device,
}

/// What a fetch answers: whether there is such a file, or why it could not be fetched.
pub type Fetched = Result<bool, FetchFault>;

impl From<FetchFault> for Fault {
    ghost from_gives = { λ fault result. result ≡ fault_of fault };

    fn from(fault: FetchFault) -> Fault {
        match fault {
            FetchFault::Memory => Fault::Memory,
            FetchFault::Device => Fault::Device,
        }
    }
}
