//! How often a device has failed.
ghost use Rattle.std.specs.Prelude.{◌≡◌};
ghost use Rattle.btx_text.specs.language.Counts.{failures_after};
ghost use Rattle.btx_text.specs.refinement.Counts.{no_failures};

/// What a finder or a sink knows of its device's failures: how often a call has failed, and whether the last one did.
#[derive(Clone, Copy, Debug, PartialEq, Eq)]
pub struct Failures {
    /// How often a call has failed. It goes from `u64::MAX` to 0.
    pub count: u64,
    /// Whether the last call failed.
    pub last_failed: bool,
}

impl Failures {
    /// Of a device that wasn't called yet.
    pub fn none() -> Self
        ensures { result ≡ no_failures }
    {
        Failures {
            count: 0,
            last_failed: false,
        }
    }

    /// Counts one more call, which has failed if `failed`.
    pub fn note(&mut self, failed: bool)
        ensures { self.new ≡ failures_after failed self.old }
    {
        if failed {
            self.count = self.count.wrapping_add(1);
        }
        self.last_failed = failed;
    }
}
