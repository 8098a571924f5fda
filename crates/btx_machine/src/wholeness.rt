//! Whether a log has all that was noted.
ghost use Rattle.std.specs.Prelude.{◌≡◌};
ghost use Rattle.btx_machine.specs.refinement.Wholeness.{wholeness_after};

/// Whether a log has all that was noted since it was joined with its notebook.
#[derive(Clone, Copy, Debug, PartialEq, Eq)]
pub enum Wholeness {
    /// It has each line that was noted, and nothing else.
    Whole,
    /// The same but for the last line: of that it has a prefix.
    CutOff,
    /// A line was written after one that failed.
    Lost,
}

impl Wholeness {
    /// Whether the log has all, after one more line, which has failed if `failed`.
    pub fn after(self, failed: bool) -> Wholeness
        ensures { result ≡ wholeness_after failed self }
    {
        match self {
            Wholeness::Whole if failed => Wholeness::CutOff,
            Wholeness::Whole => Wholeness::Whole,
            Wholeness::CutOff | Wholeness::Lost => Wholeness::Lost,
        }
    }
}
