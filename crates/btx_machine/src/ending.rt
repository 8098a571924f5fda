//! How the execution of a style ends.
use btx_text::Limit;

/// How the execution of a style ends.
#[derive(Clone, Copy, Debug, PartialEq, Eq)]
pub enum Ending {
    /// All of the style was executed.
    Finished,
    /// The budget did not cover the next step.
    Stopped,
    /// A limit was met.
    Limit(Limit),
}
