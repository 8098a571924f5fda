//! How the execution of a style came to its end, for one that follows it.
use btx_bst::Callee;
use btx_text::Limit;

/// How the execution of a style, or of a part of it, came to its end.
#[derive(Clone, Copy, Debug, PartialEq, Eq)]
pub enum ExecutionEnd {
    /// All of it was executed.
    Finished,
    /// A limit was met.
    Limit(Limit),
    /// No step is left, and where the machine stands is known: in the execution of this function, that of a command.
    Here(Callee),
    /// No step is left, in a visit whose steps weren't followed.
    Somewhere,
}
