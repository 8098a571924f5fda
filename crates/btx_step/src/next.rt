//! What follows a step.
use btx_bst::Callee;
use btx_text::Limit;

/// What follows a step: nothing, the end of the run, the execution of one function, the body of a function, or the turns of a loop,
/// with its test and its body.
#[derive(Clone, Copy, PartialEq, Eq, Debug)]
pub enum Next {
    Nothing,
    End(Limit),
    Run(Callee),
    Open(u32),
    Loop(Callee, Callee),
}
