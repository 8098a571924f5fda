//! Where the machine stands, as it is handed out.
use crate::place::Place;
use btx_bst::{Callee, Token};
use btx_stack::Literal;

/// What is open: the body of a function, which goes on after one of its tokens; or a loop, with its test and its body, of which one runs.
#[derive(Clone, Copy, PartialEq, Eq, Debug)]
pub enum Level {
    Body(Place),
    LoopTest(Callee, Callee),
    LoopBody(Callee, Callee),
}

/// Where a run stands that was stopped: in the command of which of the style's items, the token that comes next, what is open, innermost first, the current
/// entry, how many literals there are, and those on top, the uppermost first.
#[derive(Drop)]
pub struct StoppedState<'a> {
    pub item: usize,
    pub next: Token,
    pub levels: Vec<Level>,
    pub entry: Option<usize>,
    pub depth: usize,
    pub literals: Vec<Literal<'a>>,
}
