//! What may go wrong in a style, as data for whoever shows it to its designer: places, operands and causes.
ghost use Rattle.std.specs.Prelude.{◌≡◌, []};
ghost use Rattle.std.specs.Result.{IfOk};
ghost use Rattle.btx_check.specs.declared.verdict.Verdict.TheVariants as verdict;
ghost use Rattle.btx_check.specs.Verdicts.{IsRight};
ghost use Rattle.btx_lint.specs.Findings.{NoneIfClean};

use crate::visits::trace;
use btx_bst::{Callee, Style};
use btx_check::description::Value;
use btx_check::verdict::{Clean, Verdict, judged};
use btx_check::work::{Place, Work};
use btx_step::OperandKind;
use std::alloc::{AllocError, Global};

/// The message that a job may log.
#[derive(Clone, Copy, PartialEq, Eq)]
pub enum Fault {
    /// The literal stack is empty.
    EmptyStack,
    /// An operand is of a wrong kind.
    WrongKind,
    /// `=` can't compare its operands.
    Incomparable,
    /// `:=` gets no variable.
    NotAssignable,
    /// No entry is current.
    NoEntry,
    /// Literals are left on the stack when a command ends.
    LeftOver,
}

/// An operand that is the reason of a fault.
#[derive(Clone, Copy)]
pub struct Operand {
    /// Its position on the stack: 0 is on top.
    pub position: usize,
    /// What it may be.
    pub value: Value,
    /// The field or variable whose value it is, if it is one's.
    pub name: Option<Callee>,
    /// What the function wants there, if it wants one kind.
    pub wanted: Option<OperandKind>,
}

/// What is known of a field of the entry where a fault was met.
#[derive(Clone, Copy)]
pub struct Condition {
    /// The field.
    pub field: u32,
    /// Whether it is given, with more than whitespace. If not, it is missing or blank.
    pub is_given: bool,
}

/// A place where a style may go wrong.
#[derive(Drop)]
pub struct Finding {
    /// The message.
    pub fault: Fault,
    /// The place. Literals that are left over have the end of the command's function.
    pub place: Place,
    /// What is executed there.
    pub executed: Callee,
    /// The operand that is the reason, if one is.
    pub operand: Option<Operand>,
    /// How many literals are on the stack.
    pub literals: usize,
    /// The places of the calls that lead there, the outermost first, and the place itself.
    pub way: Vec<Place>,
    /// The command, by its number among the items of the style.
    pub item: usize,
    /// The functions of the types for which it was met. None is a type that the style doesn't know, or a command that doesn't ask for the type.
    pub types: Vec<Option<u32>>,
    /// What is known of fields where it was first met.
    pub conditions: Vec<Condition>,
    /// Whether it can be the first fault of a visit. If not, it was met only after another one.
    pub is_first: bool,
}

/// A cause of too few or too many literals: an `if$` whose branches leave different numbers of them, in a function that therefore does, too.
#[derive(Clone, Copy)]
pub struct Cause {
    /// The function of the style that has a name.
    pub function: u32,
    /// The `if$`, which stands in it or in a nameless function of it.
    pub place: Place,
    /// The least number of literals, and the greatest, on the stack after the first function, beside that before it.
    pub yes: Growth,
    /// The same after the second function.
    pub no: Growth,
}

/// By how many literals the stack grows, at least and at most.
#[derive(Clone, Copy, PartialEq, Eq)]
pub struct Growth {
    pub least: i64,
    pub most: i64,
}

/// What is found of a style.
#[derive(Drop)]
pub struct Findings {
    /// The verdict of `check`.
    pub verdict: Verdict,
    /// Where the style may go wrong, each place and message once. There is none if the verdict is `Clean`.
    pub found: Vec<Finding>,
    /// Causes of these, as far as the search knows them.
    pub causes: Vec<Cause>,
    /// Whether the search for places came to its end.
    pub is_whole: bool,
}

/// Checks `style` as `check` does, in at most `steps` steps. If it isn't clean, another search, in at most as many steps, goes on after each fault and collects
/// the places. That these are all, or that each of them can be met, isn't promised.
pub fn examine(alloc: Global, style: &Style, steps: u64) -> Result<Findings, AllocError>
    ensures verdict { IfOk result (λ findings. IsRight style.now findings.verdict) }
    ensures none { IfOk result (λ findings. NoneIfClean findings.verdict findings.found.items) }
{
    let mut work = Work::new(alloc, steps);
    match judged(&mut work, style)? {
        Verdict::Clean(clean) => Ok(without_places(alloc, clean)),
        Verdict::NotKnownClean(warning) => with_places(
            work,
            style,
            Verdict::NotKnownClean(warning),
        ),
        Verdict::Incomplete => with_places(work, style, Verdict::Incomplete),
    }
}

// What is found of a style that is clean, as `clean` says.
fn without_places(alloc: Global, clean: Clean) -> Findings
    ensures verdict { result.verdict ≡ verdict.Clean clean }
    ensures none { result.found.items ≡ [] }
{
    Findings {
        verdict: Verdict::Clean(clean),
        found: Vec::new(alloc),
        causes: Vec::new(alloc),
        is_whole: true,
    }
}

// What is found of a style by another search, beside `verdict`. The search goes by what `work` says.
fn with_places(work: Work, style: &Style, verdict: Verdict) -> Result<Findings, AllocError>
    ensures { IfOk result (λ findings. findings.verdict ≡ verdict) }
{
    let traced = trace(work, style)?;
    Ok(Findings {
        verdict,
        found: traced.found,
        causes: traced.causes,
        is_whole: traced.is_whole,
    })
}
