//! Where a run stands that is stopped after a number of steps.
ghost use Rattle.std.specs.Prelude.{◌≡◌, [], length, take, IfOk, IfSome};
ghost use Rattle.btx_out.specs.laws.Breaking.{Collecting};
ghost use Rattle.btx_out.specs.laws.Lengths.{IsLineLength};
ghost use Rattle.btx_out.specs.refinement.Breakers.{holding};
ghost use Rattle.btx_step.specs.language.Starts.{first_store};
ghost use Rattle.btx_machine.specs.laws.Reports.{log_counts};
ghost use Rattle.btx_machine.specs.refinement.Marks.{StandInCode, frames_of};
ghost use Rattle.btx_machine.specs.refinement.Positions.{next_token};
ghost use Rattle.btx_where.specs.Calls.{AreCalls};
ghost use Rattle.btx_where.specs.Scenes.{IsScene};
ghost use Rattle.btx_where.specs.Shown.{frames_shown};

use crate::calls::are_calls;
use crate::course::{MOST_LITERALS, RunTrace};
use crate::items::do_items;
use crate::levels::levels_of;
use crate::machine::beginning;
use crate::scene::StoppedState;
use crate::stand::ExecutionEnd;
use btx_bst::{BuiltIn, Callee};
use btx_code::Code;
use btx_machine::machine::Position;
use btx_machine::marks::Marks;
use btx_machine::outputs::Outputs;
use btx_machine::program::Program;
use btx_machine::work::Work;
use btx_machine::{Journal, LogCounts, LogSink};
use btx_out::{LineLength, Sink};
use btx_stack::Literal;
use btx_step::{Job, Store};
use btx_text::Fault;
use std::alloc::{AllocError, Global};

// The literals on top, the uppermost first, which are taken off.
#[tactic(auto, using(crate::proofs::ShownLemmas::taken, crate::proofs::ShownLemmas::taken_all, crate::proofs::ShownLemmas::one_more))]
fn literals_of<'a>(alloc: Global, store: &mut Store<'a>) -> Result<Vec<Literal<'a>>, AllocError>
    ensures { IfOk result (λ literals. literals.items ≡ take MOST_LITERALS store.old.literals) }
{
    let mut literals = Vec::new(alloc);
    for _turn in 0..MOST_LITERALS {
        let top = store.pop()?;
        match top {
            Some(literal) => literals.push(literal)?,
            None => return Ok(literals),
        }
    }
    Ok(literals)
}

// What is shown of where the machine stands in the execution of `function`, that of the command of an item. Nothing is open then, and the literals are taken
// off.
fn scene_of<'a>(
    alloc: Global,
    program: Program<'_, 'a>,
    marks: &mut Marks,
    function: Callee,
    item: usize,
    at: &Position,
    store: &mut Store<'a>,
) -> Result<Option<StoppedState<'a>>, AllocError>
    requires placed { StandInCode program.code.now at.now.place marks.old }
    ensures item { IfOk result (λ found. IfSome found (λ scene. scene.item ≡ item)) }
    ensures next { IfOk result (λ found. IfSome found (λ scene. scene.next ≡ next_token program.entry.code.now at.now)) }
    ensures levels { IfOk result (λ found. IfSome found (λ scene. frames_shown program.entry.job.now.style scene.levels.items ≡ frames_of program.entry.code.now at.now.place marks.old)) }
    ensures calls { IfOk result (λ found. IfSome found (λ scene. AreCalls program.entry.job.now scene.entry function scene.levels.items scene.next)) }
    ensures entry { IfOk result (λ found. IfSome found (λ scene. scene.entry ≡ store.old.current)) }
    ensures depth { IfOk result (λ found. IfSome found (λ scene. scene.depth ≡ length store.old.literals)) }
    ensures literals { IfOk result (λ found. IfSome found (λ scene. scene.literals.items ≡ take MOST_LITERALS store.old.literals)) }
{
    let Program { job, code } = program;
    let next = at.token(code);
    let Some(levels) = levels_of(alloc, code, job.style(), at.place, marks)? else {
        return Ok(None);
    };
    let entry = store.current();
    if !are_calls(job, entry, function, levels.as_slice(), next) {
        return Ok(None);
    }
    let depth = store.depth();
    let literals = literals_of(alloc, store)?;
    Ok(Some(StoppedState {
        item,
        next,
        levels,
        entry,
        depth,
        literals,
    }))
}

// Does the items of a style until it is stopped, and shows where it stands.
fn stop<'a, W: Sink, L: LogSink>(
    work: &mut Work<'a, '_, W, L>,
    job: &Job<'a>,
    budget: u64,
    visit: u64,
) -> Result<Option<StoppedState<'a>>, Fault>
    requires store { work.old.store ≡ first_store job.now }
    requires fresh { work.old.outputs.breaker ≡ holding work.old.outputs.breaker.line_length (Collecting []) }
    requires range { IsLineLength work.old.outputs.breaker.line_length }
    ensures { IfOk result (λ found. IfSome found (λ scene. IsScene job.now (log_counts work.old.outputs.log.warnings work.old.outputs.log.errors) budget scene)) }
{
    let code = Code::of(work.alloc, job.style())?;
    let program = Program { job, code: &code };
    let mut marks = Marks::new(work.alloc)?;
    let mut at = beginning(&code, Callee::BuiltIn(BuiltIn::Skip));
    let mut left = budget;
    let mut course = RunTrace::to(work.alloc, budget, visit)?;
    let items = job.style().items();
    let end = do_items(
        work,
        program,
        items,
        &mut marks,
        &mut at,
        &mut left,
        &mut course,
    )?;
    match end {
        ExecutionEnd::Here(function) => {
            let scene = scene_of(
                work.alloc,
                program,
                &mut marks,
                function,
                course.item,
                &at,
                &mut work.store,
            )?;
            Ok(scene)
        }
        _ => Ok(None),
    }
}

/// Runs a job's style for `budget` steps, and shows where it stands then: at which token, what is open, and which literals are on the stack. `visit` is the number of the
/// visit in which it is stopped; if it isn't stopped in that one, nothing is shown. What it writes on the way goes to `list` and `log`.
pub fn scene_after<'a, W: Sink, L: LogSink>(
    alloc: Global,
    job: &Job<'a>,
    counts: LogCounts,
    line: LineLength,
    budget: u64,
    visit: u64,
    list: &mut W,
    log: &mut L,
) -> Result<Option<StoppedState<'a>>, Fault>
    ensures { IfOk result (λ found. IfSome found (λ scene. IsScene job.now counts budget scene)) }
{
    let store = Store::new(alloc, job)?;
    let outputs = Outputs::new(list, line, Journal::new(log, counts));
    let mut work = Work {
        alloc,
        store,
        outputs,
    };
    stop(&mut work, job, budget, visit)
}
