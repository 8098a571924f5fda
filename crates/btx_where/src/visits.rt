//! What commands do, followed step by step or passed over.
ghost use Rattle.std.specs.Prelude.{◌≡◌, ◌≤◌, ◌-◌, [], IfOk, OnOk};
ghost use Rattle.btx_bst.specs.declared.callee.Callee.{Callee as AnyCallee};
ghost use Rattle.btx_machine.specs.declared.ending.Ending.TheVariants as ending;
ghost use Rattle.btx_machine.specs.language.Commands.{visit};
ghost use Rattle.btx_machine.specs.refinement.Commands.{visits};
ghost use Rattle.btx_machine.specs.refinement.Faults.{Writes};
ghost use Rattle.btx_machine.specs.refinement.Marks.{StandInCode};
ghost use Rattle.btx_machine.specs.refinement.Written.{Comes, Runs};
ghost use Rattle.btx_where.specs.Rests.{Executes, StandsInFunction, StandsInCommand};
ghost use Rattle.btx_where.specs.declared.stand.ExecutionEnd.TheVariants.{Finished, Here};

use crate::course::RunTrace;
use crate::machine::{beginning, execute};
use crate::stand::ExecutionEnd;
use btx_bst::Callee;
use btx_machine::machine::Position;
use btx_machine::marks::Marks;
use btx_machine::program::Program;
use btx_machine::work::Work;
use btx_machine::{Command, Ending, LogSink};
use btx_out::Sink;
use btx_text::Fault;

// Executes the function of a command step by step, and then empties the stack.
fn follow<'a, W: Sink, L: LogSink>(
    work: &mut Work<'a, '_, W, L>,
    program: Program<'_, 'a>,
    marks: &mut Marks,
    command: Command,
    function: Callee,
    entry: Option<usize>,
    at: &mut Position,
    left: &mut u64,
    course: &mut RunTrace,
) -> Result<ExecutionEnd, Fault>
    requires empty { marks.old ≡ [] }
    requires writes { Writes work.old.outputs }
    ensures finishes { IfOk result (λ end. end ≡ Finished → Comes work.old work.new (Runs (visit program.entry.job.now command function entry) (left.old - left.new) ending.Finished)) }
    ensures here { IfOk result (λ end. (running : AnyCallee) → end ≡ Here running → running ≡ function) }
    ensures stands { IfOk result (λ end. (running : AnyCallee) → end ≡ Here running → Comes work.old work.new (StandsInFunction program.entry.job.now command program.entry.code.now at.new marks.new (visit program.entry.job.now command function entry) (left.old - left.new))) }
    ensures placed { IfOk result (λ end. (running : AnyCallee) → end ≡ Here running → StandInCode program.entry.code.now at.new.place marks.new) }
    ensures spent { IfOk result (λ end. (running : AnyCallee) → end ≡ Here running → left.new ≡ 0) }
    ensures cleared { IfOk result (λ end. end ≡ Finished → marks.new ≡ []) }
    ensures fewer { left.new ≤ left.old }
    ensures writes { OnOk result (Writes work.new.outputs) }
{
    work.store.set_current(entry);
    *at = beginning(program.code, function);
    let end = execute(work, program, marks, at, left, course)?;
    match end {
        Ending::Finished => {
            let depth = work.store.depth();
            let before = work.outputs.counts();
            work.clear(program.job, command)?;
            let moment = course.moment(*left, before, work.outputs.counts());
            course.note_left(&moment, depth)?;
            course.end_visit();
            Ok(ExecutionEnd::Finished)
        }
        Ending::Stopped => Ok(ExecutionEnd::Here(function)),
        Ending::Limit(limit) => Ok(ExecutionEnd::Limit(limit)),
    }
}

// Executes the function of a command as a run does, and then empties the stack.
fn pass<'a, W: Sink, L: LogSink>(
    work: &mut Work<'a, '_, W, L>,
    program: Program<'_, 'a>,
    marks: &mut Marks,
    command: Command,
    function: Callee,
    entry: Option<usize>,
    left: &mut u64,
    course: &mut RunTrace,
) -> Result<ExecutionEnd, Fault>
    requires empty { marks.old ≡ [] }
    requires writes { Writes work.old.outputs }
    ensures finishes { IfOk result (λ end. end ≡ Finished → Comes work.old work.new (Runs (visit program.entry.job.now command function entry) (left.old - left.new) ending.Finished)) }
    ensures elsewhere { IfOk result (λ end. (running : AnyCallee) → end ≡ Here running → ⊥) }
    ensures cleared { IfOk result (λ end. end ≡ Finished → marks.new ≡ []) }
    ensures fewer { left.new ≤ left.old }
    ensures writes { OnOk result (Writes work.new.outputs) }
{
    let before = work.outputs.counts();
    let end = btx_machine::visits::visit(work, program, marks, command, function, entry, left)?;
    course.note_visit(before, work.outputs.counts())?;
    match end {
        Ending::Finished => {
            course.end_visit();
            Ok(ExecutionEnd::Finished)
        }
        Ending::Stopped => Ok(ExecutionEnd::Somewhere),
        Ending::Limit(limit) => Ok(ExecutionEnd::Limit(limit)),
    }
}

/// Executes the function of a command, for the entry `entry` or for none, and then empties the stack. `left` is how many steps may be taken, and at Ok how
/// many remain. If it is stopped here, `at` and `marks` are where the machine stands then.
pub fn visit<'a, W: Sink, L: LogSink>(
    work: &mut Work<'a, '_, W, L>,
    program: Program<'_, 'a>,
    marks: &mut Marks,
    command: Command,
    function: Callee,
    entry: Option<usize>,
    at: &mut Position,
    left: &mut u64,
    course: &mut RunTrace,
) -> Result<ExecutionEnd, Fault>
    requires empty { marks.old ≡ [] }
    requires writes { Writes work.old.outputs }
    ensures finishes { IfOk result (λ end. end ≡ Finished → Comes work.old work.new (Runs (visit program.entry.job.now command function entry) (left.old - left.new) ending.Finished)) }
    ensures here { IfOk result (λ end. (running : AnyCallee) → end ≡ Here running → running ≡ function) }
    ensures stands { IfOk result (λ end. (running : AnyCallee) → end ≡ Here running → Comes work.old work.new (StandsInFunction program.entry.job.now command program.entry.code.now at.new marks.new (visit program.entry.job.now command function entry) (left.old - left.new))) }
    ensures placed { IfOk result (λ end. (running : AnyCallee) → end ≡ Here running → StandInCode program.entry.code.now at.new.place marks.new) }
    ensures spent { IfOk result (λ end. (running : AnyCallee) → end ≡ Here running → left.new ≡ 0) }
    ensures cleared { IfOk result (λ end. end ≡ Finished → marks.new ≡ []) }
    ensures fewer { left.new ≤ left.old }
    ensures writes { OnOk result (Writes work.new.outputs) }
{
    if course.follows() {
        follow(
            work, program, marks, command, function, entry, at, left, course,
        )
    } else {
        pass(work, program, marks, command, function, entry, left, course)
    }
}

/// Executes the function of a command for each entry of `list`, in order.
pub fn visit_all<'a, W: Sink, L: LogSink>(
    work: &mut Work<'a, '_, W, L>,
    program: Program<'_, 'a>,
    marks: &mut Marks,
    command: Command,
    function: Callee,
    list: &[usize],
    at: &mut Position,
    left: &mut u64,
    course: &mut RunTrace,
) -> Result<ExecutionEnd, Fault>
    requires empty { marks.old ≡ [] }
    requires writes { Writes work.old.outputs }
    ensures finishes { IfOk result (λ end. end ≡ Finished → Comes work.old work.new (Runs (visits program.entry.job.now command function list.now) (left.old - left.new) ending.Finished)) }
    ensures stands { IfOk result (λ end. (running : AnyCallee) → end ≡ Here running → Comes work.old work.new (StandsInCommand (Executes command function) running program.entry.job.now program.entry.code.now at.new marks.new (visits program.entry.job.now command function list.now) (left.old - left.new))) }
    ensures placed { IfOk result (λ end. (running : AnyCallee) → end ≡ Here running → StandInCode program.entry.code.now at.new.place marks.new) }
    ensures spent { IfOk result (λ end. (running : AnyCallee) → end ≡ Here running → left.new ≡ 0) }
    ensures cleared { IfOk result (λ end. end ≡ Finished → marks.new ≡ []) }
    ensures fewer { left.new ≤ left.old }
    ensures writes { OnOk result (Writes work.new.outputs) }
{
    for entry in list {
        match visit(
            work,
            program,
            marks,
            command,
            function,
            Some(*entry),
            at,
            left,
            course,
        )? {
            ExecutionEnd::Finished => {}
            end => return Ok(end),
        }
    }
    Ok(ExecutionEnd::Finished)
}
