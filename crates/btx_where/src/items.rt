//! What the items of a style do, followed step by step or passed over.
ghost use Rattle.std.specs.Prelude.{◌≡◌, ◌≤◌, ◌-◌, [], IfOk, OnOk};
ghost use Rattle.btx_bst.specs.declared.callee.Callee.{Callee as AnyCallee};
ghost use Rattle.btx_bst.specs.refinement.Views.{item_view, items_view};
ghost use Rattle.btx_machine.specs.declared.ending.Ending.TheVariants as ending;
ghost use Rattle.btx_machine.specs.language.Items.{do_item, do_items, list_after};
ghost use Rattle.btx_machine.specs.refinement.Faults.{Writes};
ghost use Rattle.btx_machine.specs.refinement.Marks.{StandInCode};
ghost use Rattle.btx_machine.specs.refinement.Written.{Comes, Runs};
ghost use Rattle.btx_where.specs.Rests.{IsCommandOf, StandsInCommand, StandsInStyle};
ghost use Rattle.btx_where.specs.declared.stand.ExecutionEnd.TheVariants.{Finished, Here};

use crate::course::RunTrace;
use crate::stand::ExecutionEnd;
use crate::visits::{visit, visit_all};
use btx_bst::Item;
use btx_machine::lists::{all_entries, read_limit, reversed};
use btx_machine::machine::Position;
use btx_machine::marks::Marks;
use btx_machine::program::Program;
use btx_machine::work::Work;
use btx_machine::{About, Command, LogSink};
use btx_out::Sink;
use btx_step::sorting::sort;
use btx_text::Fault;

// The first string variable of each entry, `sort.key$`, by which SORT orders the list.
const SORT_VARIABLE: u32 = 0;

/// Does items, one after another. If it is stopped here, `at` and `marks` are where the machine stands then, in the item whose number `course` has.
pub fn do_items<'a, W: Sink, L: LogSink>(
    work: &mut Work<'a, '_, W, L>,
    program: Program<'_, 'a>,
    items: &[Item<'_>],
    marks: &mut Marks,
    at: &mut Position,
    left: &mut u64,
    course: &mut RunTrace,
) -> Result<ExecutionEnd, Fault>
    requires empty { marks.old ≡ [] }
    requires writes { Writes work.old.outputs }
    ensures stands { IfOk result (λ end. (running : AnyCallee) → end ≡ Here running → Comes work.old work.new (StandsInStyle (items_view items.now) course.new.item running program.entry.job.now program.entry.code.now at.new marks.new (do_items program.entry.job.now (items_view items.now) []) (left.old - left.new))) }
    ensures placed { IfOk result (λ end. (running : AnyCallee) → end ≡ Here running → StandInCode program.entry.code.now at.new.place marks.new) }
    ensures spent { IfOk result (λ end. (running : AnyCallee) → end ≡ Here running → left.new ≡ 0) }
    ensures fewer { left.new ≤ left.old }
    ensures writes { OnOk result (Writes work.new.outputs) }
{
    let mut list = Vec::new(work.alloc);
    for (number, item) in items.iter().enumerate() {
        course.stand_in(number);
        match do_item(work, program, &mut list, marks, item, at, left, course)? {
            ExecutionEnd::Finished => {}
            end => {
                // The number is still this one: it is said once more for the contract.
                course.stand_in(number);
                return Ok(end);
            }
        }
    }
    Ok(ExecutionEnd::Finished)
}

// Does an item, and leaves the entries in the order that it leaves.
#[tactic(auto, unfolding(btx_machine::specs::language::Items::do_item))]
fn do_item<'a, W: Sink, L: LogSink>(
    work: &mut Work<'a, '_, W, L>,
    program: Program<'_, 'a>,
    list: &mut Vec<usize>,
    marks: &mut Marks,
    item: &Item<'_>,
    at: &mut Position,
    left: &mut u64,
    course: &mut RunTrace,
) -> Result<ExecutionEnd, Fault>
    requires empty { marks.old ≡ [] }
    requires writes { Writes work.old.outputs }
    ensures finishes { IfOk result (λ end. end ≡ Finished → Comes work.old work.new (Runs (do_item program.entry.job.now list.old.items (item_view item.now)) (left.old - left.new) ending.Finished)) }
    ensures list { IfOk result (λ end. end ≡ Finished → list.new.items ≡ list_after program.entry.job.now (item_view item.now) list.old.items work.old.store) }
    ensures stands { IfOk result (λ end. (running : AnyCallee) → end ≡ Here running → Comes work.old work.new (StandsInCommand (IsCommandOf (item_view item.now)) running program.entry.job.now program.entry.code.now at.new marks.new (do_item program.entry.job.now list.old.items (item_view item.now)) (left.old - left.new))) }
    ensures placed { IfOk result (λ end. (running : AnyCallee) → end ≡ Here running → StandInCode program.entry.code.now at.new.place marks.new) }
    ensures spent { IfOk result (λ end. (running : AnyCallee) → end ≡ Here running → left.new ≡ 0) }
    ensures cleared { IfOk result (λ end. end ≡ Finished → marks.new ≡ []) }
    ensures fewer { left.new ≤ left.old }
    ensures writes { OnOk result (Writes work.new.outputs) }
{
    match item {
        Item::Message(message) => {
            let line = message.log_line(work.alloc, program.job.style().file_name())?;
            work.log_one(&line, About::Style(program.job.style()))?;
            Ok(ExecutionEnd::Finished)
        }
        Item::Read => {
            let all = all_entries(work.alloc, program.job)?;
            work.log_library(program.job)?;
            match read_limit(program.job) {
                Some(kind) => Ok(ExecutionEnd::Limit(kind)),
                None => {
                    *list = all;
                    Ok(ExecutionEnd::Finished)
                }
            }
        }
        Item::Execute(function) => visit(
            work,
            program,
            marks,
            Command::Execute,
            *function,
            None,
            at,
            left,
            course,
        ),
        Item::Iterate(function) => visit_all(
            work,
            program,
            marks,
            Command::Iterate,
            *function,
            list.as_slice(),
            at,
            left,
            course,
        ),
        Item::Reverse(function) => {
            let reversed = reversed(list)?;
            visit_all(
                work,
                program,
                marks,
                Command::Reverse,
                *function,
                reversed.as_slice(),
                at,
                left,
                course,
            )
        }
        Item::Sort => {
            sort(list, &work.store, SORT_VARIABLE)?;
            Ok(ExecutionEnd::Finished)
        }
        Item::Entry | Item::Function(_) | Item::Integers | Item::Strings | Item::Macro => {
            Ok(ExecutionEnd::Finished)
        }
    }
}
