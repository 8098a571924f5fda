//! What is open, level by level.
ghost use Rattle.std.specs.Prelude.{◌≡◌, ◌<◌, ◌∷◌, List, IfOk, IfSome, length, map};
ghost use Rattle.btx_code.specs.refinement.Codes.{bodies_of};
ghost use Rattle.btx_code.specs.refinement.Ops.{Runs};
ghost use Rattle.btx_machine.specs.refinement.Marks.{Open, frames_of, open_of};
ghost use Rattle.btx_where.specs.Shown.{frame_of};

use crate::place::place_before;
use crate::scene::Level;
use btx_bst::Style;
use btx_code::Code;
use btx_code::op::callee_of;
use btx_machine::marks::{Mark, MarkKind, Marks};
use std::alloc::{AllocError, Global};

// The level of what is open on top, which goes on at `place`.
fn level_of(code: &Code, style: &Style<'_>, place: usize, mark: Mark) -> Option<Level>
    requires code { bodies_of code.now ≡ style.now.bodies }
    ensures { IfSome result (λ level. (below : List Open) → frames_of code.now place (open_of mark ∷ below) ≡ frame_of style.now level ∷ frames_of code.now mark.place below) }
{
    match mark.kind {
        MarkKind::Body => Some(Level::Body(place_before(code, style, place)?)),
        MarkKind::LoopTest => Some(Level::LoopTest(
            callee_of(mark.test.op, mark.test.number),
            callee_of(mark.body.op, mark.body.number),
        )),
        MarkKind::LoopBody => Some(Level::LoopBody(
            callee_of(mark.test.op, mark.test.number),
            callee_of(mark.body.op, mark.body.number),
        )),
    }
}

/// What is open, innermost first, where what is on top goes on at `from`. Nothing is open then. If a place can't be found, there are no levels.
pub fn levels_of(
    alloc: Global,
    code: &Code,
    style: &Style<'_>,
    from: usize,
    marks: &mut Marks,
) -> Result<Option<Vec<Level>>, AllocError>
    requires code { bodies_of code.now ≡ style.now.bodies }
    ensures { IfOk result (λ found. IfSome found (λ levels. map (frame_of style.now) levels.items ≡ frames_of code.now from marks.old)) }
{
    let mut levels = Vec::new(alloc);
    let mut place = from;
    'levels: while let Some(mark) = marks.top() {
        let Some(level) = level_of(code, style, place, mark) else {
            return Ok(None);
        };
        levels.push(level)?;
        marks.pop(mark);
        place = mark.place;
    }
    Ok(Some(levels))
}
