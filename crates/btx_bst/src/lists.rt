//! Lists of names.
ghost use Rattle.std.specs.Prelude.{◌≡◌, ◌<◌, ◌+◌, ◌^◌, IfOk};
ghost use Rattle.btx_bst.specs.language.Places.{size};
ghost use Rattle.btx_bst.specs.refinement.Weights.{names_weight};
ghost use Rattle.btx_bst.specs.language.Lists.{list_at, list_turn, listing};
ghost use Rattle.btx_bst.specs.refinement.Views.{listed_view, list_turn_view};

use crate::callee::Kind;
use crate::complaint::Complaint;
use crate::cursor::Cursor;
use crate::names::Names;
use crate::turn::Turn;
use btx_text::Lowered;
use std::alloc::{AllocError, Global};

/// Takes a list of names in braces, of a kind.
#[tactic(auto, using(crate::proofs::ListLemmas::list_steps))]
pub fn list<'a>(
    alloc: Global,
    cursor: &mut Cursor<'a>,
    names: &mut Names<'a>,
    kind: Kind,
) -> Result<Option<Complaint<'a>>, AllocError>
    requires { size cursor.old + names_weight names.old < 2 ^ 32 }
    ensures { IfOk result (λ complaint. listed_view complaint names.new cursor.new ≡ list_at kind names.old cursor.old) }
{
    if let Err(complaint) = cursor.opening() {
        return Ok(Some(complaint));
    }
    loop {
        match turn(alloc, cursor, names, kind)? {
            Turn::Again => {}
            Turn::Whole => return Ok(None),
            Turn::Broken(complaint) => return Ok(Some(complaint)),
        }
    }
}

// Takes a name, or the `}`.
#[tactic(auto, unfolding(crate::specs::language::Lists::list_turn))]
fn turn<'a>(
    alloc: Global,
    cursor: &mut Cursor<'a>,
    names: &mut Names<'a>,
    kind: Kind,
) -> Result<Turn<'a>, AllocError>
    requires { size cursor.old + names_weight names.old < 2 ^ 32 }
    ensures { IfOk result (λ turn. list_turn_view turn names.new cursor.new ≡ list_turn kind (listing names.old cursor.old)) }
{
    if cursor.closing().is_ok() {
        return Ok(Turn::Whole);
    }
    let name = match cursor.name() {
        Ok(name) => name,
        Err(complaint) => return Ok(Turn::Broken(complaint)),
    };
    let lowered = Lowered::of(alloc, name)?;
    if names.find(lowered.as_bytes()).is_some() {
        return Ok(Turn::Broken(Complaint::Defined(name)));
    }
    names.add(alloc, kind, lowered)?;
    Ok(Turn::Again)
}
