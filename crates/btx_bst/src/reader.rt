//! The reader of a style's items.
ghost use Rattle.std.specs.Prelude.{◌≡◌, IfOk, OnOk};
ghost use Rattle.btx_text.specs.language.Keys.{folded};
ghost use Rattle.btx_bst.specs.language.Commands.{command_named};
ghost use Rattle.btx_bst.specs.language.Outcomes.{after_read};
ghost use Rattle.btx_bst.specs.language.StyleText.{item_turn, style_state, style_from};
ghost use Rattle.btx_bst.specs.refinement.Weights.{HasRoom};
ghost use Rattle.btx_bst.specs.refinement.DraftViews.{draft_view, item_turn_view, outcome_view};
ghost use Rattle.btx_bst.specs.refinement.StyleText.{word_outcome};
ghost use Rattle.btx_bst.specs.refinement.Views.{read_text};
ghost use Rattle.btx_bst.specs.laws.Recorded.{Records, item_recorded, known_recorded, recorded_after, style_recorded};

use crate::command::Command;
use crate::complaint::Complaint;
use crate::cursor::Cursor;
use crate::draft::StyleBuilder;
use crate::message::logged;
use crate::recorder::Recording;
use crate::span::Stretch;
use btx_text::Lowered;
use std::alloc::{AllocError, Global};

/// Takes all items that are left, and records where they stand.
#[tactic(auto, using(crate::proofs::StyleLemmas::style_steps))]
pub fn items<'a, R: Recording>(
    alloc: Global,
    cursor: &mut Cursor<'a>,
    draft: &mut StyleBuilder<'a>,
    recorder: &mut R,
) -> Result<(), AllocError>
    requires { HasRoom (draft_view draft.old) cursor.old }
    ensures style { OnOk result (draft_view draft.new ≡ style_from (style_state (draft_view draft.old) cursor.old)) }
    ensures recorded { OnOk result (Records (style_recorded (style_state (draft_view draft.old) cursor.old)) (R.recorded recorder.old) (R.recorded recorder.new)) }
{
    while item(alloc, cursor, draft, recorder)? {}
    Ok(())
}

// Takes an item, if there is one.
#[tactic(auto, unfolding(crate::specs::language::StyleText::item_turn))]
fn item<'a, R: Recording>(
    alloc: Global,
    cursor: &mut Cursor<'a>,
    draft: &mut StyleBuilder<'a>,
    recorder: &mut R,
) -> Result<bool, AllocError>
    requires { HasRoom (draft_view draft.old) cursor.old }
    ensures turn { IfOk result (λ more. item_turn_view more (draft_view draft.new) cursor.new ≡ item_turn (style_state (draft_view draft.old) cursor.old)) }
    ensures recorded { OnOk result (Records (item_recorded (style_state (draft_view draft.old) cursor.old)) (R.recorded recorder.old) (R.recorded recorder.new)) }
{
    cursor.go_to_ink();
    if cursor.line().is_empty() {
        return Ok(false);
    }
    let from = cursor.spot();
    let word = cursor.letters();
    let to = cursor.spot();
    match command(alloc, cursor, draft, word, recorder)? {
        None => recorder.item(Stretch { from, to })?,
        Some(complaint) => {
            let fault = cursor.spot();
            draft.items.push(logged(complaint, cursor.number()))?;
            recorder.item(Stretch {
                from: fault,
                to: fault,
            })?;
            cursor.skip();
        }
    }
    Ok(true)
}

// Takes the rest of a command, whose word was read, or was not.
fn command<'a, R: Recording>(
    alloc: Global,
    cursor: &mut Cursor<'a>,
    draft: &mut StyleBuilder<'a>,
    word: Result<&'a [u8], Complaint<'a>>,
    recorder: &mut R,
) -> Result<Option<Complaint<'a>>, AllocError>
    requires { HasRoom (draft_view draft.old) cursor.old }
    ensures outcome { IfOk result (λ complaint. outcome_view complaint (draft_view draft.new) cursor.new
        ≡ after_read (draft_view draft.old) (read_text word.entry cursor.old) (λ word place. word_outcome (draft_view draft.old) place word (command_named (folded word)))) }
    ensures recorded { OnOk result (Records (recorded_after (read_text word.entry cursor.old)
        (λ word place. known_recorded (draft_view draft.old) place (command_named (folded word)))) (R.recorded recorder.old) (R.recorded recorder.new)) }
{
    let word = match word {
        Ok(word) => word,
        Err(complaint) => return Ok(Some(complaint)),
    };
    let lowered = Lowered::of(alloc, word)?;
    match command_named(lowered.as_bytes()) {
        None => Ok(Some(Complaint::NotCommand(word))),
        Some(command) => draft.command(alloc, cursor, command, recorder),
    }
}

// The command whose word a name is, by a table of the words.
macro_rules! with_word {
    ($name:ident, $($word:literal => $command:ident,)*) => {{
        $(
            if $name == $word.as_slice() {
                return Some(Command::$command);
            }
        )*
        None
    }};
}

// The command of a name in lower case.
#[tactic(auto, unfolding(crate::specs::language::Commands::command_named))]
fn command_named(name: &[u8]) -> Option<Command>
    ensures { result ≡ command_named name.now }
{
    with_word! {
        name,
        b"entry" => Entry,
        b"function" => Function,
        b"read" => Read,
        b"execute" => Execute,
        b"iterate" => Iterate,
        b"reverse" => Reverse,
        b"sort" => Sort,
        b"integers" => Integers,
        b"strings" => Strings,
        b"macro" => Macro,
    }
}
