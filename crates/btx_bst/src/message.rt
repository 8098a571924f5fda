//! What is wrong in a style, with its place.
ghost use Rattle.std.specs.Prelude.{◌≡◌, ◌++◌, OnOk, IfOk};
ghost use Rattle.btx_bst.specs.language.Items as spec;
ghost use Rattle.btx_bst.specs.language.MessageTexts.{complaint_line, complaint_text};
ghost use Rattle.btx_bst.specs.refinement.Views.{complaint_view, item_view};
ghost use Rattle.btx_bst.specs.refinement.MessageTexts.{before_shown, shown_of, after_shown};

use crate::complaint::Complaint;
use crate::item::Item;
use btx_text::log_texts::{push_mark, push_place, push_two};
use btx_text::{LineKind, LogLine, Place};
use std::alloc::{AllocError, Global};

/// What is wrong, and the number of the line where it is met.
#[derive(Clone, Copy, Debug)]
pub struct Message<'a> {
    /// What is wrong.
    pub complaint: Complaint<'a>,
    /// The line, from 1 up; 0 in a file without lines.
    pub line: usize,
}

impl<'a> Message<'a> {
    /// The line of the log, with the place of what is wrong in the file of this name.
    #[tactic(auto, using(crate::proofs::LineLemmas::line_steps))]
    pub fn log_line(&self, alloc: Global, file: &[u8]) -> Result<LogLine, AllocError>
        ensures { IfOk result (λ line. line ≡ complaint_line (complaint_view self.now.complaint) self.now.line file.now) }
    {
        let mut text = Vec::new(alloc);
        push_mark(&mut text, LineKind::Error)?;
        push_complaint(&mut text, self.complaint)?;
        push_place(
            &mut text,
            Place {
                file,
                line: self.line,
            },
        )?;
        Ok(LogLine::new(text, LineKind::Error))
    }
}

/// The item for a message.
pub fn logged(complaint: Complaint<'_>, line: usize) -> Item<'_>
    ensures { item_view result ≡ spec.Message (complaint_view complaint.entry) line }
{
    Item::Message(Message { complaint, line })
}

// Appends what is wrong.
#[tactic(auto, using(crate::proofs::LineLemmas::complaint_steps))]
fn push_complaint(text: &mut Vec<u8>, complaint: Complaint<'_>) -> Result<(), AllocError>
    ensures { OnOk result (text.new.items ≡ text.old.items ++ complaint_text (complaint_view complaint.entry)) }
{
    text.extend_from_slice(before(complaint))?;
    push_two(text, shown(complaint), after(complaint))
}

// What stands before the name or the command that is shown, or the whole text.
#[tactic(auto, unfolding(crate::specs::refinement::MessageTexts::before_shown))]
fn before(complaint: Complaint<'_>) -> &'static [u8]
    ensures { result.now ≡ before_shown (complaint_view complaint.entry) }
{
    match complaint {
        Complaint::NoCommand => b"I was expecting a command",
        Complaint::NoOpen => b"I was expecting a {",
        Complaint::NoClose => b"I was expecting a }",
        Complaint::NoName => b"I was expecting a name",
        Complaint::BadInteger => b"Illegal integer",
        Complaint::TextAfter => b"Illegal text after a literal",
        Complaint::NoQuoteEnd => b"No \" to end string literal",
        Complaint::Another(_) => b"Illegal, another ",
        Complaint::BeforeRead(_) => b"Illegal, ",
        Complaint::BeforeEntry => b"Illegal, READ command before ENTRY",
        Complaint::AfterRead => b"Illegal, MACRO command after READ",
        Complaint::NoQuote => b"I was expecting a \"",
        Complaint::EndOfFile => b"Illegal end of style file",
        Complaint::NotCommand(_) | Complaint::Defined(_) | Complaint::Unknown(_) => b"",
    }
}

// The name or the command that is shown.
#[tactic(auto, unfolding(crate::specs::refinement::MessageTexts::shown_of))]
fn shown<'a>(complaint: Complaint<'a>) -> &'a [u8]
    ensures { result.now ≡ shown_of (complaint_view complaint.entry) }
{
    match complaint {
        Complaint::NotCommand(name) => name,
        Complaint::Defined(name) => name,
        Complaint::Unknown(name) => name,
        Complaint::Another(command) => command.word(),
        Complaint::BeforeRead(command) => command.word(),
        _ => b"",
    }
}

// What stands after it.
#[tactic(auto, unfolding(crate::specs::refinement::MessageTexts::after_shown))]
fn after(complaint: Complaint<'_>) -> &'static [u8]
    ensures { result.now ≡ after_shown (complaint_view complaint.entry) }
{
    match complaint {
        Complaint::NotCommand(_) => b" isn't a command",
        Complaint::Defined(_) => b" is already defined",
        Complaint::Unknown(_) => b" is an unknown function",
        Complaint::Another(_) => b" command",
        Complaint::BeforeRead(_) => b" command before READ",
        _ => b"",
    }
}
