//! What the log says of the `.aux` files, and the text of each line.
ghost use Rattle.std.specs.Prelude.{◌≡◌, ◌++◌, IfOk, OnOk, decimal, codes};
ghost use Rattle.btx_text.specs.language.LogLines.{place_text};
ghost use Rattle.btx_aux.specs.language.Notes.{aux_complaint_text, aux_note_kind, aux_note_text};
ghost use Rattle.btx_aux.specs.refinement.Views.{complaint_view, note_view};
ghost use Rattle.btx_aux.specs.refinement.Notes.{aux_note_line, aux_slip_text};

use crate::command::Slip;
use btx_text::log_texts::{push_four, push_mark, push_number, push_place, push_two};
use btx_text::{LineKind, LogLine, Place};
use std::alloc::{AllocError, Global};

/// What is wrong at a place.
#[derive(Clone, Copy)]
pub enum Complaint<'a> {
    /// The rest of a line is given up.
    Slipped(Slip),
    /// A second `\bibdata` line.
    AnotherBibdata,
    /// A second `\bibstyle` line.
    AnotherBibstyle,
    /// A key that differs from a listed one in case alone.
    CaseMismatch { earlier: &'a [u8], key: &'a [u8] },
    /// A second `*`.
    SecondStar,
    /// An include whose name doesn't end in `.aux`.
    WrongExtension(&'a [u8]),
    /// An include of a file that was named before.
    AlreadyMet(&'a [u8]),
    /// An include of a file that isn't there.
    NotOpened(&'a [u8]),
    /// A database that is named again.
    RepeatedDatabase(&'a [u8]),
}

/// What a line of the log is about.
#[derive(Clone, Copy)]
pub enum Note<'a> {
    /// The top file was found.
    TopFile(&'a [u8]),
    /// An included file was found, while this number of files were open.
    LevelFile(usize, &'a [u8]),
    /// Something is wrong at a place.
    Wrong(Complaint<'a>, Place<'a>),
    /// The whole has neither a key nor `*`.
    NoCitations,
    /// The whole has no `\bibdata` line.
    NoBibdata,
    /// The whole has no `\bibstyle` line.
    NoBibstyle,
}

/// The line of a note.
pub fn log_line(alloc: Global, note: Note<'_>) -> Result<LogLine, AllocError>
    ensures { IfOk result (λ line. line ≡ aux_note_line (note_view note.entry)) }
{
    let kind = kind(note);
    let mut text = Vec::new(alloc);
    push_mark(&mut text, kind)?;
    push_note(&mut text, note)?;
    Ok(LogLine::new(text, kind))
}

// What a note is.
#[tactic(auto, unfolding(crate::specs::language::Notes::aux_note_kind))]
fn kind(note: Note<'_>) -> LineKind
    ensures { result ≡ aux_note_kind (note_view note.entry) }
{
    match note {
        Note::TopFile(_) | Note::LevelFile(_, _) => LineKind::Plain,
        Note::Wrong(_, _) | Note::NoCitations | Note::NoBibdata | Note::NoBibstyle =>
            LineKind::Error,
    }
}

// Appends the text of a note.
#[tactic(auto, unfolding(crate::specs::language::Notes::aux_note_text))]
fn push_note(text: &mut Vec<u8>, note: Note<'_>) -> Result<(), AllocError>
    ensures { OnOk result (text.new.items ≡ text.old.items ++ aux_note_text (note_view note.entry)) }
{
    match note {
        Note::TopFile(name) => push_two(text, b"The top-level auxiliary file: ", name),
        Note::LevelFile(level, name) => push_level(text, level, name),
        Note::Wrong(complaint, place) => push_wrong(text, complaint, place),
        Note::NoCitations => text.extend_from_slice(b"I found no \\citation commands"),
        Note::NoBibdata => text.extend_from_slice(b"I found no \\bibdata command"),
        Note::NoBibstyle => text.extend_from_slice(b"I found no \\bibstyle command"),
    }
}

// Appends that an included file was found.
#[tactic(auto, using(btx_text::proofs::JoinLemmas::joins))]
fn push_level(text: &mut Vec<u8>, level: usize, name: &[u8]) -> Result<(), AllocError>
    ensures { OnOk result (text.new.items ≡ text.old.items ++ (codes "A level-" ++ decimal level ++ codes " auxiliary file: " ++ name.now)) }
{
    push_number(text, b"A level-", level as u64)?;
    push_two(text, b" auxiliary file: ", name)
}

// Appends a complaint with its place.
#[tactic(auto, using(btx_text::proofs::JoinLemmas::joins))]
fn push_wrong(
    text: &mut Vec<u8>,
    complaint: Complaint<'_>,
    place: Place<'_>,
) -> Result<(), AllocError>
    ensures { OnOk result (text.new.items ≡ text.old.items ++ (aux_complaint_text (complaint_view complaint.entry)
        ++ place_text place.entry.line place.entry.file.now)) }
{
    push_complaint(text, complaint)?;
    push_place(text, place)
}

// Appends the text of a complaint.
#[tactic(auto, unfolding(crate::specs::language::Notes::aux_complaint_text))]
fn push_complaint(text: &mut Vec<u8>, complaint: Complaint<'_>) -> Result<(), AllocError>
    ensures { OnOk result (text.new.items ≡ text.old.items ++ aux_complaint_text (complaint_view complaint.entry)) }
{
    match complaint {
        Complaint::Slipped(slip) => text.extend_from_slice(slip_text(slip)),
        Complaint::AnotherBibdata => text.extend_from_slice(b"Illegal, another \\bibdata command"),
        Complaint::AnotherBibstyle => text.extend_from_slice(
            b"Illegal, another \\bibstyle command",
        ),
        Complaint::CaseMismatch { earlier, key } => {
            push_four(
                text,
                b"Case mismatch error between cite keys ",
                earlier,
                b" and ",
                key,
            )
        }
        Complaint::SecondStar => text.extend_from_slice(b"Multiple inclusions of entire database"),
        Complaint::WrongExtension(name) => push_two(text, name, b" has a wrong extension"),
        Complaint::AlreadyMet(name) => push_two(text, b"Already encountered file ", name),
        Complaint::NotOpened(name) => push_two(text, b"I couldn't open auxiliary file ", name),
        Complaint::RepeatedDatabase(name) => {
            push_two(text, b"This database file appears more than once: ", name)
        }
    }
}

// The text of a slip.
fn slip_text(slip: Slip) -> &'static [u8]
    ensures { result.now ≡ aux_slip_text slip }
{
    match slip {
        Slip::WhiteSpace => b"White space in argument",
        Slip::Unclosed => b"No \"}\"",
        Slip::StuffAfter => b"Stuff after \"}\"",
    }
}
