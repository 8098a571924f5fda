//! The reading of the `.aux` files.
ghost use Rattle.std.specs.Prelude.{◌≡◌, ◌≤◌, length, map, true, OnErr, OnOk};
ghost use Rattle.btx_text.specs.language.Limits.{greatest_file, is_too_long};
ghost use Rattle.btx_aux.specs.refinement.Answers.{Answered, ByAnswers};
ghost use Rattle.btx_aux.specs.refinement.Faults.{CountsOfOne};
ghost use Rattle.btx_aux.specs.language.Grammar.{is_whole, words_of};
ghost use Rattle.btx_aux.specs.language.Events.{event_at, said};
ghost use Rattle.btx_aux.specs.refinement.Reads.{AddsNames, AsksFirst, AsksNew, AsksOneAtMost, included, names_opened, opened_by, run};

use crate::draft::AuxJobBuilder;
use crate::end::End;
use crate::finder::Finder;
use btx_text::{Fault, GREATEST_FILE, Place, lines};
use std::alloc::Global;

/// How many files may be open at once.
pub const MOST_OPEN: usize = 20;

// An include of a file at a place, where this number of further files may be opened.
#[cycle(reading)]
fn include<F: Finder>(
    alloc: Global,
    finder: &mut F,
    draft: &mut AuxJobBuilder,
    name: &[u8],
    place: Place<'_>,
    room: usize,
) -> Result<(), Fault>
    requires whole { is_whole draft.old.ending ≡ true }
    requires room { room ≤ 19 }
    ensures draft { OnOk result (ByAnswers (F.content finder.old) (F.answers finder.old) (F.answers finder.new)
        (AsksFirst name.now draft.old.files draft.new.files)
        (λ files. draft.new ≡ included (opened_by files room) draft.old place.entry.file.now place.entry.line name.now (files name.now))) }
    ensures asked { OnErr result (Answered (F.content finder.old) (F.answers finder.old) (F.answers finder.new) (AsksOneAtMost name.now draft.old.files)) }
    ensures counts { CountsOfOne result (F.failures finder.old, F.failures finder.new) }
    ensures stays { F.content finder.new ≡ F.content finder.old }
{
    let mut text = Vec::new(alloc);
    if !finder.fetch(alloc, name, &mut text)? {
        draft.miss_file(alloc, name, place)?;
        return Ok(());
    }
    open_file(alloc, finder, draft, name, text.as_slice(), room)
}

/// A file that was found, where this number of further files may be opened.
#[cycle(reading)]
pub fn open_file<F: Finder>(
    alloc: Global,
    finder: &mut F,
    draft: &mut AuxJobBuilder,
    name: &[u8],
    text: &[u8],
    room: usize,
) -> Result<(), Fault>
    requires whole { is_whole draft.old.ending ≡ true }
    requires room { room ≤ MOST_OPEN }
    ensures draft { OnOk result (ByAnswers (F.content finder.old) (F.answers finder.old) (F.answers finder.new)
        (AddsNames (names_opened draft.old.files name.now room) draft.new.files)
        (λ files. draft.new ≡ opened_by files room draft.old name.now text.now)) }
    ensures asked { OnErr result (Answered (F.content finder.old) (F.answers finder.old) (F.answers finder.new)
        (AsksNew (names_opened draft.old.files name.now room))) }
    ensures counts { CountsOfOne result (F.failures finder.old, F.failures finder.new) }
    ensures stays { F.content finder.new ≡ F.content finder.old }
{
    if room == 0 {
        draft.ending = End::TooManyOpen;
        return Ok(());
    }
    draft.open_file(alloc, name, MOST_OPEN - room)?;
    if is_too_long(text) {
        draft.ending = End::FileLimit;
        return Ok(());
    }
    read_lines(alloc, finder, draft, name, text, room - 1)
}

// Whether a file is too long to be read.
fn is_too_long(text: &[u8]) -> bool
    ensures { result ≡ is_too_long text.now }
{
    text.len() > GREATEST_FILE
}

// The lines of an open file, where this number of further files may be opened.
#[cycle(reading)]
fn read_lines<F: Finder>(
    alloc: Global,
    finder: &mut F,
    draft: &mut AuxJobBuilder,
    name: &[u8],
    text: &[u8],
    room: usize,
) -> Result<(), Fault>
    requires whole { is_whole draft.old.ending ≡ true }
    requires room { room ≤ 19 }
    requires length { length text.now ≤ greatest_file }
    ensures draft { OnOk result (ByAnswers (F.content finder.old) (F.answers finder.old) (F.answers finder.new) (AddsNames draft.old.files draft.new.files)
        (λ files. draft.new ≡ run files (opened_by files room) draft.old (said name.now text.now))) }
    ensures asked { OnErr result (Answered (F.content finder.old) (F.answers finder.old) (F.answers finder.new) (AsksNew draft.old.files)) }
    ensures counts { CountsOfOne result (F.failures finder.old, F.failures finder.new) }
    ensures stays { F.content finder.new ≡ F.content finder.old }
{
    let mut number = 0;
    for line in lines(text) {
        number += 1;
        let place = Place {
            file: name,
            line: number,
        };
        read_line(alloc, finder, draft, line, place, room)?;
        if draft.has_ended() {
            return Ok(());
        }
    }
    Ok(())
}

// A line of an open file, where this number of further files may be opened.
#[cycle(reading)]
fn read_line<F: Finder>(
    alloc: Global,
    finder: &mut F,
    draft: &mut AuxJobBuilder,
    line: &[u8],
    place: Place<'_>,
    room: usize,
) -> Result<(), Fault>
    requires whole { is_whole draft.old.ending ≡ true }
    requires room { room ≤ 19 }
    ensures draft { OnOk result (ByAnswers (F.content finder.old) (F.answers finder.old) (F.answers finder.new) (AddsNames draft.old.files draft.new.files)
        (λ files. draft.new ≡ run files (opened_by files room) draft.old (map (event_at place.entry.file.now place.entry.line) (words_of line.now)))) }
    ensures asked { OnErr result (Answered (F.content finder.old) (F.answers finder.old) (F.answers finder.new) (AsksNew draft.old.files)) }
    ensures counts { CountsOfOne result (F.failures finder.old, F.failures finder.new) }
    ensures stays { F.content finder.new ≡ F.content finder.old }
{
    match draft.read_line(alloc, line, place)? {
        None => Ok(()),
        Some(name) => include(alloc, finder, draft, name, place, room),
    }
}
