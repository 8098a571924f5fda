//! The texts of the lines of a log, piece by piece.
ghost use Rattle.std.specs.Prelude.{◌≡◌, ◌++◌, OnOk, decimal};
ghost use Rattle.btx_text.specs.language.LogLines.{mark_of, place_text};

use crate::log_line::LineKind;
use itoa::Buffer;
use std::alloc::AllocError;

/// A place in a file, where a message is met.
#[derive(Clone, Copy, Debug)]
pub struct Place<'a> {
    /// The name of the file.
    pub file: &'a [u8],
    /// The line, from 1 up.
    pub line: usize,
}

/// Appends how a line of this kind begins: `Warning--`, `Error--` or nothing.
#[tactic(auto, unfolding(crate::specs::language::LogLines::mark_of))]
pub fn push_mark(text: &mut Vec<u8>, kind: LineKind) -> Result<(), AllocError>
    ensures { OnOk result (text.new.items ≡ text.old.items ++ mark_of kind) }
{
    match kind {
        LineKind::Plain => text.extend_from_slice(b""),
        LineKind::Warning => text.extend_from_slice(b"Warning--"),
        LineKind::Error => text.extend_from_slice(b"Error--"),
    }
}

/// Appends a place, as `--line 12 of file refs.bib`.
#[tactic(auto, using(crate::proofs::JoinLemmas::joins), unfolding(crate::specs::language::LogLines::place_text))]
pub fn push_place(text: &mut Vec<u8>, place: Place<'_>) -> Result<(), AllocError>
    ensures { OnOk result (text.new.items ≡ text.old.items ++ place_text place.entry.line place.entry.file.now) }
{
    push_number(text, b"--line ", place.line as u64)?;
    push_two(text, b" of file ", place.file)
}

/// Appends a piece and a number in decimal.
#[tactic(auto, using(crate::proofs::JoinLemmas::joins))]
pub fn push_number(text: &mut Vec<u8>, piece: &[u8], number: u64) -> Result<(), AllocError>
    ensures { OnOk result (text.new.items ≡ text.old.items ++ (piece.now ++ decimal number)) }
{
    let mut buffer = Buffer::new();
    push_two(text, piece, buffer.format(number).as_bytes())
}

/// Appends two pieces.
#[tactic(auto, using(crate::proofs::JoinLemmas::joins))]
pub fn push_two(text: &mut Vec<u8>, first: &[u8], second: &[u8]) -> Result<(), AllocError>
    ensures { OnOk result (text.new.items ≡ text.old.items ++ (first.now ++ second.now)) }
{
    text.extend_from_slice(first)?;
    text.extend_from_slice(second)
}

/// Appends four pieces.
#[tactic(auto, using(crate::proofs::JoinLemmas::joins))]
pub fn push_four(
    text: &mut Vec<u8>,
    first: &[u8],
    second: &[u8],
    third: &[u8],
    fourth: &[u8],
) -> Result<(), AllocError>
    ensures { OnOk result (text.new.items ≡ text.old.items ++ (first.now ++ second.now ++ third.now ++ fourth.now)) }
{
    push_two(text, first, second)?;
    push_two(text, third, fourth)
}
