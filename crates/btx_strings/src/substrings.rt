//! A piece of a string, by positions of bytes.
ghost use Rattle.std.specs.Prelude.{◌<◌};
ghost use Rattle.btx_strings.specs.language.Answers.{no_complaints};
ghost use Rattle.btx_strings.specs.refinement.Answers.{Answers};
ghost use Rattle.btx_strings.specs.refinement.Pieces.{IsPiece};
ghost use Rattle.btx_strings.specs.language.Positions as spec;

use crate::answers::{Answer, Complaints};
use btx_text::Fault;
use std::alloc::Global;

/// Where a piece begins in a string, and how many bytes it has.
#[derive(Clone, Copy, Debug, PartialEq, Eq)]
pub struct Piece {
    pub from: usize,
    pub count: usize,
}

/// A piece of a string, of `length` bytes or as many as there are. Bytes are counted from 1: with a positive `start` the piece's
/// first byte has that number from the left, with a negative one its last byte has it from the right. The piece is empty where
/// `length` is below 1, where `start` is 0, and where there is no such byte.
///
/// Errors: [`Fault::Memory`]; [`Fault::StringLimit`] where the piece would be over 1,000,000 bytes.
pub fn substring(alloc: Global, string: &[u8], start: i32, length: i32) -> Result<Answer, Fault>
    ensures { Answers result (spec.substring_of string.now start length) no_complaints }
{
    let piece = piece_of(string.len(), start, length);
    Answer::copy_of(
        alloc,
        &string[piece.from..piece.from + piece.count],
        Complaints::NONE,
    )
}

/// Where the piece lies that [`substring`] takes of a string of `size` bytes.
pub fn piece_of(size: usize, start: i32, length: i32) -> Piece
    ensures { IsPiece size result (λ string. spec.substring_of string start length) }
{
    if length <= 0 || start == 0 {
        return Piece { from: 0, count: 0 };
    }
    let place = start.unsigned_abs() as usize;
    let length = length.unsigned_abs() as usize;
    if start > 0 {
        from_left(size, place, length)
    } else {
        from_right(size, place, length)
    }
}

// The first `length` bytes from the one at `place` on, counted from 1.
fn from_left(size: usize, place: usize, length: usize) -> Piece
    requires { 0 < place }
    ensures { IsPiece size result (λ string. spec.from_left string place length) }
{
    let from = size.min(place - 1);
    Piece {
        from,
        count: (size - from).min(length),
    }
}

// The last `length` bytes up to the one at `place` from the right, counted from 1.
fn from_right(size: usize, place: usize, length: usize) -> Piece
    requires { 0 < place }
    ensures { IsPiece size result (λ string. spec.from_right string place length) }
{
    let to = size.saturating_sub(place - 1);
    let from = to.saturating_sub(length);
    Piece {
        from,
        count: to - from,
    }
}
