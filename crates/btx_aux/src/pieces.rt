//! The pieces of an argument.
ghost use Rattle.std.specs.Prelude.{◌≡◌, ◌∷◌, true};
ghost use Rattle.btx_aux.specs.language.Grammar.{pieces_of};
ghost use Rattle.btx_aux.specs.refinement.Grammar.{piece_of};
ghost use Rattle.btx_aux.specs.refinement.Pieces.{piece_from, pieces_behind};

use crate::command::Slip;
use btx_text::classify::is_white;
use std::marker::Model;

/// The pieces of an argument, first to last. A piece ends at the first `}`, and in a list at a `,`; a slip is the last.
#[derive(Drop)]
pub struct Pieces<'a> {
    rest: Option<&'a [u8]>,
    is_list: bool,
}

impl<'a> Model for Pieces<'a> {
    ghost use Rattle.std.specs.Prelude.{List};
    ghost use Rattle.btx_aux.specs.language.Grammar.{Piece};
    ghost use Rattle.btx_aux.specs.refinement.Pieces.{pieces_behind};

    ghost Value = { List Piece };

    ghost view = { λ pieces. pieces_behind pieces.is_list pieces.rest };
}

impl<'a> Pieces<'a> {
    /// The pieces of an argument that is a list.
    pub fn of(argument: &'a [u8]) -> Self
        ensures { result ≡ pieces_of true argument.now }
    {
        Pieces {
            rest: Some(argument),
            is_list: true,
        }
    }
}

impl<'a> Iterator for Pieces<'a> {
    ghost use Rattle.std.specs.Iterator.{YieldsFirstBy, item_count};
    ghost use Rattle.btx_aux.specs.refinement.Pieces.{piece_from};

    type Item = Result<&'a [u8], Slip>;

    ghost next_gives = { YieldsFirstBy piece_from (λ pieces. pieces) };

    ghost remaining = { item_count (λ pieces. pieces) };

    fn next(&mut self) -> Option<Result<&'a [u8], Slip>> {
        let text = self.rest?;
        let (piece, rest) = first_piece(text, self.is_list);
        self.rest = rest;
        Some(piece)
    }
}

/// The piece of an argument that isn't a list.
pub fn only_piece(text: &[u8]) -> Result<&[u8], Slip>
    ensures { piece_of text.now ≡ piece_from result }
{
    let (piece, _) = first_piece(text, false);
    piece
}

// The first piece of an argument, and what comes after its comma.
#[tactic(auto, using(crate::proofs::PieceLemmas::piece_steps))]
fn first_piece(text: &[u8], is_list: bool) -> (Result<&[u8], Slip>, Option<&[u8]>)
    ensures { pieces_of is_list text.now ≡ piece_from result.0 ∷ pieces_behind is_list result.1 }
{
    for (at, byte) in text.iter().enumerate() {
        if is_white(*byte) {
            return (Err(Slip::WhiteSpace), None);
        }
        if *byte == b'}' {
            if at + 1 < text.len() {
                return (Err(Slip::StuffAfter), None);
            }
            return (Ok(&text[..at]), None);
        }
        if is_list && *byte == b',' {
            return (Ok(&text[..at]), Some(&text[at + 1..]));
        }
    }
    (Err(Slip::Unclosed), None)
}
