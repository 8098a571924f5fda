//! Letters raised and lowered.
ghost use Rattle.std.specs.Prelude.{◌≡◌, ◌≤◌, ◌+◌, ◌++◌, ◌∷◌, length, map, OnOk, IsTrue};
ghost use Rattle.std.specs.List.{prefix_len};
ghost use Rattle.std.specs.Str.{byte};
ghost use Rattle.btx_strings.specs.language.Answers.{no_complaints};
ghost use Rattle.btx_strings.specs.refinement.Answers.{Answers};
ghost use Rattle.btx_strings.specs.language.Case as spec;
ghost use Rattle.btx_strings.specs.refinement.Case as part;
ghost use Rattle.btx_strings.specs.refinement.CaseState.{ArePlain, cased_piece, first_place, is_beginning, is_case_plain, piece_len, place_after};
ghost use Rattle.btx_strings.specs.refinement.Glyphs.{glyph_of};

use crate::answers::{Answer, Complaints};
use crate::controls::{Glyph, Glyphs, Sequences};
use crate::conversions::Conversion;
use btx_text::Fault;
use btx_text::string_elements::group_len;
use std::alloc::{AllocError, Global};
use std::simd::prelude::*;

// Bytes that neither begin a group nor are a colon are passed in blocks of this number of them.
const BLOCK: usize = 8;

// What stands before a piece.
#[derive(Clone, Copy, PartialEq, Eq)]
enum Place {
    First,
    Colon,
    ColonAndWhite,
    Inside,
}

/// A string in the case that a conversion names: `t` for a title, `l` for lower and `u` for upper case, each in either case. Any
/// other conversion sets `x9` of the complaints, and the string stays.
///
/// Bytes at depth 0 and special characters change. A title keeps the first element, and each that follows a depth-0 colon and whitespace.
/// Errors: [`Fault::Memory`]; [`Fault::StringLimit`] where the text would be over 1,000,000 bytes.
pub fn change_case(alloc: Global, string: &[u8], conversion: &[u8]) -> Result<Answer, Fault>
    ensures { Answers result (spec.change_case_of string.now conversion.now) (spec.case_complaints conversion.now) }
{
    match Conversion::named(conversion) {
        Some(conversion) => cased(alloc, string, conversion),
        None => Answer::copy_of(
            alloc,
            string,
            Complaints {
                x9: true,
                ..Complaints::NONE
            },
        ),
    }
}

// A string in another case.
fn cased(alloc: Global, string: &[u8], conversion: Conversion) -> Result<Answer, Fault>
    ensures { Answers result (part.cased conversion string.now) no_complaints }
{
    let mut text = Vec::with_capacity(alloc, string.len())?;
    change_case_into(&mut text, string, conversion)?;
    Answer::new(text, Complaints::NONE)
}

/// Makes a text a string in another case, of any length, in the memory of what stood there. It goes piece by piece.
#[tactic(auto, using(crate::proofs::PieceLemmas::pieces))]
pub fn change_case_into(
    text: &mut Vec<u8>,
    string: &[u8],
    conversion: Conversion,
) -> Result<(), AllocError>
    ensures { OnOk result (text.new.items ≡ part.cased conversion string.now) }
{
    text.clear();
    let mut place = first_place(conversion);
    let mut rest = string;
    while !rest.is_empty() {
        let (piece, others) = rest.split_at(piece_len(place, rest));
        push_piece(text, conversion, begins(place), piece)?;
        place = place_after(place, piece);
        rest = others;
    }
    Ok(())
}

// What is said to stand before a string: what begins there matters to a title alone.
fn first_place(conversion: Conversion) -> Place
    ensures { result ≡ first_place conversion }
{
    match conversion {
        Conversion::Title => Place::First,
        Conversion::Lower | Conversion::Upper => Place::Inside,
    }
}

// How many bytes the piece has that a text begins with: a whole group in braces; else, where nothing begins, all before a colon or a
// group; else one byte.
#[tactic(auto, unfolding(crate::specs::refinement::CaseState::piece_len))]
fn piece_len(place: Place, rest: &[u8]) -> usize
    ensures { result ≡ piece_len place rest.now }
{
    match rest {
        [] => 0,
        [b'{', ..] => group_len(rest),
        [b':', ..] => 1,
        _ if place == Place::Inside => run_len(rest),
        _ => 1,
    }
}

// Whether the block at a place has neither a colon nor the beginning of a group.
#[inline(always)]
fn is_plain_block(rest: &[u8], place: usize) -> bool
    requires { place + 8 ≤ length rest.now }
    ensures { IsTrue result → ArePlain rest.now place (place + 8) }
{
    let block = u8x8::from_slice(&rest[place..]);
    let ends = block.simd_eq(u8x8::splat(b':')) | block.simd_eq(u8x8::splat(b'{'));
    ends.to_bitmask() == 0
}

// How many bytes the blocks have that come before a colon or a group.
fn blocks_len(rest: &[u8]) -> usize
    ensures plain { ArePlain rest.now 0 result }
    ensures bound { result ≤ length rest.now }
{
    let mut place = 0;
    while rest.len() - place >= BLOCK && is_plain_block(rest, place) {
        place += BLOCK;
    }
    place
}

// How many bytes there are before a colon or a group: block by block, and then one by one.
fn run_len(rest: &[u8]) -> usize
    ensures { result ≡ prefix_len is_case_plain rest.now }
{
    let blocks = blocks_len(rest);
    blocks + run_len_one_by_one(&rest[blocks..])
}

// The same, one by one.
fn run_len_one_by_one(rest: &[u8]) -> usize
    ensures { result ≡ prefix_len is_case_plain rest.now }
{
    for (i, &byte) in rest.iter().enumerate() {
        if matches!(byte, b':' | b'{') {
            return i;
        }
    }
    rest.len()
}

// Whether a title or a part of one begins at a place.
fn begins(place: Place) -> bool
    ensures { result ≡ is_beginning place }
{
    matches!(place, Place::First | Place::ColonAndWhite)
}

// What stands before the piece after this one.
fn place_after(place: Place, piece: &[u8]) -> Place
    ensures { result ≡ place_after place piece.now }
{
    match piece {
        [b' ' | b'\t' | b'\r'] => match place {
            Place::Colon | Place::ColonAndWhite => Place::ColonAndWhite,
            Place::First | Place::Inside => Place::Inside,
        },
        [b':'] => Place::Colon,
        _ => Place::Inside,
    }
}

// Adds a piece in another case, which may begin a title or a part of one.
#[tactic(auto, unfolding(crate::specs::refinement::CaseState::cased_piece))]
fn push_piece(
    text: &mut Vec<u8>,
    conversion: Conversion,
    begins: bool,
    piece: &[u8],
) -> Result<(), AllocError>
    ensures { OnOk result (text.new.items ≡ text.old.items ++ cased_piece conversion begins piece.now) }
{
    if matches!(conversion, Conversion::Title) && begins {
        return text.extend_from_slice(piece);
    }
    match piece {
        [b'{', b'\\', ..] => push_special(text, conversion, piece),
        [b'{', ..] => text.extend_from_slice(piece),
        _ => push_cased(text, conversion, piece),
    }
}

// Adds bytes in another case.
fn push_cased(text: &mut Vec<u8>, conversion: Conversion, bytes: &[u8]) -> Result<(), AllocError>
    ensures { OnOk result (text.new.items ≡ text.old.items ++ map (spec.case_of conversion) bytes.now) }
{
    let start = text.len();
    text.extend_from_slice(bytes)?;
    match conversion {
        Conversion::Upper => text[start..].make_ascii_uppercase(),
        Conversion::Title | Conversion::Lower => text[start..].make_ascii_lowercase(),
    }
    Ok(())
}

// Adds a special character in another case.
#[tactic(auto, using(crate::proofs::ControlLemmas::kept_steps))]
fn push_special(
    text: &mut Vec<u8>,
    conversion: Conversion,
    special: &[u8],
) -> Result<(), AllocError>
    ensures { OnOk result (text.new.items ≡ text.old.items ++ part.cased_special conversion special.now) }
{
    let mut gone = false;
    for glyph in Glyphs::of(special) {
        if !(gone && glyph.is_white()) {
            push_glyph(text, conversion, glyph)?;
        }
        gone = glyph.is_white_gone(gone, Sequences::MadeLetters(conversion));
    }
    Ok(())
}

// Adds a glyph in another case.
fn push_glyph(
    text: &mut Vec<u8>,
    conversion: Conversion,
    glyph: Glyph<'_>,
) -> Result<(), AllocError>
    ensures { OnOk result (text.new.items ≡ text.old.items ++ spec.cased_glyph conversion (glyph_of glyph.entry)) }
{
    match glyph {
        Glyph::Control(name) => push_control(text, conversion, name),
        Glyph::Plain(byte) => {
            text.push(conversion.apply(byte))?;
            Ok(())
        }
    }
}

// Adds a control sequence as it stands.
fn push_sequence(text: &mut Vec<u8>, name: &[u8]) -> Result<(), AllocError>
    ensures { OnOk result (text.new.items ≡ text.old.items ++ byte "\\" ∷ name.now) }
{
    text.push(b'\\')?;
    text.extend_from_slice(name)
}

// Adds the control sequence of a foreign letter, which keeps its backslash, in another case.
fn push_foreign(text: &mut Vec<u8>, conversion: Conversion, name: &[u8]) -> Result<(), AllocError>
    ensures { OnOk result (text.new.items ≡ text.old.items ++ byte "\\" ∷ map (spec.case_of conversion) name.now) }
{
    text.push(b'\\')?;
    push_cased(text, conversion, name)
}

// Adds a control sequence in another case.
#[tactic(auto, unfolding(crate::specs::language::Case::cased_control))]
fn push_control(text: &mut Vec<u8>, conversion: Conversion, name: &[u8]) -> Result<(), AllocError>
    ensures { OnOk result (text.new.items ≡ text.old.items ++ spec.cased_control conversion name.now) }
{
    match conversion {
        Conversion::Upper => match name {
            b"i" | b"j" | b"ss" => push_cased(text, conversion, name),
            b"o" | b"oe" | b"ae" | b"aa" | b"l" => push_foreign(text, conversion, name),
            _ => push_sequence(text, name),
        },
        Conversion::Title | Conversion::Lower => match name {
            b"O" | b"OE" | b"AE" | b"AA" | b"L" => push_foreign(text, conversion, name),
            _ => push_sequence(text, name),
        },
    }
}
