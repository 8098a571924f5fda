//! The pieces of a formatted name.
ghost use Rattle.std.specs.Prelude.{◌≡◌, ◌++◌, ◌+◌, drop, take};
ghost use Rattle.std.specs.List.{flat_map};
ghost use Rattle.btx_text.specs.language.Limits.{greatest_string};
ghost use Rattle.btx_names.specs.refinement.Becomes.{Becomes};
ghost use Rattle.btx_names.specs.language.FormattedNames as spec;
ghost use Rattle.btx_names.specs.laws.FormattedNames as laws;
ghost use Rattle.btx_names.specs.refinement.ItemViews.{has_nothing_between, piece_view};
ghost use Rattle.btx_names.specs.refinement.NameTokens.{Hold};
ghost use Rattle.btx_names.specs.refinement.PartViews.{part_tokens};
ghost use Rattle.btx_names.specs.refinement.Places.{bytes_at};

use crate::format_items::Piece;
use crate::initials::initial_of;
use crate::name_token::NameToken;
use crate::name_tokens::TokenSeparator;
use crate::part::Part;
use crate::writer::Writer;
use btx_text::Fault;

/// Adds a piece with the tokens of its part; nothing, where the part has none.
#[inline(never)]
pub fn push_piece(writer: &mut Writer, piece: Piece<'_>, part: Part<'_>) -> Result<(), Fault>
    ensures text { Becomes greatest_string result writer.new.text.items
        (writer.old.text.items ++ spec.piece_text writer.old.mode (piece_view piece.entry) (part_tokens part.entry)) }
    ensures mode { writer.new.mode ≡ writer.old.mode }
{
    if part.tokens.is_empty() {
        return Ok(());
    }
    writer.begin_piece();
    writer.push(piece.before)?;
    push_tokens(writer, piece, part)?;
    writer.push(piece.after)?;
    writer.finish_piece();
    Ok(())
}

/// Adds bytes outside braces.
pub fn push_literal(writer: &mut Writer, literal: &[u8]) -> Result<(), Fault>
    ensures text { Becomes greatest_string result writer.new.text.items (writer.old.text.items ++ literal.now) }
    ensures mode { writer.new.mode ≡ writer.old.mode }
{
    writer.push(literal)
}

/// Adds a group without a letter.
pub fn push_plain(writer: &mut Writer, inside: &[u8]) -> Result<(), Fault>
    ensures text { Becomes greatest_string result writer.new.text.items (writer.old.text.items ++ spec.finished writer.old.mode inside.now) }
    ensures mode { writer.new.mode ≡ writer.old.mode }
{
    writer.begin_piece();
    writer.push(inside)?;
    writer.finish_piece();
    Ok(())
}

// Adds the tokens of a piece's part. It takes no more turns than it adds bytes, or one.
fn push_tokens(writer: &mut Writer, piece: Piece<'_>, part: Part<'_>) -> Result<(), Fault>
    ensures text { Becomes (greatest_string + 1) result writer.new.text.items
        (take writer.old.start writer.old.text.items ++ spec.with_tokens writer.old.mode (piece_view piece.entry) (drop writer.old.start writer.old.text.items)
        (part_tokens part.entry)) }
    ensures start { writer.new.start ≡ writer.old.start }
    ensures mode { writer.new.mode ≡ writer.old.mode }
{
    if has_nothing_between(piece) {
        return push_initials(writer, part);
    }
    let mut left = part.tokens.len();
    for token in part.tokens {
        left -= 1;
        push_shown(writer, part.bytes, token, piece.is_full)?;
        push_between(writer, piece, token.joint, left)?;
    }
    Ok(())
}

// Whether a piece's tokens are abbreviated, with the empty string between them.
fn has_nothing_between(piece: Piece<'_>) -> bool
    ensures { result ≡ has_nothing_between (piece_view piece.entry) }
{
    !piece.is_full && matches!(piece.between, Some([]))
}

// Adds the tokens of a part, abbreviated and with nothing between them. It passes over those that have no abbreviation.
fn push_initials(writer: &mut Writer, part: Part<'_>) -> Result<(), Fault>
    ensures text { Becomes (greatest_string + 1) result writer.new.text.items
        (writer.old.text.items ++ flat_map (λ token. spec.initial_of writer.old.mode token.text) (part_tokens part.entry)) }
    ensures start { writer.new.start ≡ writer.old.start }
    ensures mode { writer.new.mode ≡ writer.old.mode }
{
    let mut place = 0;
    while place < part.tokens.len() {
        let token = &part.tokens[place];
        writer.push(initial_of(part.bytes, token, writer.mode()))?;
        place += 1 + token.bare_behind.min(part.tokens.len() - 1 - place);
    }
    Ok(())
}

// Adds a token, in full or abbreviated.
fn push_shown(
    writer: &mut Writer,
    bytes: &[u8],
    token: &NameToken,
    is_full: bool,
) -> Result<(), Fault>
    requires { Hold bytes.now token.now }
    ensures text { Becomes (greatest_string + 1) result writer.new.text.items
        (writer.old.text.items ++ laws.shown writer.old.mode is_full (bytes_at bytes.now token.now.text)) }
    ensures start { writer.new.start ≡ writer.old.start }
    ensures mode { writer.new.mode ≡ writer.old.mode }
{
    if is_full {
        return writer.push(token.text.of(bytes));
    }
    writer.push(initial_of(bytes, token, writer.mode()))
}

// Adds what comes after a token, with how many are left.
#[tactic(auto, unfolding(crate::specs::language::FormattedNames::between_text))]
fn push_between(
    writer: &mut Writer,
    piece: Piece<'_>,
    joint: TokenSeparator,
    left: usize,
) -> Result<(), Fault>
    ensures text { Becomes (greatest_string + 1) result writer.new.text.items
        (writer.old.text.items ++ spec.between_text writer.old.mode (piece_view piece.entry) (drop writer.old.start writer.old.text.items) joint left) }
    ensures start { writer.new.start ≡ writer.old.start }
    ensures mode { writer.new.mode ≡ writer.old.mode }
{
    if left == 0 {
        return Ok(());
    }
    if let Some(between) = piece.between {
        return writer.push(between);
    }
    if !piece.is_full {
        writer.push(b".")?;
    }
    writer.push_tie(joint, left == 1)
}
