//! A name in a format.
ghost use Rattle.std.specs.Prelude.{◌≡◌, ◌++◌, [], IfOk, IsTrue};
ghost use Rattle.btx_names.specs.refinement.Right.{IsWritten};
ghost use Rattle.btx_strings.specs.refinement.Answers.{Answers};
ghost use Rattle.btx_text.specs.language.Limits.{greatest_string};
ghost use Rattle.btx_names.specs.refinement.Becomes.{Becomes, WritesLegal, WritesUntilIllegal};
ghost use Rattle.btx_names.specs.language.Formats.{is_legal};
ghost use Rattle.btx_names.specs.language.Answered as spec;
ghost use Rattle.btx_names.specs.language.FormattedNames.{item_text};
ghost use Rattle.btx_names.specs.refinement.ItemViews.{item_view};
ghost use Rattle.btx_names.specs.refinement.KeptNames.{kept_bytes, kept_parts};
ghost use Rattle.btx_names.specs.refinement.FormattedNames.{formatted};

use crate::format_items::{Item, Items, is_legal};
use crate::kept_formats::{KeptFormat, KeptFormats};
use crate::kept_name::KeptName;
use crate::pieces::{push_literal, push_piece, push_plain};
use crate::writer::Writer;
use btx_strings::Answer;
use btx_text::{Fault, TextMode};
use std::alloc::Global;

/// A name in a format. It is written by `writer`, and what `formats` keeps of the format is used.
pub fn format_one(
    alloc: Global,
    name: &KeptName,
    formats: &mut KeptFormats,
    writer: &mut Writer,
    format: &[u8],
    mode: TextMode,
) -> Result<Answer, Fault>
    ensures { Answers result (spec.one_name_text mode (kept_bytes name.now) format.now) (spec.one_name_complaints (kept_bytes name.now) format.now) }
{
    writer.begin(mode);
    if write_format(writer, name, formats, format)? {
        Answer::copy_of(alloc, writer.text(), name.complaints(true))
    } else {
        Answer::new(Vec::new(alloc), name.complaints(false))
    }
}

/// Writes a name in a format by `writer`, where nothing is wrong with them; else answers false. What `formats` keeps of the format is used.
pub fn write_one(
    name: &KeptName,
    formats: &mut KeptFormats,
    writer: &mut Writer,
    format: &[u8],
    mode: TextMode,
) -> Result<bool, Fault>
    ensures { IfOk result (λ written. IsTrue written → IsWritten mode (kept_bytes name.now) format.now writer.new.text.items) }
{
    if name.is_wrong() {
        return Ok(false);
    }
    writer.begin(mode);
    write_format(writer, name, formats, format)
}

// Writes a name in a format, whether that is kept or not; false where the format is illegal.
fn write_format(
    writer: &mut Writer,
    name: &KeptName,
    formats: &mut KeptFormats,
    format: &[u8],
) -> Result<bool, Fault>
    requires { writer.old.text.items ≡ [] }
    ensures { WritesLegal greatest_string (is_legal format.now) result writer.new.text.items (formatted writer.old.mode (kept_parts name.now) format.now) }
{
    if let Some(kept) = formats.find(format) {
        return write_items(writer, name, kept);
    }
    formats.keep(format)?;
    write_legal(writer, name, format)
}

// Writes a name in a format that is kept, and so is legal.
#[tactic(auto, using(crate::proofs::KeptItemLemmas::kept_items))]
fn write_items(writer: &mut Writer, name: &KeptName, format: &KeptFormat) -> Result<bool, Fault>
    requires { writer.old.text.items ≡ [] }
    ensures { WritesLegal greatest_string (is_legal format.now.text.items) result writer.new.text.items
        (formatted writer.old.mode (kept_parts name.now) format.now.text.items) }
{
    for item in format.items() {
        push_item(writer, item.as_item(), name)?;
    }
    Ok(true)
}

// Writes a name in a format; false where the format is illegal.
fn write_legal(writer: &mut Writer, name: &KeptName, format: &[u8]) -> Result<bool, Fault>
    requires { writer.old.text.items ≡ [] }
    ensures { WritesLegal greatest_string (is_legal format.now) result writer.new.text.items (formatted writer.old.mode (kept_parts name.now) format.now) }
{
    match write_until_illegal(writer, name, format) {
        Err(Fault::StringLimit) if !is_legal(format) => Ok(false),
        written => written,
    }
}

// Writes a name in a format, which is read once; false where an illegal item is met, which may come after too long a text.
fn write_until_illegal(writer: &mut Writer, name: &KeptName, format: &[u8]) -> Result<bool, Fault>
    requires { writer.old.text.items ≡ [] }
    ensures { WritesUntilIllegal greatest_string (is_legal format.now) result writer.new.text.items
        (formatted writer.old.mode (kept_parts name.now) format.now) }
{
    for item in Items::of(format) {
        if matches!(item, Item::Illegal) {
            return Ok(false);
        }
        push_item(writer, item, name)?;
    }
    Ok(true)
}

// Adds what an item of a format gives. Many parts have no tokens: their pieces give nothing.
#[inline(always)]
fn push_item(writer: &mut Writer, item: Item<'_>, name: &KeptName) -> Result<(), Fault>
    ensures text { Becomes greatest_string result writer.new.text.items
        (writer.old.text.items ++ item_text writer.old.mode (kept_parts name.now) (item_view item.entry)) }
    ensures mode { writer.new.mode ≡ writer.old.mode }
{
    match item {
        Item::Literal(literal) => push_literal(writer, literal),
        Item::Plain(inside) => push_plain(writer, inside),
        Item::Name(piece) => {
            let part = name.part(piece.part);
            if part.tokens.is_empty() {
                return Ok(());
            }
            push_piece(writer, piece, part)
        }
        Item::Illegal => Ok(()),
    }
}
