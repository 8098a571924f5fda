//! The library of a job as rows: each entry of its list, with the fields that a run has of it.
ghost use Rattle.std.specs.Prelude.{◌≡◌, ◌∷◌, [], IfOk, OnOk, length};
ghost use Rattle.std.specs.List.{flat_map};
ghost use Rattle.btx_read.specs.LibraryRecords.{Adds, entry_records, field_records, fields_from, library_records, placeless, type_word};
ghost use Rattle.btx_read.specs.Rows.{rows_along, texts_of};

use crate::content::Content;
use crate::record::Record;
use crate::rows::Rows;
use btx_bib::{Entry, Library, Word};
use btx_bst::{Callee, Style};
use btx_text::Text;
use std::alloc::{AllocError, Global};

// The word for the type of an entry: the name of the style's function, and no byte where the style has none.
fn type_word<'s>(style: &'s Style<'_>, kind: Option<u32>) -> &'s [u8]
    ensures { result.now ≡ type_word style.entry.now kind }
{
    match kind {
        Some(number) => style.name(Callee::User(number)),
        None => b"",
    }
}

// Appends a record that has no place in a file.
fn push_placeless(alloc: Global, made: &mut Rows, content: Content<'_>) -> Result<(), AllocError>
    ensures { OnOk result (Adds (placeless content.entry ∷ []) made.old made.new) }
{
    let one = Record {
        content,
        start: 0,
        end: 0,
        line: 0,
    };
    made.push(alloc, b"", &one)
}

// Appends the field of a number, if the entry has a value for it.
fn push_field(
    alloc: Global,
    made: &mut Rows,
    style: &Style<'_>,
    entry: &Entry<'_>,
    number: u32,
) -> Result<(), AllocError>
    ensures { OnOk result (Adds (field_records style.now entry.now number) made.old made.new) }
{
    let Some(value) = entry.value(number) else {
        return Ok(());
    };
    let name = Word::new(style.name(Callee::Field(number)));
    let content = Content::Field(name, Some(Text::borrowed(value)));
    push_placeless(alloc, made, content)
}

// The number of the field at a place; want of memory where it doesn't fit 32 bits.
fn number_at(place: usize) -> Result<u32, AllocError>
    ensures { IfOk result (λ number. number ≡ place) }
{
    match u32::try_from(place) {
        Ok(number) => Ok(number),
        Err(_) => Err(AllocError),
    }
}

// Appends the fields of an entry, in the order in which the style has them.
fn push_fields(
    alloc: Global,
    made: &mut Rows,
    style: &Style<'_>,
    entry: &Entry<'_>,
) -> Result<(), AllocError>
    ensures { OnOk result (Adds (fields_from style.now entry.now 0 (length style.now.names.fields)) made.old made.new) }
{
    for place in 0..style.fields() {
        let number = number_at(place)?;
        push_field(alloc, made, style, entry, number)?;
    }
    Ok(())
}

// Appends an entry: its type and its key, its fields, and its end.
fn push_entry(
    alloc: Global,
    made: &mut Rows,
    style: &Style<'_>,
    entry: &Entry<'_>,
) -> Result<(), AllocError>
    ensures { OnOk result (Adds (entry_records style.now entry.now) made.old made.new) }
{
    let kind = Word::new(type_word(style, entry.kind()));
    let key = Word::new(entry.key());
    push_placeless(alloc, made, Content::Entry(kind, key))?;
    push_fields(alloc, made, style, entry)?;
    push_placeless(alloc, made, Content::End)
}

// Appends entries.
fn push_entries(
    alloc: Global,
    made: &mut Rows,
    style: &Style<'_>,
    entries: &[Entry<'_>],
) -> Result<(), AllocError>
    ensures { OnOk result (Adds (flat_map (entry_records style.now) entries.now) made.old made.new) }
{
    for entry in entries {
        push_entry(alloc, made, style, entry)?;
    }
    Ok(())
}

/// The library that the databases give to a job of this style, as rows, in the order of the list. They have no places: a library keeps none.
#[tactic(auto, using(crate::proofs::LibraryRecordLemmas::all_rows, crate::proofs::LibraryRecordLemmas::all_texts))]
pub fn library_rows(
    alloc: Global,
    style: &Style<'_>,
    library: &Library<'_>,
) -> Result<Rows, AllocError>
    ensures rows { IfOk result (λ made. made.rows.items ≡ rows_along [] 0 (library_records style.now library.now)) }
    ensures texts { IfOk result (λ made. made.texts.items ≡ flat_map (texts_of []) (library_records style.now library.now)) }
{
    let mut made = Rows {
        rows: Vec::new(alloc),
        texts: Vec::new(alloc),
    };
    push_entries(alloc, &mut made, style, library.entries())?;
    Ok(made)
}
