//! The records of a database as rows.
ghost use Rattle.std.specs.Prelude.{◌≡◌, ◌++◌, ◌∷◌, [], IfOk, OnOk, length};
ghost use Rattle.std.specs.List.{flat_map};
ghost use Rattle.btx_read.specs.Records.{records_of};
ghost use Rattle.btx_read.specs.Rows as spec;

use crate::content::Content;
use crate::reading::RecordReader;
use crate::record::Record;
use crate::row::Row;
use btx_bib::grammar::slip::SyntaxError;
use btx_bib::strings::StringTable;
use btx_bib::{Message, SourcePosition, Word};
use btx_text::Text;
use std::alloc::{AllocError, Global};

/// The records of a database as rows, and the room of their texts.
#[derive(Drop)]
pub struct Rows {
    /// A row for each record.
    pub rows: Vec<Row>,
    /// The names and the texts of the records, one after another.
    pub texts: Vec<u8>,
}

// The number of what a record is.
#[inline(always)]
pub(crate) fn kind_of(content: &Content<'_>) -> u32
    ensures { result ≡ spec.kind_of content.now }
{
    match content {
        Content::Comment => 0,
        Content::Preamble(_) => 1,
        Content::Definition(_, _) => 2,
        Content::Entry(_, _) => 3,
        Content::Field(_, _) => 4,
        Content::End => 5,
        Content::Wrong(_) => 6,
    }
}

// The name of a record.
#[inline(always)]
pub(crate) fn name_of<'c>(content: &'c Content<'_>) -> &'c [u8]
    ensures { result.now ≡ spec.name_of content.now }
{
    match content {
        Content::Definition(name, _) | Content::Field(name, _) => name.as_bytes(),
        Content::Entry(kind, _) => kind.as_bytes(),
        _ => b"",
    }
}

// Whether the text of a record is there.
#[inline(always)]
pub(crate) fn is_whole(content: &Content<'_>) -> bool
    ensures { result ≡ spec.is_whole content.now }
{
    match content {
        Content::Preamble(text) | Content::Definition(_, text) | Content::Field(_, text) => {
            text.is_some()
        }
        _ => true,
    }
}

// Appends a text, if it is there.
#[inline(always)]
fn push_given(texts: &mut Vec<u8>, text: &Option<Text<'_>>) -> Result<(), AllocError>
    ensures { OnOk result (texts.new.items ≡ texts.old.items ++ spec.given text.now) }
{
    match text {
        Some(text) => texts.extend_from_slice(text.as_bytes()),
        None => Ok(()),
    }
}

// Appends the line that a run logs of what is wrong at a place of a file.
#[inline(never)]
fn push_wrong(
    alloc: Global,
    texts: &mut Vec<u8>,
    slip: SyntaxError,
    spot: SourcePosition<'_>,
) -> Result<(), AllocError>
    ensures { OnOk result (texts.new.items ≡ texts.old.items ++ spec.wrong_line slip spot.entry) }
{
    let line = Message::Wrong(slip, spot).log_line(alloc)?;
    texts.extend_from_slice(line.text())
}

// Appends the text of a record of a file.
#[inline(always)]
pub(crate) fn push_text(
    alloc: Global,
    texts: &mut Vec<u8>,
    file: &[u8],
    one: &Record<'_>,
) -> Result<(), AllocError>
    ensures { OnOk result (texts.new.items ≡ texts.old.items ++ spec.text_of file.now one.now) }
{
    match &one.content {
        Content::Comment | Content::End => Ok(()),
        Content::Entry(_, key) => texts.extend_from_slice(key.as_bytes()),
        Content::Preamble(text) | Content::Definition(_, text) | Content::Field(_, text) => {
            push_given(texts, text)
        }
        Content::Wrong(slip) => {
            let spot = SourcePosition::of(&Word::new(file), one.line, one.start);
            push_wrong(alloc, texts, *slip, spot)
        }
    }
}

impl Rows {
    // Appends a record of a file.
    pub(crate) fn push(
        &mut self,
        alloc: Global,
        file: &[u8],
        one: &Record<'_>,
    ) -> Result<(), AllocError>
        ensures rows { OnOk result (self.new.rows.items ≡ self.old.rows.items ++ spec.row_of file.now (length self.old.texts.items) one.now ∷ []) }
        ensures texts { OnOk result (self.new.texts.items ≡ self.old.texts.items ++ spec.texts_of file.now one.now) }
    {
        let name_at = self.texts.len();
        let name = name_of(&one.content);
        self.texts.extend_from_slice(name)?;
        let text_at = self.texts.len();
        push_text(alloc, &mut self.texts, file, one)?;
        self.rows.push(Row {
            kind: kind_of(&one.content),
            is_whole: is_whole(&one.content),
            start: one.start,
            end: one.end,
            line: one.line,
            name_at,
            name_len: name.len(),
            text_at,
            text_len: self.texts.len() - text_at,
        })?;
        Ok(())
    }
}

/// The records of the database `text`, which is the file `file`, as rows. These strings are known before it.
pub fn read_rows<'a>(
    alloc: Global,
    file: &[u8],
    strings: StringTable<'a>,
    text: &'a [u8],
) -> Result<Rows, AllocError>
    ensures rows { IfOk result (λ made. made.rows.items ≡ spec.rows_along file.now 0 (records_of strings.entry text.now)) }
    ensures texts { IfOk result (λ made. made.texts.items ≡ flat_map (spec.texts_of file.now) (records_of strings.entry text.now)) }
{
    let mut reading = RecordReader::of(strings, text);
    let mut made = Rows {
        rows: Vec::new(alloc),
        texts: Vec::new(alloc),
    };
    while let Some(record) = reading.read(alloc)? {
        made.push(alloc, file, &record)?;
    }
    Ok(made)
}
