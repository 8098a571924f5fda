//! Rows that take less memory than those that callers get: a call keeps them until it has read a whole database.
ghost use Rattle.std.specs.Prelude.{◌≡◌, ◌+◌, ◌++◌, ◌∷◌, [], IfOk, OnOk, length, map};
ghost use Rattle.std.specs.List.{flat_map};
ghost use Rattle.btx_read.specs.Records.{records_of};
ghost use Rattle.btx_read.specs.RowReadings.{KeepsRows};
ghost use Rattle.btx_read.specs.Rows.{rows_along, texts_of};
ghost use Rattle.btx_read.specs.ShortRows as spec;

use crate::reading::RecordReader;
use crate::record::Record;
use crate::row::Row;
use crate::rows::{is_whole, kind_of, name_of, push_text};
use btx_bib::strings::StringTable;
use std::alloc::{AllocError, Global};

/// A row without the places of its name and its text: they are after those of the rows before it.
#[derive(Clone, Copy)]
pub struct ShortRow {
    /// What the record is: a number of `kind_of`.
    pub kind: u32,
    /// Whether its text is there.
    pub is_whole: bool,
    /// How many bytes of the database are before its first byte.
    pub start: u32,
    /// How many bytes of the database are before the byte after its last.
    pub end: u32,
    /// The line of its first byte, from 1 up.
    pub line: u32,
    /// How many bytes its name has.
    pub name_len: u32,
    /// How many bytes its text has.
    pub text_len: u32,
}

impl ShortRow {
    /// The row, before which the room of texts has `room` bytes.
    #[inline(always)]
    pub fn row_from(&self, room: usize, text_at: usize) -> Row
        requires { text_at ≡ room + self.now.name_len }
        ensures { result ≡ spec.row_from room self.now }
    {
        Row {
            kind: self.kind,
            is_whole: self.is_whole,
            start: self.start as usize,
            end: self.end as usize,
            line: self.line as usize,
            name_at: room,
            name_len: self.name_len as usize,
            text_at,
            text_len: self.text_len as usize,
        }
    }
}

/// The records of a database as short rows, and the room of their texts.
#[derive(Drop)]
pub struct ShortRows {
    /// A row for each record.
    pub rows: Vec<ShortRow>,
    /// The names and the texts of the records, one after another.
    pub texts: Vec<u8>,
}

// A number in 32 bits; want of memory where it doesn't fit them.
#[inline(always)]
fn in_32_bits(number: usize) -> Result<u32, AllocError>
    ensures { IfOk result (λ short. short ≡ number) }
{
    match u32::try_from(number) {
        Ok(short) => Ok(short),
        Err(_) => Err(AllocError),
    }
}

// The short row of a record whose name and text have these numbers of bytes.
#[inline(always)]
fn short_row(one: &Record<'_>, name_len: usize, text_len: usize) -> Result<ShortRow, AllocError>
    ensures { IfOk result (λ short. short ≡ spec.short_row one.now name_len text_len) }
{
    Ok(ShortRow {
        kind: kind_of(&one.content),
        is_whole: is_whole(&one.content),
        start: in_32_bits(one.start)?,
        end: in_32_bits(one.end)?,
        line: in_32_bits(one.line)?,
        name_len: in_32_bits(name_len)?,
        text_len: in_32_bits(text_len)?,
    })
}

impl ShortRows {
    // Appends a record of a file.
    #[inline(always)]
    pub(crate) fn push(
        &mut self,
        alloc: Global,
        file: &[u8],
        one: &Record<'_>,
    ) -> Result<(), AllocError>
        ensures rows { OnOk result (self.new.rows.items ≡ self.old.rows.items ++ spec.short_of file.now one.now ∷ []) }
        ensures texts { OnOk result (self.new.texts.items ≡ self.old.texts.items ++ texts_of file.now one.now) }
    {
        let name = name_of(&one.content);
        self.texts.extend_from_slice(name)?;
        let text_at = self.texts.len();
        push_text(alloc, &mut self.texts, file, one)?;
        let text_len = self.texts.len() - text_at;
        self.rows.push(short_row(one, name.len(), text_len)?)?;
        Ok(())
    }
}

// Appends the fields in their plainest form that stand next, one after another. Most records are such.
fn push_plain_fields(
    alloc: Global,
    file: &[u8],
    reading: &mut RecordReader<'_>,
    made: &mut ShortRows,
) -> Result<(), AllocError>
    ensures { OnOk result (KeepsRows file.now (reading.old, made.old) (reading.new, made.new)) }
{
    while let Some(record) = reading.read_plain_field(alloc)? {
        made.push(alloc, file, &record)?;
    }
    Ok(())
}

// The records of a database of this file as short rows.
fn short_rows_of<'a>(
    alloc: Global,
    file: &[u8],
    strings: StringTable<'a>,
    text: &'a [u8],
) -> Result<ShortRows, AllocError>
    ensures rows { IfOk result (λ made. made.rows.items ≡ map (spec.short_of file.now) (records_of strings.entry text.now)) }
    ensures texts { IfOk result (λ made. made.texts.items ≡ flat_map (texts_of file.now) (records_of strings.entry text.now)) }
{
    let mut reading = RecordReader::of(strings, text);
    let mut made = ShortRows {
        rows: Vec::new(alloc),
        texts: Vec::new(alloc),
    };
    while let Some(record) = reading.read_event(alloc)? {
        made.push(alloc, file, &record)?;
        push_plain_fields(alloc, file, &mut reading, &mut made)?;
    }
    Ok(made)
}

/// The records of the database `text`, which is the file `file`, as short rows. These strings are known before it.
#[tactic(auto, using(crate::proofs::ShortRowLemmas::stand))]
pub fn read_short_rows<'a>(
    alloc: Global,
    file: &[u8],
    strings: StringTable<'a>,
    text: &'a [u8],
) -> Result<ShortRows, AllocError>
    ensures rows { IfOk result (λ made. spec.StandFor made (rows_along file.now 0 (records_of strings.entry text.now))) }
    ensures texts { IfOk result (λ made. made.texts.items ≡ flat_map (texts_of file.now) (records_of strings.entry text.now)) }
{
    short_rows_of(alloc, file, strings, text)
}

/// Puts the rows of short ones into memory, as many as there is room for.
pub fn put_rows(made: &ShortRows, into: &mut [Row])
    requires { spec.bytes_of_all made.now.rows.items ≡ length made.now.texts.items }
    ensures { into.new ≡ spec.put_into into.old (spec.rows_from 0 made.now.rows.items) }
{
    let rows = made.rows.as_slice();
    let _bytes = made.texts.len();
    let fits = rows.len().min(into.len());
    let mut room = 0;
    let mut place = 0;
    while place < fits {
        let short = rows[place];
        let text_at = room + short.name_len as usize;
        into[place] = short.row_from(room, text_at);
        room = text_at + short.text_len as usize;
        place += 1;
    }
}
