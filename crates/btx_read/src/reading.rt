//! The reading of a database, record by record.
ghost use Rattle.std.specs.Prelude.{◌≡◌, ◌∷◌, [], IfOk, ◌≤◌, Some, length};
ghost use Rattle.btx_text.specs.language.Limits.{greatest_string};
ghost use Rattle.btx_bib.specs.declared.grammar.commands.Expected.TheVariants.{Item};
ghost use Rattle.btx_read.specs.Records.{records_of};
ghost use Rattle.btx_bib.specs.declared.grammar.value_ends.Ends.TheVariants.{Trimmed};
ghost use Rattle.btx_bib.specs.language.Grammar.Items.{expected_step};
ghost use Rattle.btx_bib.specs.language.Grammar.ValueTexts.{value_text};
ghost use Rattle.btx_bib.specs.language.Strings.{string_value};
ghost use Rattle.btx_bib.specs.refinement.Grammar.PlainFields.{part_in_view, plain_step};
ghost use Rattle.btx_read.specs.Readings.{IsNext, IsNextIfAny};

use crate::content::Content;
use crate::no_keys::NoKeys;
use crate::places::{left_at, left_at_field};
use crate::record::Record;
use crate::texts::content_of;
use btx_bib::Word;
use btx_bib::grammar::events::Placed;
use btx_bib::grammar::line_counter::LineCounter;
use btx_bib::grammar::plain_fields::PlainField;
use btx_bib::grammar::reader::Reader;
use btx_bib::grammar::value_texts::plain_text;
use btx_bib::strings::StringTable;
use btx_text::Text;
use std::alloc::{AllocError, Global};
use std::marker::Model;

/// A database that is read record by record.
#[derive(Drop)]
pub struct RecordReader<'a> {
    // The database.
    text: &'a [u8],
    // The text from the end of the last record on.
    rest: &'a [u8],
    reader: Reader<'a>,
    lines: LineCounter<'a>,
    strings: StringTable<'a>,
}

impl<'a> Model for RecordReader<'a> {
    ghost use Rattle.std.specs.Prelude.{◌≡◌};
    ghost use Rattle.btx_read.specs.Readings.{Reading};

    ghost Value = { Reading };

    ghost view = { λ records. record { text = records.text.now; strings = records.strings; wanted = records.reader.0; rest = records.reader.1 } };

    ghost invariant = { λ records. (records.rest.now ≡ records.reader.1) × (records.lines ≡ records.text.now) };
}

impl<'a> RecordReader<'a> {
    /// The records of a database, before which these strings are known.
    pub fn of(strings: StringTable<'a>, text: &'a [u8]) -> Self
        ensures { result ≡ record { text = text.now; strings = strings.entry; wanted = Item; rest = text.now } }
    {
        RecordReader {
            text,
            rest: text,
            reader: Reader::of(text),
            lines: LineCounter::of(text),
            strings,
        }
    }

    /// The next record, if one is left. Where memory is refused, the record may be lost. Most records are fields in their plainest form, which are read in one pass.
    pub fn read(&mut self, alloc: Global) -> Result<Option<Record<'a>>, AllocError>
        ensures { IfOk result (λ read. IsNext self.old read self.new) }
    {
        match self.read_plain_field(alloc)? {
            Some(record) => Ok(Some(record)),
            None => self.read_event(alloc),
        }
    }

    // The record of a field in its plainest form, if one stands at the next place and its text needn't be made; else the reader stays where it is.
    #[inline(always)]
    pub(crate) fn read_plain_field(
        &mut self,
        alloc: Global,
    ) -> Result<Option<Record<'a>>, AllocError>
        ensures { IfOk result (λ read. IsNextIfAny self.old read self.new) }
    {
        let Some(field) = self.reader.plain_field() else {
            return Ok(None);
        };
        match plain_text(alloc, &field.value, &self.strings)? {
            Some(text) => Ok(Some(self.take_field(&field, text))),
            None => Ok(None),
        }
    }

    // Goes on after a field in its plainest form, which has this text: its record.
    #[inline(always)]
    fn take_field(&mut self, field: &PlainField<'a>, text: Text<'a>) -> Record<'a>
        requires stands { expected_step self.old.wanted self.old.rest ≡ Some (plain_step self.old.wanted field.now) }
        requires within { length text ≤ greatest_string }
        requires text { text ≡ value_text Trimmed (string_value self.old.strings) (part_in_view field.now.value ∷ []) }
        ensures { IsNext self.old (Some result) self.new }
    {
        let rest = field.value.rest;
        self.reader.pass(rest);
        let before = std::mem::replace(&mut self.rest, rest);
        let content = Content::Field(Word::new(field.name), Some(text));
        record_at(
            self.text,
            &mut self.lines,
            content,
            left_at_field(before),
            rest,
        )
    }

    // The next record, if one is left, whatever it is.
    pub(crate) fn read_event(&mut self, alloc: Global) -> Result<Option<Record<'a>>, AllocError>
        ensures { IfOk result (λ read. IsNext self.old read self.new) }
    {
        let Some(placed) = self.reader.read(alloc, &NoKeys)? else {
            return Ok(None);
        };
        let before = std::mem::replace(&mut self.rest, placed.rest);
        let content = content_of(alloc, &mut self.strings, &placed.event)?;
        Ok(Some(placed_at(self.text, &mut self.lines, before, &placed, content)))
    }

    /// The strings that are known after the records that were read, for the next database.
    pub fn into_strings(self) -> StringTable<'a>
        ensures { result ≡ self.entry.strings }
    {
        self.strings
    }
}

ghost use Rattle.btx_bib.specs.refinement.Grammar.EventViews.{event_view};
ghost use Rattle.btx_read.specs.Records.{left_at, record_at};

// The record that says this and has `left` bytes of the text from its first byte on, where `rest` is the text after it.
#[inline(always)]
fn record_at<'a>(
    text: &[u8],
    lines: &mut LineCounter<'_>,
    content: Content<'a>,
    left: usize,
    rest: &[u8],
) -> Record<'a>
    requires { lines.old ≡ text.now }
    ensures record { result ≡ record_at text.now content.entry left rest.now }
    ensures same { lines.new ≡ lines.old }
{
    let start = text.len().saturating_sub(left);
    Record {
        content,
        start,
        end: lines.bytes_before(rest),
        line: lines.line_at(&text[start..]),
    }
}

// The record that says this of an event, which is read between these places of a text.
fn placed_at<'a>(
    text: &[u8],
    lines: &mut LineCounter<'_>,
    before: &[u8],
    placed: &Placed<'_>,
    content: Content<'a>,
) -> Record<'a>
    requires { lines.old ≡ text.now }
    ensures record { result ≡ record_at text.now content.entry (left_at (event_view placed.now.event) before.now (length placed.now.rest.now)) placed.now.rest.now }
    ensures same { lines.new ≡ lines.old }
{
    let left = left_at(&placed.event, before, placed.rest);
    record_at(text, lines, content, left, placed.rest)
}

/// All records of a database, before which these strings are known.
pub fn read_records<'a>(
    alloc: Global,
    strings: StringTable<'a>,
    text: &'a [u8],
) -> Result<Vec<Record<'a>>, AllocError>
    ensures { IfOk result (λ records. records.items ≡ records_of strings.entry text.now) }
{
    let mut reading = RecordReader::of(strings, text);
    let mut records = Vec::new(alloc);
    while let Some(record) = reading.read(alloc)? {
        records.push(record)?;
    }
    Ok(records)
}
