//! Tests of what no contract says: that the calls succeed where memory suffices. They hold by the contracts as well.
use btx_bib::grammar::events::Event;
use btx_bib::grammar::line_counter::LineCounter;
use btx_bib::grammar::reader::{Reader, StoredKeys};
use btx_bib::grammar::slip::SyntaxError;
use btx_bib::grammar::value_ends::Ends;
use btx_bib::grammar::value_texts::{Strings, value_text};
use btx_bib::grammar::values::Value;
use btx_text::{Fault, Text};
use std::alloc::{AllocError, Global};
use std::marker::Model;

// Every name has this value, which is squeezed.
#[derive(Drop)]
struct OneValue<'a> {
    value: Text<'a>,
}

impl<'a> Model for OneValue<'a> {
    ghost use Rattle.std.specs.Prelude.{◌≡◌, List, ℕ, true, false};
    ghost use Rattle.btx_bib.specs.refinement.Grammar.Squeezing.{is_squeezed};

    ghost Value = { List ℕ };

    ghost view = { λ these. these.value };

    ghost invariant = { λ these. is_squeezed false these.value ≡ true };
}

impl<'a> Strings<'a> for OneValue<'a> {
    ghost use Rattle.std.specs.Prelude.{Some};

    ghost values = { λ these _. Some these };

    fn value_of(&self, _alloc: Global, _name: &[u8]) -> Result<Option<&Text<'a>>, AllocError> {
        Ok(Some(&self.value))
    }
}

// Every name has a letter with whitespace round it.
#[tactic(auto, unfolding(btx_bib::specs::refinement::Grammar::Squeezing::is_squeezed))]
fn spaced_letter<'a>() -> OneValue<'a> {
    OneValue {
        value: Text::borrowed(b" v "),
    }
}

// The key `k` is stored.
struct KeyK;

impl StoredKeys for KeyK {
    ghost use Rattle.std.specs.Prelude.{codes};
    ghost use Rattle.std.specs.Str.{bytes_eq};

    ghost is_stored = { λ _ key. bytes_eq key (codes "k") };

    fn is_stored(&self, _alloc: Global, key: &[u8]) -> Result<bool, AllocError> {
        Ok(key == b"k".as_slice())
    }
}

// What is wrong, as a word.
fn slip_word(slip: SyntaxError) -> &'static [u8] {
    match slip {
        SyntaxError::NoName => b"no name",
        SyntaxError::NoDelimiter => b"no delimiter",
        SyntaxError::NoComma(_) => b"no comma",
        SyntaxError::NoEquals => b"no equals",
        SyntaxError::NoClosing(_) => b"no closing",
        SyntaxError::NoValue => b"no value",
        SyntaxError::Unbalanced => b"unbalanced",
        SyntaxError::EndOfFile => b"end",
        SyntaxError::Repeated => b"repeated",
    }
}

// The word of an event, and its name or key.
fn event_words<'e>(event: &Event<'e>) -> (&'static [u8], &'e [u8]) {
    match event {
        Event::Comment => (b"comment", b""),
        Event::Preamble(_) => (b"preamble", b""),
        Event::Definition(name, _) => (b"string ", name),
        Event::Entry(_, key) => (b"entry ", key),
        Event::Field(field) => (b"field ", field.name),
        Event::ItemEnd => (b"end", b""),
        Event::Wrong(slip) => (slip_word(*slip), b""),
    }
}

// Lists an event: its word, its name or key, and the last digit of its line.
fn push_event(listed: &mut Vec<u8>, event: &Event<'_>, line: usize) -> Result<(), AllocError> {
    let (word, name) = event_words(event);
    listed.extend_from_slice(word)?;
    listed.extend_from_slice(name)?;
    listed.extend_from_slice(&[b'0' + (line % 10) as u8, b'\n'])
}

// Lists the events of a text with their lines, one after another.
fn push_events(listed: &mut Vec<u8>, alloc: Global, text: &[u8]) -> Result<(), AllocError> {
    let mut reader = Reader::of(text);
    let mut lines = LineCounter::of(text);
    for _ in 0..100 {
        match reader.read(alloc, &KeyK)? {
            Some(placed) => push_event(listed, &placed.event, lines.line_at(placed.rest))?,
            None => return Ok(()),
        }
    }
    Ok(())
}

// Whether these are the events of a text with their lines.
fn has_events(alloc: Global, text: &[u8], expected: &[u8]) -> Result<bool, AllocError> {
    let mut listed = Vec::new(alloc);
    push_events(&mut listed, alloc, text)?;
    Ok(listed.as_slice() == expected)
}

// Whether a text with each kind of item has the events that it should have.
fn events_are_right(alloc: Global) -> Result<bool, AllocError> {
    has_events(
        alloc,
        b"@comment{@Preamble{\"a\"}\n@string(s = {b}) @misc{K,\n title = s # {\n}, year=1\n,} @misc{l m @@a{c, {}} @misc{k, f=1}\n@misc{",
        b"comment1\npreamble1\nend1\nstring s2\nend2\nentry K2\nfield title4\nfield year4\nend5\nentry l5\nno comma5\nentry c5\nno name5\nrepeated5\nend6\n",
    )
}

#[test]
fn events_and_lines(rt: HostRuntime) {
    assert!(rt; events_are_right(rt.alloc()) == Ok(true));
}

// The value of an event.
fn value_in<'a>(event: Event<'a>) -> Option<Value<'a>> {
    match event {
        Event::Preamble(value) | Event::Definition(_, value) => Some(value),
        Event::Field(field) => Some(field.value),
        _ => None,
    }
}

// The first value in a database.
fn first_value<'a>(alloc: Global, text: &'a [u8]) -> Result<Option<Value<'a>>, AllocError> {
    let mut reader = Reader::of(text);
    for _ in 0..100 {
        match reader.read(alloc, &KeyK)? {
            Some(placed) => {
                if let Some(value) = value_in(placed.event) {
                    return Ok(Some(value));
                }
            }
            None => return Ok(None),
        }
    }
    Ok(None)
}

// The text of the first value in a database, or the fault of it.
fn first_text<'a>(alloc: Global, text: &'a [u8], ends: Ends) -> Result<Text<'a>, Fault> {
    match first_value(alloc, text)? {
        Some(value) => value_text(alloc, &value, &spaced_letter(), ends),
        None => Ok(Text::empty()),
    }
}

/// A database, what becomes of the ends of its first value, and the text of that.
type Worked = (&'static [u8], Ends, &'static [u8]);

const TEXTS: [Worked; 6] = [
    (b"@a{c,f={Knuth}}", Ends::Trimmed, b"Knuth"),
    (
        b"@a{c,f={ Donald Knuth\r\n}}",
        Ends::Trimmed,
        b"Donald Knuth",
    ),
    (
        b"@a{c,f={ Donald\n  Knuth \t}}",
        Ends::Trimmed,
        b"Donald Knuth",
    ),
    (
        b"@a{c,f=\"x \" # s # {  z} # 12}",
        Ends::Trimmed,
        b"x v z12",
    ),
    (b"@a{c,f=s}", Ends::Trimmed, b"v"),
    (b"@string{f= s # {  z }}", Ends::Kept, b" v z "),
];

// Whether the first value in a database has this text.
fn has_text(alloc: Global, text: &[u8], ends: Ends, expected: &[u8]) -> Result<bool, Fault> {
    let found = first_text(alloc, text, ends)?;
    Ok(found.as_bytes() == expected)
}

// Whether each of these values has its text.
fn each_has_its_text(alloc: Global, rows: &[Worked]) -> Result<bool, Fault> {
    for (text, ends, expected) in rows {
        if !has_text(alloc, text, *ends, expected)? {
            return Ok(false);
        }
    }
    Ok(true)
}

// Whether each value of the table has its text.
fn texts_are_right(alloc: Global) -> Result<bool, Fault> {
    each_has_its_text(alloc, &TEXTS)
}

#[test]
fn texts_of_values(rt: HostRuntime) {
    assert!(rt; texts_are_right(rt.alloc()) == Ok(true));
}
