//! Where the reading stood at each message, worked by hand: how many bytes of the database are before that place.
use super::rows::STYLE;
use super::showing::{Asked, seen_of};
use btx_text::Fault;
use std::alloc::Global;

// Two databases, and the place of each message that has one, with a space before it.
#[derive(Clone, Copy)]
struct Row {
    first: &'static [u8],
    second: &'static [u8],
    places: &'static [u8],
}

// No database has a text.
const EMPTY: Row = Row {
    first: b"",
    second: b"",
    places: b"",
};

// The job cites `k`.
const ROWS: [Row; 18] = [
    // Something else than a name, at that byte.
    Row {
        first: b"@=",
        places: b" 1",
        ..EMPTY
    },
    // No delimiter, at the byte in its place.
    Row {
        first: b"@misc k",
        places: b" 6",
        ..EMPTY
    },
    // No comma, at the byte after the whitespace.
    Row {
        first: b"@misc{k, title = {A}\nx = {B}}",
        places: b" 21",
        ..EMPTY
    },
    // No equals sign.
    Row {
        first: b"@misc{k, title {A}}",
        places: b" 15",
        ..EMPTY
    },
    // No closing delimiter.
    Row {
        first: b"@string{s = {x} y}",
        places: b" 16",
        ..EMPTY
    },
    // No value.
    Row {
        first: b"@misc{k, title = }",
        places: b" 17",
        ..EMPTY
    },
    // A brace in quotes that has no other one, at the brace.
    Row {
        first: b"@misc{k, title = \"a}b\"}",
        places: b" 19",
        ..EMPTY
    },
    // The end of the file, at the end.
    Row {
        first: b"@misc{k, title = {A",
        places: b" 19",
        ..EMPTY
    },
    // A repeated entry, after its key.
    Row {
        first: b"@misc{k}@misc{K}",
        places: b" 15",
        ..EMPTY
    },
    // A type that the style doesn't have, after the key.
    Row {
        first: b"@other{k}",
        places: b" 8",
        ..EMPTY
    },
    // A second value, after it.
    Row {
        first: b"@misc{k, title = {A}, title = {B} }",
        places: b" 33",
        ..EMPTY
    },
    // Names that stand for no string, each after the name.
    Row {
        first: b"@misc{k, title = zz # yy }",
        places: b" 19 24",
        ..EMPTY
    },
    // A string's own name, after it.
    Row {
        first: b"@string{s = s }",
        places: b" 13",
        ..EMPTY
    },
    // No comma in an entry that isn't stored.
    Row {
        first: b"@misc{a, note = {x} year = 1}",
        places: b" 20",
        ..EMPTY
    },
    // A place counts from the beginning of its own file.
    Row {
        first: b"@misc{j, x}",
        second: b"@=",
        places: b" 10 1",
    },
    // Whitespace and text between items count.
    Row {
        first: b"A text.\n\n@misc{k}\r\n@misc{k}",
        places: b" 26",
        ..EMPTY
    },
    // A byte from 128 up is one.
    Row {
        first: b"\xc3\xa9@=",
        places: b" 3",
        ..EMPTY
    },
    // A key without an entry and a parent without one have no place.
    Row {
        first: b"@misc{j}",
        ..EMPTY
    },
];

// Whether the messages of a row's databases have the row's places.
fn is_right(alloc: Global, row: &Row) -> Result<bool, Fault> {
    let asked = Asked {
        style: STYLE,
        fields: 3,
        keys: b"k",
        least: 2,
    };
    let databases = [
        (b"d.bib".as_slice(), row.first),
        (b"e.bib".as_slice(), row.second),
    ];
    let seen = seen_of(alloc, asked, &databases)?;
    Ok(seen.places.as_slice() == row.places)
}

// The number of the first of these rows whose messages have other places, if one has.
fn first_wrong(alloc: Global, rows: &[Row]) -> Result<Option<usize>, Fault> {
    for (number, row) in rows.iter().enumerate() {
        if !is_right(alloc, row)? {
            return Ok(Some(number));
        }
    }
    Ok(None)
}

#[test]
fn each_message_has_its_place(rt: HostRuntime) {
    assert!(rt; first_wrong(rt.alloc(), &ROWS) == Ok(None));
}
