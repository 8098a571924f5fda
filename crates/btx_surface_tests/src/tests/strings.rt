//! Functions of strings and names.
use btx_names::{format_name, num_names};
use btx_strings::{
    Answer, Complaints, add_period, change_case, purify, substring, text_length, text_prefix, width,
};
use btx_text::{Fault, TextMode};
use std::alloc::Global;

// Whether the numbers of strings and names are right.
fn are_numbers() -> bool {
    let numbers: [i32; 4] = [
        text_length(b"\xc3\x89a", TextMode::Bytes),
        text_length(b"\xc3\x89a", TextMode::Utf8),
        width(b"AB"),
        num_names(b"A and B"),
    ];
    numbers == [3, 2, 1458, 2]
}

// The number of each complaint that is set, the first bit being that of `x9`.
fn complaint_bits(complaints: Complaints) -> u8 {
    let Complaints {
        x9,
        x10,
        x11,
        x12,
        x13,
    } = complaints;
    u8::from(x9) | u8::from(x10) << 1 | u8::from(x11) << 2 | u8::from(x12) << 3 | u8::from(x13) << 4
}

// Whether this text is answered, with these complaints.
fn is(answer: Result<Answer, Fault>, want: &[u8], bits: u8) -> bool {
    match answer {
        Ok(Answer { text, complaints }) => {
            text.as_slice() == want && complaint_bits(complaints) == bits
        }
        Err(_) => false,
    }
}

// What is called.
#[derive(Clone, Copy)]
enum Call {
    AddPeriod,
    Purify,
    Upper,
    Unknown,
    Prefix,
    Substring,
    Name(i32),
}

// A call of a string, what it is formatted by if it is names, and what it answers: a text, and complaints.
type Row = (Call, &'static [u8], &'static [u8], &'static [u8], u8);

const ROWS: [Row; 11] = [
    (Call::AddPeriod, b"a", b"", b"a.", 0),
    (Call::Purify, b"a-b", b"", b"a b", 0),
    (Call::Upper, b"Ab", b"", b"AB", 0),
    (Call::Unknown, b"Ab", b"", b"Ab", 1),
    (Call::Prefix, b"\xc3\x89a", b"", b"\xc3\x89", 0),
    (Call::Substring, b"abcdef", b"", b"cde", 0),
    (Call::Name(1), b"Ann Lee", b"{f. }{ll}", b"A. Lee", 0),
    (Call::Name(2), b"A", b"{ll}", b"", 2),
    (Call::Name(1), b"Knuth, Donald,", b"{ll}", b"Knuth", 4),
    (Call::Name(1), b"a, b, c, d", b"{ll}", b"a", 8),
    (Call::Name(1), b"A", b"{lll}", b"", 16),
];

// The answer of a row's call.
fn answer_of(alloc: Global, (call, string, format, _, _): Row) -> Result<Answer, Fault> {
    match call {
        Call::AddPeriod => add_period(alloc, string),
        Call::Purify => purify(alloc, string),
        Call::Upper => change_case(alloc, string, b"u"),
        Call::Unknown => change_case(alloc, string, b"x"),
        Call::Prefix => text_prefix(alloc, string, 1, TextMode::Utf8),
        Call::Substring => substring(alloc, string, -2, 3),
        Call::Name(number) => format_name(alloc, string, number, format, TextMode::Bytes),
    }
}

// Whether each row holds.
fn hold(alloc: Global, rows: &[Row]) -> bool {
    for row in rows {
        if !is(answer_of(alloc, *row), row.3, row.4) {
            return false;
        }
    }
    true
}

#[test]
fn strings(rt: HostRuntime) {
    let facts = [are_numbers(), hold(rt.alloc(), &ROWS)];
    assert!(rt; facts == [true; 2]);
}
