//! The functions on strings: boundaries, every byte; elements, lines and keys. A helper answers whether a call holds, so no test holds an answer.
use btx_strings::{
    Answer, Complaints, add_period, change_case, purify, substring, text_length, text_prefix, width,
};
use btx_text::{
    Class, Element, Elements, Fault, Kind, Text, TextMode, class, depth_at, fold_key, lines,
    same_key,
};
use std::alloc::{AllocError, Global};

// A call of a function that answers a text, but for its string.
#[derive(Clone, Copy)]
enum Call {
    Substring(i32, i32),
    AddPeriod,
    TextPrefix(i32, TextMode),
    ChangeCase(&'static [u8]),
    Purify,
}

fn answer_of(alloc: Global, call: Call, string: &[u8]) -> Result<Answer, Fault> {
    match call {
        Call::Substring(start, length) => substring(alloc, string, start, length),
        Call::AddPeriod => add_period(alloc, string),
        Call::TextPrefix(count, mode) => text_prefix(alloc, string, count, mode),
        Call::ChangeCase(conversion) => change_case(alloc, string, conversion),
        Call::Purify => purify(alloc, string),
    }
}

// Whether a call answers this text with these complaints.
fn answers(alloc: Global, call: Call, string: &[u8], want: &[u8], complaints: Complaints) -> bool {
    match answer_of(alloc, call, string) {
        Ok(answer) => answer.text.as_slice() == want && answer.complaints == complaints,
        Err(_) => false,
    }
}

// How long the text is that a call answers.
fn length_of(alloc: Global, call: Call, string: &[u8]) -> Result<usize, Fault> {
    match answer_of(alloc, call, string) {
        Ok(answer) => Ok(answer.text.len()),
        Err(fault) => Err(fault),
    }
}

// The string's length in both modes, and its width; -1 for a string that is longer than a string can be.
fn numbers_of(string: &[u8]) -> (i32, i32, i32) {
    if string.len() > 1_000_000 {
        return (-1, -1, -1);
    }
    (
        text_length(string, TextMode::Bytes),
        text_length(string, TextMode::Utf8),
        width(string),
    )
}

// What the rules say of a byte by itself: its class.
fn class_of(byte: u8) -> Class {
    match byte {
        9 | 13 | 32 => Class::White,
        b'-' | b'~' => Class::Sep,
        48..=57 => Class::Digit,
        65..=90 | 97..=122 | 128..=255 => Class::Alpha,
        _ => Class::Other,
    }
}

// Whether a byte's purified form is the one of its class.
fn is_purified(alloc: Global, byte: u8) -> bool {
    let string = [byte];
    let want = match class_of(byte) {
        Class::White | Class::Sep => b" ".as_slice(),
        Class::Digit | Class::Alpha => string.as_slice(),
        Class::Other => b"",
    };
    answers(alloc, Call::Purify, &string, want, Complaints::NONE)
}

// Whether a byte is changed to this one by a conversion.
fn changes(alloc: Global, conversion: &'static [u8], byte: u8, want: u8) -> bool {
    let call = Call::ChangeCase(conversion);
    answers(alloc, call, &[byte], &[want], Complaints::NONE)
}

fn lowered(byte: u8) -> u8 {
    if byte >= 65 && byte <= 90 {
        byte + 32
    } else {
        byte
    }
}

fn raised(byte: u8) -> u8 {
    if byte >= 97 && byte <= 122 {
        byte - 32
    } else {
        byte
    }
}

// The first byte whose class, purified form, or form in another case isn't what the rules say.
fn first_wrong_byte(alloc: Global) -> Option<u8> {
    for byte in 0..=255u8 {
        if class(byte) != class_of(byte)
            || !is_purified(alloc, byte)
            || !changes(alloc, b"l", byte, lowered(byte))
            || !changes(alloc, b"u", byte, raised(byte))
            || !changes(alloc, b"t", byte, byte)
        {
            return Some(byte);
        }
    }
    None
}

#[test]
fn every_byte(rt: HostRuntime) {
    assert!(rt; first_wrong_byte(rt.alloc()).is_none() == true);
}

// A string, and what its elements are: the kind, the first byte's index and the depth before it.
const STRING: &[u8] = b"{\\\"O}z{a}";

const ELEMENTS: [(Kind, usize, usize); 5] = [
    (Kind::Special, 0, 0),
    (Kind::Byte, 5, 0),
    (Kind::Open, 6, 0),
    (Kind::Byte, 7, 1),
    (Kind::Close, 8, 1),
];

// Whether an element is as it is to be, and the depth before it.
fn is_element(element: Element, wanted: Option<&(Kind, usize, usize)>) -> bool {
    let found = (element.kind, element.start, element.depth);
    let place = element.start.min(STRING.len());
    wanted == Some(&found) && depth_at(STRING, place) == element.depth
}

// How many of the elements are as they are to be, up to the first that isn't; one more where there are more elements.
fn right_elements(wanted: &[(Kind, usize, usize)]) -> usize {
    let mut count = 0_usize;
    for element in Elements::of(STRING) {
        if !is_element(element, wanted.get(count)) {
            return count;
        }
        count = count.saturating_add(1);
    }
    count
}

#[test]
fn elements(rt: HostRuntime) {
    assert!(rt; right_elements(&ELEMENTS) == 5);
    assert!(rt; depth_at(b"}{{", 3) == 2);
    let wide = Elements::of_text(b"\xC3\x89a", TextMode::Utf8)
        .next()
        .map(|element| element.kind);
    assert!(rt; wide == Some(Kind::Wide));
}

// What of a text comes after another one's lines, each of them after a bar; None if it doesn't begin so.
fn behind_lines<'a>(wanted: &'a [u8], text: &[u8]) -> Option<&'a [u8]> {
    let mut rest = wanted;
    for line in lines(text) {
        rest = rest.strip_prefix(b"|")?.strip_prefix(line)?;
    }
    Some(rest)
}

// A text, and its lines.
const LINES: [(&[u8], &[u8]); 5] = [
    (b"a \t\r\n\n b\x0b\nc\rd\n \t", b"|a|| b\x0b|c\rd|"),
    (b"\n", b"|"),
    (b" ", b"|"),
    (b"\t\n", b"|"),
    (b"", b""),
];

fn first_wrong_lines(rows: &[(&[u8], &[u8])]) -> usize {
    let is_wrong = |(text, want): &(&[u8], &[u8])| behind_lines(want, text) != Some(b"".as_slice());
    rows.iter().position(is_wrong).unwrap_or(rows.len())
}

// Two keys, and whether they are the same.
const KEYS: [(&[u8], &[u8], bool); 6] = [
    (b"Knuth:84", b"kNUTH:84", true),
    (b"", b"", true),
    (b"Knuth", b"Knut", false),
    (b"Knut", b"Knuth", false),
    (b"@", b"`", false),
    (b"\xC9", b"\xE9", false),
];

fn first_wrong_key(rows: &[(&[u8], &[u8], bool)]) -> usize {
    let is_wrong = |(one, other, same): &(&[u8], &[u8], bool)| same_key(one, other) != *same;
    rows.iter().position(is_wrong).unwrap_or(rows.len())
}

// Whether a key is folded.
fn is_folded() -> bool {
    let mut key = *b"Knuth:84@[Z\xC9";
    fold_key(&mut key);
    key.as_slice() == b"knuth:84@[z\xC9".as_slice()
}

#[test]
fn lines_and_keys(rt: HostRuntime) {
    let (line, pair) = (first_wrong_lines(&LINES), first_wrong_key(&KEYS));
    assert!(rt; line == 5, "lines {line}");
    assert!(rt; pair == 6, "keys {pair}");
    assert!(rt; is_folded() == true);
}

// Whether the bytes of a text are these once several places share them, and again as a text.
fn is_shared_as(alloc: Global, text: Text<'_>, want: &[u8]) -> Result<bool, AllocError> {
    let shared = text.into_shared(alloc)?;
    let again = Text::of_shared(shared.clone()?);
    Ok(shared.as_slice() == want && again.as_bytes() == want)
}

// Whether it is so of a text that is shared already.
fn is_shared_again(alloc: Global, text: Text<'_>, want: &[u8]) -> Result<bool, AllocError> {
    is_shared_as(alloc, text.share()?, want)
}

// Whether it is so of a text that is lent, of one that was computed, and of one that is shared.
fn sharing_holds(alloc: Global, string: &[u8]) -> Result<bool, AllocError> {
    if string.len() > 1_000_000 {
        return Ok(false);
    }
    Ok(
        is_shared_as(alloc, Text::borrowed(string), string)?
            && is_shared_as(alloc, Text::owned(Vec::from_slice(alloc, string)?), string)?
            && is_shared_again(alloc, Text::owned(Vec::from_slice(alloc, string)?), string)?,
    )
}

#[test]
fn shared_texts(rt: HostRuntime) {
    assert!(rt; sharing_holds(rt.alloc(), STRING) == Ok(true));
}

// A string of `length` bytes, one at least: `first`, and `W`s.
fn long(alloc: Global, first: u8, length: usize) -> Result<Vec<u8>, AllocError> {
    let mut string = Vec::new(alloc);
    string.push(first)?;
    string.resize(length, b'W')?;
    Ok(string)
}

// How long the text is that `add_period` answers for a string of `length` `W`s and this end.
fn length_with_period(alloc: Global, length: usize, end: &[u8]) -> Result<usize, Fault> {
    let mut string = long(alloc, b'W', length)?;
    string.extend_from_slice(end)?;
    length_of(alloc, Call::AddPeriod, &string)
}

#[test]
fn longest_with_period(rt: HostRuntime) {
    assert!(rt; length_with_period(rt.alloc(), 999_999, b"") == Ok(1_000_000));
    assert!(rt; length_with_period(rt.alloc(), 1_000_000, b"") == Err(Fault::StringLimit));
    assert!(rt; length_with_period(rt.alloc(), 999_999, b".") == Ok(1_000_000));
}

// A call, and how long the text is that it answers; None where that would be too long.
type Length = (Call, Option<usize>);

// Of a string of 1,000,001 braces: the longest prefix, and one that is too long.
const BRACES: [Length; 4] = [
    (Call::TextPrefix(999_998, TextMode::Bytes), Some(1_000_000)),
    (Call::TextPrefix(999_999, TextMode::Bytes), None),
    (Call::TextPrefix(999_998, TextMode::Utf8), Some(1_000_000)),
    (Call::TextPrefix(999_999, TextMode::Utf8), None),
];

// Of 1,000,001 letters: their forms and the whole of them are too long, and the longest pieces are there.
const LETTERS: [Length; 12] = [
    (Call::Purify, None),
    (Call::ChangeCase(b"t"), None),
    (Call::ChangeCase(b"none"), None),
    (Call::Substring(1, i32::MAX), None),
    (Call::Substring(1, 999_999), Some(999_999)),
    (Call::Substring(1, 1_000_000), Some(1_000_000)),
    (Call::Substring(2, 999_999), Some(999_999)),
    (Call::Substring(2, 1_000_000), Some(1_000_000)),
    (Call::Substring(-1, 999_999), Some(999_999)),
    (Call::Substring(-1, 1_000_000), Some(1_000_000)),
    (Call::Substring(-2, 999_999), Some(999_999)),
    (Call::Substring(-2, 1_000_000), Some(1_000_000)),
];

// The forms of a string are as long as it is.
fn forms(length: usize) -> [Length; 3] {
    [
        (Call::Purify, Some(length)),
        (Call::ChangeCase(b"t"), Some(length)),
        (Call::ChangeCase(b"none"), Some(length)),
    ]
}

// Whether each call answers a text of its length.
fn lengths_hold(alloc: Global, string: &[u8], rows: &[Length]) -> bool {
    for (call, length) in rows {
        if length_of(alloc, *call, string) != length.ok_or(Fault::StringLimit) {
            return false;
        }
    }
    true
}

// Whether it is so for the string of `length` bytes that is `first` and `W`s.
fn long_holds(alloc: Global, first: u8, length: usize, rows: &[Length]) -> bool {
    match long(alloc, first, length) {
        Ok(string) => lengths_hold(alloc, &string, rows),
        Err(_) => false,
    }
}

#[test]
fn longest_texts(rt: HostRuntime) {
    assert!(rt; long_holds(rt.alloc(), b'{', 1_000_001, &BRACES) == true);
    assert!(rt; long_holds(rt.alloc(), b'a', 999_999, &forms(999_999)) == true);
    assert!(rt; long_holds(rt.alloc(), b'a', 1_000_000, &forms(1_000_000)) == true);
    assert!(rt; long_holds(rt.alloc(), b'a', 1_000_001, &LETTERS) == true);
}

// Whether the numbers of a string of `length` `W`s are these.
fn has_numbers(alloc: Global, length: usize, wanted: (i32, i32, i32)) -> bool {
    match long(alloc, b'W', length) {
        Ok(string) => numbers_of(&string) == wanted,
        Err(_) => false,
    }
}

#[test]
fn greatest_numbers(rt: HostRuntime) {
    let numbers = (1_000_000, 1_000_000, 1_028_000_000);
    assert!(rt; has_numbers(rt.alloc(), 1_000_000, numbers) == true);
}
