//! Bytes, lines and elements.
use btx_text::{
    Class, Element, Elements, Fault, Kind, Lines, TextMode, class, depth_at, fold_key, lines,
    same_key,
};

// A letter for each class.
fn class_letter(class: Class) -> u8 {
    match class {
        Class::White => b'w',
        Class::Alpha => b'a',
        Class::Digit => b'd',
        Class::Sep => b's',
        Class::Other => b'o',
    }
}

/// A letter for each fault.
pub fn fault_letter(fault: Fault) -> u8 {
    match fault {
        Fault::Memory => b'm',
        Fault::Device => b'd',
        Fault::FileLimit => b'f',
        Fault::StringLimit => b's',
    }
}

// Whether classes and faults have these letters.
fn are_letters() -> bool {
    let letters = [
        class_letter(class(b' ')),
        class_letter(class(b'x')),
        class_letter(class(b'7')),
        class_letter(class(b'~')),
        class_letter(class(b'.')),
        fault_letter(Fault::FileLimit),
    ];
    letters == *b"wadsof"
}

// Whether a text is cut into two lines, each without the whitespace at its end.
fn is_cut() -> bool {
    let mut cut: Lines<'_> = lines(b"a \nb");
    let facts = [
        cut.next() == Some(b"a".as_slice()),
        cut.next() == Some(b"b".as_slice()),
        cut.next().is_none(),
    ];
    facts == [true; 3]
}

// Whether keys are lowered, and compared without case.
fn are_keys() -> bool {
    let mut key = *b"Kn";
    fold_key(&mut key);
    let facts = [key == *b"kn", same_key(b"KN", &key), same_key(b"K", &key)];
    facts == [true, true, false]
}

// A letter for each kind of element.
fn kind_letter(kind: Kind) -> u8 {
    match kind {
        Kind::Byte => b'b',
        Kind::Open => b'o',
        Kind::Close => b'c',
        Kind::Special => b's',
        Kind::Wide => b'w',
    }
}

// An element: the letter of its kind, how many bytes it has, where it starts, and the depth before it.
type Parts = (u8, usize, usize, usize);

// The parts of an element.
fn parts_of(element: &Element<'_>) -> Parts {
    let Element {
        kind,
        text,
        start,
        depth,
    } = *element;
    (kind_letter(kind), text.len(), start, depth)
}

// Whether a string has these elements.
fn are(elements: Elements<'_>, wanted: &[Parts]) -> bool {
    let mut count: usize = 0;
    for element in elements {
        if wanted.get(count) != Some(&parts_of(&element)) {
            return false;
        }
        count = count.saturating_add(1);
    }
    count == wanted.len()
}

// A special character, a group, and a character of two bytes in UTF-8.
const STRING: &[u8] = b"{\\'e}{b}\xc3\x89";

const IN_BYTES: [Parts; 6] = [
    (b's', 5, 0, 0),
    (b'o', 1, 5, 0),
    (b'b', 1, 6, 1),
    (b'c', 1, 7, 1),
    (b'b', 1, 8, 0),
    (b'b', 1, 9, 0),
];

const IN_UTF8: [Parts; 5] = [
    (b's', 5, 0, 0),
    (b'o', 1, 5, 0),
    (b'b', 1, 6, 1),
    (b'c', 1, 7, 1),
    (b'w', 2, 8, 0),
];

#[test]
fn texts(rt: HostRuntime) {
    let facts = [
        are_letters(),
        is_cut(),
        are_keys(),
        are(Elements::of(STRING), &IN_BYTES),
        are(Elements::of_text(STRING, TextMode::Bytes), &IN_BYTES),
        are(Elements::of_text(STRING, TextMode::Utf8), &IN_UTF8),
        depth_at(b"a{b", 2) == 1,
    ];
    assert!(rt; facts == [true; 7]);
}
