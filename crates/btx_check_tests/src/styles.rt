//! Small styles, each beside one that differs from it in what makes it go wrong.
use btx_bst::read_style;
use btx_check::{Verdict, check};
use btx_lint::examine;
use std::alloc::{AllocError, Global};

// What stands before the commands of each style.
const HEAD: &[u8] = b"ENTRY {title editor}{year}{label} INTEGERS {n m} STRINGS {s} ";

// The rest of styles that are clean, a line each.
const FIELDS: &[u8] = b"FUNCTION {f} {title empty$ 'skip$ {title write$} if$} READ ITERATE {f}
FUNCTION {f} {title missing$ 'skip$ {title write$} if$} READ ITERATE {f}
FUNCTION {f} {title duplicate$ empty$ {pop$} 'write$ if$} READ ITERATE {f} SORT REVERSE {f}
FUNCTION {f} {title empty$ {#0} {title #1} if$} FUNCTION {g} {f 'write$ 'skip$ if$} READ ITERATE {g}";

// .. and of styles that aren't.
const SPOILT_FIELDS: &[u8] = b"FUNCTION {f} {title write$} READ ITERATE {f}
FUNCTION {f} {title empty$ 'skip$ {editor write$} if$} READ ITERATE {f}
FUNCTION {f} {title empty$ {title write$} 'skip$ if$} READ ITERATE {f}
FUNCTION {f} {title empty$ 'skip$ {title write$} if$} READ EXECUTE {f}
FUNCTION {f} {title missing$ {title write$} 'skip$ if$} READ ITERATE {f}
FUNCTION {f} {title} READ ITERATE {f}";

const VALUES: &[u8] = b"FUNCTION {f} {#5 'n := n #0 > 'skip$ {#1 write$} if$} READ EXECUTE {f}
FUNCTION {f} {\"a\" duplicate$ * 's := s write$} READ EXECUTE {f}
FUNCTION {f} {#1 #2 swap$ < {\"a\" write$} 'skip$ if$} READ EXECUTE {f}
FUNCTION {f} {\"a\" #1 = {skip$} {skip$} if$} READ ITERATE {skip$}
FUNCTION {f} {s text.length$ 'n := n #0 = 'skip$ {n #0 = {#1 write$} 'skip$ if$} if$} READ EXECUTE {f}
FUNCTION {i} {#1 'n :=} FUNCTION {f} {n #1 = 'skip$ {#1 write$} if$} READ EXECUTE {i} ITERATE {f}
FUNCTION {f} {title empty$ {\"\"} 'title if$ 's := s num.names$ #0 > {s #1 \"{ll}\" format.name$ write$} 'skip$ if$} READ ITERATE {f}
FUNCTION {f} {s \"a\" * empty$ {#1 write$} 'skip$ if$} READ EXECUTE {f}
FUNCTION {f} {\"a\" s * empty$ {#1 write$} 'skip$ if$} READ EXECUTE {f}
FUNCTION {f} {\" \" empty$ 'skip$ {#1 write$} if$} READ EXECUTE {f}";

const SPOILT_VALUES: &[u8] =
    b"FUNCTION {f} {#5 'n := #0 'n := n #0 > 'skip$ {#1 write$} if$} READ EXECUTE {f}
FUNCTION {f} {\"a\" #1 = pop$} READ EXECUTE {f}
FUNCTION {f} {s text.length$ 'n := n #0 = 'skip$ {n #1 = {#1 write$} 'skip$ if$} if$} READ EXECUTE {f}
FUNCTION {i} {#1 'n :=} FUNCTION {f} {n #1 = 'skip$ {#1 write$} if$ #2 'n :=} READ EXECUTE {i} ITERATE {f}
FUNCTION {f} {#1 'skip$ :=} READ EXECUTE {f}
FUNCTION {f} {\"a\" 's := s empty$ {#1 write$} 'skip$ if$} READ EXECUTE {f}
FUNCTION {f} {pop$} READ EXECUTE {f}
FUNCTION {f} {#1 write$} READ EXECUTE {f}
FUNCTION {f} {\"\" \"\" * empty$ {#1 write$} 'skip$ if$} READ EXECUTE {f}
FUNCTION {f} {s \" \" * empty$ {#1 write$} 'skip$ if$} READ EXECUTE {f}
FUNCTION {f} {\" \" empty$ {#1 write$} 'skip$ if$} READ EXECUTE {f}";

const LOOPS: &[u8] =
    b"FUNCTION {f} {#1 'n := #3 'm := {m #0 >} {n #1 > {\"b\" *} {\"a\"} if$ n #1 + 'n := m #1 - 'm :=} while$ write$} READ EXECUTE {f}
FUNCTION {f} {#0 'n := {#10 n >} {n #1 + 'n := \"a\" write$} while$} READ EXECUTE {f}
FUNCTION {f} {#0 'n := {#10 n >} {n #1 + 'n :=} while$ n #9 > 'skip$ {#1 write$} if$} READ EXECUTE {f}
FUNCTION {book} {title empty$ 'skip$ {title write$} if$} FUNCTION {output} {write$} READ ITERATE {call.type$}
FUNCTION {letter} {title empty$ 'skip$ {title write$} if$} READ ITERATE {call.type$}";

const SPOILT_LOOPS: &[u8] =
    b"FUNCTION {f} {#0 'n := {#10 n >} {n #1 + 'n := \"a\"} while$} READ EXECUTE {f}
FUNCTION {f} {#0 'n := {\"a\"} {n #1 + 'n :=} while$} READ EXECUTE {f}
FUNCTION {f} {#0 'n := {#10 n >} {n #1 + 'n :=} while$ n #9 > {#1 write$} 'skip$ if$} READ EXECUTE {f}
FUNCTION {book} {title write$} READ ITERATE {call.type$}
FUNCTION {letter} {title write$} READ ITERATE {call.type$}
FUNCTION {book} {skip$} FUNCTION {default.type} {pop$} READ ITERATE {call.type$}
FUNCTION {h} {duplicate$ #1 swap$ 'skip$ if$} FUNCTION {g} {'h h} READ EXECUTE {g}";

// What is known of an entry from one command to the next.
const ENTRIES: &[u8] =
    b"FUNCTION {f} {title empty$ {#0 'year :=} {#1 'year :=} if$} FUNCTION {g} {year {title write$} 'skip$ if$} READ ITERATE {f} ITERATE {g}
FUNCTION {f} {title empty$ {#0 'year :=} {#1 'year :=} if$} FUNCTION {g} {year {title write$} 'skip$ if$} READ ITERATE {f} SORT REVERSE {g} ITERATE {g}
FUNCTION {i} {#1 'n :=} FUNCTION {f} {title empty$ {#0 'year :=} {n 'year :=} if$} FUNCTION {g} {year n = {title write$} 'skip$ if$} READ EXECUTE {i} REVERSE {f} EXECUTE {i} ITERATE {g}
FUNCTION {f} {title empty$ {#0 'year :=} {#1 'year :=} if$} FUNCTION {h} {label 's := year {title 's :=} 'skip$ if$} READ ITERATE {f} ITERATE {h} ITERATE {h}";

const SPOILT_ENTRIES: &[u8] =
    b"FUNCTION {f} {title empty$ {#1 'year :=} {#0 'year :=} if$} FUNCTION {g} {year {title write$} 'skip$ if$} READ ITERATE {f} ITERATE {g}
FUNCTION {f} {title empty$ {#0 'year :=} {#1 'year :=} if$} FUNCTION {h} {#1 'year :=} FUNCTION {g} {year {title write$} 'skip$ if$} READ ITERATE {f} SORT ITERATE {h} ITERATE {g}
FUNCTION {f} {title empty$ {#0 'year :=} {#1 'year :=} if$} FUNCTION {g} {year {editor write$} 'skip$ if$} READ ITERATE {f} ITERATE {g}
FUNCTION {i} {#1 'n :=} FUNCTION {f} {#0 'year :=} FUNCTION {g} {year #0 = {title write$} 'skip$ if$} READ EXECUTE {i} ITERATE {f} ITERATE {g}
FUNCTION {f} {title empty$ {#0 'n :=} {#1 'n :=} if$} FUNCTION {g} {n {title write$} 'skip$ if$} READ ITERATE {f} ITERATE {g}";

// A style of this head and this rest.
fn text_of(alloc: Global, rest: &[u8]) -> Result<Vec<u8>, AllocError> {
    let mut text: Vec<u8> = Vec::from_slice(alloc, HEAD)?;
    text.extend_from_slice(rest)?;
    Ok(text)
}

// Whether a style of this head and this rest is called clean.
pub(crate) fn is_clean(alloc: Global, rest: &[u8]) -> bool {
    let Ok(text) = text_of(alloc, rest) else {
        return false
    };
    let Ok(style) = read_style(alloc, b"s.bst", &text) else {
        return false
    };
    match check(alloc, &style, 100_000) {
        Ok(Verdict::Clean(_)) => true,
        _ => false,
    }
}

// How many places are found where a style of this head and this rest may go wrong; 100 if it can't be told.
fn places_of(alloc: Global, rest: &[u8]) -> usize {
    let Ok(text) = text_of(alloc, rest) else {
        return 100
    };
    let Ok(style) = read_style(alloc, b"s.bst", &text) else {
        return 100
    };
    match examine(alloc, &style, 100_000) {
        Ok(findings) => findings.found.len(),
        Err(_) => 100,
    }
}

// A style that may go wrong in two places, and one that can't.
const TWO_PLACES: &[u8] = b"FUNCTION {f} {title write$ editor write$} READ ITERATE {f}";

const NO_PLACE: &[u8] = b"FUNCTION {f} {s write$} READ ITERATE {f}";

#[test]
fn places(rt: HostRuntime) {
    assert!(rt; places_of(rt.alloc(), TWO_PLACES) == 2);
    assert!(rt; places_of(rt.alloc(), NO_PLACE) == 0);
}

// How many of these lines are styles that are called clean.
fn clean_of(alloc: Global, lines: &[u8]) -> usize {
    let mut count = 0;
    for line in lines.split(|b| *b == b'\n') {
        if is_clean(alloc, line) && count < 100 {
            count += 1;
        }
    }
    count
}

// Whether so many of the first lines are called clean, and none of the second, in which they are spoilt.
fn are_told_apart(alloc: Global, lines: &[u8], clean: usize, spoilt: &[u8]) -> bool {
    clean_of(alloc, lines) == clean && clean_of(alloc, spoilt) == 0
}

#[test]
fn spoilt_styles(rt: HostRuntime) {
    assert!(rt; are_told_apart(rt.alloc(), FIELDS, 4, SPOILT_FIELDS));
    assert!(rt; are_told_apart(rt.alloc(), VALUES, 10, SPOILT_VALUES));
    assert!(rt; are_told_apart(rt.alloc(), LOOPS, 5, SPOILT_LOOPS));
    assert!(rt; are_told_apart(rt.alloc(), ENTRIES, 4, SPOILT_ENTRIES));
}
