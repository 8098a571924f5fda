//! Jobs that are too long to be written out: limits with their number and with one more, many entries, and many names.
use crate::rows::SORTED;
use crate::worked::{Ends, Row, USUAL, holds};
use btx_tests::texts::{calling_functions, joined, repeated};
use std::alloc::{AllocError, Global};

// Whether the job of a row holds with this style after its READ.
fn holds_with(alloc: Global, row: &Row<'_>, text: Result<Vec<u8>, AllocError>) -> bool {
    match text {
        Ok(text) => holds(
            alloc,
            &Row {
                text: &text,
                ..*row
            },
        ),
        Err(_) => false,
    }
}

// A text between two others, `count` times.
fn between(
    alloc: Global,
    (front, text, behind): (&[u8], &[u8], &[u8]),
    count: usize,
) -> Result<Vec<u8>, AllocError> {
    let texts = repeated(alloc, text, count)?;
    joined(alloc, &[front, &texts, behind])
}

// A style's function that pushes literals and shows them.
const PUSHING: (&[u8], &[u8], &[u8]) = (b"FUNCTION {f} {", b"#7 ", b"stack$} EXECUTE {f}");

// Whether a run that pushes `count` literals shows what is given, and has this end.
fn shows(alloc: Global, count: usize, after: Result<Vec<u8>, AllocError>, ends: Ends) -> bool {
    match after {
        Ok(after) => {
            let row = Row {
                after: &after,
                ends,
                steps: 1_002,
                ..USUAL
            };
            holds_with(alloc, &row, between(alloc, PUSHING, count))
        }
        Err(_) => false,
    }
}

// Whether a run that pushes `count` literals shows `shown`, and has this end.
fn pushes(alloc: Global, count: usize, shown: usize, ends: Ends) -> bool {
    shows(alloc, count, repeated(alloc, b"7\n", shown), ends)
}

// A style's function that doubles a string of 15,625 letters six times, and another that adds a letter then.
const DOUBLING: (&[u8], &[u8], &[u8]) = (
    b"FUNCTION {d} {duplicate$ *} FUNCTION {f} {\"",
    b"a",
    b"\" d d d d d d pop$} EXECUTE {f}",
);

const DOUBLING_AND_ONE: (&[u8], &[u8], &[u8]) = (
    b"FUNCTION {d} {duplicate$ *} FUNCTION {f} {\"",
    b"a",
    b"\" d d d d d d \"b\" * pop$} EXECUTE {f}",
);

const DOUBLED: Row<'static> = Row {
    steps: 21,
    deepest: 2,
    ..USUAL
};

const DOUBLED_TOO_LONG: Row<'static> = Row {
    ends: Ends::String,
    steps: 22,
    deepest: 2,
    ..USUAL
};

// A style of `count` functions, each but the first calls the one before, and what is executed then.
fn calling(alloc: Global, count: usize, then: &[u8]) -> Result<Vec<u8>, AllocError> {
    let functions = calling_functions(alloc, count)?;
    joined(alloc, &[&functions, then])
}

const CALLED: Row<'static> = Row {
    steps: 4_096,
    deepest: 4_096,
    ..USUAL
};

const TOO_MANY_CALLS: Row<'static> = Row {
    ends: Ends::Calls,
    steps: 4_097,
    deepest: 4_096,
    ..USUAL
};

// Whether the job of a row holds with this database.
fn holds_over(alloc: Global, row: &Row<'_>, database: Result<Vec<u8>, AllocError>) -> bool {
    match database {
        Ok(database) => holds(
            alloc,
            &Row {
                database: &database,
                ..*row
            },
        ),
        Err(_) => false,
    }
}

// The title of the cited entry, and of another one.
const CITED: (&[u8], &[u8], &[u8]) = (b"@misc{k, title = {", b"a", b"}}");

const NOT_CITED: (&[u8], &[u8], &[u8]) = (b"@misc{j, title = {", b"a", b"}} @misc{k}");

const FIRST_LETTER: Row<'static> = Row {
    text: b"FUNCTION {f} {title #1 #1 substring$ write$} ITERATE {f}",
    bbl: b"a\n",
    steps: 6,
    ..USUAL
};

const TOO_LONG: Row<'static> = Row {
    ends: Ends::String,
    deepest: 0,
    ..USUAL
};

const PASSED: Row<'static> = Row {
    text: b"ITERATE {skip$}",
    steps: 1,
    deepest: 0,
    ..USUAL
};

// A name is asked for among a thousand.
const NAMES: (&[u8], &[u8], &[u8]) = (b"@misc{k, title = {", b"Ab Cd and ", b"Ab Cd}}");

const LAST_NAME: Row<'static> = Row {
    text: b"FUNCTION {f} {title #1000 \"{f.~}{ll}\" format.name$ write$ newline$} ITERATE {f}",
    bbl: b"A.~Cd\n",
    steps: 7,
    ..USUAL
};

// A key of four digits.
fn key_of(alloc: Global, number: usize) -> Result<String, AllocError> {
    let (thousands, hundreds) = (number / 1_000 % 10, number / 100 % 10);
    let (tens, ones) = (number / 10 % 10, number % 10);
    format!(in alloc; "k{thousands}{hundreds}{tens}{ones}")
}

// The database of 3,000 entries, from the last key to the first.
fn entries(alloc: Global) -> Result<Vec<u8>, AllocError> {
    let mut text = Vec::new(alloc);
    for before in 0..3_000usize {
        text.extend_from_slice(b"@misc{")?;
        text.extend_from_slice(key_of(alloc, 3_000usize.saturating_sub(before))?.as_bytes())?;
        text.extend_from_slice(b"}\n")?;
    }
    Ok(text)
}

// Their keys, from the first to the last, each on a line.
fn keys(alloc: Global) -> Result<Vec<u8>, AllocError> {
    let mut text = Vec::new(alloc);
    for number in 1..3_001usize {
        text.extend_from_slice(key_of(alloc, number)?.as_bytes())?;
        text.extend_from_slice(b"\n")?;
    }
    Ok(text)
}

// The job that sorts the entries.
const SORTING: Row<'static> = Row {
    aux: b"\\citation{*}\n\\bibdata{d}\n\\bibstyle{s}\n",
    text: SORTED,
    steps: 24_000,
    ..USUAL
};

// Whether it writes these keys.
fn sorts(alloc: Global, keys: Result<Vec<u8>, AllocError>) -> bool {
    match keys {
        Ok(bbl) => holds_over(
            alloc,
            &Row {
                bbl: &bbl,
                ..SORTING
            },
            entries(alloc),
        ),
        Err(_) => false,
    }
}

#[test]
fn limits_and_one_more(rt: HostRuntime) {
    let alloc = rt.alloc();
    let facts = [
        pushes(alloc, 1_000, 1_000, Ends::Finished),
        pushes(alloc, 1_001, 0, Ends::Literals),
        holds_with(alloc, &DOUBLED, between(alloc, DOUBLING, 15_625)),
        holds_with(
            alloc,
            &DOUBLED_TOO_LONG,
            between(alloc, DOUBLING_AND_ONE, 15_625),
        ),
        holds_with(alloc, &CALLED, calling(alloc, 4_096, b" EXECUTE {f4096}")),
        holds_with(
            alloc,
            &TOO_MANY_CALLS,
            calling(alloc, 4_097, b" EXECUTE {f4097}"),
        ),
    ];
    assert!(rt; facts == [true; 6]);
}

#[test]
fn long_databases(rt: HostRuntime) {
    let alloc = rt.alloc();
    let facts = [
        holds_over(alloc, &FIRST_LETTER, between(alloc, CITED, 1_000_000)),
        holds_over(alloc, &TOO_LONG, between(alloc, CITED, 1_000_001)),
        holds_over(alloc, &PASSED, between(alloc, NOT_CITED, 1_000_001)),
        holds_over(alloc, &LAST_NAME, between(alloc, NAMES, 999)),
        sorts(alloc, keys(alloc)),
    ];
    assert!(rt; facts == [true; 5]);
}
