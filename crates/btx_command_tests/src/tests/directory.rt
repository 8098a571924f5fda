//! Files of a real folder, as they are fetched for a run.
use super::scratch::{make_folder, write_file};
use btx_command::{DirectoryFinder, History, RealSystem};
use btx_run::{FetchFault, Finder};
use std::alloc::{AllocError, Global};
use std::fs;
use std::test::Fail;

// A name, what a fetch answers for it, how often the finder fails then, and the bytes.
#[derive(Clone, Copy)]
struct Row<'a> {
    name: &'a [u8],
    answer: Result<bool, FetchFault>,
    failures: u64,
    bytes: &'a [u8],
}

// Whether a new finder over a folder gives this for a name.
fn gives(rt: &HostRuntime, directory: &str, row: &Row<'_>) -> Result<bool, AllocError> {
    let mut into = Vec::from_slice(rt.alloc(), b"what was there")?;
    let history = History::new(rt.alloc());
    let mut finder = DirectoryFinder::new(RealSystem::new(rt), directory, history);
    let answer = finder.fetch(rt.alloc(), row.name, &mut into);
    Ok(
        answer == row.answer
            && finder.system().failures().count == row.failures
            && finder.system().failures().last_failed == (row.failures > 0)
            && into.as_slice() == row.bytes,
    )
}

// Whether each name gives what is said.
fn all_give(rt: &HostRuntime, directory: &str, rows: &[Row<'_>]) -> Result<bool, AllocError> {
    for row in rows {
        if !gives(rt, directory, row)? {
            return Ok(false);
        }
    }
    Ok(true)
}

const ROWS: [Row<'static>; 5] = [
    Row {
        name: b"present.aux",
        answer: Ok(true),
        failures: 0,
        bytes: b"text",
    },
    Row {
        name: b"empty.aux",
        answer: Ok(true),
        failures: 0,
        bytes: b"",
    },
    Row {
        name: b"missing.aux",
        answer: Ok(false),
        failures: 0,
        bytes: b"",
    },
    Row {
        name: b"\xff.aux",
        answer: Ok(false),
        failures: 0,
        bytes: b"",
    },
    // a folder can be opened and not be read
    Row {
        name: b".",
        answer: Err(FetchFault::Device),
        failures: 1,
        bytes: b"",
    },
];

// Whether the files of a folder are read, which is removed then.
fn reads_in(rt: &HostRuntime, directory: &str, rows: &[Row<'_>]) -> Result<bool, Fail> {
    write_file(rt, directory, "present.aux", b"text")?;
    write_file(rt, directory, "empty.aux", b"")?;
    let are_read = all_give(rt, directory, rows)?;
    fs::remove_dir_all(rt, directory)?;
    Ok(are_read)
}

#[test]
fn reads_real_files(rt: HostRuntime) -> Result<(), Fail> {
    let directory = make_folder(&rt, rt.alloc(), "directory")?;
    assert!(rt; reads_in(&rt, directory.as_str(), &ROWS)?);
    Ok(())
}

// A text of `length` bytes, in which no two neighbouring blocks of 2^k bytes are the same.
fn long_text(alloc: Global, length: u32) -> Result<Vec<u8>, AllocError> {
    let mut text = Vec::new(alloc);
    for place in 0..length {
        text.push((place % 251) as u8)?;
    }
    Ok(text)
}

// Whether a text that is written to a file of a folder is read again.
fn reads_text(rt: &HostRuntime, directory: &str, text: &[u8]) -> Result<bool, Fail> {
    write_file(rt, directory, "long.aux", text)?;
    let row = Row {
        name: b"long.aux",
        answer: Ok(true),
        failures: 0,
        bytes: text,
    };
    let is_read = gives(rt, directory, &row)?;
    Ok(is_read)
}

// Whether a text of each length is read, in a folder that is removed then.
fn reads_long(rt: &HostRuntime, directory: &str, lengths: &[u32]) -> Result<bool, Fail> {
    for length in lengths {
        let text = long_text(rt.alloc(), *length)?;
        if !reads_text(rt, directory, &text)? {
            return Ok(false);
        }
    }
    fs::remove_dir_all(rt, directory)?;
    Ok(true)
}

// A file is read to its last byte, however long it is.
#[test]
fn reads_long_files(rt: HostRuntime) -> Result<(), Fail> {
    let directory = make_folder(&rt, rt.alloc(), "long")?;
    let lengths = [4_096, 4_097, 65_537, 1_000_000];
    assert!(rt; reads_long(&rt, directory.as_str(), &lengths)?);
    Ok(())
}

// Whether there is no file whose name has this length.
fn misses(rt: &HostRuntime, length: usize) -> Result<bool, AllocError> {
    let name = vec![in rt.alloc(); b'n'; length]?;
    let row = Row {
        name: &name,
        answer: Ok(false),
        failures: 0,
        bytes: b"",
    };
    gives(rt, ".", &row)
}

// A name may be longer than any that the system takes: there is no such file.
#[test]
fn misses_long_names(rt: HostRuntime) -> Result<(), Fail> {
    assert!(rt; misses(&rt, 256)? && misses(&rt, 5_000)?);
    Ok(())
}
