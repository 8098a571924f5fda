//! The lines of a log. A helper holds the sink, and answers whether what it wrote is right.
use crate::fakes::{Failing, FakeWriter};
use crate::texts::joined;
use btx_out::{Log, Over};
use btx_text::Fault;
use std::alloc::{AllocError, Global};

// Writes lines to a log.
fn log_lines(lines: &[&[u8]], sink: &mut Over<FakeWriter>) -> Result<(), Fault> {
    let mut log = Log::new();
    for line in lines {
        log.line(line, sink)?;
    }
    Ok(())
}

// What lines are to leave in a sink: their answer, how often the sink failed, and the bytes.
type Left<'a> = (Result<(), Fault>, u64, &'a [u8]);

// How often a sink was written to that takes at most `most` bytes at a time and fails at one write; None if the lines don't leave that in it.
fn writes_of(
    alloc: Global,
    lines: &[&[u8]],
    most: usize,
    how: Failing,
    at: u64,
    left: Left<'_>,
) -> Option<u64> {
    let mut sink = Over::new(FakeWriter::new(alloc, most, how, at));
    let answer = log_lines(lines, &mut sink);
    if (answer, sink.failures.count, sink.writer.bytes.as_slice()) == left {
        Some(sink.writer.writes)
    } else {
        None
    }
}

// Whether lines leave these bytes without a failure.
fn gives(alloc: Global, lines: &[&[u8]], bytes: &[u8]) -> bool {
    let left = (Ok(()), 0, bytes);
    writes_of(alloc, lines, 1000, Failing::Never, 0, left).is_some()
}

#[test]
fn lines(rt: HostRuntime) {
    let three = [b"The style file: s.bst".as_slice(), b"", b"white stays \t"];
    let bytes = b"The style file: s.bst\n\nwhite stays \t\n";
    assert!(rt; gives(rt.alloc(), &three, bytes) == true);
}

// Whether a line is written whole, whose word stands there 100 times.
fn long_line_holds(alloc: Global, word: &[u8]) -> Result<bool, AllocError> {
    let long = joined(alloc, &[word; 100])?;
    let whole = joined(alloc, &[&long, b"\n"])?;
    Ok(gives(alloc, &[&long], &whole))
}

// A long line isn't broken.
#[test]
fn long_lines(rt: HostRuntime) {
    assert!(rt; long_line_holds(rt.alloc(), b"word ") == Ok(true));
}

// Whether a sink that takes 7 bytes at a time and fails at one write has these bytes of a line, and nothing follows them.
fn fails(alloc: Global, how: Failing, at: u64, bytes: &[u8]) -> bool {
    let left = (Err(Fault::Device), 1, bytes);
    let writes = writes_of(alloc, &[b"Database file"], 7, how, at, left);
    writes == Some(at.saturating_add(1))
}

// Whether it is so at each write: two of the line, and one of its end.
fn each_fails(alloc: Global, how: Failing) -> bool {
    fails(alloc, how, 0, b"")
        && fails(alloc, how, 1, b"Databas")
        && fails(alloc, how, 2, b"Database file")
}

#[test]
fn failed_writes(rt: HostRuntime) {
    assert!(rt; each_fails(rt.alloc(), Failing::Error) == true);
    assert!(rt; each_fails(rt.alloc(), Failing::Zero) == true);
    assert!(rt; each_fails(rt.alloc(), Failing::Interrupted) == true);
}
