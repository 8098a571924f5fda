//! How long lines are broken. Each trial answers whether it holds, and one function holds the breaker and the sink for all of them.
use crate::fakes::{Failing, FakeWriter};
use crate::texts::{joined, text_of};
use crate::worked_lines::{ROWS, Row};
use btx_out::{Breaker, LineLength, Over};
use btx_text::Fault;
use std::alloc::{AllocError, Global};
use std::process::Abort;
use std::test::Fail;

// Whether a byte is whitespace.
fn is_white(byte: u8) -> bool {
    matches!(byte, b' ' | b'\t' | b'\r')
}

// A text without the whitespace at its end.
fn trimmed(text: &[u8]) -> &[u8] {
    let mut rest = text;
    for _turn in 0..text.len() {
        match rest.split_last() {
            Some((last, others)) => {
                if !is_white(*last) {
                    return rest;
                }
                rest = others;
            }
            None => return rest,
        }
    }
    rest
}

// Where a text that is longer than a line is broken: how long the head is, and where the rest begins.
fn place(line_length: usize, text: &[u8]) -> Option<(usize, usize)> {
    let mut inside = None;
    let mut past = None;
    for (at, byte) in text.iter().enumerate() {
        let white = is_white(*byte);
        if white && at >= 3 && at <= line_length {
            inside = Some((at, at.saturating_add(1)));
        }
        if white && at > line_length && past.is_none() {
            past = Some(at);
        }
    }
    if inside.is_some() {
        return inside;
    }
    let head = past?;
    for (at, byte) in text.iter().enumerate() {
        if at > head && !is_white(*byte) {
            return Some((head, at));
        }
    }
    Some((head, text.len()))
}

// Adds a line, unless it is whitespace alone.
fn add_line(output: &mut Vec<u8>, line: &[u8]) -> Result<(), AllocError> {
    let kept = trimmed(line);
    if kept.is_empty() && !line.is_empty() {
        return Ok(());
    }
    output.extend_from_slice(kept)?;
    output.extend_from_slice(b"\n")
}

// Takes the first line off a text that is longer than a line, and adds it to what is sure: the rest after two spaces, or nothing if no rest
// is left. A text that can't be broken is sure as a whole.
fn take_line(
    alloc: Global,
    line_length: usize,
    text: &[u8],
    sure: &mut Vec<u8>,
) -> Result<Vec<u8>, AllocError> {
    let Some((head, rest)) = place(line_length, text) else {
        sure.extend_from_slice(text)?;
        return Ok(Vec::new(alloc));
    };
    add_line(sure, text.get(..head).unwrap_or(&[]))?;
    let after = text.get(rest..).unwrap_or(&[]);
    let indent = if after.is_empty() {
        b"".as_slice()
    } else {
        b"  "
    };
    joined(alloc, &[indent, after])
}

// What of a logical line is sure while it is pending: it is taken apart at one break after another.
fn sure_of(alloc: Global, line_length: usize, text: &[u8]) -> Result<Vec<u8>, AllocError> {
    let mut sure = Vec::new(alloc);
    let mut line = text.to_vec(alloc)?;
    for _turn in 0..text.len() {
        if line.len() <= line_length {
            break;
        }
        line = take_line(alloc, line_length, &line, &mut sure)?;
    }
    Ok(sure)
}

// A row's texts.
#[derive(Clone, Copy)]
struct Texts<'a> {
    line_length: u32,
    literal: &'a [u8],
    sure: &'a [u8],
    lines: &'a [u8],
}

// What is asked of a breaker, or what has been written after that.
#[derive(Clone, Copy)]
enum Step<'a> {
    Put(&'a [u8]),
    Newline,
    Finish,
    // This number of bytes is written.
    Bytes(usize),
    // The sink was written to this number of times.
    Writes(u64),
}

// What is tried with a breaker and a sink.
#[derive(Clone, Copy)]
enum Trial<'a> {
    // A row's line in pieces of this number of bytes, and its end.
    Pieces(Texts<'a>, usize),
    // A row's line in two pieces, and its end, where this write fails.
    Failing(Texts<'a>, u64),
    // These steps, and the text that stands first in what they write.
    Steps(&'a [Step<'a>], &'a [u8]),
}

// Whether as much is written as is sure of the first bytes of a row's line; and if these are all of it, whether that is as the row says.
fn is_sure(alloc: Global, texts: &Texts<'_>, taken: usize, written: usize) -> bool {
    let front = texts.literal.get(..taken).unwrap_or(texts.literal);
    let found = texts.lines.get(..written).unwrap_or(b"lost");
    if front.len() == texts.literal.len() && found != texts.sure {
        return false;
    }
    match sure_of(alloc, texts.line_length as usize, front) {
        Ok(sure) => sure.as_slice() == found,
        Err(_) => false,
    }
}

// Whether what is sure stands there after each piece.
fn pieces_hold(
    alloc: Global,
    texts: &Texts<'_>,
    size: usize,
    breaker: &mut Breaker,
    sink: &mut Over<FakeWriter>,
) -> bool {
    let mut taken = 0_usize;
    for piece in texts.literal.chunks(size.max(1)) {
        taken = taken.saturating_add(piece.len());
        if breaker.put(piece, sink).is_err()
            || !is_sure(alloc, texts, taken, sink.writer.bytes.len())
        {
            return false;
        }
    }
    true
}

// Whether a line's end leaves these lines, and no write failed.
fn ends_as(breaker: &mut Breaker, sink: &mut Over<FakeWriter>, lines: &[u8]) -> bool {
    breaker.newline(sink).is_ok()
        && sink.failures.count == 0
        && sink.writer.bytes.as_slice() == lines
}

// A logical line in two pieces, and its end.
fn broken(breaker: &mut Breaker, literal: &[u8], sink: &mut Over<FakeWriter>) -> Result<(), Fault> {
    let (first, second) = literal.split_at(literal.len() / 2);
    breaker.put(first, sink)?;
    breaker.put(second, sink)?;
    breaker.newline(sink)
}

// Whether each call answers the device's fault.
fn stays_failed(breaker: &mut Breaker, sink: &mut Over<FakeWriter>) -> bool {
    let device = Err(Fault::Device);
    breaker.put(b"more", sink) == device
        && breaker.newline(sink) == device
        && breaker.finish(sink) == device
}

// Whether a write failed, a prefix of the lines stands there, and nothing follows it, although each call is tried twice; None if no write failed.
fn failing_holds(
    texts: &Texts<'_>,
    at: u64,
    breaker: &mut Breaker,
    sink: &mut Over<FakeWriter>,
) -> Option<bool> {
    if broken(breaker, texts.literal, sink).is_ok() {
        return None;
    }
    let stays = stays_failed(breaker, sink) && stays_failed(breaker, sink);
    let is_last = sink.writer.writes == at.saturating_add(1)
        && sink.failures.count == 1
        && sink.failures.last_failed;
    Some(stays && is_last && texts.lines.starts_with(&sink.writer.bytes))
}

// Whether a step succeeds, or as much has been written as it says.
fn step_holds(step: Step<'_>, breaker: &mut Breaker, sink: &mut Over<FakeWriter>) -> bool {
    match step {
        Step::Put(bytes) => breaker.put(bytes, sink).is_ok(),
        Step::Newline => breaker.newline(sink).is_ok(),
        Step::Finish => breaker.finish(sink).is_ok(),
        Step::Bytes(count) => sink.writer.bytes.len() == count,
        Step::Writes(count) => sink.writer.writes == count,
    }
}

// Whether each step holds.
fn steps_hold(steps: &[Step<'_>], breaker: &mut Breaker, sink: &mut Over<FakeWriter>) -> bool {
    for step in steps {
        if !step_holds(*step, breaker, sink) {
            return false;
        }
    }
    true
}

// Whether a trial holds; None if no write failed where one was to fail.
fn holds(
    alloc: Global,
    trial: Trial<'_>,
    breaker: &mut Breaker,
    sink: &mut Over<FakeWriter>,
) -> Option<bool> {
    match trial {
        Trial::Pieces(texts, size) => Some(
            pieces_hold(alloc, &texts, size, breaker, sink) && ends_as(breaker, sink, texts.lines),
        ),
        Trial::Failing(texts, at) => failing_holds(&texts, at, breaker, sink),
        Trial::Steps(steps, text) => {
            Some(steps_hold(steps, breaker, sink) && sink.writer.bytes.starts_with(text))
        }
    }
}

// Whether a trial holds over a writer; None if no write failed where one was to fail. For a length that isn't allowed no trial holds.
fn tried(alloc: Global, line_length: u32, writer: FakeWriter, trial: Trial<'_>) -> Option<bool> {
    let Some(line_length) = LineLength::new(line_length) else {
        return Some(false);
    };
    let mut breaker = Breaker::new(line_length);
    let mut sink = Over::new(writer);
    holds(alloc, trial, &mut breaker, &mut sink)
}

// Whether a row's line is broken so in pieces of `size` bytes, into a sink that takes at most `most` bytes at a time.
fn is_broken(alloc: Global, texts: Texts<'_>, size: usize, most: usize) -> bool {
    let writer = FakeWriter::new(alloc, most, Failing::Never, 0);
    tried(alloc, texts.line_length, writer, Trial::Pieces(texts, size)) == Some(true)
}

// Whether a row's line is broken so in pieces of each of these sizes.
fn sizes_hold(alloc: Global, texts: Texts<'_>, sizes: &[usize]) -> bool {
    for size in sizes {
        if !is_broken(alloc, texts, *size, 10_000) {
            return false;
        }
    }
    true
}

// Whether a row's line is broken so in pieces of 1, 2 and 3 bytes, of a line's length, and of one and two more.
fn cuts_hold(alloc: Global, texts: Texts<'_>) -> bool {
    let length = texts.line_length as usize;
    let (longer, longest) = (length.saturating_add(1), length.saturating_add(2));
    sizes_hold(alloc, texts, &[1, 2, 3, length, longer, longest])
}

// Whether a row's line is broken so into sinks that take few bytes at a time.
fn short_writes_hold(alloc: Global, texts: Texts<'_>) -> bool {
    for most in 1..8 {
        if !is_broken(alloc, texts, 5000, most) {
            return false;
        }
    }
    true
}

// Whether a row's line is broken so into a sink that fails in one way: at each of its writes, up to one that is never asked for.
fn failures_hold(alloc: Global, texts: Texts<'_>, how: Failing) -> bool {
    for at in 0..1000 {
        let writer = FakeWriter::new(alloc, 7, how, at);
        match tried(alloc, texts.line_length, writer, Trial::Failing(texts, at)) {
            Some(true) => {}
            Some(false) => return false,
            None => return true,
        }
    }
    true
}

// What is tried with each row.
#[derive(Clone, Copy)]
enum Way {
    Whole,
    Cuts,
    ShortWrites,
    FailedWrites,
}

// Whether a row's line is broken so in a way.
fn way_holds(alloc: Global, way: Way, texts: Texts<'_>) -> bool {
    match way {
        Way::Whole => {
            texts.lines.starts_with(texts.sure)
                && is_broken(alloc, texts, texts.literal.len(), 10_000)
        }
        Way::Cuts => cuts_hold(alloc, texts),
        Way::ShortWrites => short_writes_hold(alloc, texts),
        Way::FailedWrites => {
            failures_hold(alloc, texts, Failing::Error)
                && failures_hold(alloc, texts, Failing::Zero)
                && failures_hold(alloc, texts, Failing::Interrupted)
        }
    }
}

// Whether a row is broken so in a way.
fn row_holds(alloc: Global, row: Row, way: Way) -> Result<bool, AllocError> {
    let (line_length, literal, sure, lines) = row;
    let literal = text_of(alloc, literal)?;
    let sure = text_of(alloc, sure)?;
    let lines = text_of(alloc, lines)?;
    let texts = Texts {
        line_length,
        literal: &literal,
        sure: &sure,
        lines: &lines,
    };
    Ok(way_holds(alloc, way, texts))
}

// The number of the first row that isn't broken so in a way, which is that of all where each is.
fn first_wrong_row(alloc: Global, rows: &[Row], way: Way) -> usize {
    for (number, row) in rows.iter().enumerate() {
        if row_holds(alloc, *row, way) != Ok(true) {
            return number;
        }
    }
    rows.len()
}

fn wrong_row(alloc: Global, way: Way) -> usize {
    first_wrong_row(alloc, &ROWS, way)
}

const WAYS: [Way; 4] = [Way::Whole, Way::Cuts, Way::ShortWrites, Way::FailedWrites];

// Asserts that each row is broken so in each of these ways.
fn all_break(rt: &(impl Abort + AllocGlobal), ways: &[Way]) -> Result<(), Fail> {
    for (number, way) in ways.iter().enumerate() {
        let row = wrong_row(rt.alloc(), *way);
        assert!(rt; row == 19, "row {row}, way {number}");
    }
    Ok(())
}

#[test]
fn rows(rt: HostRuntime) -> Result<(), Fail> {
    all_break(&rt, &WAYS)
}

// Whether each of these steps holds over a sink that takes 1,000 bytes at a time, and this text stands first in what they write.
fn do_steps(alloc: Global, line_length: u32, steps: &[Step<'_>], text: &[u8]) -> bool {
    let writer = FakeWriter::new(alloc, 1000, Failing::Never, 0);
    tried(alloc, line_length, writer, Trial::Steps(steps, text)) == Some(true)
}

// Lines of several pieces, and one that is finished: how much is written at the first `finish`, at the one that ends a line, at the
// one after it, and at one after whitespace alone.
const SEVERAL: [Step<'static>; 14] = [
    Step::Finish,
    Step::Bytes(0),
    Step::Put(b"one "),
    Step::Newline,
    Step::Newline,
    Step::Put(b"tw"),
    Step::Put(b"o"),
    Step::Finish,
    Step::Bytes(9),
    Step::Finish,
    Step::Bytes(9),
    Step::Put(b" \t"),
    Step::Finish,
    Step::Bytes(9),
];

#[test]
fn several_lines(rt: HostRuntime) {
    assert!(rt; do_steps(rt.alloc(), 79, &SEVERAL, b"one\n\ntwo\n") == true);
}

// Of lines of 20 bytes: a write for the two lines that become sure at once and one for the third, a long line in pieces, and its last
// piece and its end.
fn writes_hold(alloc: Global, long: &[u8]) -> bool {
    let steps = [
        Step::Put(b"aaa bbb ccc ddd eee fff ggg hhh iii jjj"),
        Step::Newline,
        Step::Writes(2),
        Step::Put(long),
        Step::Put(long),
        Step::Writes(5),
        Step::Put(b"b  c"),
        Step::Writes(7),
    ];
    let lines = b"aaa bbb ccc ddd eee\n  fff ggg hhh iii\n  jjj\n";
    do_steps(alloc, 20, &steps, lines)
}

#[test]
fn whole_lines(rt: HostRuntime) {
    assert!(rt; writes_hold(rt.alloc(), &[b'a'; 500]) == true);
}

// Lengths, and whether they are allowed.
const LENGTHS: [(u32, bool); 7] = [
    (0, false),
    (19, false),
    (20, true),
    (79, true),
    (1000, true),
    (1001, false),
    (u32::MAX, false),
];

// Whether a length is as allowed as it is to be.
fn is_right(bytes: u32, allowed: bool) -> bool {
    match LineLength::new(bytes) {
        Some(length) => allowed && length.get() == bytes,
        None => !allowed,
    }
}

// The number of the first length that isn't, which is that of all where each is.
fn first_wrong_length(lengths: &[(u32, bool)]) -> usize {
    for (number, (bytes, allowed)) in lengths.iter().enumerate() {
        if !is_right(*bytes, *allowed) {
            return number;
        }
    }
    lengths.len()
}

#[test]
fn lengths(rt: HostRuntime) {
    let length = first_wrong_length(&LENGTHS);
    assert!(rt; length == 7, "length {length}");
    assert!(rt; LineLength::default().get() == 79);
}
