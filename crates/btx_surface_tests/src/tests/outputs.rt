//! Where outputs go, the lines of a log, and how long lines are broken.
ghost use Rattle.std.specs.Prelude.{None};

use crate::tests::texts::fault_letter;
use btx_out::{Breaker, LineLength, Log, Over, Sink, SinkFault};
use btx_text::{Failures, Fault};
use std::alloc::Global;

// A sink that takes two bytes at a time, as long as it has room. It doesn't show what it received.
#[derive(Drop)]
struct Narrow {
    room: usize,
    failures: Failures,
}

impl Sink for Narrow {
    ghost received = { λ _. None };

    ghost failures = { λ sink. sink.failures };

    fn write(&mut self, bytes: &[u8]) -> Result<usize, SinkFault> {
        let taken = bytes.len().min(2);
        let fails = taken > self.room || taken == 0 && !bytes.is_empty();
        self.failures.note(fails);
        if fails {
            return Err(SinkFault);
        }
        self.room -= taken;
        Ok(taken)
    }
}

// A letter for what a call answers.
fn letter(answer: Result<(), Fault>) -> u8 {
    match answer {
        Ok(()) => b'k',
        Err(fault) => fault_letter(fault),
    }
}

// Whether a line of a log, written to a sink with `room` bytes of room, is answered so, and failed so often.
fn logs(room: usize, answer: u8, failures: u64) -> bool {
    let mut sink = Narrow {
        room,
        failures: Failures::none(),
    };
    let facts = [
        letter(Log::new().line(b"line", &mut sink)) == answer,
        sink.failures.count == failures,
    ];
    facts == [true; 2]
}

// The line length of so many bytes, and 0 where there is none.
fn length_of(bytes: u32) -> u32 {
    let length: Option<LineLength> = LineLength::new(bytes);
    match length {
        Some(length) => length.get(),
        None => 0,
    }
}

// Whether a line length is a number from 20 to 1,000, and by default 79.
fn bounds_lengths() -> bool {
    let numbers: [u32; 5] = [
        length_of(19),
        length_of(20),
        length_of(1_000),
        length_of(1_001),
        LineLength::default().get(),
    ];
    numbers == [0, 20, 1_000, 0, 79]
}

// Writes two lines by a breaker, the second in two pieces. A letter for what each call answers.
fn break_lines<W: Sink>(breaker: &mut Breaker, sink: &mut W) -> [u8; 5] {
    [
        letter(breaker.put(b"aaa bbb ccc ddd eee fff ggg", sink)),
        letter(breaker.newline(sink)),
        letter(breaker.put(b"x", sink)),
        letter(breaker.put(b"y", sink)),
        letter(breaker.finish(sink)),
    ]
}

const BROKEN: &[u8] = b"aaa bbb ccc ddd eee\n  fff ggg\nxy\n";

// Whether lines are broken at this length, over a writer to memory.
fn breaks(alloc: Global, length: LineLength) -> bool {
    let mut over = Over::new(Vec::new(alloc));
    let letters = break_lines(&mut Breaker::new(length), &mut over);
    let Over { writer, failures } = over;
    let facts = [
        letters == *b"kkkkk",
        failures.count == 0,
        writer.as_slice() == BROKEN,
    ];
    facts == [true; 3]
}

// Whether lines are broken at 20 bytes.
fn breaks_at_twenty(alloc: Global) -> bool {
    match LineLength::new(20) {
        Some(length) => breaks(alloc, length),
        None => false,
    }
}

#[test]
fn outputs(rt: HostRuntime) {
    let facts = [
        logs(5, b'k', 0),
        logs(4, b'd', 1),
        bounds_lengths(),
        breaks_at_twenty(rt.alloc()),
    ];
    assert!(rt; facts == [true; 4]);
}
