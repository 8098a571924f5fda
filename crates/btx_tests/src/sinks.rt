//! Where outputs go.
use crate::fakes::{Failing, FakeWriter};
use btx_out::{Over, Sink, SinkFault};
use btx_text::Failures;
use std::alloc::Global;

// What a write answered, how often the sink has failed, and whether it did last.
type Step = (Result<usize, SinkFault>, u64, bool);

// Writes once.
fn step(sink: &mut Over<FakeWriter>, bytes: &[u8]) -> Step {
    let answer = sink.write(bytes);
    (answer, sink.failures.count, sink.failures.last_failed)
}

// Whether a write that takes few bytes, one that fails, and one after it answer so: one write of the writer for each.
fn writes_hold(sink: &mut Over<FakeWriter>, failed: Result<usize, SinkFault>) -> bool {
    step(sink, b"abcde") == (Ok(3), 0, false)
        && step(sink, b"de") == (failed, 1, true)
        && step(sink, b"de") == (Ok(2), 1, false)
        && sink.writer.bytes.as_slice() == b"abcde".as_slice()
        && sink.writer.writes == 3
}

// Whether it is so over a writer that fails at the second write.
fn answers_hold(alloc: Global, how: Failing, failed: Result<usize, SinkFault>) -> bool {
    let mut sink = Over::new(FakeWriter::new(alloc, 3, how, 1));
    writes_hold(&mut sink, failed)
}

#[test]
fn answers(rt: HostRuntime) {
    assert!(rt; answers_hold(rt.alloc(), Failing::Error, Err(SinkFault)) == true);
    assert!(rt; answers_hold(rt.alloc(), Failing::Interrupted, Err(SinkFault)) == true);
    assert!(rt; answers_hold(rt.alloc(), Failing::Zero, Ok(0)) == true);
}

// Nothing was to be taken.
#[test]
fn empty_pieces(rt: HostRuntime) {
    let mut sink = Over::new(FakeWriter::new(rt.alloc(), 3, Failing::Never, 0));
    assert!(rt; step(&mut sink, b"") == (Ok(0), 0, false));
}

#[test]
fn greatest_count(rt: HostRuntime) {
    let mut sink = Over {
        writer: FakeWriter::new(rt.alloc(), 3, Failing::Error, 0),
        failures: Failures {
            count: u64::MAX,
            last_failed: false,
        },
    };
    assert!(rt; step(&mut sink, b"a") == (Err(SinkFault), 0, true));
}
