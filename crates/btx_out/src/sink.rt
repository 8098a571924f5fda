//! Receivers of bytes.
ghost use Rattle.std.specs.Prelude.{◌≡◌, ℕ, ◌≤◌, Option, List, IfOk, length};
ghost use Rattle.std.specs.Io.KnownBytes.{WriteAppends};
ghost use Rattle.btx_text.specs.declared.failures.Failures.{Failures};
ghost use Rattle.btx_text.specs.language.Counts.{failures_after};
ghost use Rattle.btx_text.specs.refinement.Counts.{no_failures};
ghost use Rattle.btx_out.specs.language.Writes.{is_failed_write};

use btx_text::Failures;
use std::io::Write;
use thiserror::Error;

/// A write that the device refused.
#[derive(Clone, Copy, Debug, PartialEq, Eq, Error)]
#[error("device error")]
pub struct SinkFault;

/// A receiver of bytes. It shows the bytes that it received or doesn't, as one over a real file.
pub trait Sink {
    /// The bytes received, for a sink that shows them.
    ghost received: { Self → Option (List ℕ) };

    /// How often a write has failed, and whether the last one did.
    ghost failures: { Self → Failures };

    /// Takes bytes from the front of a piece: `Ok(n)` says how many, and an error that it took none. A write has failed where it
    /// answers an error, be it that it was interrupted, or 0 although it was given bytes. Such a write raises the count of failures by
    /// one, no other, and each write says whether the last one failed.
    fn write(&mut self, bytes: &[u8]) -> Result<usize, SinkFault>
        ensures bound { IfOk result (λ n. n ≤ length bytes.now) }
        ensures bytes { WriteAppends (received self.old) (received self.new) result bytes.now }
        ensures counts { failures self.new ≡ failures_after (is_failed_write result (length bytes.now)) (failures self.old) };
}

/// A sink over any writer. Each write is one write of that writer and has its answer.
#[derive(Drop)]
pub struct Over<W> {
    /// What is written to.
    pub writer: W,
    /// How often a write has failed, and whether the last one did.
    pub failures: Failures,
}

impl<W: Write> Over<W> {
    /// A sink that has not failed yet.
    pub fn new(writer: W) -> Self
        ensures writer { result.writer ≡ writer }
        ensures failures { result.failures ≡ no_failures }
    {
        Over {
            writer,
            failures: Failures::none(),
        }
    }
}

impl<W: Write> Sink for Over<W> {
    ghost received = { λ sink. W.contents sink.writer };

    ghost failures = { λ sink. sink.failures };

    fn write(&mut self, bytes: &[u8]) -> Result<usize, SinkFault> {
        let answer = self.writer.write(bytes);
        let failed = match answer {
            Ok(taken) => taken == 0 && !bytes.is_empty(),
            Err(_) => true,
        };
        self.failures.note(failed);
        answer.map_err(|_| SinkFault)
    }
}
