//! The lines of a log.
ghost use Rattle.std.specs.Prelude.{◌≡◌, ◌∷◌, ◌++◌, [], IfErr, OnOk, OnErr, is_err};
ghost use Rattle.std.specs.Io.KnownBytes.{Appends};
ghost use Rattle.btx_text.specs.refinement.Counts.{RisesIf};
ghost use Rattle.btx_out.specs.language.Pieces.{AppendsPrefix};

use crate::sink::Sink;
use btx_text::Fault;

/// Writes the lines of a log to a sink.
#[derive(Drop)]
pub struct Log {}

impl Log {
    /// A log without a line.
    pub fn new() -> Self {
        Log {}
    }

    /// Writes a line and byte 10. The only fault is the device's; the sink then received a prefix of them, and nothing was
    /// written after the write that failed.
    pub fn line<L: Sink>(&mut self, line: &[u8], sink: &mut L) -> Result<(), Fault>
        ensures ok { OnOk result (Appends (L.received sink.old) (L.received sink.new) (line.now ++ 10 ∷ [])) }
        ensures err { OnErr result (AppendsPrefix (L.received sink.old) (L.received sink.new) (line.now ++ 10 ∷ [])) }
        ensures fault { IfErr result (λ fault. fault ≡ Fault.Device) }
        ensures counts { RisesIf (is_err result) (L.failures sink.old, L.failures sink.new) }
    {
        write_whole(line, sink)?;
        write_whole(b"\n", sink)
    }
}

/// Writes all of a piece, or stops at the first failure, with a prefix of the piece received.
pub(crate) fn write_whole<S: Sink>(bytes: &[u8], sink: &mut S) -> Result<(), Fault>
    ensures ok { OnOk result (Appends (S.received sink.old) (S.received sink.new) bytes.now) }
    ensures err { OnErr result (AppendsPrefix (S.received sink.old) (S.received sink.new) bytes.now) }
    ensures fault { IfErr result (λ fault. fault ≡ Fault.Device) }
    ensures counts { RisesIf (is_err result) (S.failures sink.old, S.failures sink.new) }
{
    let mut at = 0;
    while at < bytes.len() {
        match sink.write(&bytes[at..]) {
            Ok(taken) => {
                if taken == 0 {
                    return Err(Fault::Device);
                }
                at += taken;
            }
            Err(_) => return Err(Fault::Device),
        }
    }
    Ok(())
}
