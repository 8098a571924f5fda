//! Lines that are logged one after another.
ghost use Rattle.std.specs.Prelude.{◌≡◌, IfErr, OnErr, OnOk};
ghost use Rattle.btx_out.specs.language.Pieces.{AppendsPrefix};
ghost use Rattle.btx_run.specs.refinement.Files.Counts.{counts_at};
ghost use Rattle.btx_run.specs.refinement.Files.Faults.{CountsOfLogging};
ghost use Rattle.btx_run.specs.refinement.Files.Logging.{Logs, bytes_of_lines};
ghost use Rattle.btx_run.specs.refinement.Files.Places.{HandsOf};

use btx_machine::{About, Journal, LogSink};
use btx_text::{Fault, LogLine};

/// Logs `lines`, in order. The only fault is the device's; the log then received a prefix of them.
pub fn log_all<L: LogSink>(lines: &[LogLine], journal: &mut Journal<'_, L>) -> Result<(), Fault>
    ensures ok { OnOk result (Logs (counts_at journal.old, counts_at journal.new) (journal.old.sink.received, journal.new.sink.received) lines.now) }
    ensures err { OnErr result (AppendsPrefix journal.old.sink.received journal.new.sink.received (bytes_of_lines lines.now)) }
    ensures fault { IfErr result (λ fault. fault ≡ Fault.Device) }
    ensures met { HandsOf journal.old journal.new lines.now }
    ensures counts { CountsOfLogging result journal.old journal.new }
{
    for line in lines {
        journal.log_one(line, About::Files)?;
    }
    Ok(())
}
