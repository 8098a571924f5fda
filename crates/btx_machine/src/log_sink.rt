//! Where the lines of a log go.
ghost use Rattle.std.specs.Prelude.{◌≡◌, ◌∷◌, [], ℕ, Option, List, IfErr, OnErr, OnOk};
ghost use Rattle.std.specs.Io.KnownBytes.{Appends};
ghost use Rattle.btx_text.specs.declared.failures.Failures.{Failures};
ghost use Rattle.btx_text.specs.language.LogLines.{Line};
ghost use Rattle.btx_out.specs.language.Pieces.{AppendsPrefix};
ghost use Rattle.btx_aux.specs.refinement.Faults.{CountsOfOne};
ghost use Rattle.btx_machine.specs.language.Saying.{ended_line};
ghost use Rattle.btx_machine.specs.laws.Noting.{AddsLines};
ghost use Rattle.btx_machine.specs.refinement.Joined.{Joined};
ghost use Rattle.btx_machine.specs.refinement.Met.{AddsMet, Met, met};
ghost use Rattle.btx_machine.specs.refinement.Wholeness.{WholeUnlessCutOff};
ghost use Rattle.btx_machine.specs.declared.wholeness.Wholeness.{Wholeness};

use crate::notebook::About;
use btx_text::{Fault, LogLine};

/// What the lines of a log are written to, each with byte 10.
pub trait LogSink {
    /// The bytes received, for a log that shows them.
    ghost received: { Self → Option (List ℕ) };

    /// How often a write has failed, and whether the last one did.
    ghost failures: { Self → Failures };

    /// The log and the notebook that are joined, and what they had then.
    ghost joined: { Self → Joined };

    /// The lines that the notebook was handed, as long as it shows them.
    ghost noted: { Self → Option (List Line) };

    /// The same, each with where it was met.
    ghost handed: { Self → Option (List Met) };

    /// Whether the log has all that was noted since then.
    ghost wholeness: { Self → Wholeness };

    /// Notes a line, and writes it. The only fault is the device's; the log then received a prefix of the line.
    fn log_line(&mut self, line: &LogLine, about: About<'_>) -> Result<(), Fault>
        ensures ok { OnOk result (Appends (received self.old) (received self.new) (ended_line line.now.text)) }
        ensures err { OnErr result (AppendsPrefix (received self.old) (received self.new) (ended_line line.now.text)) }
        ensures fault { IfErr result (λ fault. fault ≡ Fault.Device) }
        ensures counts { CountsOfOne result (failures self.old, failures self.new) }
        ensures joined { joined self.new ≡ joined self.old }
        ensures noted { AddsLines (noted self.old) (noted self.new) (line.now ∷ []) }
        ensures handed { AddsMet (handed self.old) (handed self.new) (met line.now about.entry ∷ []) }
        ensures whole { WholeUnlessCutOff result (wholeness self.old) (wholeness self.new) };
}
