//! A source of files by name.
ghost use Rattle.std.specs.Prelude.{◌≡◌, [], Option, IfSome, IfOk, OnErr, Ok, Err, false, List};
ghost use Rattle.btx_aux.specs.language.Files.{Files, file_of};
ghost use Rattle.btx_aux.specs.language.Answers.{FinderAnswer, answers_after};
ghost use Rattle.btx_text.specs.declared.failures.Failures.{Failures};
ghost use Rattle.btx_text.specs.language.Counts.{failures_after};
ghost use Rattle.btx_aux.specs.language.Fetches.{is_device_fetch};

use crate::fetch_fault::Fetched;
use std::alloc::Global;

/// A source of files by name. Its content, which no call changes, says for each name the file's bytes or that there is no such
/// file. A finder shows its content or doesn't, as one over real files.
pub trait Finder {
    /// The content, for a finder that shows it.
    ghost content: { Self → Option Files };

    /// The answers that it has given, first to last.
    ghost answers: { Self → List FinderAnswer };

    /// How often the device has failed, and whether it did at the last fetch.
    ghost failures: { Self → Failures };

    /// Fetches a file. `Ok(true)`: `into` is the file's bytes. `Ok(false)`: there is no such file, and `into` is empty. After a
    /// fault `into` is empty, and the count of failures rose, by one, exactly where the fault is the device's.
    fn fetch(&mut self, alloc: Global, name: &[u8], into: &mut Vec<u8>) -> Fetched
        ensures stays { content self.new ≡ content self.old }
        ensures bytes { IfSome (content self.old) (λ files.
            IfOk result (λ found. files name.now ≡ file_of found into.new.items)) }
        ensures absent { result ≡ Ok false → into.new.items ≡ [] }
        ensures fault { OnErr result (into.new.items ≡ []) }
        ensures grows { answers self.new ≡ answers_after result name.now into.new.items (answers self.old) }
        ensures counts { failures self.new ≡ failures_after (is_device_fetch result) (failures self.old) };
}
