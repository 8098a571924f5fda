//! A system with files that are read.
ghost use Rattle.std.specs.Prelude.{◌≡◌, false, IfErr, IfOk, IfSome, None, Option};
ghost use Rattle.std.specs.IoError.{error_kind};
ghost use Rattle.std.specs.Io.{ReadsAtMost};
ghost use Rattle.std.specs.Io.KnownBytes.{ReadConsumes};
ghost use Rattle.btx_aux.specs.language.Files.{Files};
ghost use Rattle.btx_text.specs.declared.failures.Failures.{Failures};
ghost use Rattle.btx_text.specs.language.Counts.{failures_after};
ghost use Rattle.btx_text.specs.refinement.Counts.{no_failures};
ghost use Rattle.btx_command.specs.FileErrors.{is_device_read};
ghost use Rattle.btx_command.specs.FolderFiles.{Holds, IsMissedBy};

use btx_text::Failures;
use std::io::{ErrorKind, Read};
use std::{fs, io, rt};

/// A system whose files are read by their paths. Their content is known or isn't, as with the real one.
pub trait System {
    /// A file that is open.
    type File: Read + Drop;

    /// What the files hold, by their paths, for a system whose content is known.
    ghost content: { Self → Option Files };

    /// How often the device has failed a reading, and whether it did at the last call, be it an opening or a reading.
    ghost failures: { Self → Failures };

    /// Opens a file, which is then read from its first byte on. That a file can't be opened is no failure of the device: there is no such file.
    fn open(&mut self, path: &str) -> io::Result<Self::File>
        ensures opened { IfSome (content self.old) (λ files. IfOk result (λ file. Holds files path.now (Self.File.remaining file))) }
        ensures missed { IfSome (content self.old) (λ files. IfErr result (λ error. IsMissedBy files path.now (error_kind error))) }
        ensures stays { content self.new ≡ content self.old }
        ensures counts { failures self.new ≡ failures_after false (failures self.old) };

    /// Reads bytes of an open file, once. The count of failures rises, by one, exactly where the device failed this reading: for want of memory, or
    /// where a signal interrupted it, it stays.
    fn read(&mut self, file: &mut Self::File, into: &mut [u8]) -> io::Result<usize>
        ensures bound { ReadsAtMost result into.new }
        ensures bytes { ReadConsumes (Self.File.remaining file.old) (Self.File.remaining file.new) result into.new }
        ensures stays { content self.new ≡ content self.old }
        ensures counts { failures self.new ≡ failures_after (is_device_read result) (failures self.old) };
}

/// The real system.
pub struct RealSystem<'a, R> {
    rt: &'a R,
    failures: Failures,
}

impl<R> Drop for RealSystem<'_, R> {
    fn drop(self) {
        let Self { rt: _, failures: _ } = self;
    }
}

impl<'a, R: rt::Files> RealSystem<'a, R> {
    /// Makes the real system, over the runtime `rt`.
    pub fn new(rt: &'a R) -> Self
        ensures { result.failures ≡ no_failures }
    {
        RealSystem {
            rt,
            failures: Failures::none(),
        }
    }

    /// Answers how often the device has failed a reading, and whether it did at the last call.
    pub fn failures(&self) -> Failures
        ensures { result ≡ self.now.failures }
    {
        self.failures
    }
}

// Whether the device failed a reading.
fn is_device_read(answer: &io::Result<usize>) -> bool
    ensures { result ≡ is_device_read answer.now }
{
    match answer {
        Ok(_) => false,
        Err(error) => !matches!(
            error.kind(),
            ErrorKind::OutOfMemory | ErrorKind::Interrupted
        ),
    }
}

impl<R: rt::Files> System for RealSystem<'_, R> {
    type File = R::File;

    ghost content = { λ _. None };

    ghost failures = { λ system. system.failures };

    fn open(&mut self, path: &str) -> io::Result<R::File> {
        self.failures.note(false);
        fs::open(self.rt, path)
    }

    fn read(&mut self, file: &mut R::File, into: &mut [u8]) -> io::Result<usize> {
        let answer = file.read(into);
        self.failures.note(is_device_read(&answer));
        answer
    }
}
