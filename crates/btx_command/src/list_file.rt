//! The file of the list of references, which keeps what an earlier run left until something is known of this one.
ghost use Rattle.std.specs.Prelude.{◌≡◌, true, [], Some, OnOk, OnErr, Ok, Err, IfErr, IfOk, ◌≤◌, is_err, length};
ghost use Rattle.std.specs.IoError.{error_kind};
ghost use Rattle.std.specs.declared.io.ErrorKind.TheVariants.{InvalidInput};
ghost use Rattle.std.specs.Io.{WritesAtMost};
ghost use Rattle.std.specs.Io.KnownBytes.{Keeps, WriteAppends};
ghost use Rattle.btx_text.specs.language.Counts.{Stays, failures_after};
ghost use Rattle.btx_text.specs.refinement.Counts.{no_failures};
ghost use Rattle.btx_out.specs.language.Writes.{is_failed_write};
ghost use Rattle.btx_command.specs.ListFiles.{FileState, FinishesList, emptied, failures_by, keeps_old, received_by, unwritten};

use crate::handed::{Calls, WrittenBytes};
use crate::outcome::output_fault;
use btx_run::{End, Report, RunFault, Sink, SinkFault};
use std::fs::OpenFile;
use std::io;
use std::io::{ErrorKind, Write};
use std::marker::Model;

/// A file that can be emptied as long as nothing is written to it. It shows how often a call of it failed, and whether the last one did.
pub trait EmptiedFile {
    /// What the file holds, as far as it is known, and the failures of its calls.
    ghost state: { Self → FileState };

    /// Throws away what the file holds.
    fn empty(&mut self) -> io::Result<()>
        ensures ok { OnOk result (Keeps (emptied (state self.old).held) (state self.new).held) }
        ensures err { OnErr result (Keeps (state self.old).held (state self.new).held) }
        ensures counts { (state self.new).failures ≡ failures_after (is_err result) (state self.old).failures };

    /// Hands bytes to the file, once: `Ok(n)` says how many it took of their front, and an error that it took none.
    fn write(&mut self, bytes: &[u8]) -> io::Result<usize>
        ensures bound { WritesAtMost result bytes.now }
        ensures bytes { WriteAppends (state self.old).held (state self.new).held result bytes.now }
        ensures counts { (state self.new).failures ≡ failures_after (is_failed_write result (length bytes.now)) (state self.old).failures };
}

/// The file `JOB.bbl`. What an earlier run left in it stays up to the first write, or to the end of the run.
#[derive(Drop)]
pub struct ListFile<W> {
    file: W,
    is_emptied: bool,
}

impl<W: EmptiedFile> ListFile<W> {
    /// Makes a sink over `file`, which this run hasn't written to.
    pub fn new(file: W) -> Self
        ensures { result ≡ unwritten file }
    {
        ListFile {
            file,
            is_emptied: false,
        }
    }

    /// Answers the file itself.
    pub fn into_file(self) -> W
        ensures { result ≡ self.file }
    {
        let ListFile {
            file,
            is_emptied: _,
        } = self;
        file
    }

    // Throws away what an earlier run left, once.
    fn empty(&mut self) -> io::Result<()>
        ensures received { Keeps (received_by W.state self.old) (received_by W.state self.new) }
        ensures emptied { OnOk result (self.new.is_emptied ≡ true) }
        ensures kept { OnErr result (Keeps (W.state self.old.file).held (W.state self.new.file).held) }
        ensures ok { OnOk result (Stays (failures_by W.state self.old, failures_by W.state self.new)) }
        ensures err { OnErr result (failures_by W.state self.new ≡ failures_after true (failures_by W.state self.old)) }
    {
        if !self.is_emptied {
            self.file.empty()?;
            self.is_emptied = true;
        }
        Ok(())
    }

    // Writes to the file, which is emptied first.
    fn write_emptied(&mut self, bytes: &[u8]) -> io::Result<usize>
        ensures bound { IfOk result (λ n. n ≤ length bytes.now) }
        ensures bytes { WriteAppends (received_by W.state self.old) (received_by W.state self.new) result bytes.now }
        ensures counts { failures_by W.state self.new ≡ failures_after (is_failed_write result (length bytes.now)) (failures_by W.state self.old) }
    {
        self.empty()?;
        self.file.write(bytes)
    }

    /// Ends the file after the run's `answer`: removes what an earlier run left in it, unless the job had no top file.
    pub fn finish(&mut self, answer: &Result<Report, RunFault>) -> Result<(), RunFault>
        ensures { FinishesList W.state answer.now self.old self.new result }
    {
        if keeps_old(answer) {
            return Ok(());
        }
        self.empty().map_err(|error| output_fault(&error))
    }
}

/// A file of the real system. It shows the bytes that the system took since it was opened or emptied, and how often a call of it failed.
#[derive(Drop)]
pub struct SystemFile<F> {
    file: F,
    handed: WrittenBytes,
    calls: Calls,
}

impl<F> Model for SystemFile<F> {
    ghost use Rattle.btx_command.specs.Acts.{TakenFile};

    ghost Value = { TakenFile };

    ghost view = { λ it. record { bytes = it.handed.bytes; failures = it.calls.failures } };
}

impl<F> SystemFile<F> {
    /// Makes a file of the real system from one that is open.
    pub fn new(file: F) -> Self
        ensures { result ≡ record { bytes = []; failures = no_failures } }
    {
        SystemFile {
            file,
            handed: WrittenBytes::new(),
            calls: Calls::new(),
        }
    }
}

// Hands bytes to a file, once, and notes those that it took, and whether it failed.
fn hand<F: Write>(
    file: &mut F,
    handed: &mut WrittenBytes,
    calls: &mut Calls,
    bytes: &[u8],
) -> io::Result<usize>
    ensures bound { WritesAtMost result bytes.now }
    ensures file { WriteAppends (F.contents file.old) (F.contents file.new) result bytes.now }
    ensures noted { WriteAppends (Some handed.old.bytes) (Some handed.new.bytes) result bytes.now }
    ensures counted { calls.new.failures ≡ failures_after (is_failed_write result (length bytes.now)) calls.old.failures }
{
    let answer = file.write(bytes);
    *handed = handed.and(&(bytes, &answer));
    *calls = calls.and(&(bytes, &answer));
    answer
}

// What it means that a file was cut to no bytes, or that it couldn't be: it has nothing to throw away, if that is an invalid input to it.
fn emptied(answer: io::Result<()>) -> io::Result<()>
    ensures emptied { OnOk result (IfErr answer (λ error. error_kind error ≡ InvalidInput)) }
    ensures nothing { IfErr answer (λ error. error_kind error ≡ InvalidInput → result ≡ Ok tt) }
    ensures well { answer ≡ Ok tt → result ≡ Ok tt }
    ensures same { IfErr result (λ error. answer ≡ Err error) }
{
    match answer {
        Err(error) if error.kind() == ErrorKind::InvalidInput => Ok(()),
        answer => answer,
    }
}

impl<F: Write + OpenFile> EmptiedFile for SystemFile<F> {
    ghost state = { λ it. record { held = Some it.bytes; failures = it.failures } };

    // What has no length, as a device or a pipe, is refused as an invalid input: there is nothing to throw away.
    fn empty(&mut self) -> io::Result<()> {
        let answer = emptied(self.file.set_len(0));
        self.calls = self.calls.and(&answer);
        answer?;
        self.handed = WrittenBytes::new();
        Ok(())
    }

    fn write(&mut self, bytes: &[u8]) -> io::Result<usize> {
        hand(&mut self.file, &mut self.handed, &mut self.calls, bytes)
    }
}

// Whether a run leaves an old list as it is: there is no top file.
fn keeps_old(answer: &Result<Report, RunFault>) -> bool
    ensures { result ≡ keeps_old answer.now }
{
    match answer {
        Ok(report) => matches!(report.end, End::NoTopFile),
        Err(_) => false,
    }
}

impl<W: EmptiedFile> Sink for ListFile<W> {
    ghost received = { received_by W.state };

    ghost failures = { failures_by W.state };

    fn write(&mut self, bytes: &[u8]) -> Result<usize, SinkFault> {
        self.write_emptied(bytes).map_err(|_| SinkFault)
    }
}
