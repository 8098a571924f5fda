//! What the program writes: the files of a job, and the two standard streams.
ghost use Rattle.std.specs.Prelude.{◌≡◌, ◌↔◌, ◌++◌, [], ◌∷◌, true, IfOk, IsOkAnd, OnOk};
ghost use Rattle.std.specs.Fs.{IsFile, file_type};
ghost use Rattle.std.specs.Io.KnownBytes.{Appends};
ghost use Rattle.btx_text.specs.refinement.Counts.{no_failures};
ghost use Rattle.btx_command.specs.Acts.{ClosedList, WereDone, Done, EmptiedLog, OpenedList, Printed, StoredLog, ReportedFault, ReportedText};

use crate::handed::{Acts, WrittenBytes};
use crate::list_file::{EmptiedFile, SystemFile};
use crate::outcome::output_fault;
use btx_run::RunFault;
use btx_text::Failures;
use std::fs::{File, Metadata, OpenOptions};
use std::io::Write;
use std::rt::Files;
use std::{fs, io};

/// All that the program writes to. What was done with it is known, in order.
pub trait Outputs {
    /// A list's file that is open.
    type List: EmptiedFile + Drop;

    /// What was done so far.
    ghost acts: { Self → Done Self.List };

    /// Opens the list's file of this path, and makes it where there is none. What it holds stays.
    fn open_list(&mut self, path: &str) -> Result<Self::List, RunFault>
        ensures { WereDone (acts self.old) (acts self.new) (OpenedList path.now result ∷ []) };

    /// Closes a list's file.
    fn close_list(&mut self, file: Self::List)
        ensures { WereDone (acts self.old) (acts self.new) (ClosedList file ∷ []) };

    /// Empties the log that an earlier run left in the file of this path, so that no old log stands beside a new list. Where there is none, or
    /// that can't be done, nothing is said: the end of the run shows whether the log can be written. A pipe or a device is left alone.
    fn empty_log(&mut self, path: &str)
        ensures { WereDone (acts self.old) (acts self.new) (EmptiedLog path.now ∷ []) };

    /// Stores a log in the file of this path. `kept` are the failures of the writes that kept the log in memory, which are noted only.
    fn store_log(&mut self, path: &str, log: &[u8], kept: Failures) -> Result<(), RunFault>
        ensures { WereDone (acts self.old) (acts self.new) (StoredLog path.now log.now kept result ∷ []) };

    /// Prints a text to standard output.
    fn print(&mut self, text: &[u8]) -> Result<(), RunFault>
        ensures { WereDone (acts self.old) (acts self.new) (Printed text.now result ∷ []) };

    /// Prints a text on standard error, and a hint after it. Where that can't be done, nothing is said.
    fn report_text(&mut self, text: &str, hint: &str)
        ensures { WereDone (acts self.old) (acts self.new) (ReportedText text.now hint.now ∷ []) };

    /// Reports a fault on standard error. Where that can't be done, nothing is said.
    fn report_fault(&mut self, fault: RunFault)
        ensures { WereDone (acts self.old) (acts self.new) (ReportedFault fault ∷ []) };
}

/// The outputs of the real system: its files and the two standard streams. They show what was done with them.
pub struct SystemOutputs<'a, R> {
    rt: &'a R,
    acts: Acts,
}

impl<R> Drop for SystemOutputs<'_, R> {
    fn drop(self) {
        let Self { rt: _, acts: _ } = self;
    }
}

impl<'a, R: Files + Print + Eprint> SystemOutputs<'a, R> {
    /// Makes the outputs of the real system, over the runtime `rt`.
    pub fn new(rt: &'a R) -> Self
        ensures { result.acts.done ≡ [] }
    {
        SystemOutputs {
            rt,
            acts: Acts::new(),
        }
    }
}

// Whether a path leads to an ordinary file, by what the system says of it, if it says anything.
fn is_ordinary(metadata: &io::Result<Metadata>) -> bool
    ensures { (result ≡ true) ↔ IsOkAnd metadata.now (λ it. IsFile (file_type it)) }
{
    match metadata {
        Ok(metadata) => metadata.is_file(),
        Err(_) => false,
    }
}

// Opens the list's file of this path, and makes it where there is none. What it holds stays.
fn open_kept<R: Files>(files: &R, path: &str) -> Result<SystemFile<R::File>, RunFault>
    ensures { IfOk result (λ file. file ≡ record { bytes = []; failures = no_failures }) }
{
    let file = OpenOptions::new()
        .write(true)
        .create(true)
        .open(files, path)
        .map_err(|error| output_fault(&error))?;
    Ok(SystemFile::new(file))
}

// Writes a text to a file or a stream, whole.
fn write_whole<W: Write>(writer: &mut W, text: &[u8]) -> Result<(), RunFault>
    ensures { OnOk result (Appends (W.contents writer.old) (W.contents writer.new) text.now) }
{
    writer.write_all(text).map_err(|error| output_fault(&error))
}

// Prints a text to a stream, whole, and notes it.
fn print_to<W: Write>(stream: &mut W, acts: &mut Acts, text: &[u8]) -> Result<(), RunFault>
    ensures printed { OnOk result (Appends (W.contents stream.old) (W.contents stream.new) text.now) }
    ensures noted { acts.new.done ≡ acts.old.done ++ Printed text.now result ∷ [] }
{
    let answer = write_whole(stream, text);
    *acts = acts.and(&(text, &answer));
    answer
}

// Stores a text in the file of this path, in the place of what it holds.
fn store(files: &impl Files, path: &str, text: &[u8]) -> Result<(), RunFault> {
    let mut file = File::create(files, path).map_err(|error| output_fault(&error))?;
    write_whole(&mut file, text)
}

// Each method does what it is to do, and then notes what it did.
impl<R: Files + Print + Eprint> Outputs for SystemOutputs<'_, R> {
    type List = SystemFile<R::File>;

    ghost acts = { λ it. it.acts.done };

    fn open_list(&mut self, path: &str) -> Result<SystemFile<R::File>, RunFault> {
        let seen = (WrittenBytes::of(path.as_bytes()), open_kept(self.rt, path));
        self.acts = self.acts.and(&seen);
        let (_, opened) = seen;
        opened
    }

    fn close_list(&mut self, file: SystemFile<R::File>) {
        self.acts = self.acts.and(&file);
        drop(file);
    }

    // What reads a pipe would see the end of the log already when this opening of it is closed.
    fn empty_log(&mut self, path: &str) {
        if is_ordinary(&fs::metadata(self.rt, path)) {
            let _ = OpenOptions::new()
                .write(true)
                .truncate(true)
                .open(self.rt, path);
        }
        self.acts = self.acts.and(&path.as_bytes());
    }

    fn store_log(&mut self, path: &str, log: &[u8], kept: Failures) -> Result<(), RunFault> {
        let stored = store(self.rt, path, log);
        self.acts = self.acts.and(&(path.as_bytes(), log, kept, stored));
        stored
    }

    fn print(&mut self, text: &[u8]) -> Result<(), RunFault> {
        print_to(&mut io::writer(self.rt), &mut self.acts, text)
    }

    fn report_text(&mut self, text: &str, hint: &str) {
        let _ = eprint!(self.rt; "{text}{hint}");
        self.acts = self.acts.and(&(text.as_bytes(), hint.as_bytes()));
    }

    fn report_fault(&mut self, fault: RunFault) {
        let _ = eprintln!(self.rt; "bibtex: {fault}");
        self.acts = self.acts.and(&fault);
    }
}
