//! The files of a folder.
ghost use Rattle.std.specs.Prelude.{◌≡◌, [], false, IfOk, IfSome};
ghost use Rattle.std.specs.IoError.{error_kind};
ghost use Rattle.std.specs.Option.{option_map};
ghost use Rattle.btx_aux.specs.language.Fetches.{is_device_fetch};
ghost use Rattle.btx_aux.specs.language.Files.{file_of};
ghost use Rattle.btx_text.specs.refinement.Counts.{RisesIf};
ghost use Rattle.btx_command.specs.FileErrors.{failures_of_fetches, unopened};
ghost use Rattle.btx_command.specs.FolderFiles.{folder_files};

use crate::paths::path_in;
use crate::reading::read_front;
use crate::system::System;
use btx_run::{FetchFault, Fetched, Finder, History};
use std::alloc::Global;
use std::io;
use std::io::ErrorKind;

/// The files of a folder of a system. Their content is known where the system's is.
pub struct DirectoryFinder<'a, S> {
    system: S,
    directory: &'a str,
    history: History,
    /// Whether the device failed at the last fetch, which only proofs read. How often it has failed the system counts.
    last_failed: bool,
}

impl<S: Drop> Drop for DirectoryFinder<'_, S> {
    fn drop(self) {
        let Self {
            system: _,
            directory: _,
            history: _,
            last_failed: _,
        } = self;
    }
}

impl<'a, S: System> DirectoryFinder<'a, S> {
    /// Makes a finder over the files of the folder `directory`, which has given the answers of a history.
    pub fn new(system: S, directory: &'a str, history: History) -> Self
        ensures system { result.system ≡ system }
        ensures directory { result.directory ≡ directory.entry }
        ensures history { result.history ≡ history }
        ensures last_failed { result.last_failed ≡ false }
    {
        DirectoryFinder {
            system,
            directory,
            history,
            last_failed: false,
        }
    }

    /// Answers the system.
    pub fn system(&self) -> &S
        ensures { result.now ≡ self.now.system }
    {
        &self.system
    }

    /// Gives the system and the history back.
    pub fn into_parts(self) -> (S, History)
        ensures { result ≡ (self.entry.system, self.entry.history) }
    {
        let DirectoryFinder {
            system,
            directory: _,
            history,
            last_failed: _,
        } = self;
        (system, history)
    }
}

// Appends the bytes of the file of this name in the folder `directory`, as far as a file is read. `Ok(false)`: it can't be opened, or its name isn't
// UTF-8, and nothing was read.
fn read_in<S: System>(
    alloc: Global,
    system: &mut S,
    directory: &str,
    name: &[u8],
    into: &mut Vec<u8>,
) -> Result<bool, FetchFault>
    ensures nothing { result ≡ Ok false → into.new.items ≡ into.old.items }
    ensures found { into.old.items ≡ [] → IfSome (S.content system.old) (λ files.
        IfOk result (λ found. folder_files directory.now files name.now ≡ file_of found into.new.items)) }
    ensures stays { S.content system.new ≡ S.content system.old }
    ensures counts { RisesIf (is_device_fetch result) (S.failures system.old, S.failures system.new) }
{
    let Ok(name) = str::from_utf8(name) else {
        return Ok(false);
    };
    let Ok(path) = path_in(alloc, directory, name) else {
        return Err(FetchFault::Memory);
    };
    let file = match system.open(path.as_str()) {
        Ok(file) => file,
        Err(error) => return unopened(&error),
    };
    read_front(system, file, into)?;
    Ok(true)
}

// What a file that can't be opened means for a fetch: there is no such file, or memory was refused.
fn unopened(error: &io::Error) -> Result<bool, FetchFault>
    ensures kind { result ≡ unopened (error_kind error.now) }
    ensures device { is_device_fetch result ≡ false }
{
    match error.kind() {
        ErrorKind::OutOfMemory => Err(FetchFault::Memory),
        _ => Ok(false),
    }
}

impl<S: System> Finder for DirectoryFinder<'_, S> {
    ghost content = { λ finder. option_map (folder_files finder.directory.now) (S.content finder.system) };

    ghost answers = { λ finder. finder.history };

    ghost failures = { λ finder. failures_of_fetches (S.failures finder.system) finder.last_failed };

    fn fetch(&mut self, alloc: Global, name: &[u8], into: &mut Vec<u8>) -> Fetched {
        into.clear();
        let answer = read_in(alloc, &mut self.system, self.directory, name, into);
        self.last_failed = matches!(answer, Err(FetchFault::Device));
        self.history.answer(alloc, name, answer, into)
    }
}
