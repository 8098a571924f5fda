//! Which files a job needs of which nothing was said.
ghost use Rattle.std.specs.Prelude.{◌≡◌, ◌++◌, [], false, Ok, Some, IfErr, IfOk, OnErr, OnOk};
ghost use Rattle.btx_text.specs.refinement.Counts.{no_failures};
ghost use Rattle.btx_aux.specs.language.Files.{file_of};
ghost use Rattle.btx_aux.specs.declared.end.End.TheVariants.{Whole};
ghost use Rattle.btx_aux.specs.refinement.Entries.{texts_of};
ghost use Rattle.btx_c.specs.CallerFiles.{beside};
ghost use Rattle.btx_c.specs.Needs.{AsksNothing, EndsWithAuxFiles, NeedsNoOther, ReadsAuxFiles, SaysAlways, line_for, lines_for, lines_named, no_files};

use crate::handed::{BtxFile, CallerFiles, Known};
use crate::index::Index;
use btx_aux::{AuxJob, End, FetchFault, Fetched, Finder, History};
use btx_run::files::read_job;
use btx_text::Fault;
use std::alloc::{AllocError, Global};

/// What a job needs beyond the files that were handed in.
#[derive(Drop)]
pub enum MissingFiles {
    /// The files of these names, each with byte 10; if there is no name, nothing.
    Names(Vec<u8>),
    /// Nothing, since the run ends with its `.aux` files: there is no top file, or they meet a limit.
    Ends,
}

// Adds the line for `name` to `asked`: none if something was said of this file.
fn ask(index: &Index<'_>, name: &[u8], asked: &mut Vec<u8>) -> Result<(), AllocError>
    ensures { OnOk result (asked.new.items ≡ asked.old.items ++ line_for index.now name.now) }
{
    if let Known::Unknown = index.look(name) {
        asked.extend_from_slice(name)?;
        asked.push(b'\n')?;
    }
    Ok(())
}

// Adds the lines for `names` to `asked`.
fn ask_each(index: &Index<'_>, names: &[Vec<u8>], asked: &mut Vec<u8>) -> Result<(), AllocError>
    ensures { OnOk result (asked.new.items ≡ asked.old.items ++ lines_for index.now (texts_of names.now)) }
{
    for name in names {
        ask(index, name.as_slice(), asked)?;
    }
    Ok(())
}

// Answers the lines for the style and the databases of `job`: none if there is no style.
fn unknown_named(alloc: Global, job: &AuxJob, index: &Index<'_>) -> Result<Vec<u8>, AllocError>
    ensures { IfOk result (λ asked. asked.items ≡ lines_named index.now job.now.style job.now.databases) }
{
    let mut asked = Vec::new(alloc);
    let Some(style) = job.style() else {
        return Ok(asked);
    };
    if let Known::Absent = index.look(style) {
        return Ok(asked);
    }
    ask(index, style, &mut asked)?;
    ask_each(index, job.databases(), &mut asked)?;
    Ok(asked)
}

// Answers what a job needs whose `.aux` files were read: `job` is what they say.
fn after_aux_files(
    alloc: Global,
    job: &AuxJob,
    index: &Index<'_>,
) -> Result<MissingFiles, AllocError>
    ensures whole { IfOk result (λ needs. AsksNothing needs → job.now.ending ≡ Whole) }
    ensures named { IfOk result (λ needs. AsksNothing needs → lines_named index.now job.now.style job.now.databases ≡ []) }
    ensures ends { IfOk result (λ needs. needs ≡ MissingFiles.Ends → job.now.ending ≡ Whole → ⊥) }
{
    match job.end() {
        End::Whole => Ok(MissingFiles::Names(unknown_named(alloc, job, index)?)),
        End::TooManyOpen | End::TopMissing | End::FileLimit => Ok(MissingFiles::Ends),
    }
}

// Reads the `.aux` files of the job `name`. It is the device's fault if one of them is a file of which nothing was said; else they say the same
// whatever other files there are.
fn read_handed(alloc: Global, name: &[u8], index: &Index<'_>) -> Result<AuxJob, Fault>
    ensures { IfOk result (λ job. SaysAlways index.now name.now job) }
{
    let mut finder = CallerFiles::new(alloc, &*index);
    let job = read_job(alloc, &mut finder, name)?;
    finder.answers.were_held();
    Ok(job)
}

// Files that were handed in, as a finder that goes on as if there were no others, and keeps the names of those that it was asked for.
#[derive(Drop)]
struct Asking<'i, 'f> {
    index: &'i Index<'f>,
    asked: Vec<u8>,
    history: History,
}

// Copies the file of this name. One of which nothing was said isn't there, and `asked` gets a line for its name.
fn copy_or_ask(
    index: &Index<'_>,
    name: &[u8],
    asked: &mut Vec<u8>,
    into: &mut Vec<u8>,
) -> Result<bool, FetchFault>
    ensures bytes { IfOk result (λ found. beside index.now no_files name.now ≡ file_of found into.new.items) }
    ensures absent { result ≡ Ok false → into.new.items ≡ [] }
    ensures fault { OnErr result (into.new.items ≡ []) }
    ensures memory { IfErr result (λ fault. fault ≡ FetchFault.Memory) }
{
    match index.copy(name, into)? {
        Some(found) => Ok(found),
        None => {
            ask(index, name, asked).map_err(|_| FetchFault::Memory)?;
            Ok(false)
        }
    }
}

impl<'i, 'f> Finder for Asking<'i, 'f> {
    ghost content = { λ finder. Some (beside finder.index.now no_files) };

    ghost answers = { λ finder. finder.history };

    ghost failures = { λ _. no_failures };

    fn fetch(&mut self, alloc: Global, name: &[u8], into: &mut Vec<u8>) -> Fetched {
        let answer = copy_or_ask(self.index, name, &mut self.asked, into);
        self.history.answer(alloc, name, answer, into)
    }
}

// Answers the names of the `.aux` files that the job `name` opens and of which nothing was said, where a reading of these files has asked for one.
// That a second reading asks for none is the device's fault, since both have the same files.
fn unknown_aux_files(alloc: Global, name: &[u8], index: &Index<'_>) -> Result<MissingFiles, Fault>
    ensures some { IfOk result (λ needs. AsksNothing needs → ⊥) }
    ensures names { IfOk result (λ needs. needs ≡ MissingFiles.Ends → ⊥) }
{
    let mut finder = Asking {
        index: &*index,
        asked: Vec::new(alloc),
        history: History::new(alloc),
    };
    read_job(alloc, &mut finder, name)?;
    if finder.asked.is_empty() {
        return Err(Fault::Device);
    }
    Ok(MissingFiles::Names(finder.asked))
}

/// Answers what the job `name` needs beyond `files`: the `.aux` files of which nothing was said, as long as there are such, and else the style and
/// the databases.
pub fn needed(alloc: Global, name: &[u8], files: &[BtxFile<'_>]) -> Result<MissingFiles, Fault>
    ensures complete { IfOk result (λ needs. AsksNothing needs → NeedsNoOther files.now name.now) }
    ensures whole { IfOk result (λ needs. AsksNothing needs → ReadsAuxFiles files.now name.now) }
    ensures ended { IfOk result (λ needs. needs ≡ MissingFiles.Ends → NeedsNoOther files.now name.now) }
    ensures ends { IfOk result (λ needs. needs ≡ MissingFiles.Ends → EndsWithAuxFiles files.now name.now) }
{
    let index = Index::new(alloc, &*files)?;
    match read_handed(alloc, name, &index) {
        Ok(job) => Ok(after_aux_files(alloc, &job, &index)?),
        Err(Fault::Device) => unknown_aux_files(alloc, name, &index),
        Err(fault) => Err(fault),
    }
}
