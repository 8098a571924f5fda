//! The files that a caller hands in.
ghost use Rattle.std.specs.Prelude.{◌≡◌, [], false, Ok, Some, OnErr, IfOk};
ghost use Rattle.btx_text.specs.refinement.Counts.{no_failures};
ghost use Rattle.btx_aux.specs.language.Files.{file_of};
ghost use Rattle.btx_c.specs.CallerFiles.{OtherFiles, beside, bytes_in, file_in, known};
ghost use Rattle.btx_c.specs.Known.{known_of};

use crate::answers::Answers;
use crate::index::Index;
use crate::others::UnnamedFiles;
use btx_aux::{FetchFault, Fetched, Finder};
use btx_text::Failures;
use std::alloc::Global;

/// A file of a job, or that there is no file of this name. C hands in each text as a pointer, which is never null, and a length.
#[repr(C)]
#[derive(Clone, Copy)]
pub struct BtxFile<'a> {
    pub name: &'a [u8],
    /// The bytes of the file; no call looks at them if there is no such file.
    pub bytes: &'a [u8],
    /// Whether there is such a file.
    pub is_there: bool,
}

/// What was said of a file.
#[derive(Clone, Copy)]
pub enum Known<'a> {
    /// Its bytes.
    Bytes(&'a [u8]),
    /// That it isn't there.
    Absent,
    /// Nothing.
    Unknown,
}

impl<'a> BtxFile<'a> {
    /// Answers what the file says of its own name.
    pub fn known(&self) -> Known<'a>
        ensures { known_of result ≡ Some (bytes_in self.now) }
    {
        if self.is_there {
            Known::Bytes(self.bytes)
        } else {
            Known::Absent
        }
    }
}

/// Files that a caller handed in, as a finder. It fails where it is asked for a file of which nothing was said. So what it gives is right
/// whatever other files there are.
#[derive(Drop)]
pub struct CallerFiles<'i, 'f> {
    index: &'i Index<'f>,
    others: UnnamedFiles,
    /// What it has answered.
    pub answers: Answers,
    /// How often it was asked for a file of which nothing was said, and whether it was at the last fetch.
    pub failures: Failures,
}

impl<'i, 'f> CallerFiles<'i, 'f> {
    /// A finder over these files, whatever others there are.
    pub fn new(alloc: Global, index: &'i Index<'f>) -> Self
        ghost others: { OtherFiles }
        ensures files { result.index.now ≡ index.now }
        ensures others { result.others.files ≡ others }
        ensures answers { result.answers ≡ [] }
        ensures failures { result.failures ≡ no_failures }
    {
        CallerFiles {
            index,
            others: UnnamedFiles::any(),
            answers: Answers::none(alloc),
            failures: Failures::none(),
        }
    }
}

// Copies the file of this name, if something was said of it. If nothing was, that is the device's fault.
fn copy(index: &Index<'_>, name: &[u8], into: &mut Vec<u8>) -> Result<bool, FetchFault>
    ensures bytes { IfOk result (λ found. known index.now name.now ≡ Some (file_of found into.new.items)) }
    ensures absent { result ≡ Ok false → into.new.items ≡ [] }
    ensures fault { OnErr result (into.new.items ≡ []) }
{
    index.copy(name, into)?.ok_or(FetchFault::Device)
}

impl<'i, 'f> Finder for CallerFiles<'i, 'f> {
    ghost content = { λ finder. Some (beside finder.index.now (file_in finder.others.files)) };

    ghost answers = { λ finder. finder.answers };

    ghost failures = { λ finder. finder.failures };

    #[tactic(auto, using(crate::proofs::HandedLemmas::beside_known))]
    fn fetch(&mut self, alloc: Global, name: &[u8], into: &mut Vec<u8>) -> Fetched {
        let answer = copy(self.index, name, into);
        self.failures
            .note(matches!(answer, Err(FetchFault::Device)));
        self.answers.answer(alloc, name, answer, into)
    }
}
