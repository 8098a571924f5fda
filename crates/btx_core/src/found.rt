//! Files that were found.
ghost use Rattle.std.specs.Prelude.{◌≡◌, ◌+◌, length};
ghost use Rattle.btx_core.specs.refinement.Files.Found.{named_file};

use btx_machine::End;
use btx_text::List;
use std::marker::Model;

/// A file that was found: its name, which its job lends, and its bytes.
#[derive(Drop)]
pub struct FoundFile<'a> {
    name: &'a [u8],
    bytes: Vec<u8>,
}

impl<'a> Model for FoundFile<'a> {
    ghost use Rattle.btx_core.specs.language.Files.Found.{NamedFile};

    ghost Value = { NamedFile };

    ghost view = { λ file. record { name = file.name.now; bytes = file.bytes.items } };
}

impl<'a> FoundFile<'a> {
    /// Makes a file of its name and its bytes.
    pub fn new(name: &'a [u8], bytes: Vec<u8>) -> Self
        ensures { result ≡ named_file name.now bytes.items }
    {
        FoundFile { name, bytes }
    }

    /// Answers the name.
    pub fn name(&self) -> &'a [u8]
        ensures { result.now ≡ self.now.name }
    {
        self.name
    }

    /// Answers the bytes.
    pub fn bytes(&self) -> &[u8]
        ensures { result.now ≡ self.now.bytes }
    {
        self.bytes.as_slice()
    }
}

/// Files that were found, in order.
pub type FoundFiles<'a> = List<FoundFile<'a>>;

/// Answers the number that the file after these will have, from 1 up.
pub fn next_number(files: &FoundFiles<'_>) -> u64
    ensures { result ≡ length files.now + 1 }
{
    files.as_slice().len() as u64 + 1
}

/// The files of a job that are there to be executed: its style, and those of its databases that were found, in the order in which they
/// are named.
#[derive(Drop)]
pub struct JobFiles<'a> {
    pub style: FoundFile<'a>,
    pub databases: FoundFiles<'a>,
}

/// What the reading of a job's files comes to.
#[derive(Drop)]
pub enum FilesRead<'a> {
    /// The run ends at once.
    Ends(End),
    /// The style is executed.
    Found(JobFiles<'a>),
}
