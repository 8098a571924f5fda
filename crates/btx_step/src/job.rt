//! What a step reads and never changes.
ghost use Rattle.std.specs.Prelude.{◌≡◌};
ghost use Rattle.btx_bib.specs.language.Library.{key_of, entry_type};
ghost use Rattle.btx_step.specs.language.Entries.{entry_of};
ghost use Rattle.btx_step.specs.refinement.Entries.{type_name, runner_of};

use crate::kept_bytes::KeptBytes;
use btx_bib::Library;
use btx_bst::{Callee, Style};
use btx_text::TextMode;
use std::marker::Model;

/// The style, the entries, how text is read, and how many bytes of a string a variable of an entry keeps, and a global one.
#[derive(Drop)]
pub struct Job<'a> {
    style: &'a Style<'a>,
    library: &'a Library<'a>,
    mode: TextMode,
    entry_max: KeptBytes,
    global_max: KeptBytes,
}

impl<'a> Model for Job<'a> {
    ghost use Rattle.btx_step.specs.language.Jobs.{Job as Stored};

    ghost Value = { Stored };

    ghost view = { λ job. record {
      style = job.style.now;
      library = job.library.now;
      mode = job.mode;
      entry_max = job.entry_max;
      global_max = job.global_max;
    } };
}

impl<'a> Job<'a> {
    /// Makes a job of a style, the entries of its databases, how text is read, and how many bytes of a string the variables of entries and the global
    /// ones keep.
    pub fn new(
        style: &'a Style<'a>,
        library: &'a Library<'a>,
        mode: TextMode,
        entry_max: KeptBytes,
        global_max: KeptBytes,
    ) -> Self
        ensures { result ≡ record { style = style.now; library = library.now; mode = mode; entry_max = entry_max; global_max = global_max } }
    {
        Job {
            style,
            library,
            mode,
            entry_max,
            global_max,
        }
    }

    /// Answers the style.
    pub fn style(&self) -> &'a Style<'a>
        ensures { result.now ≡ self.now.style }
    {
        self.style
    }

    /// Answers the library: what the databases give.
    pub fn library(&self) -> &'a Library<'a>
        ensures { result.now ≡ self.now.library }
    {
        self.library
    }

    /// Answers how text is read: as bytes or as UTF-8.
    pub fn mode(&self) -> TextMode
        ensures { result ≡ self.now.mode }
    {
        self.mode
    }

    /// Answers how many bytes of a string a variable of an entry keeps (`entry.max$`).
    pub fn entry_max(&self) -> KeptBytes
        ensures { result ≡ self.now.entry_max }
    {
        self.entry_max
    }

    /// Answers how many bytes of a string a global variable keeps (`global.max$`).
    pub fn global_max(&self) -> KeptBytes
        ensures { result ≡ self.now.global_max }
    {
        self.global_max
    }

    /// Answers the key of the entry of number `entry`, or no bytes if there is no such entry.
    pub fn key(&self, entry: usize) -> &'a [u8]
        ensures { result.now ≡ key_of (entry_of self.now entry) }
    {
        self.library.key(entry)
    }

    /// Answers the name of the type of the entry `entry`, or no bytes if the style doesn't know the type.
    pub fn type_name(&self, entry: usize) -> &'a [u8]
        ensures { result.now ≡ type_name self.now (entry_type (entry_of self.now entry)) }
    {
        match self.library.kind(entry) {
            Some(function) => self.style.name(Callee::User(function)),
            None => &[],
        }
    }

    /// Answers the number of the function for the type of the entry `entry`: that of `default.type` if the style doesn't know the type.
    pub fn runner(&self, entry: usize) -> Option<u32>
        ensures { result ≡ runner_of self.now (entry_type (entry_of self.now entry)) }
    {
        match self.library.kind(entry) {
            Some(function) => Some(function),
            None => self.style.type_function(b"default.type"),
        }
    }
}
