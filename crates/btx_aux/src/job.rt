//! What the `.aux` files of a job say.
ghost use Rattle.std.specs.Prelude.{◌≡◌, map, option_copied, position};
ghost use Rattle.std.specs.List.{IsDistinct};
ghost use Rattle.std.specs.Str.{bytes_eq};
ghost use Rattle.btx_text.specs.language.Keys.{folded};
ghost use Rattle.btx_aux.specs.language.Names.{is_same_key};
ghost use Rattle.btx_aux.specs.refinement.Entries.{texts_of};
ghost use Rattle.btx_text.specs.language.LogLines.{Line};

use crate::end::End;
use crate::keys::Keys;
use crate::name::Name;
use crate::name_set::NameSet;
use btx_text::{LogLine, LogLines};
use std::marker::Model;

/// What the `.aux` files of a job say.
#[derive(Drop)]
pub struct AuxJob {
    pub(crate) keys: Keys,
    pub(crate) all: Option<usize>,
    pub(crate) databases: NameSet,
    pub(crate) style: Option<Name>,
    pub(crate) log: LogLines,
    pub(crate) ending: End,
}

impl Model for AuxJob {
    ghost use Rattle.btx_aux.specs.language.Job.{AuxJob};

    ghost Value = { AuxJob };

    ghost view = { λ job. record {
      keys = job.keys;
      all = job.all;
      databases = job.databases;
      style = job.style;
      log = job.log;
      ending = job.ending;
    } };
}

impl AuxJob {
    /// The keys that are cited, in order, each as it was spelled first.
    pub fn keys(&self) -> &[Vec<u8>]
        ensures { texts_of result.now ≡ self.now.keys }
    {
        self.keys.as_slice()
    }

    /// The place among the keys of the one whose lowered form this is, if it is cited. A key is lowered by `fold_key`.
    pub fn position(&self, lowered: &[u8]) -> Option<usize>
        ensures { result ≡ position (bytes_eq lowered.now) (map folded self.now.keys) }
    {
        self.keys.position(lowered)
    }

    /// No two keys are equal without case: a law, the contract of a function that does nothing.
    pub fn keys_differ(&self)
        ensures { IsDistinct is_same_key self.now.keys }
    {
        self.keys.differ();
    }

    /// The place of `*`, which stands for all entries, if it was cited: the number of keys that stand before it.
    pub fn all(&self) -> Option<usize>
        ensures { result ≡ self.now.all }
    {
        self.all
    }

    /// The names of the databases, in order, with `.bib`.
    pub fn databases(&self) -> &[Vec<u8>]
        ensures { texts_of result.now ≡ self.now.databases }
    {
        self.databases.as_slice()
    }

    /// The name of the style, with `.bst`, if there is one.
    pub fn style(&self) -> Option<&[u8]>
        ensures { option_copied result ≡ self.now.style }
    {
        let name = self.style.as_ref()?;
        Some(name.as_slice())
    }

    /// The lines of the log, in order.
    pub fn log(&self) -> &[LogLine]
        ensures { result.now ≡ self.now.log }
    {
        self.log.as_slice()
    }

    /// How the reading ended. After any end but `Whole` the rest is what was read so far.
    pub fn end(&self) -> End
        ensures { result ≡ self.now.ending }
    {
        self.ending
    }
}
