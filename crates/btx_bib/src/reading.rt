//! The reading of one database: what it goes by, and what it reports.
ghost use Rattle.std.specs.Prelude.{◌≡◌, ◌++◌, OnOk, option_copied};
ghost use Rattle.btx_bib.specs.refinement.Grammar.PartViews.{part_view};
ghost use Rattle.btx_bib.specs.refinement.Sites.{database_read, reported};
ghost use Rattle.btx_bib.specs.language.Messages as spec;
ghost use Rattle.btx_bib.specs.refinement.Messages.{is_own, type_messages};

use crate::grammar::parts::Part;
use crate::grammar::value_texts::Strings;
use crate::grammar::values::{Parts, Value};
use crate::message::{Message, Messages};
use crate::request::Request;
use crate::site::LineSource;
use crate::spelling::Word;
use crate::strings::StringTable;
use btx_text::same_key;
use std::alloc::{AllocError, Global};

/// The reading of one database. What is known of the entries stands apart from it, in the `Gathering`.
#[derive(Drop)]
pub struct Reading<'r, 'a> {
    /// The allocator of what is kept.
    pub alloc: Global,
    /// What the databases are asked for.
    pub request: &'r Request<'r, 'a>,
    /// The database, whose lines messages name.
    pub site: LineSource<'a>,
    /// The messages so far, of this database and those before it.
    pub messages: Messages<'a>,
}

impl<'r, 'a> Reading<'r, 'a> {
    // Reports a part that is a name which stands for no string.
    fn report_part(
        &mut self,
        part: Part<'a>,
        strings: &StringTable<'a>,
        own: Option<&[u8]>,
    ) -> Result<(), AllocError>
        ensures { OnOk result (self.new ≡ reported self.old (spec.name_messages (database_read self.old) strings.now (option_copied own.entry)
            (part_view part.entry))) }
    {
        let Part::Named(string) = part else {
            return Ok(());
        };
        if is_own(own, string.name) {
            let spot = self.site.position_at(string.rest);
            return self
                .messages
                .push(Message::OwnString(Word::new(string.name), spot));
        }
        let value = strings.value_of(self.alloc, string.name)?;
        if value.is_some() {
            return Ok(());
        }
        let spot = self.site.position_at(string.rest);
        self.messages
            .push(Message::UndefinedString(Word::new(string.name), spot))
    }

    /// Reports the names of a value that stand for no string, where this string is being defined or none.
    #[inline(always)]
    #[tactic(auto, using(crate::proofs::MessageLemmas::one_name))]
    pub fn report_names(
        &mut self,
        value: &Value<'a>,
        strings: &StringTable<'a>,
        own: Option<&[u8]>,
    ) -> Result<(), AllocError>
        ensures { OnOk result (self.new ≡ reported self.old (spec.value_messages (database_read self.old) strings.now (option_copied own.entry) value.now)) }
    {
        let Some(part) = value.lone_part() else {
            return self.report_parts(value.parts(), strings, own);
        };
        self.report_part(part, strings, own)
    }

    // The same of the parts of a value, one by one.
    fn report_parts(
        &mut self,
        parts: Parts<'a>,
        strings: &StringTable<'a>,
        own: Option<&[u8]>,
    ) -> Result<(), AllocError>
        ensures { OnOk result (self.new ≡ reported self.old (spec.value_messages (database_read self.old) strings.now (option_copied own.entry) parts.entry)) }
    {
        for part in parts {
            self.report_part(part, strings, own)?;
        }
        Ok(())
    }

    /// Reports the type of the entry of a key, if the style doesn't have it.
    pub fn report_kind(
        &mut self,
        kind: Option<u32>,
        key: &'a [u8],
        rest: &[u8],
    ) -> Result<(), AllocError>
        ensures { OnOk result (self.new ≡ reported self.old (type_messages key.entry.now kind (spec.position_at (database_read self.old) rest.now))) }
    {
        match kind {
            Some(_) => Ok(()),
            None => {
                let spot = self.site.position_at(rest);
                self.messages
                    .push(Message::UnknownKind(Word::new(key), spot))
            }
        }
    }
}

// Whether a name is that of the string that is being defined.
fn is_own(own: Option<&[u8]>, name: &[u8]) -> bool
    ensures { result ≡ is_own (option_copied own.entry) name.now }
{
    match own {
        Some(own) => same_key(own, name),
        None => false,
    }
}
