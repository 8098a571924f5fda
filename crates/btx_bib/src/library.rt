//! What the databases give to a job.
use crate::end::End;
use crate::entry::Entry;
use crate::message::{Message, Messages};
use btx_text::Text;
use std::marker::Model;

/// What the databases give to a job: the entries in the order of the list, the preamble, and the messages. Where the
/// reading ended at a limit there are only the messages until then.
#[derive(Drop)]
pub struct Library<'a> {
    pub(crate) entries: Vec<Entry<'a>>,
    pub(crate) preamble: Text<'a>,
    pub(crate) messages: Messages<'a>,
    pub(crate) ending: End,
}

impl<'a> Model for Library<'a> {
    ghost use Rattle.btx_bib.specs.language.Library.{Library};

    ghost Value = { Library };

    ghost view = { λ library. record {
      entries = library.entries.items;
      preamble = library.preamble;
      messages = library.messages;
      ending = library.ending;
    } };
}

impl<'a> Library<'a> {
    ghost use Rattle.std.specs.Prelude.{◌≡◌, ◌≤◌, ◌==◌, IfSome, length, option_copied, slice_get};
    ghost use Rattle.btx_text.specs.language.Limits.{greatest_string};
    ghost use Rattle.btx_bib.specs.language.Library.{key_of, entry_type, entry_value};

    /// How many entries the list has.
    pub fn len(&self) -> usize
        ensures { result ≡ length self.now.entries }
    {
        self.entries.len()
    }

    /// Whether the list is empty.
    pub fn is_empty(&self) -> bool
        ensures { result ≡ (length self.now.entries == 0) }
    {
        self.entries.is_empty()
    }

    /// The entries, in the order of the list.
    pub fn entries(&self) -> &[Entry<'a>]
        ensures { result.now ≡ self.now.entries }
    {
        self.entries.as_slice()
    }

    /// The entry of a number, if there is one.
    pub fn entry(&self, number: usize) -> Option<&Entry<'a>>
        ensures { option_copied result ≡ slice_get self.now.entries number }
    {
        self.entries.get(number)
    }

    /// The key of an entry as the list spells it; no bytes past the last entry. A key has any length.
    pub fn key(&self, number: usize) -> &[u8]
        ensures { result.now ≡ key_of (slice_get self.now.entries number) }
    {
        match self.entry(number) {
            Some(entry) => entry.key(),
            None => &[],
        }
    }

    /// The number of the style's function for the type of an entry: none for a type that isn't the style's.
    pub fn kind(&self, number: usize) -> Option<u32>
        ensures { result ≡ entry_type (slice_get self.now.entries number) }
    {
        match self.entry(number) {
            Some(entry) => entry.kind(),
            None => None,
        }
    }

    /// The value of a field of an entry by the field's number: none where it is missing.
    #[inline(always)]
    pub fn value(&self, number: usize, field: u32) -> Option<&[u8]>
        ensures value { option_copied result ≡ entry_value field (slice_get self.now.entries number) }
        ensures within { IfSome result (λ text. length text.now ≤ greatest_string) }
    {
        match self.entry(number) {
            Some(entry) => entry.value(field),
            None => None,
        }
    }

    /// The values of all `@preamble`s, joined.
    pub fn preamble(&self) -> &Text<'a>
        ensures { result.now ≡ self.now.preamble }
    {
        &self.preamble
    }

    /// The messages, in order.
    pub fn messages(&self) -> &[Message<'a>]
        ensures { result.now ≡ self.now.messages }
    {
        self.messages.as_slice()
    }

    /// How the reading ended.
    pub fn end(&self) -> End
        ensures { result ≡ self.now.ending }
    {
        self.ending
    }
}

impl<'a> Entry<'a> {
    ghost use Rattle.std.specs.Prelude.{◌≡◌, ◌≤◌, IfSome, length, option_copied};
    ghost use Rattle.btx_text.specs.language.Limits.{greatest_string};
    ghost use Rattle.btx_bib.specs.language.Values.{field_value};

    /// The key as the list spells it.
    pub fn key(&self) -> &[u8]
        ensures { result.now ≡ self.now.key }
    {
        self.key.as_bytes()
    }

    /// The number of the style's function for the type: none for a type that isn't the style's.
    pub fn kind(&self) -> Option<u32>
        ensures { result ≡ self.now.kind }
    {
        self.kind
    }

    /// The value of a field by its number: none where it is missing.
    #[inline(always)]
    pub fn value(&self, field: u32) -> Option<&[u8]>
        ensures value { option_copied result ≡ field_value field self.now.values }
        ensures within { IfSome result (λ text. length text.now ≤ greatest_string) }
    {
        self.values.get(field as usize)
    }
}
