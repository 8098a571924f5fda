//! What is known of databases while they are read.
use crate::draft::{ListBuilder, StoreDecision};
use crate::end::End;
use crate::grammar::events::Event;
use crate::grammar::fields::Field;
use crate::grammar::plain_fields::PlainField;
use crate::grammar::reader::{Reader, StoredKeys};
use crate::grammar::value_ends::Ends;
use crate::grammar::value_texts::{plain_text, value_text};
use crate::grammar::values::Value;
use crate::message::Message;
use crate::reading::Reading;
use crate::request::Request;
use crate::slots::Body;
use crate::spelling::Word;
use crate::strings::{StringTable, StringsWithout};
use crate::values::Values;
use btx_text::{Fault, GREATEST_STRING, Text, same_key};
use std::alloc::{AllocError, Global};

// The text that was made for a string of what is known. Where it is too long, the reading has ended, and the function that calls this is left.
macro_rules! fitting {
    ($gathering:ident, $made:expr) => {
        match $made {
            Ok(text) => text,
            Err(Fault::StringLimit) => {
                $gathering.ending = End::StringLimit;
                return Ok(());
            }
            Err(Fault::Memory) => return Err(AllocError),
            Err(Fault::Device | Fault::FileLimit) => unreachable!(),
        }
    };
}

pub(crate) use fitting;

/// An entry that is being read: its key, and what the list has of it.
#[derive(Drop)]
pub struct Pending<'a> {
    /// The key.
    pub key: Word<'a>,
    /// What the list has of it.
    pub body: Body<'a>,
}

/// What is known so far.
#[derive(Drop)]
pub struct Gathering<'a> {
    /// The list of keys.
    pub draft: ListBuilder<'a>,
    /// The strings.
    pub strings: StringTable<'a>,
    /// The stored entry that is being read.
    pub current: Option<Pending<'a>>,
    /// The values of all `@preamble`s, joined.
    pub preamble: Text<'a>,
    /// How the reading has ended so far.
    pub ending: End,
}

impl<'a> Pending<'a> {
    ghost use Rattle.std.specs.Prelude.{◌≡◌, ◌++◌, true, Some, IfOk, OnOk};
    ghost use Rattle.btx_bib.specs.refinement.Grammar.FieldViews.{field_view};
    ghost use Rattle.btx_bib.specs.refinement.Grammar.PlainFields.{IsPlainPart, part_in_view, plain_field_view};
    ghost use Rattle.btx_bib.specs.refinement.Gatherings.{IfTaken, IsSilent, messages_of_field, taken_by};
    ghost use Rattle.btx_bib.specs.refinement.Requests.{wanted};
    ghost use Rattle.btx_bib.specs.refinement.Sites.{asked_in, database_read, reported};

    // Takes a field, if it is declared and the entry has no value for it yet. Answers whether its value is short enough.
    fn take(
        &mut self,
        strings: &StringTable<'a>,
        field: &Field<'a>,
        rest: &[u8],
        reading: &mut Reading<'_, 'a>,
    ) -> Result<bool, AllocError>
        ensures entry { IfOk result (λ fits. (self.new, fits) ≡ taken_by (asked_in reading.old) strings.now self.old (field_view field.now)) }
        ensures logged { OnOk result (reading.new ≡ reported reading.old
            (messages_of_field (asked_in reading.old) (database_read reading.old) strings.now self.old (field_view field.now) rest.now)) }
    {
        let alloc = reading.alloc;
        let Some(number) = reading.request.field(alloc, field.name)? else {
            return Ok(true);
        };
        if self.body.values.has(number) {
            let spot = reading.site.position_before(rest);
            let message = Message::ExtraField(self.key.copy(), Word::new(field.name), spot);
            reading.messages.push(message)?;
            return Ok(true);
        }
        reading.report_names(&field.value, strings, None)?;
        match value_text(alloc, &field.value, strings, Ends::Trimmed) {
            Ok(text) => {
                self.body.values.put(alloc, number, text.share()?)?;
                Ok(true)
            }
            Err(Fault::StringLimit) => Ok(false),
            Err(Fault::Memory) => Err(AllocError),
            Err(Fault::Device | Fault::FileLimit) => unreachable!(),
        }
    }

    // Takes a field in its plainest form, where no message comes of it. Answers whether it did.
    #[inline(always)]
    fn take_fast_field(
        &mut self,
        alloc: Global,
        request: &Request<'_, 'a>,
        strings: &StringTable<'a>,
        field: &PlainField<'a>,
    ) -> Result<bool, AllocError>
        requires { IsPlainPart (part_in_view field.now.value) }
        ensures entry { IfOk result (λ taken. IfTaken taken ((self.new, true) ≡ taken_by (wanted request.now) strings.now self.old (plain_field_view field.now))
            (self.new ≡ self.old)) }
        ensures logged { IfOk result (λ taken. taken ≡ true → IsSilent (wanted request.now) strings.now (plain_field_view field.now) (Some self.old)) }
    {
        let Some(number) = request.field(alloc, field.name)? else {
            return Ok(true);
        };
        if self.body.values.has(number) {
            return Ok(false);
        }
        match plain_text(alloc, &field.value, strings)? {
            Some(text) => {
                self.body.values.put(alloc, number, text)?;
                Ok(true)
            }
            None => Ok(false),
        }
    }
}

impl<'a> Gathering<'a> {
    ghost use Rattle.std.specs.Prelude.{◌≡◌, ◌≤◌, ◌++◌, None, Some, true, not, length, IfOk, OnOk};
    ghost use Rattle.btx_bib.specs.declared.draft.StoreDecision.TheVariants as decision;
    ghost use Rattle.btx_bib.specs.refinement.Gatherings.{GoesOn, IfTaken, IsSilent, all_kept, all_messages, closed, begun, begun_by, entered, events_with};
    ghost use Rattle.btx_bib.specs.refinement.Gatherings.{fielded_by, kept_after, kept_along, kept_messages, messages_of, messages_of_current};
    ghost use Rattle.btx_bib.specs.refinement.Gatherings.{messages_of_entry, messages_of_standing, read_on, with_preamble, with_kept_string};
    ghost use Rattle.btx_bib.specs.refinement.Sites.{asked_in, database_read, reported};
    ghost use Rattle.btx_bib.specs.language.Messages.{Database, value_messages};
    ghost use Rattle.btx_bib.specs.refinement.Grammar.FieldViews.{field_view};
    ghost use Rattle.btx_bib.specs.refinement.Grammar.PlainFields.{IsPlainPart, part_in_view, plain_field_view};
    ghost use Rattle.btx_bib.specs.refinement.Grammar.EventViews.{event_view};
    ghost use Rattle.btx_bib.specs.refinement.Grammar.Reads.{left};
    ghost use Rattle.btx_bib.specs.language.Known.{goes_on};
    ghost use Rattle.btx_bib.specs.declared.grammar.commands.Expected.TheVariants as next;
    ghost use Rattle.btx_bib.specs.refinement.Requests.{wanted};

    /// The entry that was being read is at its end.
    pub fn close(&mut self, alloc: Global, request: &Request<'_, 'a>) -> Result<(), AllocError>
        ensures { OnOk result (self.new ≡ closed (wanted request.now) self.old) }
    {
        let Some(pending) = self.current.take() else {
            return Ok(());
        };
        let Pending { key, mut body } = pending;
        body.values.trim(alloc)?;
        self.draft.store(alloc, request, &key, body)
    }

    // An entry begins that is stored.
    fn begin(
        &mut self,
        alloc: Global,
        request: &Request<'_, 'a>,
        kind: Option<u32>,
        key: &'a [u8],
    ) -> Result<(), AllocError>
        ensures { OnOk result (self.new ≡ begun (wanted request.now) self.old kind key.entry.now) }
    {
        let values = Values::missing(alloc, request.style.style().fields())?;
        self.current = Some(Pending {
            key: Word::new(key),
            body: Body { kind, values },
        });
        Ok(())
    }

    // An entry begins that is stored. A type that the style doesn't have is reported.
    fn begin_messages(
        &mut self,
        kind: &[u8],
        key: &'a [u8],
        rest: &[u8],
        reading: &mut Reading<'_, 'a>,
    ) -> Result<(), AllocError>
        ensures state { OnOk result (self.new ≡ begun_by (asked_in reading.old) self.old kind.now key.entry.now decision.Expected) }
        ensures logged { OnOk result (reading.new ≡ reported reading.old
            (messages_of_standing (asked_in reading.old) (database_read reading.old) kind.now key.entry.now rest.now decision.Expected)) }
    {
        let kind = reading.request.kind(reading.alloc, kind)?;
        reading.report_kind(kind, key, rest)?;
        self.begin(reading.alloc, reading.request, kind, key)
    }

    // An entry's type and key: the one that was being read is at its end.
    fn enter(
        &mut self,
        kind: &[u8],
        key: &'a [u8],
        rest: &[u8],
        reading: &mut Reading<'_, 'a>,
    ) -> Result<(), AllocError>
        ensures state { OnOk result (self.new ≡ entered (asked_in reading.old) self.old kind.now key.entry.now) }
        ensures logged { OnOk result (reading.new ≡ reported reading.old
            (messages_of_entry (asked_in reading.old) (database_read reading.old) self.old kind.now key.entry.now rest.now)) }
    {
        self.close(reading.alloc, reading.request)?;
        match self.draft.standing(reading.alloc, reading.request, key)? {
            StoreDecision::Unwanted | StoreDecision::Repeated => Ok(()),
            StoreDecision::Expected => self.begin_messages(kind, key, rest, reading),
        }
    }

    // A field of the entry that is being read, or of none.
    fn field(
        &mut self,
        field: &Field<'a>,
        rest: &[u8],
        reading: &mut Reading<'_, 'a>,
    ) -> Result<(), AllocError>
        ensures state { OnOk result (self.new ≡ fielded_by (asked_in reading.old) self.old (field_view field.now) self.old.current) }
        ensures logged { OnOk result (reading.new ≡ reported reading.old
            (messages_of_current (asked_in reading.old) (database_read reading.old) self.old.strings (field_view field.now) rest.now self.old.current)) }
    {
        let Some(pending) = &mut self.current else {
            return Ok(());
        };
        let fits = pending.take(&self.strings, field, rest, reading)?;
        if !fits {
            self.ending = End::StringLimit;
        }
        Ok(())
    }

    // A `@string`.
    fn define(
        &mut self,
        name: &'a [u8],
        value: &Value<'a>,
        reading: &mut Reading<'_, 'a>,
    ) -> Result<(), AllocError>
        ensures state { OnOk result (self.new ≡ with_kept_string self.old name.entry.now value.now) }
        ensures logged { OnOk result (reading.new ≡ reported reading.old
            (value_messages (database_read reading.old) self.old.strings (Some name.entry.now) value.now)) }
    {
        let alloc = reading.alloc;
        reading.report_names(value, &self.strings, Some(name))?;
        let others = StringsWithout {
            strings: &self.strings,
            own: name,
        };
        let text = fitting!(self, value_text(alloc, value, &others, Ends::Kept));
        let text = text.share()?;
        self.strings.define(alloc, name, text)
    }

    // A `@preamble`.
    fn preamble(
        &mut self,
        value: &Value<'a>,
        reading: &mut Reading<'_, 'a>,
    ) -> Result<(), AllocError>
        ensures state { OnOk result (self.new ≡ with_preamble self.old value.now) }
        ensures logged { OnOk result (reading.new ≡ reported reading.old (value_messages (database_read reading.old) self.old.strings None value.now)) }
    {
        let alloc = reading.alloc;
        reading.report_names(value, &self.strings, None)?;
        match value_text(alloc, value, &self.strings, Ends::Kept) {
            Ok(text) if text.len() <= GREATEST_STRING - self.preamble.len() => {
                let before = std::mem::replace(&mut self.preamble, Text::empty());
                self.preamble = before.followed_by(alloc, text.as_bytes())?;
                Ok(())
            }
            Ok(_) | Err(Fault::StringLimit) => {
                self.ending = End::StringLimit;
                Ok(())
            }
            Err(Fault::Memory) => Err(AllocError),
            Err(Fault::Device | Fault::FileLimit) => unreachable!(),
        }
    }

    // Something that was read, with the text after it.
    fn take(
        &mut self,
        event: &Event<'a>,
        rest: &[u8],
        reading: &mut Reading<'_, 'a>,
    ) -> Result<(), AllocError>
        ensures state { OnOk result (self.new ≡ kept_after (asked_in reading.old) self.old (event_view event.now)) }
        ensures logged { OnOk result (reading.new ≡ reported reading.old
            (messages_of (asked_in reading.old) (database_read reading.old) self.old (event_view event.now) rest.now)) }
    {
        match event {
            Event::Comment | Event::ItemEnd => Ok(()),
            Event::Preamble(value) => self.preamble(value, reading),
            Event::Definition(name, value) => self.define(name, value, reading),
            Event::Entry(kind, key) => self.enter(kind, key, rest, reading),
            Event::Field(field) => self.field(field, rest, reading),
            Event::Wrong(slip) => {
                let spot = reading.site.position_at(rest);
                reading.messages.push(Message::Wrong(*slip, spot))
            }
        }
    }

    /// Whether the reading has ended at a limit.
    pub fn has_ended(&self) -> bool
        ensures { result ≡ not (goes_on self.now.ending) }
    {
        self.ending != End::Whole
    }

    /// The events of a database.
    pub fn read_events(
        &mut self,
        text: &'a [u8],
        reading: &mut Reading<'_, 'a>,
    ) -> Result<(), AllocError>
        requires { goes_on self.old.ending ≡ true }
        ensures { OnOk result ((self.new, reading.new) ≡ read_on reading.old self.old (next.Item, text.entry.now)) }
    {
        let mut reader = Reader::of(text);
        self.skip_fast_field(reading.alloc, reading.request, &mut reader)?;
        while let Some(placed) = reader.read(reading.alloc, self)? {
            self.take(&placed.event, placed.rest, reading)?;
            if self.has_ended() {
                return Ok(());
            }
            self.skip_fast_field(reading.alloc, reading.request, &mut reader)?;
        }
        Ok(())
    }

    // Goes on without events: takes the fields in their plainest form that stand next, and passes the entries that aren't wanted.
    #[inline(always)]
    fn skip_fast_field(
        &mut self,
        alloc: Global,
        request: &Request<'_, 'a>,
        reader: &mut Reader<'a>,
    ) -> Result<(), AllocError>
        requires { goes_on self.old.ending ≡ true }
        ensures whole { OnOk result (goes_on self.new.ending ≡ true) }
        ensures state { OnOk result (all_kept (wanted request.now) self.new reader.new ≡ all_kept (wanted request.now) self.old reader.old) }
        ensures logged { OnOk result ((database : Database) → all_messages (wanted request.now) database self.new reader.new
            ≡ all_messages (wanted request.now) database self.old reader.old) }
        ensures shorter { OnOk result (left reader.new.0 (length reader.new.1) ≤ left reader.old.0 (length reader.old.1)) }
    {
        let None = self.current else {
            return self.take_plain_fields(alloc, request, reader);
        };
        self.pass_unwanted(alloc, request, reader)?;
        Ok(())
    }

    // Passes the entries that aren't wanted, up to the first item that is something else or isn't passed whole.
    #[inline(never)]
    fn pass_unwanted(
        &self,
        alloc: Global,
        request: &Request<'_, 'a>,
        reader: &mut Reader<'a>,
    ) -> Result<(), AllocError>
        requires whole { goes_on self.now.ending ≡ true }
        requires none { self.now.current ≡ None }
        ensures { OnOk result (GoesOn (wanted request.now) self.now reader.old reader.new) }
    {
        self.pass_fields(request, reader);
        while let Some(head) = reader.entry_head() {
            let StoreDecision::Unwanted = self.draft.standing(alloc, request, head.key)? else {
                return Ok(());
            };
            reader.enter(&head);
            self.pass_fields(request, reader);
        }
        Ok(())
    }

    // Passes the fields that stand next, of no entry that is stored, and the end of the entry.
    #[inline(always)]
    fn pass_fields(&self, request: &Request<'_, 'a>, reader: &mut Reader<'a>)
        requires whole { goes_on self.now.ending ≡ true }
        requires none { self.now.current ≡ None }
        ensures { GoesOn (wanted request.now) self.now reader.old reader.new }
    {
        while let Some(rest) = reader.behind_field() {
            reader.pass(rest);
        }
        reader.leave();
    }

    // Takes a field in its plainest form, of the entry that is being read or of none, where no message comes of it. Answers whether it did.
    #[inline(always)]
    fn take_fast_field(
        &mut self,
        alloc: Global,
        request: &Request<'_, 'a>,
        field: &PlainField<'a>,
    ) -> Result<bool, AllocError>
        requires { IsPlainPart (part_in_view field.now.value) }
        ensures state { IfOk result (λ taken. IfTaken taken (self.new ≡ fielded_by (wanted request.now) self.old (plain_field_view field.now) self.old.current)
            (self.new ≡ self.old)) }
        ensures logged { IfOk result (λ taken. taken ≡ true → IsSilent (wanted request.now) self.old.strings (plain_field_view field.now) self.old.current) }
        ensures same { IfOk result (λ taken. self.new.ending ≡ self.old.ending) }
    {
        match &mut self.current {
            Some(pending) => pending.take_fast_field(alloc, request, &self.strings, field),
            None => Ok(true),
        }
    }

    // Takes the fields in their plainest form that stand next, until there is none or a message comes of it.
    #[inline(never)]
    fn take_plain_fields(
        &mut self,
        alloc: Global,
        request: &Request<'_, 'a>,
        reader: &mut Reader<'a>,
    ) -> Result<(), AllocError>
        requires { goes_on self.old.ending ≡ true }
        ensures whole { OnOk result (goes_on self.new.ending ≡ true) }
        ensures state { OnOk result (all_kept (wanted request.now) self.new reader.new ≡ all_kept (wanted request.now) self.old reader.old) }
        ensures logged { OnOk result ((database : Database) → all_messages (wanted request.now) database self.new reader.new
            ≡ all_messages (wanted request.now) database self.old reader.old) }
        ensures shorter { OnOk result (left reader.new.0 (length reader.new.1) ≤ left reader.old.0 (length reader.old.1)) }
    {
        while let Some(field) = reader.plain_field() {
            let taken = self.take_fast_field(alloc, request, &field)?;
            if !taken {
                return Ok(());
            }
            reader.pass(field.value.rest);
        }
        Ok(())
    }
}

impl<'a> StoredKeys for Gathering<'a> {
    ghost use Rattle.btx_bib.specs.refinement.Gatherings.{is_kept};

    ghost is_stored = { is_kept };

    fn is_stored(&self, alloc: Global, key: &[u8]) -> Result<bool, AllocError> {
        if is_pending(&self.current, key) {
            return Ok(true);
        }
        self.draft.has_entry(alloc, key)
    }
}

ghost use Rattle.std.specs.Prelude.{◌≡◌};
ghost use Rattle.btx_bib.specs.refinement.Gatherings.{is_pending};

// Whether the key is that of the entry that is being read.
fn is_pending(current: &Option<Pending<'_>>, key: &[u8]) -> bool
    ensures { result ≡ is_pending current.now key.now }
{
    match current {
        Some(pending) => same_key(pending.key.as_bytes(), key),
        None => false,
    }
}
