//! A database, read event by event.
ghost use Rattle.std.specs.Prelude.{◌≡◌, Some, IfOk, IfSome, OnErr};
ghost use Rattle.std.specs.Option.{option_map};
ghost use Rattle.btx_bib.specs.refinement.Grammar.EventViews.{event_view, head_view, step_view};
ghost use Rattle.btx_bib.specs.language.Grammar.Items as spec;
ghost use Rattle.btx_bib.specs.refinement.Grammar.PlainFields.{IsLeft, IsPlainPart, entry_step, part_in_view, plain_step};
ghost use Rattle.btx_bib.specs.refinement.Grammar.PassedFields.{IsFieldNext};
ghost use Rattle.btx_bib.specs.refinement.Grammar.Reads.{IsRead};

use crate::grammar::commands::Expected;
use crate::grammar::events::{Event, Placed};
use crate::grammar::item_readers::{
    EntryHead, behind_at, entry_end, entry_head, read_end, read_field_or_end, read_head,
};
use crate::grammar::passed_fields::behind_field;
use crate::grammar::plain_fields::{PlainField, Purpose, plain_field};
use crate::grammar::slip::SyntaxError;
use std::alloc::{AllocError, Global};
use std::marker::Model;

/// The keys of the entries that are stored so far.
pub trait StoredKeys {
    ghost use Rattle.std.specs.Prelude.{List, ℕ, Bool};

    ghost is_stored: { Self → List ℕ → Bool };

    /// Whether an entry with this key is stored.
    fn is_stored(&self, alloc: Global, key: &[u8]) -> Result<bool, AllocError>
        ensures { IfOk result (λ stored. stored ≡ is_stored self.now key.now) };
}

/// A database that is read event by event: what is wanted next, and the text that is left. It takes no memory.
#[derive(Drop)]
pub struct Reader<'a> {
    wanted: Expected,
    rest: &'a [u8],
}

impl<'a> Model for Reader<'a> {
    ghost use Rattle.std.specs.Prelude.{List, ℕ};
    ghost use Rattle.btx_bib.specs.declared.grammar.commands.Expected.{Expected as WantedNext};

    ghost Value = { WantedNext × List ℕ };

    ghost view = { λ reader. (reader.wanted, reader.rest.now) };
}

impl<'a> Reader<'a> {
    /// The reader of a text.
    pub fn of(text: &'a [u8]) -> Self
        ensures { result ≡ (Expected.Item, text.now) }
    {
        Reader {
            wanted: Expected::Item,
            rest: text,
        }
    }

    /// What stands at the next place, if anything does: an entry whose key is stored is reported as a repeated one, and left. Where
    /// memory is refused, the reader stays where it is.
    pub fn read<K: StoredKeys>(
        &mut self,
        alloc: Global,
        stored: &K,
    ) -> Result<Option<Placed<'a>>, AllocError>
        ensures ok { IfOk result (λ read. IsRead (K.is_stored stored.now) self.old read self.new) }
        ensures err { OnErr result (self.new ≡ self.old) }
    {
        let Some((event, wanted, rest)) = step(self.wanted, self.rest) else {
            return Ok(None);
        };
        let (event, wanted) = known(alloc, stored, event, wanted)?;
        self.wanted = wanted;
        self.rest = rest;
        Ok(Some(Placed { event, rest }))
    }

    /// The field in its plainest form that stands at the next place, if one does. The reader stays where it is.
    #[inline(always)]
    #[tactic(auto, unfolding(crate::specs::language::Grammar::Items::expected_step))]
    pub fn plain_field(&self) -> Option<PlainField<'a>>
        ensures field { IfSome result (λ field. spec.expected_step self.now.0 self.now.1 ≡ Some (plain_step self.now.0 field)) }
        ensures plain { IfSome result (λ field. IsPlainPart (part_in_view field.value)) }
    {
        match self.wanted {
            Expected::Fields(_) => plain_field(Purpose::Taking, self.rest),
            Expected::Item | Expected::Closing(_) => None,
        }
    }

    /// The text after the field that stands at the next place, if it has one part. The reader stays where it is.
    #[inline(always)]
    pub(crate) fn behind_field(&self) -> Option<&'a [u8]>
        ensures { IfSome result (λ rest. IsFieldNext self.now rest.now) }
    {
        match self.wanted {
            Expected::Fields(_) => behind_field(self.rest),
            Expected::Item | Expected::Closing(_) => None,
        }
    }

    /// The type and the key of the entry that stands at the next place, if one does. The reader stays where it is.
    #[inline(always)]
    #[tactic(auto, unfolding(crate::specs::language::Grammar::Items::expected_step))]
    pub(crate) fn entry_head(&self) -> Option<EntryHead<'a>>
        ensures { IfSome result (λ head. spec.expected_step self.now.0 self.now.1 ≡ Some (entry_step head)) }
    {
        match self.wanted {
            Expected::Item => entry_head(behind_at(self.rest)?),
            Expected::Fields(_) | Expected::Closing(_) => None,
        }
    }

    /// Goes on after the type and the key of an entry.
    #[inline(always)]
    pub(crate) fn enter(&mut self, head: &EntryHead<'a>)
        ensures { self.new ≡ (Expected.Fields head.now.delimiter, head.now.rest.now) }
    {
        self.wanted = Expected::Fields(head.delimiter);
        self.rest = head.rest;
    }

    /// Goes on after the end of an entry, if it stands at the next place. Answers whether it did.
    #[inline(always)]
    #[tactic(auto, unfolding(crate::specs::language::Grammar::Items::expected_step))]
    pub(crate) fn leave(&mut self) -> bool
        ensures { IsLeft result self.old self.new }
    {
        let Expected::Fields(delimiter) = self.wanted else {
            return false;
        };
        let Some(rest) = entry_end(delimiter, self.rest) else {
            return false;
        };
        self.wanted = Expected::Item;
        self.rest = rest;
        true
    }

    /// Goes on after a field that stands at the next place, where this is the text from its end on.
    #[inline(always)]
    pub fn pass(&mut self, rest: &'a [u8])
        ensures { self.new ≡ (self.old.0, rest.entry.now) }
    {
        self.rest = rest;
    }
}

// Whether an event is an entry whose key is stored.
fn is_repeated<K: StoredKeys>(
    alloc: Global,
    stored: &K,
    event: &Event<'_>,
) -> Result<bool, AllocError>
    ensures { IfOk result (λ repeated. repeated ≡ spec.is_repeated (K.is_stored stored.now) (event_view event.now)) }
{
    match event {
        Event::Entry(_, key) => stored.is_stored(alloc, key),
        _ => Ok(false),
    }
}

// An event and what is wanted after it, by what is known of the stored keys.
fn known<'a, K: StoredKeys>(
    alloc: Global,
    stored: &K,
    event: Event<'a>,
    wanted: Expected,
) -> Result<(Event<'a>, Expected), AllocError>
    ensures { IfOk result (λ got. head_view got ≡ spec.as_known (K.is_stored stored.now) (event_view event.entry, wanted)) }
{
    if is_repeated(alloc, stored, &event)? {
        return Ok((Event::Wrong(SyntaxError::Repeated), Expected::Item));
    }
    Ok((event, wanted))
}

// What is read at a place, what is wanted next, and the text from there on.
#[tactic(auto, unfolding(crate::specs::language::Grammar::Items::expected_step))]
fn step<'a>(wanted: Expected, text: &'a [u8]) -> Option<(Event<'a>, Expected, &'a [u8])>
    ensures { option_map step_view result ≡ spec.expected_step wanted text.now }
{
    let read = match wanted {
        Expected::Item => read_head(behind_at(text)?),
        Expected::Closing(delimiter) => read_end(delimiter, text),
        Expected::Fields(delimiter) => read_field_or_end(delimiter, text),
    };
    match read {
        Ok(((event, next), rest)) => Some((event, next, rest)),
        Err((slip, rest)) => Some((Event::Wrong(slip), Expected::Item, rest)),
    }
}
