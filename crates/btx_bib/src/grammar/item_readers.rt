//! The items of a database, read.
ghost use Rattle.std.specs.Prelude.{◌≡◌, None, Ok, IfSome};
ghost use Rattle.std.specs.Str.{bytes_eq};
ghost use Rattle.std.specs.Option.{option_map};
ghost use Rattle.btx_text.specs.language.Keys.{folded};
ghost use Rattle.btx_bib.specs.refinement.Grammar.EventViews.{event_view, head_view};
ghost use Rattle.btx_bib.specs.language.Grammar.Items as spec;
ghost use Rattle.btx_bib.specs.refinement.Grammar.Items as refined;
ghost use Rattle.btx_bib.specs.language.Grammar.Tokens.{closing_delimiter, sign_at};
ghost use Rattle.btx_bib.specs.refinement.Grammar.Tokens.{seen};
ghost use Rattle.btx_bib.specs.laws.Grammar.Fields.{more_at};

use crate::grammar::byte_sets::{ByteSet, Delimiter};
use crate::grammar::commands::{DatabaseCommand, Expected};
use crate::grammar::events::Event;
use crate::grammar::field_readers::read_more;
use crate::grammar::slip::SyntaxError;
use crate::grammar::tokens::{Read, closing, key, name, open, past, sign};
use crate::grammar::values::read_value;
use btx_text::same_key;
use memchr::memchr;

// Whether a name is that of a command.
fn is_named(name: &[u8], command: &[u8]) -> bool
    ensures { result ≡ bytes_eq (folded name.now) (folded command.now) }
{
    same_key(name, command)
}

// The command of a name.
#[tactic(auto, unfolding(crate::specs::language::Grammar::Items::command_of))]
fn command(name: &[u8]) -> DatabaseCommand
    ensures { result ≡ spec.command_of name.now }
{
    if is_named(name, b"comment") {
        return DatabaseCommand::Comment;
    }
    if is_named(name, b"preamble") {
        return DatabaseCommand::Preamble;
    }
    if is_named(name, b"string") {
        return DatabaseCommand::Definition;
    }
    DatabaseCommand::Entry
}

/// The type and the key of an entry.
#[derive(Clone, Copy)]
pub struct EntryHead<'a> {
    /// The type.
    pub kind: &'a [u8],
    /// The key.
    pub key: &'a [u8],
    /// What stands round the entry.
    pub delimiter: Delimiter,
    /// The text after the key.
    pub rest: &'a [u8],
}

/// The type and the key of an entry, if they come after an `@`.
#[tactic(auto, unfolding(crate::specs::language::Grammar::Items::head_at, crate::specs::language::Grammar::Items::head_of))]
#[inline(always)]
pub fn entry_head(text: &[u8]) -> Option<EntryHead<'_>>
    ensures { IfSome result (λ head. spec.head_at text.now ≡ Ok ((spec.Entry head.kind.now head.key.now, Expected.Fields head.delimiter), head.rest.now)) }
{
    let (kind, rest) = name(text).ok()?;
    let DatabaseCommand::Entry = command(kind) else {
        return None;
    };
    let (delimiter, rest) = open(rest).ok()?;
    let (key, rest) = key(delimiter, rest).ok()?;
    Some(EntryHead {
        kind,
        key,
        delimiter,
        rest,
    })
}

/// The text after the end of an entry, with a comma before it or without one, if that stands here.
#[tactic(auto, unfolding(crate::specs::language::Grammar::Fields::more_in, crate::specs::language::Grammar::Fields::after_comma))]
#[inline(always)]
pub fn entry_end(delimiter: Delimiter, text: &[u8]) -> Option<&[u8]>
    ensures { IfSome result (λ rest. more_at delimiter text.now ≡ Ok (None, rest.now)) }
{
    let rest = past(ByteSet::Gap, text);
    let (&byte, after) = rest.split_first()?;
    if byte == closing(delimiter) {
        return Some(after);
    }
    if byte != b',' {
        return None;
    }
    match past(ByteSet::Gap, after).split_first() {
        Some((&byte, after)) if byte == closing(delimiter) => Some(after),
        _ => None,
    }
}

// The value of a preamble.
#[tactic(auto, unfolding(crate::specs::language::Grammar::Items::head_of))]
fn preamble<'a>(name: &'a [u8], text: &'a [u8]) -> Read<'a, (Event<'a>, Expected)>
    ensures { seen head_view result ≡ spec.head_of DatabaseCommand.Preamble name.now text.now }
{
    let (delimiter, rest) = open(text)?;
    let (value, rest) = read_value(rest)?;
    Ok(((Event::Preamble(value), Expected::Closing(delimiter)), rest))
}

// The name and the value of a string.
#[tactic(auto, unfolding(crate::specs::language::Grammar::Items::head_of))]
fn definition<'a>(name: &'a [u8], text: &'a [u8]) -> Read<'a, (Event<'a>, Expected)>
    ensures { seen head_view result ≡ spec.head_of DatabaseCommand.Definition name.now text.now }
{
    let (delimiter, rest) = open(text)?;
    let (string, rest) = crate::grammar::tokens::name(rest)?;
    let (_, rest) = sign(b'=', SyntaxError::NoEquals, rest)?;
    let (value, rest) = read_value(rest)?;
    Ok((
        (
            Event::Definition(string, value),
            Expected::Closing(delimiter),
        ),
        rest,
    ))
}

// The type and the key of an entry.
#[tactic(auto, unfolding(crate::specs::language::Grammar::Items::head_of))]
fn entry<'a>(name: &'a [u8], text: &'a [u8]) -> Read<'a, (Event<'a>, Expected)>
    ensures { seen head_view result ≡ spec.head_of DatabaseCommand.Entry name.now text.now }
{
    let (delimiter, rest) = open(text)?;
    let (key, rest) = key(delimiter, rest)?;
    Ok(((Event::Entry(name, key), Expected::Fields(delimiter)), rest))
}

/// What follows an `@`.
#[tactic(auto, unfolding(crate::specs::language::Grammar::Items::head_at, crate::specs::language::Grammar::Items::head_of))]
pub fn read_head(text: &[u8]) -> Read<'_, (Event<'_>, Expected)>
    ensures { seen head_view result ≡ spec.head_at text.now }
{
    let (name, rest) = name(text)?;
    match command(name) {
        DatabaseCommand::Comment => Ok(((Event::Comment, Expected::Item), rest)),
        DatabaseCommand::Preamble => preamble(name, rest),
        DatabaseCommand::Definition => definition(name, rest),
        DatabaseCommand::Entry => entry(name, rest),
    }
}

/// The end of an item.
pub fn read_end(delimiter: Delimiter, text: &[u8]) -> Read<'_, (Event<'_>, Expected)>
    ensures { seen head_view result ≡ refined.item_end (sign_at (closing_delimiter delimiter) (SyntaxError.NoClosing delimiter) text.now) }
{
    let (_, rest) = sign(closing(delimiter), SyntaxError::NoClosing(delimiter), text)?;
    Ok(((Event::ItemEnd, Expected::Item), rest))
}

/// One more field of an entry, or its end.
pub fn read_field_or_end(delimiter: Delimiter, text: &[u8]) -> Read<'_, (Event<'_>, Expected)>
    ensures { seen head_view result ≡ spec.field_event delimiter (more_at delimiter text.now) }
{
    let (more, rest) = read_more(delimiter, text)?;
    match more {
        Some(field) => Ok(((Event::Field(field), Expected::Fields(delimiter)), rest)),
        None => Ok(((Event::ItemEnd, Expected::Item), rest)),
    }
}

/// The text after the first `@`.
#[tactic(auto, using(crate::proofs::GrammarLemmas::ItemLemmas::at_steps))]
pub fn behind_at(text: &[u8]) -> Option<&[u8]>
    ensures { option_map (λ rest. rest.now) result ≡ spec.behind_at text.now }
{
    let place = memchr(b'@', text)?;
    Some(&text[place + 1..])
}
