//! The contents of events: the texts of their values.
ghost use Rattle.std.specs.Prelude.{◌≡◌, IfOk, OnOk};
ghost use Rattle.btx_bib.specs.language.Grammar.Items as spec;
ghost use Rattle.btx_bib.specs.language.Grammar.ValueTexts.{value_text};
ghost use Rattle.btx_bib.specs.refinement.Grammar.EventViews.{event_view};
ghost use Rattle.btx_read.specs.Records.{content_of, fitting, strings_after};

use crate::content::Content;
use btx_bib::Word;
use btx_bib::grammar::events::Event;
use btx_bib::grammar::value_ends::Ends;
use btx_bib::grammar::value_texts::{Strings, value_text};
use btx_bib::grammar::values::Value;
use btx_bib::strings::{StringTable, StringsWithout};
use btx_text::{Fault, Text};
use std::alloc::{AllocError, Global};

// The text of a value, if it isn't too long.
fn fitting_text<'a, S: Strings<'a>>(
    alloc: Global,
    value: &Value<'a>,
    strings: &S,
    ends: Ends,
) -> Result<Option<Text<'a>>, AllocError>
    ensures { IfOk result (λ text. text ≡ fitting (value_text ends (S.values strings.now) value.now)) }
{
    match value_text(alloc, value, strings, ends) {
        Ok(text) => Ok(Some(text.share()?)),
        Err(Fault::StringLimit) => Ok(None),
        Err(Fault::Memory) => Err(AllocError),
        Err(Fault::Device | Fault::FileLimit) => unreachable!(),
    }
}

// The content of a `@string`: its value is known from its end on.
fn defined<'a>(
    alloc: Global,
    strings: &mut StringTable<'a>,
    name: &'a [u8],
    value: &Value<'a>,
) -> Result<Content<'a>, AllocError>
    ensures content { IfOk result (λ content. content ≡ content_of strings.old (spec.Definition name.entry.now value.now)) }
    ensures strings { OnOk result (strings.new ≡ strings_after strings.old (spec.Definition name.entry.now value.now)) }
{
    let others = StringsWithout { strings, own: name };
    let Some(text) = fitting_text(alloc, value, &others, Ends::Kept)? else {
        return Ok(Content::Definition(Word::new(name), None));
    };
    strings.define(alloc, name, text.copy(alloc)?)?;
    Ok(Content::Definition(Word::new(name), Some(text)))
}

/// The content of an event, after which its string is known if it defines one.
pub(crate) fn content_of<'a>(
    alloc: Global,
    strings: &mut StringTable<'a>,
    event: &Event<'a>,
) -> Result<Content<'a>, AllocError>
    ensures content { IfOk result (λ content. content ≡ content_of strings.old (event_view event.now)) }
    ensures strings { OnOk result (strings.new ≡ strings_after strings.old (event_view event.now)) }
{
    match event {
        Event::Comment => Ok(Content::Comment),
        Event::Preamble(value) => {
            let text = fitting_text(alloc, value, strings, Ends::Kept)?;
            Ok(Content::Preamble(text))
        }
        Event::Definition(name, value) => defined(alloc, strings, name, value),
        Event::Entry(kind, key) => Ok(Content::Entry(Word::new(kind), Word::new(key))),
        Event::Field(field) => {
            let text = fitting_text(alloc, &field.value, strings, Ends::Trimmed)?;
            Ok(Content::Field(Word::new(field.name), text))
        }
        Event::ItemEnd => Ok(Content::End),
        Event::Wrong(slip) => Ok(Content::Wrong(*slip)),
    }
}
