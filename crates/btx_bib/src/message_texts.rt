//! The lines of the log for messages.
ghost use Rattle.btx_bib.specs.language.MessageTexts.{message_kind, message_line, message_text, slip_text, position_of};
ghost use Rattle.std.specs.Prelude.{IfOk, OnOk, codes, option_copied, ◌++◌, ◌≡◌};
ghost use Rattle.btx_bib.specs.refinement.Wordings.{wording_text};
ghost use Rattle.btx_bib.specs.refinement.MessageTexts.{spot_text};

use crate::grammar::byte_sets::Delimiter;
use crate::grammar::slip::SyntaxError;
use crate::message::{Message, SourcePosition};
use crate::spelling::{Spelling, Word};
use btx_text::log_texts::{push_four, push_mark, push_place};
use btx_text::{LineKind, LogLine, Place};
use std::alloc::{AllocError, Global};

// The pieces of a text: words, and up to two names between them.
#[derive(Clone, Copy)]
struct Wording<'m> {
    before: &'m [u8],
    first: &'m [u8],
    between: &'m [u8],
    second: &'m [u8],
    after: &'m [u8],
}

impl<'a> Message<'a> {
    /// The line of the log for it.
    #[tactic(auto, using(crate::proofs::LineLemmas::line_steps))]
    pub fn log_line(&self, alloc: Global) -> Result<LogLine, AllocError>
        ensures { IfOk result (λ line. line ≡ message_line self.now) }
    {
        let kind = self.kind();
        let mut text = Vec::new(alloc);
        push_mark(&mut text, kind)?;
        push_wording(&mut text, self.wording())?;
        push_spot(&mut text, self.spot())?;
        Ok(LogLine::new(text, kind))
    }

    /// Whether it is a warning or an error.
    pub fn kind(&self) -> LineKind
        ensures { result ≡ message_kind self.now }
    {
        match self {
            Message::Wrong(_, _) | Message::BadReference(_, _) => LineKind::Error,
            _ => LineKind::Warning,
        }
    }

    /// The line of a database where it is met, if it is met at one.
    pub fn spot(&self) -> Option<&SourcePosition<'a>>
        ensures { option_copied result ≡ position_of self.now }
    {
        match self {
            Message::Wrong(_, spot)
            | Message::UnknownKind(_, spot)
            | Message::ExtraField(_, _, spot)
            | Message::UndefinedString(_, spot)
            | Message::OwnString(_, spot) => Some(spot),
            _ => None,
        }
    }

    // What it says, in pieces.
    #[tactic(auto, unfolding(crate::specs::language::MessageTexts::message_text))]
    fn wording(&self) -> Wording<'_>
        ensures { wording_text result ≡ message_text self.now }
    {
        match self {
            Message::Wrong(slip, _) => words(slip_text(*slip)),
            Message::UnknownKind(key, _) => about(
                b"entry type for \"",
                key.as_bytes(),
                b"\" isn't style-file defined",
            ),
            Message::ExtraField(key, field, _) => Wording {
                before: b"I'm ignoring ",
                first: key.as_bytes(),
                between: b"'s extra \"",
                second: field.as_bytes(),
                after: b"\" field",
            },
            Message::UndefinedString(name, _) => about_string(name, b"\" is undefined"),
            Message::OwnString(name, _) => about_string(name, b"\" is used in its own definition"),
            Message::BadReference(child, parent) => reference(
                b"A bad cross reference--entry \"",
                child,
                parent,
                b"\", which doesn't exist",
            ),
            Message::NestedReference(child, parent) => reference(
                b"you've nested cross references--entry \"",
                child,
                parent,
                b"\"",
            ),
            Message::NoEntry(key) => about(
                b"I didn't find a database entry for \"",
                key.as_bytes(),
                b"\"",
            ),
        }
    }
}

// Words alone.
fn words<'m>(text: &'m [u8]) -> Wording<'m>
    ensures { wording_text result ≡ text.now }
{
    about(b"", b"", text)
}

// Words around one name.
fn about<'m>(before: &'m [u8], name: &'m [u8], after: &'m [u8]) -> Wording<'m>
    ensures { wording_text result ≡ before.now ++ name.now ++ after.now }
{
    Wording {
        before,
        first: name,
        between: b"",
        second: b"",
        after,
    }
}

// Words about the name of a string, and what is wrong with it.
fn about_string<'m>(name: &'m Word<'_>, wrong: &'m [u8]) -> Wording<'m>
    ensures { wording_text result ≡ codes "string name \"" ++ name.now ++ wrong.now }
{
    about(b"string name \"", name.as_bytes(), wrong)
}

// Words about a cross-reference, from the entry `child` to the entry `parent`.
fn reference<'m>(
    before: &'m [u8],
    child: &'m Spelling<'_>,
    parent: &'m Spelling<'_>,
    after: &'m [u8],
) -> Wording<'m>
    ensures { wording_text result ≡ before.now ++ child.now ++ codes "\" refers to entry \"" ++ parent.now ++ after.now }
{
    Wording {
        before,
        first: child.as_bytes(),
        between: b"\" refers to entry \"",
        second: parent.as_bytes(),
        after,
    }
}

// What is wrong at a place of a database, in words.
#[tactic(auto, unfolding(crate::specs::language::MessageTexts::slip_text))]
fn slip_text(slip: SyntaxError) -> &'static [u8]
    ensures { result.now ≡ slip_text slip }
{
    match slip {
        SyntaxError::NoName => b"I was expecting a name",
        SyntaxError::NoDelimiter => b"I was expecting a { or a (",
        SyntaxError::NoComma(Delimiter::Braces) => b"I was expecting a , or a }",
        SyntaxError::NoComma(Delimiter::Parens) => b"I was expecting a , or a )",
        SyntaxError::NoEquals => b"I was expecting an =",
        SyntaxError::NoClosing(Delimiter::Braces) => b"I was expecting a }",
        SyntaxError::NoClosing(Delimiter::Parens) => b"I was expecting a )",
        SyntaxError::NoValue => b"I was expecting a value",
        SyntaxError::Unbalanced => b"Unbalanced braces",
        SyntaxError::EndOfFile => b"Illegal end of database file",
        SyntaxError::Repeated => b"Repeated entry",
    }
}

// Appends the pieces of a text.
#[tactic(auto, using(crate::proofs::LineLemmas::line_steps))]
fn push_wording(text: &mut Vec<u8>, wording: Wording<'_>) -> Result<(), AllocError>
    ensures { OnOk result (text.new.items ≡ text.old.items ++ wording_text wording.entry) }
{
    push_four(
        text,
        wording.before,
        wording.first,
        wording.between,
        wording.second,
    )?;
    text.extend_from_slice(wording.after)
}

// Appends the line of a database, if there is one.
fn push_spot(text: &mut Vec<u8>, spot: Option<&SourcePosition<'_>>) -> Result<(), AllocError>
    ensures { OnOk result (text.new.items ≡ text.old.items ++ spot_text (option_copied spot.entry)) }
{
    match spot {
        Some(spot) => push_place(
            text,
            Place {
                file: spot.file.as_bytes(),
                line: spot.line,
            },
        ),
        None => Ok(()),
    }
}
