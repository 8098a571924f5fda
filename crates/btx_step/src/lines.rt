//! The lines of the log that a style's execution gives.
ghost use Rattle.std.specs.Prelude.{◌≡◌, ◌++◌, IfOk, OnOk, codes, decimal};
ghost use Rattle.std.specs.Option.{option_copied};
ghost use Rattle.std.specs.Fmt.{signed_decimal};
ghost use Rattle.btx_step.specs.language.Notes as spec;
ghost use Rattle.btx_step.specs.refinement.Notes as kept_spec;

use crate::literal::{Literal, OperandKind};
use crate::said::Note;
use btx_bst::{Callee, Style};
use btx_text::log_texts::{push_four, push_mark, push_number, push_two};
use btx_text::{LineKind, LogLine, Text};
use itoa::Buffer;
use std::alloc::{AllocError, Global};

/// Makes the log line of `note`, which was met while the function named `executed` ran, in the entry of key `key` if there is a current entry.
#[tactic(auto, using(btx_text::proofs::JoinLemmas::joins), unfolding(crate::specs::language::Notes::note_line))]
pub fn line_of(
    alloc: Global,
    style: &Style<'_>,
    executed: &[u8],
    key: Option<&[u8]>,
    note: &Note<'_>,
) -> Result<LogLine, AllocError>
    ensures { IfOk result (λ line. line ≡ spec.note_line style.now executed.now (option_copied key.entry) note.now) }
{
    let kind = kind_of(note);
    let mut text = Vec::new(alloc);
    push_mark(&mut text, kind)?;
    push_note(&mut text, style, note)?;
    push_place_if(&mut text, has_place(note), executed, key)?;
    Ok(LogLine::new(text, kind))
}

// What a line is.
#[tactic(auto, unfolding(crate::specs::language::Notes::note_kind))]
fn kind_of(note: &Note<'_>) -> LineKind
    ensures { result ≡ spec.note_kind note.now }
{
    match note {
        Note::Cut(_, _) | Note::Warning(_) => LineKind::Warning,
        Note::Shown(_) => LineKind::Plain,
        Note::EmptyStack
        | Note::WrongKind(_, _)
        | Note::Incomparable
        | Note::Overflow
        | Note::NotAssignable(_)
        | Note::NoEntry
        | Note::NotAscii(_)
        | Note::NotOneCharacter(_)
        | Note::NoConversion(_)
        | Note::NoSuchName(_, _)
        | Note::FinalComma(_, _)
        | Note::TooManyCommas(_, _)
        | Note::IllegalFormat(_)
        | Note::LeftOver => LineKind::Error,
    }
}

// Whether a place follows.
#[tactic(auto, unfolding(crate::specs::language::Notes::has_place))]
fn has_place(note: &Note<'_>) -> bool
    ensures { result ≡ spec.has_place note.now }
{
    !matches!(note, Note::Warning(_) | Note::Shown(_))
}

// Appends a place, if one follows.
fn push_place_if(
    text: &mut Vec<u8>,
    follows: bool,
    executed: &[u8],
    key: Option<&[u8]>,
) -> Result<(), AllocError>
    ensures { OnOk result (text.new.items ≡ text.old.items ++ kept_spec.place_if follows executed.now (option_copied key.entry)) }
{
    if follows {
        push_place(text, executed, key)
    } else {
        text.extend_from_slice(b"")
    }
}

// Appends a place.
#[tactic(auto, unfolding(crate::specs::language::Notes::place_of))]
fn push_place(text: &mut Vec<u8>, executed: &[u8], key: Option<&[u8]>) -> Result<(), AllocError>
    ensures { OnOk result (text.new.items ≡ text.old.items ++ spec.place_of executed.now (option_copied key.entry)) }
{
    match key {
        Some(key) => push_four(text, b" while executing ", executed, b" for entry ", key),
        None => push_two(text, b" while executing ", executed),
    }
}

// Appends an integer in decimal.
fn push_integer(text: &mut Vec<u8>, number: i32) -> Result<(), AllocError>
    ensures { OnOk result (text.new.items ≡ text.old.items ++ signed_decimal number) }
{
    let mut buffer = Buffer::new();
    text.extend_from_slice(buffer.format(number).as_bytes())
}

// Appends three pieces.
#[tactic(auto, using(btx_text::proofs::JoinLemmas::joins))]
fn push_three(
    text: &mut Vec<u8>,
    first: &[u8],
    second: &[u8],
    third: &[u8],
) -> Result<(), AllocError>
    ensures { OnOk result (text.new.items ≡ text.old.items ++ (first.now ++ second.now ++ third.now)) }
{
    push_two(text, first, second)?;
    text.extend_from_slice(third)
}

// Appends the number of a name, and three pieces.
#[tactic(auto, using(btx_text::proofs::JoinLemmas::joins))]
fn push_numbered(
    text: &mut Vec<u8>,
    number: i32,
    between: &[u8],
    names: &Text<'_>,
    after: &[u8],
) -> Result<(), AllocError>
    ensures { OnOk result (text.new.items ≡ text.old.items ++ (signed_decimal number ++ between.now ++ names.now ++ after.now)) }
{
    push_integer(text, number)?;
    push_three(text, between, names.as_bytes(), after)
}

// Appends that a list of names has no name of this number.
#[tactic(auto, using(btx_text::proofs::JoinLemmas::joins))]
fn push_no_such_name(text: &mut Vec<u8>, number: i32, names: &Text<'_>) -> Result<(), AllocError>
    ensures { OnOk result (text.new.items ≡ text.old.items ++ (codes "There is no name number " ++ signed_decimal number ++ codes " in \"" ++ names.now ++ codes "\"")) }
{
    text.extend_from_slice(b"There is no name number ")?;
    push_numbered(text, number, b" in \"", names, b"\"")
}

// Appends that the name of this number has a comma at its end.
#[tactic(auto, using(btx_text::proofs::JoinLemmas::joins))]
fn push_final_comma(text: &mut Vec<u8>, number: i32, names: &Text<'_>) -> Result<(), AllocError>
    ensures { OnOk result (text.new.items ≡ text.old.items ++ (codes "Name " ++ signed_decimal number ++ codes " in \"" ++ names.now ++ codes "\" has a comma at the end")) }
{
    text.extend_from_slice(b"Name ")?;
    push_numbered(text, number, b" in \"", names, b"\" has a comma at the end")
}

// Appends that the name of this number has more than two commas.
#[tactic(auto, using(btx_text::proofs::JoinLemmas::joins))]
fn push_too_many_commas(text: &mut Vec<u8>, number: i32, names: &Text<'_>) -> Result<(), AllocError>
    ensures { OnOk result (text.new.items ≡ text.old.items ++ (codes "Too many commas in name " ++ signed_decimal number ++ codes " of \"" ++ names.now ++ codes "\"")) }
{
    text.extend_from_slice(b"Too many commas in name ")?;
    push_numbered(text, number, b" of \"", names, b"\"")
}

// Appends a string after a quotation mark, and a piece, which begins with the other mark.
fn push_quoted(text: &mut Vec<u8>, shown: &Text<'_>, after: &[u8]) -> Result<(), AllocError>
    ensures { OnOk result (text.new.items ≡ text.old.items ++ (codes "\"" ++ shown.now ++ after.now)) }
{
    push_three(text, b"\"", shown.as_bytes(), after)
}

// Appends an integer and a piece.
#[tactic(auto, using(btx_text::proofs::JoinLemmas::joins))]
fn push_integer_before(text: &mut Vec<u8>, number: i32, after: &[u8]) -> Result<(), AllocError>
    ensures { OnOk result (text.new.items ≡ text.old.items ++ (signed_decimal number ++ after.now)) }
{
    push_integer(text, number)?;
    text.extend_from_slice(after)
}

// Appends that an integer is no code.
fn push_not_ascii(text: &mut Vec<u8>, number: i32) -> Result<(), AllocError>
    ensures { OnOk result (text.new.items ≡ text.old.items ++ (signed_decimal number ++ codes " isn't an ASCII code")) }
{
    push_integer_before(text, number, b" isn't an ASCII code")
}

// Appends a piece, a number, another piece and another number.
#[tactic(auto, using(btx_text::proofs::JoinLemmas::joins))]
fn push_sizes(
    text: &mut Vec<u8>,
    before: &[u8],
    size: usize,
    between: &[u8],
    most: usize,
) -> Result<(), AllocError>
    ensures { OnOk result (text.new.items ≡ text.old.items ++ (before.now ++ decimal size ++ between.now ++ decimal most)) }
{
    push_number(text, before, size as u64)?;
    push_number(text, between, most as u64)
}

// Appends a literal and a piece.
#[tactic(auto, using(btx_text::proofs::JoinLemmas::joins))]
fn push_form_before(
    text: &mut Vec<u8>,
    style: &Style<'_>,
    value: &Literal<'_>,
    after: &[u8],
) -> Result<(), AllocError>
    ensures { OnOk result (text.new.items ≡ text.old.items ++ (spec.form_of style.now value.now ++ after.now)) }
{
    push_form(text, style, value)?;
    text.extend_from_slice(after)
}

// Appends a literal as the log shows it.
#[tactic(auto, unfolding(crate::specs::language::Notes::form_of))]
fn push_form(text: &mut Vec<u8>, style: &Style<'_>, value: &Literal<'_>) -> Result<(), AllocError>
    ensures { OnOk result (text.new.items ≡ text.old.items ++ spec.form_of style.now value.now) }
{
    match value {
        Literal::Integer(n) => push_integer(text, *n),
        Literal::Text(shown) => push_three(text, b"\"", shown.as_bytes(), b"\""),
        Literal::Function(function) => push_two(text, b"'", style.name(*function)),
        Literal::Missing => text.extend_from_slice(b"missing field"),
    }
}

// Appends the text of a line, without its place.
#[tactic(auto, unfolding(crate::specs::language::Notes::note_text))]
fn push_note(text: &mut Vec<u8>, style: &Style<'_>, note: &Note<'_>) -> Result<(), AllocError>
    ensures { OnOk result (text.new.items ≡ text.old.items ++ spec.note_text style.now note.now) }
{
    match note {
        Note::EmptyStack => text.extend_from_slice(b"You can't pop an empty literal stack"),
        Note::WrongKind(value, OperandKind::Integer) => {
            push_form_before(text, style, value, b" is not an integer")
        }
        Note::WrongKind(value, OperandKind::Text) => {
            push_form_before(text, style, value, b" is not a string")
        }
        Note::WrongKind(value, OperandKind::Function) => {
            push_form_before(text, style, value, b" is not a function")
        }
        Note::WrongKind(value, OperandKind::TextOrMissing) => {
            push_form_before(text, style, value, b" is not a string or missing field")
        }
        Note::Incomparable => text.extend_from_slice(b"= needs two integers or two strings"),
        Note::Overflow => text.extend_from_slice(b"Integer overflow"),
        Note::NotAssignable(function) => push_two(
            text,
            b"You can't assign to ",
            style.name(*function),
        ),
        Note::NoEntry => text.extend_from_slice(b"You can't mess with entries here"),
        Note::NotAscii(n) => push_not_ascii(text, *n),
        Note::NotOneCharacter(shown) => push_quoted(text, shown, b"\" isn't a single character"),
        Note::NoConversion(shown) => {
            push_quoted(text, shown, b"\" is an illegal case-conversion string")
        }
        Note::NoSuchName(n, names) => push_no_such_name(text, *n, names),
        Note::FinalComma(n, names) => push_final_comma(text, *n, names),
        Note::TooManyCommas(n, names) => push_too_many_commas(text, *n, names),
        Note::IllegalFormat(format) => {
            push_three(
                text,
                b"The format string \"",
                format.as_bytes(),
                b"\" is illegal",
            )
        }
        Note::LeftOver => text.extend_from_slice(b"The literal stack isn't empty"),
        Note::Cut(size, most) => push_sizes(text, b"string of ", *size, b" bytes cut to ", *most),
        Note::Warning(warning) => text.extend_from_slice(warning.as_bytes()),
        Note::Shown(value) => push_form(text, style, value),
    }
}
