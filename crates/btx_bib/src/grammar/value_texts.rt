//! The text that a value stands for.
ghost use Rattle.std.specs.Prelude.{◌≡◌, ◌<◌, ◌≤◌, ◌∷◌, ◌++◌, [], true, false, length, is_some, IfOk, IfSome, OnOk, unwrap_or};
ghost use Rattle.std.specs.Option.{option_map};
ghost use Rattle.btx_text.specs.language.Limits.{greatest_string};
ghost use Rattle.btx_bib.specs.language.Grammar.ByteSets.{begins, is_gap, past};
ghost use Rattle.btx_bib.specs.declared.grammar.byte_sets.ByteSet.TheVariants.{Gap};
ghost use Rattle.btx_bib.specs.refinement.Grammar.PartViews.{part_view};
ghost use Rattle.btx_bib.specs.refinement.Grammar.PlainFields.{HasString, IsPlainPart, part_in_view};
ghost use Rattle.btx_bib.specs.refinement.Grammar.Squeezing as squeezing;
ghost use Rattle.btx_bib.specs.language.Grammar.ValueTexts as spec;
ghost use Rattle.btx_bib.specs.refinement.Grammar.ValueTexts as refined;

use crate::grammar::byte_sets::{ByteSet, ends_in_gap, is_gap};
use crate::grammar::parts::Part;
use crate::grammar::plain_fields::{PlainKind, PlainValue};
use crate::grammar::squeezing::{kept_len, white_behind};
use crate::grammar::tokens::past;
use crate::grammar::value_ends::Ends;
use crate::grammar::values::Value;
use btx_text::{Fault, GREATEST_STRING, Text};
use std::alloc::{AllocError, Global};

/// The strings of a database, by their names.
pub trait Strings<'a> {
    ghost use Rattle.std.specs.Prelude.{List, ℕ, Option};

    ghost values: { Self → List ℕ → Option (List ℕ) };

    /// The value of a name, if it has one. It is squeezed.
    fn value_of(&self, alloc: Global, name: &[u8]) -> Result<Option<&Text<'a>>, AllocError>
        ensures value { IfOk result (λ found. option_map (λ text. text.now) found ≡ values self.now name.now) }
        ensures squeezed { IfOk result (λ found. IfSome found (λ text. squeezing.is_squeezed false text.now ≡ true)) };
}

// Whether a text has no whitespace but single spaces, none of them after whitespace.
fn is_squeezed(was_white: bool, text: &[u8]) -> bool
    ensures { result ≡ squeezing.is_squeezed was_white text.now }
{
    kept_len(was_white, text) == text.len()
}

// Whether a text is the value that it gives.
fn stands(ends: Ends, text: &[u8]) -> bool
    ensures { result ≡ squeezing.stands ends text.now }
{
    match ends {
        Ends::Kept => is_squeezed(false, text),
        Ends::Trimmed => is_squeezed(true, text) && !ends_in_gap(text),
    }
}

// Whether a text begins with whitespace.
fn begins_with_gap(text: &[u8]) -> bool
    ensures { result ≡ begins is_gap text.now }
{
    match text.first() {
        Some(&first) => is_gap(first),
        None => false,
    }
}

// Whether a squeezed text is the value that it gives: only its ends are looked at.
#[tactic(auto, using(crate::proofs::GrammarLemmas::SqueezeLemmas::standing_squeezed))]
fn stands_squeezed(ends: Ends, text: &[u8]) -> bool
    requires { squeezing.is_squeezed false text.now ≡ true }
    ensures { result ≡ squeezing.stands ends text.now }
{
    match ends {
        Ends::Kept => true,
        Ends::Trimmed => !begins_with_gap(text) && !ends_in_gap(text),
    }
}

// A text without the whitespace that it begins with, and without one byte of whitespace at its end.
fn without_gaps(text: &[u8]) -> &[u8]
    ensures { result.now ≡ squeezing.without_gaps text.now }
{
    let rest = past(ByteSet::Gap, text);
    match rest.split_last() {
        Some((&last, others)) if is_gap(last) => others,
        _ => rest,
    }
}

// The value that a text gives, where it stands in the text.
#[tactic(auto, using(crate::proofs::GrammarLemmas::SqueezeLemmas::standing))]
fn lent(ends: Ends, text: &[u8]) -> Option<&[u8]>
    ensures value { IfSome result (λ lent. lent.now ≡ spec.shaped ends text.now) }
    ensures within { IfSome result (λ lent. length lent.now ≤ greatest_string) }
{
    let inner = match ends {
        Ends::Kept => text,
        Ends::Trimmed => without_gaps(text),
    };
    if inner.len() <= GREATEST_STRING && stands(ends, inner) {
        Some(inner)
    } else {
        None
    }
}

// The value that a squeezed text gives a field, where it stands in the text: only its ends are looked at.
#[tactic(auto, using(crate::proofs::GrammarLemmas::TrimLemmas::trimming))]
fn trimmed(text: &[u8]) -> Option<&[u8]>
    requires { squeezing.is_squeezed false text.now ≡ true }
    ensures value { IfSome result (λ trimmed. trimmed.now ≡ spec.shaped Ends.Trimmed text.now) }
    ensures within { IfSome result (λ trimmed. length trimmed.now ≤ greatest_string) }
{
    let inner = without_gaps(text);
    if inner.len() <= GREATEST_STRING && stands_squeezed(Ends::Trimmed, inner) {
        Some(inner)
    } else {
        None
    }
}

// The value that a string gives whose ends don't stand, if the string itself stands in a file.
fn trimmed_string<'a>(ends: Ends, text: &Text<'a>) -> Option<Text<'a>>
    requires { squeezing.is_squeezed false text.now ≡ true }
    ensures { IfSome result (λ trimmed. trimmed ≡ spec.shaped ends text.now) }
{
    match ends {
        Ends::Kept => None,
        Ends::Trimmed => Some(Text::borrowed(trimmed(text.lent()?)?)),
    }
}

// The value of a name where a value is this name alone, if it needn't be made.
#[tactic(auto, using(crate::proofs::GrammarLemmas::SqueezeLemmas::standing))]
fn lone_string<'a, S: Strings<'a>>(
    alloc: Global,
    name: &[u8],
    strings: &S,
    ends: Ends,
) -> Result<Option<Text<'a>>, AllocError>
    ensures { IfOk result (λ found. IfSome found (λ text. text ≡ spec.shaped ends (unwrap_or (S.values strings.now name.now) []))) }
{
    match strings.value_of(alloc, name)? {
        None => Ok(Some(Text::empty())),
        Some(text) if stands_squeezed(ends, text.as_bytes()) => Ok(Some(text.copy(alloc)?)),
        Some(text) => Ok(trimmed_string(ends, text)),
    }
}

// The text of a value of one part, if it needn't be made.
#[tactic(auto, using(crate::proofs::GrammarLemmas::SqueezeLemmas::lone))]
fn lone_text<'a, S: Strings<'a>>(
    alloc: Global,
    value: &Value<'a>,
    strings: &S,
    ends: Ends,
) -> Result<Option<Text<'a>>, AllocError>
    ensures { IfOk result (λ found. IfSome found (λ text. text ≡ spec.value_text ends (S.values strings.now) value.now)) }
{
    let Some(part) = value.lone_part() else {
        return Ok(None);
    };
    match part {
        Part::Named(string) => lone_string(alloc, string.name, strings, ends),
        Part::Braced(text) | Part::Quoted(text) | Part::Digits(text) => match lent(ends, text) {
            Some(bytes) => Ok(Some(Text::borrowed(bytes))),
            None => Ok(None),
        },
    }
}

// The value of a name, if it has one that needn't be made.
#[tactic(auto, using(crate::proofs::GrammarLemmas::SqueezeLemmas::standing))]
fn known_string<'a, S: Strings<'a>>(
    alloc: Global,
    name: &[u8],
    strings: &S,
    ends: Ends,
) -> Result<Option<Text<'a>>, AllocError>
    ensures value { IfOk result (λ found. IfSome found (λ text. text ≡ spec.shaped ends (unwrap_or (S.values strings.now name.now) []))) }
    ensures known { IfOk result (λ found. IfSome found (λ text. is_some (S.values strings.now name.now) ≡ true)) }
{
    match strings.value_of(alloc, name)? {
        Some(text) if stands_squeezed(ends, text.as_bytes()) => Ok(Some(text.copy(alloc)?)),
        Some(_) | None => Ok(None),
    }
}

// A text that stands as the value that it gives, if it is short enough.
#[inline(always)]
fn short(text: &[u8], ends: Ends) -> Option<&[u8]>
    requires { squeezing.stands ends text.now ≡ true }
    ensures value { IfSome result (λ short. short.now ≡ spec.shaped ends text.now) }
    ensures within { IfSome result (λ short. length short.now ≤ greatest_string) }
{
    if text.len() <= GREATEST_STRING {
        Some(text)
    } else {
        None
    }
}

/// The text of a field's value in its plainest form, if it needn't be made, and if a name in it has a value.
#[inline(always)]
#[tactic(auto, using(crate::proofs::GrammarLemmas::SqueezeLemmas::lone))]
pub fn plain_text<'a, S: Strings<'a>>(
    alloc: Global,
    value: &PlainValue<'a>,
    strings: &S,
) -> Result<Option<Text<'a>>, AllocError>
    requires { IsPlainPart (part_in_view value.now) }
    ensures value { IfOk result (λ found. IfSome found (λ text. text ≡ spec.value_text Ends.Trimmed (S.values strings.now) (part_in_view value.now ∷ []))) }
    ensures known { IfOk result (λ found. IfSome found (λ text. HasString (S.values strings.now) (part_in_view value.now))) }
{
    let bytes = match value.kind {
        PlainKind::Braced | PlainKind::Quoted => short(value.text, Ends::Trimmed),
        PlainKind::Digits => lent(Ends::Trimmed, value.text),
        PlainKind::Named => return known_string(alloc, value.text, strings, Ends::Trimmed),
    };
    match bytes {
        Some(bytes) => Ok(Some(Text::borrowed(bytes))),
        None => Ok(None),
    }
}

// Pushes the whitespace that bytes begin with as one space, none where whitespace stands before it. `was_white` says whether it does, the answer whether
// whitespace stands before what follows.
#[inline(always)]
fn push_gap(text: &mut Vec<u8>, was_white: bool, bytes: &[u8]) -> Result<bool, AllocError>
    ensures text { IfOk result (λ white. text.new.items ++ squeezing.squeezed_after white (past Gap bytes.now)
        ≡ text.old.items ++ squeezing.squeezed_after was_white bytes.now) }
    ensures white { IfOk result (λ white. squeezing.white_after white (past Gap bytes.now) ≡ squeezing.white_after was_white bytes.now) }
{
    if !begins_with_gap(bytes) {
        return Ok(was_white);
    }
    if !was_white {
        text.push(b' ')?;
    }
    Ok(true)
}

// Pushes bytes, each run of whitespace as one space. `was_white` says whether the last byte before them is whitespace, the answer whether the last one now is.
// What squeezing leaves as it is, is copied piece by piece.
fn push_squeezed(text: &mut Vec<u8>, was_white: bool, bytes: &[u8]) -> Result<bool, AllocError>
    ensures text { OnOk result (text.new.items ≡ text.old.items ++ squeezing.squeezed_after was_white bytes.now) }
    ensures white { IfOk result (λ white. white ≡ squeezing.white_after was_white bytes.now) }
{
    text.reserve(bytes.len().min(GREATEST_STRING))?;
    let mut white = was_white;
    let mut rest = bytes;
    while !rest.is_empty() {
        let (kept, after) = rest.split_at(kept_len(white, rest));
        text.extend_from_slice(kept)?;
        white = push_gap(text, white_behind(white, kept), after)?;
        rest = past(ByteSet::Gap, after);
    }
    Ok(white)
}

// What squeezing leaves of a text that is squeezed: a space that it begins with goes if whitespace stands before it.
#[inline(always)]
fn left_of_squeezed(was_white: bool, text: &[u8]) -> &[u8]
    requires { squeezing.is_squeezed false text.now ≡ true }
    ensures { result.now ≡ squeezing.squeezed_after was_white text.now }
{
    if was_white && begins_with_gap(text) {
        &text[1..]
    } else {
        text
    }
}

// Pushes bytes that are squeezed, as above: they are copied whole.
fn push_known(text: &mut Vec<u8>, was_white: bool, bytes: &[u8]) -> Result<bool, AllocError>
    requires { squeezing.is_squeezed false bytes.now ≡ true }
    ensures text { OnOk result (text.new.items ≡ text.old.items ++ squeezing.squeezed_after was_white bytes.now) }
    ensures white { IfOk result (λ white. white ≡ squeezing.white_after was_white bytes.now) }
{
    text.extend_from_slice(left_of_squeezed(was_white, bytes))?;
    Ok(white_behind(was_white, bytes))
}

// Pushes a part, as above.
fn push_part<'a, S: Strings<'a>>(
    alloc: Global,
    text: &mut Vec<u8>,
    was_white: bool,
    part: Part<'a>,
    strings: &S,
) -> Result<bool, AllocError>
    ensures text { OnOk result (text.new.items ≡ text.old.items ++ squeezing.squeezed_after was_white
        (spec.text_of_part (S.values strings.now) (part_view part.entry))) }
    ensures white { IfOk result (λ white. white ≡ squeezing.white_after was_white (spec.text_of_part (S.values strings.now) (part_view part.entry))) }
{
    match part {
        Part::Braced(bytes) | Part::Quoted(bytes) | Part::Digits(bytes) => {
            push_squeezed(text, was_white, bytes)
        }
        Part::Named(string) => match strings.value_of(alloc, string.name)? {
            Some(value) => push_known(text, was_white, value.as_bytes()),
            None => push_squeezed(text, was_white, &[]),
        },
    }
}

// The text of a value with its whitespace squeezed; `was_white` says whether whitespace stands before it. It has at most `most` bytes, which is checked after
// each part.
fn gathered<'a, S: Strings<'a>>(
    alloc: Global,
    value: &Value<'a>,
    strings: &S,
    was_white: bool,
    most: usize,
) -> Result<Vec<u8>, Fault>
    ensures { refined.GathersWithin most result (squeezing.squeezed_after was_white (refined.joined_text (S.values strings.now) value.now)) }
{
    let mut text = Vec::new(alloc);
    let mut white = was_white;
    for part in value.parts() {
        white = push_part(alloc, &mut text, white, part, strings)?;
        if text.len() > most {
            return Err(Fault::StringLimit);
        }
    }
    Ok(text)
}

// A last space goes.
fn drop_last_space(text: &mut Vec<u8>)
    ensures { text.new.items ≡ spec.without_last_space text.old.items }
{
    let len = text.len();
    if len == 0 || text[len - 1] != b' ' {
        return;
    }
    text.truncate(len - 1);
}

// The text of a value that keeps its ends, made in one pass.
fn made_whole<'a, S: Strings<'a>>(
    alloc: Global,
    value: &Value<'a>,
    strings: &S,
) -> Result<Text<'a>, Fault>
    ensures { refined.MakesText result (spec.value_text Ends.Kept (S.values strings.now) value.now) }
{
    match gathered(alloc, value, strings, false, GREATEST_STRING) {
        Ok(text) => Ok(Text::owned(text)),
        Err(fault) => Err(fault),
    }
}

// The text of a value that is trimmed, made in one pass.
fn made_trimmed<'a, S: Strings<'a>>(
    alloc: Global,
    value: &Value<'a>,
    strings: &S,
) -> Result<Text<'a>, Fault>
    ensures { refined.MakesText result (spec.value_text Ends.Trimmed (S.values strings.now) value.now) }
{
    let mut text = match gathered(alloc, value, strings, true, GREATEST_STRING + 1) {
        Ok(text) => text,
        Err(fault) => return Err(fault),
    };
    drop_last_space(&mut text);
    if text.len() > GREATEST_STRING {
        return Err(Fault::StringLimit);
    }
    Ok(Text::owned(text))
}

/// The text of a value. Where it stands in the file, or in one string that does, or is that of one string, it isn't copied; else it is made in one pass.
pub fn value_text<'a, S: Strings<'a>>(
    alloc: Global,
    value: &Value<'a>,
    strings: &S,
    ends: Ends,
) -> Result<Text<'a>, Fault>
    ensures { refined.MakesText result (spec.value_text ends (S.values strings.now) value.now) }
{
    if let Some(text) = lone_text(alloc, value, strings, ends)? {
        return Ok(text);
    }
    match ends {
        Ends::Kept => made_whole(alloc, value, strings),
        Ends::Trimmed => made_trimmed(alloc, value, strings),
    }
}

/// The text of a macro of a style, squeezed. Where it stands in the style's file as it is, it isn't copied.
#[tactic(auto, using(crate::proofs::GrammarLemmas::SqueezeLemmas::squeezed_whole))]
pub fn squeezed_text(alloc: Global, text: &[u8]) -> Result<Text<'_>, Fault>
    ensures { refined.MakesText result (spec.shaped Ends.Kept text.now) }
{
    if let Some(bytes) = lent(Ends::Kept, text) {
        return Ok(Text::borrowed(bytes));
    }
    let mut made = Vec::new(alloc);
    push_squeezed(&mut made, false, text)?;
    if made.len() > GREATEST_STRING {
        return Err(Fault::StringLimit);
    }
    Ok(Text::owned(made))
}
