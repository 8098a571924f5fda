//! Fields in their plainest form, each read in one pass.
ghost use Rattle.std.specs.Prelude.{◌≡◌, ◌==◌, ◌∷◌, [], drop, if◌then◌else◌, Ok, Some, None, IfSome};
ghost use Rattle.btx_bib.specs.language.Grammar.ByteSets as bytes;
ghost use Rattle.btx_bib.specs.refinement.Grammar.PlainFields.{Fits, FitsText, StandsNext, enclosed_part, part_in_view};
ghost use Rattle.btx_bib.specs.language.Grammar.Values as spec;
ghost use Rattle.btx_bib.specs.declared.grammar.byte_sets.ByteSet.TheVariants as set;

use crate::grammar::byte_sets::{ByteSet, Enclosure, begins_name, run_len};
use crate::grammar::parts::next_part;
use crate::grammar::passed::passed_enclosed;
use crate::grammar::plain::{name_len, plain_enclosed};
use crate::grammar::tokens::past;

/// What a field is read for.
#[derive(Clone, Copy)]
pub enum Purpose {
    /// It may be taken, so that its value must stand there as it is.
    Taking,
    /// It is passed over, whatever its value is.
    Passing,
}

/// What kind of part a value in its plainest form is.
#[derive(Clone, Copy)]
pub enum PlainKind {
    /// A group in braces.
    Braced,
    /// A text in quotes.
    Quoted,
    /// Digits.
    Digits,
    /// The name of a string.
    Named,
}

/// A value in its plainest form: one part, and the text from its end on.
#[derive(Clone, Copy)]
pub struct PlainValue<'a> {
    /// What kind of part it is.
    pub kind: PlainKind,
    /// The part's text, without its delimiters.
    pub text: &'a [u8],
    /// The text from its end on.
    pub rest: &'a [u8],
}

/// A field in its plainest form.
#[derive(Clone, Copy)]
pub struct PlainField<'a> {
    /// Its name.
    pub name: &'a [u8],
    /// Its value.
    pub value: PlainValue<'a>,
}

// What is enclosed, and the text after what closes it, where it is plain enough for this.
#[inline(always)]
fn enclosed_for(purpose: Purpose, enclosure: Enclosure, text: &[u8]) -> Option<(&[u8], &[u8])>
    ensures value { IfSome result (λ got. spec.enclosed_in enclosure text.now ≡ Ok (enclosed_part enclosure got.0.now, got.1.now)) }
    ensures plain { IfSome result (λ got. FitsText purpose got.0.now) }
{
    match purpose {
        Purpose::Taking => plain_enclosed(enclosure, text),
        Purpose::Passing => passed_enclosed(enclosure, text),
    }
}

/// A part of a value that is plain enough, if one stands here.
#[inline(always)]
#[tactic(auto, unfolding(crate::specs::language::Grammar::Values::part_in))]
pub fn plain_part(purpose: Purpose, rest: &[u8]) -> Option<PlainValue<'_>>
    ensures value { IfSome result (λ got. spec.part_in rest.now ≡ Ok (part_in_view got, got.rest.now)) }
    ensures plain { IfSome result (λ got. Fits purpose (part_in_view got)) }
{
    let (&byte, behind) = rest.split_first()?;
    let (kind, (text, rest)) = if byte == b'{' {
        (
            PlainKind::Braced,
            enclosed_for(purpose, Enclosure::Group, behind)?,
        )
    } else if byte == b'"' {
        (
            PlainKind::Quoted,
            enclosed_for(purpose, Enclosure::Quotes, behind)?,
        )
    } else if byte.is_ascii_digit() {
        (
            PlainKind::Digits,
            rest.split_at(run_len(ByteSet::Digit, rest)),
        )
    } else if begins_name(byte) {
        (
            PlainKind::Named,
            rest.split_at(run_len(ByteSet::NameByte, rest)),
        )
    } else {
        return None;
    };
    Some(PlainValue { kind, text, rest })
}

// What follows the whitespace and the sign that a text begins with.
#[inline(always)]
fn behind_sign(sign: u8, text: &[u8]) -> Option<&[u8]>
    ensures { IfSome result (λ rest. bytes.past set.Gap text.now ≡ sign ∷ rest.now) }
{
    match past(ByteSet::Gap, text).split_first() {
        Some((&byte, behind)) if byte == sign => Some(behind),
        _ => None,
    }
}

// A value in its plainest form, if one stands here.
#[inline(always)]
#[tactic(auto, using(crate::proofs::GrammarLemmas::ValueLemmas::value_parts))]
fn plain_value(purpose: Purpose, text: &[u8]) -> Option<PlainValue<'_>>
    ensures value { IfSome result (λ got. spec.value_at text.now ≡ Ok (part_in_view got ∷ [], got.rest.now)) }
    ensures plain { IfSome result (λ got. Fits purpose (part_in_view got)) }
{
    let value = plain_part(purpose, past(ByteSet::Gap, text))?;
    match next_part(value.rest) {
        Some(_) => None,
        None => Some(value),
    }
}

/// A field in its plainest form and the comma before it, if they stand here.
#[inline(always)]
pub fn plain_field(purpose: Purpose, text: &[u8]) -> Option<PlainField<'_>>
    ensures field { IfSome result (λ field. StandsNext text.now field) }
    ensures plain { IfSome result (λ field. Fits purpose (part_in_view field.value)) }
{
    let rest = past(ByteSet::Gap, behind_sign(b',', text)?);
    let (&byte, _) = rest.split_first()?;
    if !begins_name(byte) {
        return None;
    }
    let (name, behind) = rest.split_at(name_len(rest));
    let value = plain_value(purpose, behind_sign(b'=', behind)?)?;
    Some(PlainField { name, value })
}
