//! Whether each run of a style ends, by the text of the style.
ghost use Rattle.std.specs.Prelude.{◌≡◌, IfOk, IfSome, IsTrue, false};
ghost use Rattle.btx_bst.specs.language.StyleText.{style_of};
ghost use Rattle.btx_ends.specs.Ends.{StyleEnds};
ghost use Rattle.btx_c.specs.Checks.{TextEnds};

use crate::checked::names_of;
use crate::unbounded::{note_large, note_unbounded};
use crate::weight::{MOST_TEXT, is_light};
use btx_bst::{PlacedStyle, Style, read_placed_style};
use btx_check::types::meant_types;
use btx_ends::{Bound, bounded_types, check};
use btx_text::{Fault, GREATEST_FILE};
use std::alloc::{AllocError, Global};

/// What is said of the steps of a style's runs.
#[derive(Drop)]
pub struct Bounded {
    /// Whether each run ends within the bound.
    pub ends: bool,
    /// Of a style that ends the bound: the steps of a run, and the steps for each entry.
    pub once: u64,
    pub each: u64,
    /// Of a style that ends the names of the functions that an entry's type may be, each with byte 10.
    pub types: Vec<u8>,
    /// Where a style has a token without a bound that isn't known to end, or isn't for entries of all types for which it is checked.
    pub notes: Vec<u8>,
}

// Answers the bound of a style's runs, if one is known. None is looked for where the style is too heavy.
fn bound_of(
    alloc: Global,
    style: &Style<'_>,
    allowed: &[u32],
    kept: u32,
) -> Result<Option<Bound>, AllocError>
    ensures { IfOk result (λ found. IfSome found (λ bound. StyleEnds style.now allowed.now kept bound.once bound.each)) }
{
    if is_light(style) {
        check(alloc, style, allowed, kept)
    } else {
        Ok(None)
    }
}

// Answers that no bound is known, with these notes.
fn unbounded(alloc: Global, notes: Vec<u8>) -> Bounded
    ensures { result.ends ≡ false }
{
    Bounded {
        ends: false,
        once: 0,
        each: 0,
        types: Vec::new(alloc),
        notes,
    }
}

// Answers the notes on a style without a bound.
fn notes_on(
    alloc: Global,
    placed: &PlacedStyle<'_>,
    allowed: &[u32],
    kept: u32,
) -> Result<Vec<u8>, AllocError> {
    if is_light(&placed.style) {
        note_unbounded(alloc, placed, allowed, kept)
    } else {
        note_large(alloc)
    }
}

// Answers what is said of a style with this bound, if there is one, and these notes.
#[tactic(auto, using(crate::proofs::CheckLemmas::text_ends))]
fn said(
    alloc: Global,
    name: &[u8],
    text: &[u8],
    kept: u32,
    style: &Style<'_>,
    allowed: &[u32],
    bound: Option<Bound>,
    notes: Vec<u8>,
) -> Result<Bounded, AllocError>
    requires style { style.now ≡ style_of name.now text.now }
    requires ends { IfSome bound (λ bound. StyleEnds style.now allowed.now kept bound.once bound.each) }
    ensures { IfOk result (λ said. IsTrue said.ends → TextEnds name.now text.now kept said.once said.each said.types.items) }
{
    match bound {
        Some(bound) => Ok(Bounded {
            ends: true,
            once: bound.once,
            each: bound.each,
            types: names_of(alloc, style, allowed)?,
            notes,
        }),
        None => Ok(unbounded(alloc, notes)),
    }
}

// Answers the types for which a bound is looked for where there is none for all of these: none if the style is too heavy.
fn fewer_types(
    alloc: Global,
    style: &Style<'_>,
    allowed: &[u32],
    kept: u32,
) -> Result<Vec<u32>, AllocError> {
    if !is_light(style) {
        return Ok(Vec::new(alloc));
    }
    let fewer = bounded_types(alloc, style, allowed, kept)?;
    if fewer.len() < allowed.len() {
        Ok(fewer)
    } else {
        Ok(Vec::new(alloc))
    }
}

// Answers the bound for entries of fewer types. With no type there is none.
fn bound_of_fewer(
    alloc: Global,
    style: &Style<'_>,
    fewer: &[u32],
    kept: u32,
) -> Result<Option<Bound>, AllocError>
    ensures { IfOk result (λ found. IfSome found (λ bound. StyleEnds style.now fewer.now kept bound.once bound.each)) }
{
    if fewer.is_empty() {
        Ok(None)
    } else {
        bound_of(alloc, style, fewer, kept)
    }
}

/// Says whether each run of the style ends whose file has the name `name` and the bytes `text`, where global string variables keep at most `kept` bytes: for
/// entries of the types for which the style is checked, or of those of them whose functions have no loop without a bound.
pub fn bound_style(alloc: Global, name: &[u8], text: &[u8], kept: u32) -> Result<Bounded, Fault>
    ensures { IfOk result (λ said. IsTrue said.ends → TextEnds name.now text.now kept said.once said.each said.types.items) }
{
    if text.len() > MOST_TEXT && text.len() <= GREATEST_FILE {
        return Ok(unbounded(alloc, note_large(alloc)?));
    }
    let placed = read_placed_style(alloc, name, text)?;
    let allowed = meant_types(alloc, &placed.style)?;
    let bound = bound_of(alloc, &placed.style, &allowed, kept)?;
    if bound.is_some() {
        let none = Vec::new(alloc);
        return Ok(said(
            alloc,
            name,
            text,
            kept,
            &placed.style,
            &allowed,
            bound,
            none,
        )?);
    }
    let notes = notes_on(alloc, &placed, &allowed, kept)?;
    let fewer = fewer_types(alloc, &placed.style, &allowed, kept)?;
    let bound = bound_of_fewer(alloc, &placed.style, &fewer, kept)?;
    Ok(said(alloc, name, text, kept, &placed.style, &fewer, bound, notes)?)
}
