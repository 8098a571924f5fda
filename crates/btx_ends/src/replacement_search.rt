//! The search's part on loops that put a shorter text in the place of one on top of the stack.
use crate::measures::{Effect, Kind, Replacement};
use crate::replacing::{Spoken, replaces, tells_top, text_measure};
use crate::search::{MOST_MEASURES, next_number, no_claims};
use crate::tokens::{called_by, quoted_by, quoted_text};
use crate::walk_search::row_by;
use btx_bst::{Style, Token};
use std::alloc::{AllocError, Global};

// The token of a function's body at a place, if there is one.
fn token_at(style: &Style, number: u32, place: usize) -> Option<Token> {
    if number as usize >= style.functions() {
        return None;
    }
    style.body(number as usize).get(place).copied()
}

// The variable in which a function of two ways seems to keep a text: its second way begins with the variable.
fn text_for(style: &Style, number: u32) -> Option<u32> {
    if number as usize >= style.functions() {
        return None;
    }
    let body = style.body(number as usize);
    if body.len() < 3 {
        return None;
    }
    let first = token_at(style, quoted_by(body[body.len() - 2]), 0)?;
    Some(quoted_text(first))
}

// The replacement that a body `x f 't := .. t` seems to make.
fn replacement_for(style: &Style, body: &[Token]) -> Option<Replacement> {
    if body.len() < 5 {
        return None;
    }
    let text = text_for(style, called_by(body[1]))?;
    Some(Replacement {
        text,
        given: quoted_text(body[2]),
    })
}

// Answers whether a replacement is one of these.
fn is_replacement(replacements: &[Replacement], wanted: Replacement) -> bool {
    for r in replacements {
        if *r == wanted {
            return true;
        }
    }
    false
}

/// Says of each function whether it is the test of such a loop.
pub(crate) fn filled_of(alloc: Global, style: &Style) -> Result<Vec<u32>, AllocError> {
    let mut filled: Vec<u32> = Vec::new(alloc);
    for number in 0..style.functions() {
        filled.push(tells_top(style, style.body(number)) as u32)?;
    }
    Ok(filled)
}

/// The replacements that the bodies of loops seem to make.
pub(crate) fn replacements_of(
    alloc: Global,
    style: &Style,
    loops: &[(usize, usize)],
) -> Result<Vec<Replacement>, AllocError> {
    let mut replacements: Vec<Replacement> = Vec::new(alloc);
    for turn in loops {
        let (body, test) = *turn;
        if body < style.functions()
            && test < style.functions()
            && replacements.len() < MOST_MEASURES
            && tells_top(style, style.body(test))
        {
            if let Some(r) = replacement_for(style, style.body(body)) {
                if !is_replacement(&replacements, r) {
                    replacements.push(r)?;
                }
            }
        }
    }
    Ok(replacements)
}

/// Says of each replacement what each function does to the text that is kept or, if that is asked, to the one that is given.
pub(crate) fn text_rows(
    alloc: Global,
    style: &Style,
    kinds: &[Kind],
    replacements: &[Replacement],
    of_given: bool,
) -> Result<Vec<Vec<Effect>>, AllocError> {
    let mut rows: Vec<Vec<Effect>> = Vec::new(alloc);
    for r in replacements {
        let text = if of_given { r.given } else { r.text };
        rows.push(row_by(alloc, style, kinds, Some(text_measure(text)))?)?;
    }
    Ok(rows)
}

/// Says of each function that is the body of a loop over such a text which replacement it makes.
pub(crate) fn replaces_of(
    alloc: Global,
    style: &Style,
    loops: &[(usize, usize)],
    replacements: &[Replacement],
    said: (&[Kind], &[Vec<Effect>], &[Vec<Effect>]),
) -> Result<Vec<u32>, AllocError> {
    let mut claims = no_claims(alloc, style)?;
    for turn in loops {
        let (body, _) = *turn;
        if body < claims.len() && body < style.functions() && claims[body] == 0 {
            claims[body] = replacing_for(style, replacements, said, style.body(body));
        }
    }
    Ok(claims)
}

// .. of one body: one more than the number of the replacement, or 0
fn replacing_for(
    style: &Style,
    replacements: &[Replacement],
    said: (&[Kind], &[Vec<Effect>], &[Vec<Effect>]),
    body: &[Token],
) -> u32 {
    let (kinds, texts, givens) = said;
    let mut claim: u32 = 0;
    for k in 0..replacements.len() {
        claim = next_number(claim);
        if k < texts.len() && k < givens.len() {
            let by = Spoken {
                kinds,
                texts: &texts[k],
                givens: &givens[k],
            };
            if replaces(style, replacements[k], by, body) {
                return claim;
            }
        }
    }
    0
}
