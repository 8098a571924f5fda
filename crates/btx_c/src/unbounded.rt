//! Where a style that isn't known to end has its first token without a bound, as text. Nothing is promised of it.
use btx_bst::{Callee, PlacedStyle, Style, Token};
use btx_code::Code;
use btx_ends::claims::Claims;
use btx_ends::costs::body_cost;
use btx_ends::{Certificate, proposed, reached};
use btx_text::log_texts::push_two;
use btx_where::Place;
use btx_where::notes::Known;
use std::alloc::{AllocError, Global};

// The claims of a certificate.
fn claims_in<'c>(found: &'c Certificate) -> Claims<'c> {
    Claims {
        costs: found.costs.as_slice(),
        types: found.types,
        bounds: found.bounds.as_slice(),
        tests: found.tests.as_slice(),
        counts: found.counts.as_slice(),
        ends: found.ends.as_slice(),
        shortens: found.shortens.as_slice(),
        parts: found.parts.as_slice(),
        moves: found.moves.as_slice(),
        limits: found.limits.as_slice(),
        raises: found.raises.as_slice(),
        asks: found.asks.as_slice(),
        lowers: found.lowers.as_slice(),
        filled: found.filled.as_slice(),
        replaces: found.replaces.as_slice(),
        integers: found.integers,
        kept: found.kept,
    }
}

// How many of a body's first tokens have a bound together.
fn bounded_tokens(claims: Claims<'_>, body: &[Token]) -> usize {
    let mut least: usize = 0;
    let mut most = body.len();
    for _ in 0..64 {
        let more = most.saturating_sub(least);
        let middle = least
            .saturating_add(more.saturating_sub(more / 2))
            .min(body.len());
        if body_cost(claims, &body[..middle]).is_some() {
            least = middle;
        } else {
            most = middle.saturating_sub(1);
        }
    }
    least
}

// The first token without a bound: in the first function that may be reached and has none.
fn first_unbounded(style: &Style<'_>, reached: &[bool], found: &Certificate) -> Option<Place> {
    let claims = claims_in(found);
    for function in 0..style.functions() {
        let is_open = function < reached.len()
            && reached[function]
            && function < found.costs.len()
            && found.costs[function] == 0;
        if is_open {
            let token = bounded_tokens(claims, style.body(function));
            return Some(Place { function, token });
        }
    }
    None
}

// The function of a type that takes more steps than `call.type$` is claimed to take.
fn dear_type(style: &Style<'_>, allowed: &[u32], found: &Certificate) -> Option<u32> {
    for number in allowed {
        let function = *number as usize;
        if function < found.costs.len() && found.costs[function] > found.types {
            return Some(*number);
        }
    }
    let number = style.type_function(b"default.type")?;
    if (number as usize) < found.costs.len() && found.costs[number as usize] > found.types {
        Some(number)
    } else {
        None
    }
}

// Adds the line on what a token executes.
fn push_next(style: &Style<'_>, place: Place, notes: &mut Vec<u8>) -> Result<(), AllocError> {
    if place.function >= style.functions() {
        return Ok(());
    }
    match style.body(place.function).get(place.token) {
        Some(Token::Run(callee)) => {
            push_two(notes, b"next ", style.name(*callee))?;
            notes.extend_from_slice(b"\n")
        }
        _ => Ok(()),
    }
}

// Adds the lines on a token without a bound.
fn push_token(
    alloc: Global,
    placed: &PlacedStyle<'_>,
    place: Place,
    notes: &mut Vec<u8>,
) -> Result<(), AllocError> {
    let code = Code::of(alloc, &placed.style)?;
    let known = Known {
        style: &placed.style,
        code: &code,
        places: &placed.places,
    };
    push_next(&placed.style, place, notes)?;
    known.note_place(notes, b"unbounded", place)
}

/// Answers the line on a style in which no bound is looked for.
pub fn note_large(alloc: Global) -> Result<Vec<u8>, AllocError> {
    let mut notes = Vec::new(alloc);
    notes.extend_from_slice(b"large\n")?;
    Ok(notes)
}

/// Answers the lines on the first token without a bound: what it executes, and where it stands. Where each function has one alone, the line on a type of entries
/// whose function asks for the entry's type again. There is none where neither is found.
pub fn note_unbounded(
    alloc: Global,
    placed: &PlacedStyle<'_>,
    allowed: &[u32],
    kept: u32,
) -> Result<Vec<u8>, AllocError> {
    let style = &placed.style;
    let mut notes = Vec::new(alloc);
    let found = proposed(alloc, style, allowed, kept, true)?;
    let reached = reached(alloc, style, allowed)?;
    match first_unbounded(style, &reached, &found) {
        Some(place) => push_token(alloc, placed, place, &mut notes)?,
        None => {
            if let Some(number) = dear_type(style, allowed, &found) {
                push_two(&mut notes, b"again ", style.name(Callee::User(number)))?;
                notes.extend_from_slice(b"\n")?;
            }
        }
    }
    Ok(notes)
}
