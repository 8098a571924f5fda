//! The search's part on loops that walk along texts.
use crate::claims::number_for;
use crate::measures::{Effect, Kind, Measure, Walk};
use crate::search::{MOST_MEASURES, effect_for, next_number, no_claims};
use crate::walking::{Said, moves, place_measure, size_measure, tells_part};
use btx_bst::{Callee, Style, Token};
use std::alloc::{AllocError, Global};

// The walk along which a body seems to tell whether a loop may go on, by `t p n substring$ "" = not`.
fn walk_told(body: &[Token]) -> Option<Walk> {
    if body.len() != 7 {
        return None;
    }
    match (body[0], body[1], body[2]) {
        (
            Token::Run(Callee::GlobalString(text)),
            Token::Run(Callee::GlobalInteger(place)),
            Token::Run(Callee::GlobalInteger(size)),
        ) => Some(Walk { text, place, size }),
        _ => None,
    }
}

// Answers whether a walk is one of these.
fn is_walk(walks: &[Walk], wanted: Walk) -> bool {
    for walk in walks {
        if *walk == wanted {
            return true;
        }
    }
    false
}

/// The walks of the style's tests.
pub(crate) fn walks_of(alloc: Global, style: &Style) -> Result<Vec<Walk>, AllocError> {
    let mut walks: Vec<Walk> = Vec::new(alloc);
    for number in 0..style.functions() {
        let body = style.body(number);
        if walks.len() < MOST_MEASURES {
            if let Some(walk) = walk_told(body) {
                if tells_part(style, walk, body) && !is_walk(&walks, walk) {
                    walks.push(walk)?;
                }
            }
        }
    }
    Ok(walks)
}

/// Says of each function of which walk it is the test.
pub(crate) fn parts_of(
    alloc: Global,
    style: &Style,
    walks: &[Walk],
) -> Result<Vec<u32>, AllocError> {
    let mut parts: Vec<u32> = Vec::new(alloc);
    for number in 0..style.functions() {
        parts.push(part_for(style, walks, style.body(number)))?;
    }
    Ok(parts)
}

// .. of one body: one more than the number of the walk, or 0
fn part_for(style: &Style, walks: &[Walk], body: &[Token]) -> u32 {
    let mut k: u32 = 0;
    for walk in walks {
        k = next_number(k);
        if tells_part(style, *walk, body) {
            return k;
        }
    }
    0
}

/// Says of each walk what each function does to its text, and to its place or, if that is asked, its size.
pub(crate) fn rows_by(
    alloc: Global,
    style: &Style,
    kinds: &[Kind],
    walks: &[Walk],
    of_size: bool,
) -> Result<Vec<Vec<Effect>>, AllocError> {
    let mut rows: Vec<Vec<Effect>> = Vec::new(alloc);
    for walk in walks {
        let measure = if of_size {
            size_measure(*walk)
        } else {
            place_measure(*walk)
        };
        rows.push(row_by(alloc, style, kinds, measure)?)?;
    }
    Ok(rows)
}

/// What each function does, by its number, to what a measure looks at.
pub(crate) fn row_by(
    alloc: Global,
    style: &Style,
    kinds: &[Kind],
    measure: Option<Measure>,
) -> Result<Vec<Effect>, AllocError> {
    let mut row: Vec<Effect> = Vec::new(alloc);
    let Some(m) = measure else {
        return Ok(row);
    };
    for number in 0..style.functions() {
        let effect = effect_for(style, m, kinds, &row, style.body(number));
        row.push(effect)?;
    }
    Ok(row)
}

/// Says of each walk which functions move its place on.
pub(crate) fn movers_of(
    alloc: Global,
    style: &Style,
    kinds: &[Kind],
    walks: &[Walk],
    places: &[Vec<Effect>],
    sizes: &[Vec<Effect>],
) -> Result<Vec<Vec<bool>>, AllocError> {
    let mut rows: Vec<Vec<bool>> = Vec::new(alloc);
    for k in 0..walks.len() {
        let mut row: Vec<bool> = Vec::new(alloc);
        if k < places.len() && k < sizes.len() {
            add_movers(style, walks[k], kinds, (&places[k], &sizes[k]), &mut row)?;
        }
        rows.push(row)?;
    }
    Ok(rows)
}

// .. of one
fn add_movers(
    style: &Style,
    walk: Walk,
    kinds: &[Kind],
    effects: (&[Effect], &[Effect]),
    row: &mut Vec<bool>,
) -> Result<(), AllocError> {
    let (places, sizes) = effects;
    for number in 0..style.functions() {
        let said = Said {
            kinds,
            places,
            sizes,
            moves: &*row,
        };
        let is_mover = moves(style, walk, said, style.body(number));
        row.push(is_mover)?;
    }
    Ok(())
}

/// Says of each function that is the body of a loop which walk's place it moves on: the one of the loop's test.
pub(crate) fn moves_of(
    alloc: Global,
    style: &Style,
    loops: &[(usize, usize)],
    parts: &[u32],
    movers: &[Vec<bool>],
) -> Result<Vec<u32>, AllocError> {
    let mut claims = no_claims(alloc, style)?;
    for turn in loops {
        let (body, test) = *turn;
        note_move(body, number_for(parts, test), movers, &mut claims);
    }
    Ok(claims)
}

// .. of one loop with this body, and a test of this claim
fn note_move(body: usize, claim: u32, movers: &[Vec<bool>], claims: &mut [u32]) {
    if claim == 0 || body >= claims.len() {
        return;
    }
    let k = (claim - 1) as usize;
    if k < movers.len() && body < movers[k].len() && movers[k][body] {
        claims[body] = claim;
    }
}
