//! The search's part on loops that count a variable up to a limit.
use crate::claims::{claim_of, number_for};
use crate::climbing::{raises, tells_below};
use crate::measures::{Climb, Effect, Kind, Limit, Walk};
use crate::search::{MOST_MEASURES, next_number, no_claims};
use crate::walking::Said;
use btx_bst::{BuiltIn, Callee, Style, Token};
use std::alloc::{AllocError, Global};

// The number of a text that no style has.
const NO_TEXT: u32 = u32::MAX;

// A place below the variable of this size.
fn below_size(place: u32, size: u32) -> Climb {
    Climb {
        walk: Walk {
            text: NO_TEXT,
            place,
            size,
        },
        limit: Limit::Size,
    }
}

// .. below the length of a text
fn below_length(place: u32, text: u32) -> Climb {
    Climb {
        walk: Walk {
            text,
            place,
            size: place,
        },
        limit: Limit::Length,
    }
}

// .. below a number
fn below_number(place: u32, n: i32) -> Climb {
    Climb {
        walk: Walk {
            text: NO_TEXT,
            place,
            size: place,
        },
        limit: Limit::Number(n),
    }
}

// The climb by which three tokens seem to tell whether a loop may go on: `p limit <`, or `limit p >`.
fn climb_of_three(first: Token, second: Token, is_less: bool) -> Option<Climb> {
    let (place, limit) = if is_less {
        (first, second)
    } else {
        (second, first)
    };
    match (place, limit) {
        (Token::Run(Callee::GlobalInteger(p)), Token::Run(Callee::GlobalInteger(v))) => {
            Some(below_size(p, v))
        }
        (Token::Run(Callee::GlobalInteger(p)), Token::Integer(n)) => Some(below_number(p, n)),
        _ => None,
    }
}

// .. four tokens, with the length of a text
fn climb_of_four(body: &[Token]) -> Option<Climb> {
    if body.len() < 4 {
        return None;
    }
    match (body[0], body[1], body[2]) {
        (Token::Run(Callee::GlobalInteger(p)), Token::Run(Callee::GlobalString(t)), _) => {
            Some(below_length(p, t))
        }
        (Token::Run(Callee::GlobalString(t)), _, Token::Run(Callee::GlobalInteger(p))) => {
            Some(below_length(p, t))
        }
        _ => None,
    }
}

// The climb by which a body seems to tell whether a loop may go on.
fn climb_told(body: &[Token]) -> Option<Climb> {
    if body.len() < 3 || body.len() > 8 {
        return None;
    }
    match body[2] {
        Token::Run(Callee::BuiltIn(BuiltIn::Less)) => climb_of_three(body[0], body[1], true),
        Token::Run(Callee::BuiltIn(BuiltIn::Greater)) => climb_of_three(body[0], body[1], false),
        _ => climb_of_four(body),
    }
}

// Answers whether a climb is one of these.
fn is_climb(climbs: &[Climb], wanted: Climb) -> bool {
    for climb in climbs {
        if *climb == wanted {
            return true;
        }
    }
    false
}

/// The climbs of the style's tests.
pub(crate) fn climbs_of(alloc: Global, style: &Style) -> Result<Vec<Climb>, AllocError> {
    let mut climbs: Vec<Climb> = Vec::new(alloc);
    for number in 0..style.functions() {
        let body = style.body(number);
        if climbs.len() < MOST_MEASURES {
            if let Some(climb) = climb_told(body) {
                if tells_below(style, climb, body) && !is_climb(&climbs, climb) {
                    climbs.push(climb)?;
                }
            }
        }
    }
    Ok(climbs)
}

/// The variables of climbs.
pub(crate) fn variables_of(alloc: Global, climbs: &[Climb]) -> Result<Vec<Walk>, AllocError> {
    let mut walks: Vec<Walk> = Vec::new(alloc);
    for climb in climbs {
        walks.push(climb.walk)?;
    }
    Ok(walks)
}

/// Says of each function of which climb it is the test, where the limit has a claim.
pub(crate) fn limits_of(
    alloc: Global,
    style: &Style,
    bounds: &[u64],
    kept: u32,
    climbs: &[Climb],
) -> Result<Vec<u32>, AllocError> {
    let mut limits: Vec<u32> = Vec::new(alloc);
    for number in 0..style.functions() {
        limits.push(limit_for(style, bounds, kept, climbs, style.body(number)))?;
    }
    Ok(limits)
}

// .. of one body: one more than the number of the climb, or 0
fn limit_for(style: &Style, bounds: &[u64], kept: u32, climbs: &[Climb], body: &[Token]) -> u32 {
    let mut k: u32 = 0;
    for climb in climbs {
        k = next_number(k);
        if is_low(bounds, kept, *climb) && tells_below(style, *climb, body) {
            return k;
        }
    }
    0
}

// Answers whether a limit is below 2^31, by the claims.
fn is_low(bounds: &[u64], kept: u32, climb: Climb) -> bool {
    match climb.limit {
        Limit::Size => {
            let claim = claim_of(bounds, climb.walk.size as usize);
            claim != 0 && claim <= 1 << 31 && climb.walk.size != climb.walk.place
        }
        Limit::Length => kept < 1 << 31,
        Limit::Number(n) => n <= 1 << 30,
    }
}

/// Says of each function that is the body of a loop which climb's place it raises: the one of the loop's test.
pub(crate) fn raises_of(
    alloc: Global,
    style: &Style,
    loops: &[(usize, usize)],
    limits: &[u32],
    climbs: &[Climb],
    said: (&[Kind], &[Vec<Effect>], &[Vec<Effect>]),
) -> Result<Vec<u32>, AllocError> {
    let mut claims = no_claims(alloc, style)?;
    for turn in loops {
        let (body, test) = *turn;
        let claim = number_for(limits, test);
        if body < claims.len() && body < style.functions() {
            if is_raising(style, climbs, claim, said, style.body(body)) {
                claims[body] = claim;
            }
        }
    }
    Ok(claims)
}

// .. of one loop with this body, and a test of this claim
fn is_raising(
    style: &Style,
    climbs: &[Climb],
    claim: u32,
    said: (&[Kind], &[Vec<Effect>], &[Vec<Effect>]),
    body: &[Token],
) -> bool {
    let (kinds, places, sizes) = said;
    if claim == 0 {
        return false;
    }
    let k = (claim - 1) as usize;
    if k >= climbs.len() || k >= places.len() || k >= sizes.len() {
        return false;
    }
    let by = Said {
        kinds,
        places: &places[k],
        sizes: &sizes[k],
        moves: &[],
    };
    raises(style, climbs[k], by, body)
}
