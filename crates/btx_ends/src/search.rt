//! The search that proposes a certificate. Nothing is promised of what it finds: the checker judges it.
use crate::checker::{Certificate, is_shortening};
use crate::claims::{Claims, claim_of, number_for};
use crate::climb_search::{climbs_of, limits_of, raises_of, variables_of};
use crate::costs::body_cost;
use crate::descending::{asks_of, lowers_of};
use crate::keeping::{is_counting, is_test, tokens_keep};
use crate::kinds::{is_and, is_not, is_or};
use crate::known::Known;
use crate::literals::{below_after, top_after};
use crate::measures::{Effect, Kind, Measure};
use crate::reaching::reached;
use crate::replacement_search::{filled_of, replacements_of, replaces_of, text_rows};
use crate::shortening::tokens_through;
use crate::telling::{begins_word, tells};
use crate::walk_search::{movers_of, moves_of, parts_of, rows_by, walks_of};
use btx_bst::{BuiltIn, Callee, Style, Token};
use std::alloc::{AllocError, Global};

/// Looks for a certificate, with claims on loops and variables if these are wanted. A function's body refers to functions before its own, so their claims are
/// there when it is its turn. The functions that `call.type$` calls are looked at first, without it.
pub fn proposed(
    alloc: Global,
    style: &Style,
    allowed: &[u32],
    kept: u32,
    with_loops: bool,
) -> Result<Certificate, AllocError> {
    let bounds = if with_loops {
        let reached = reached(alloc, style, allowed)?;
        bounds_of(alloc, style, kept, &reached)?
    } else {
        Vec::new(alloc)
    };
    proposed_with(alloc, style, allowed, kept, bounds)
}

/// Looks for a certificate with these claims on variables.
pub(crate) fn proposed_with(
    alloc: Global,
    style: &Style,
    allowed: &[u32],
    kept: u32,
    bounds: Vec<u64>,
) -> Result<Certificate, AllocError> {
    let tests = tests_of(alloc, style, &bounds)?;
    let keeps = rows_of(alloc, style, &tests, bounds.len())?;
    let loops = loops_of(alloc, style)?;
    let counts = counts_of(alloc, style, &loops, &tests, &keeps)?;
    let kinds = kinds_of(alloc, style)?;
    let measures = measures_of(alloc, style)?;
    let effects = effects_of(alloc, style, &kinds, &measures)?;
    let ends = ends_of(alloc, style, &measures)?;
    let shortens = shortens_of(alloc, style, &loops, &ends, &effects)?;
    let walks = walks_of(alloc, style)?;
    let parts = parts_of(alloc, style, &walks)?;
    let places = rows_by(alloc, style, &kinds, &walks, false)?;
    let sizes = rows_by(alloc, style, &kinds, &walks, true)?;
    let movers = movers_of(alloc, style, &kinds, &walks, &places, &sizes)?;
    let moves = moves_of(alloc, style, &loops, &parts, &movers)?;
    let climbs = climbs_of(alloc, style)?;
    let limits = limits_of(alloc, style, &bounds, kept, &climbs)?;
    let variables = variables_of(alloc, &climbs)?;
    let climb_places = rows_by(alloc, style, &kinds, &variables, false)?;
    let climb_sizes = rows_by(alloc, style, &kinds, &variables, true)?;
    let raises = raises_of(
        alloc,
        style,
        &loops,
        &limits,
        &climbs,
        (&kinds, &climb_places, &climb_sizes),
    )?;
    let asks = asks_of(alloc, style, &kinds)?;
    let lowers = lowers_of(alloc, style, &kinds)?;
    let replacements = replacements_of(alloc, style, &loops)?;
    let texts = text_rows(alloc, style, &kinds, &replacements, false)?;
    let givens = text_rows(alloc, style, &kinds, &replacements, true)?;
    let filled = filled_of(alloc, style)?;
    let replaces = replaces_of(
        alloc,
        style,
        &loops,
        &replacements,
        (&kinds, &texts, &givens),
    )?;
    let mut found = Certificate {
        costs: Vec::new(alloc),
        types: 0,
        bounds,
        tests,
        counts,
        keeps,
        measures,
        ends,
        shortens,
        kinds,
        effects,
        walks,
        parts,
        moves,
        asks,
        lowers,
        places,
        sizes,
        movers,
        climbs,
        limits,
        raises,
        climb_places,
        climb_sizes,
        replacements,
        filled,
        replaces,
        texts,
        givens,
        integers: count_of(style.global_integers()),
        kept,
    };
    found.costs = costs_of(alloc, style, &found)?;
    found.types = dearest(style, allowed, &found.costs);
    found.costs = costs_of(alloc, style, &found)?;
    Ok(found)
}

// ---- variables

/// The least claim on each global integer variable that bears one: 0. `entry.max$` and `global.max$`, which don't begin with 0, bear none.
pub(crate) fn least_bounds(alloc: Global, style: &Style) -> Result<Vec<u64>, AllocError> {
    let mut bounds: Vec<u64> = Vec::new(alloc);
    for number in 0..style.global_integers() {
        bounds.push(if number < 2 { 0 } else { 1 })?;
    }
    Ok(bounds)
}

// Makes a claim for each global integer variable, by what is assigned to it in the functions that a run may reach. Each begins with 0, and is raised as long as
// something greater is assigned; what is raised too often, or by what isn't known, has none in the end.
fn bounds_of(
    alloc: Global,
    style: &Style,
    kept: u32,
    reached: &[bool],
) -> Result<Vec<u64>, AllocError> {
    let mut bounds = least_bounds(alloc, style)?;
    let count = style.global_integers();
    for _ in 0..count {
        raise(style, &mut bounds, kept, reached, true);
    }
    for _ in 0..count {
        raise(style, &mut bounds, kept, reached, false);
    }
    Ok(bounds)
}

// Raises the claims by what the bodies that a run may reach assign.
fn raise(style: &Style, bounds: &mut [u64], kept: u32, reached: &[bool], may_raise: bool) {
    for number in 0..style.functions() {
        if number < reached.len() && reached[number] {
            raise_in(style.body(number), bounds, kept, may_raise);
        }
    }
}

// .. by what one body assigns
fn raise_in(body: &[Token], bounds: &mut [u64], kept: u32, may_raise: bool) {
    let mut top = Known::Anything;
    let mut below = Known::Anything;
    for token in body {
        if *token == Token::Run(Callee::BuiltIn(BuiltIn::Assign)) {
            raise_one(bounds, top, claim_for(below), may_raise);
        }
        let claims = Claims {
            costs: &[],
            types: 0,
            bounds: &*bounds,
            tests: &[],
            counts: &[],
            ends: &[],
            shortens: &[],
            parts: &[],
            moves: &[],
            limits: &[],
            raises: &[],
            asks: &[],
            lowers: &[],
            filled: &[],
            replaces: &[],
            integers: 0,
            kept,
        };
        let after = top_after(claims, top, below, *token);
        below = below_after(top, *token);
        top = after;
    }
}

// Raises the claim on the variable on top of the stack to this one; without a claim, or where it may not be raised, the variable has none any more.
fn raise_one(bounds: &mut [u64], top: Known, claim: u64, may_raise: bool) {
    let Known::Function(Callee::GlobalInteger(v)) = top else {
        return;
    };
    let v = v as usize;
    if v >= bounds.len() || bounds[v] == 0 {
        return;
    }
    if claim == 0 || claim > bounds[v] {
        bounds[v] = if may_raise { claim } else { 0 };
    }
}

// The claim on a variable that a value is assigned to of which this is known.
fn claim_for(value: Known) -> u64 {
    match value {
        Known::AtMost(most) => more_than(most),
        Known::Integer(n) => { if n < 0 { 1 } else { n as u64 + 1 } }
        _ => 0,
    }
}

// One more than a number; 0 where that has no room.
fn more_than(number: u64) -> u64 {
    match number.checked_add(1) {
        None => 0,
        Some(more) => more,
    }
}

/// One more than a number of 32 bits; 0 where that has no room.
pub(crate) fn next_number(number: u32) -> u32 {
    match number.checked_add(1) {
        None => 0,
        Some(next) => next,
    }
}

// ---- loops

// Says of each function of which variable it is the test `{v #0 >}`.
fn tests_of(alloc: Global, style: &Style, bounds: &[u64]) -> Result<Vec<u32>, AllocError> {
    let mut tests: Vec<u32> = Vec::new(alloc);
    for number in 0..style.functions() {
        tests.push(test_number(style.body(number), bounds))?;
    }
    Ok(tests)
}

// .. of one function: one more than the variable's number, or 0
fn test_number(body: &[Token], bounds: &[u64]) -> u32 {
    if body.len() != 3 {
        return 0;
    }
    let first = body[0];
    match first {
        Token::Run(Callee::GlobalInteger(v)) => {
            if claim_of(bounds, v as usize) != 0 && is_test(v, body) {
                next_number(v)
            } else {
                0
            }
        }
        _ => 0,
    }
}

// Says of each variable which functions keep it. Those of a variable without a test are of no use.
fn rows_of(
    alloc: Global,
    style: &Style,
    tests: &[u32],
    count: usize,
) -> Result<Vec<Vec<bool>>, AllocError> {
    let mut rows: Vec<Vec<bool>> = Vec::new(alloc);
    let mut v: u32 = 0;
    for _ in 0..count {
        let row = row_of(alloc, style, v, is_tested(tests, next_number(v)))?;
        rows.push(row)?;
        v = next_number(v);
    }
    Ok(rows)
}

// Answers whether there is such a test.
fn is_tested(tests: &[u32], wanted: u32) -> bool {
    for test in tests {
        if *test == wanted {
            return true;
        }
    }
    false
}

// Says which functions keep a variable, if it is tested.
fn row_of(alloc: Global, style: &Style, v: u32, tested: bool) -> Result<Vec<bool>, AllocError> {
    let mut row: Vec<bool> = Vec::new(alloc);
    if !tested {
        return Ok(row);
    }
    for number in 0..style.functions() {
        let keeps = tokens_keep(true, &row, v, style.body(number));
        row.push(keeps)?;
    }
    Ok(row)
}

// The body and the test of each loop, by the numbers of their functions, where both are quoted just before it.
fn loops_of(alloc: Global, style: &Style) -> Result<Vec<(usize, usize)>, AllocError> {
    let mut loops: Vec<(usize, usize)> = Vec::new(alloc);
    for number in 0..style.functions() {
        add_loops(style.body(number), &mut loops)?;
    }
    Ok(loops)
}

/// .. of one body
pub(crate) fn add_loops(
    tokens: &[Token],
    loops: &mut Vec<(usize, usize)>,
) -> Result<(), AllocError> {
    let mut top: Option<usize> = None;
    let mut below: Option<usize> = None;
    for token in tokens {
        if *token == Token::Run(Callee::BuiltIn(BuiltIn::While)) {
            if let (Some(body), Some(test)) = (top, below) {
                loops.push((body, test))?;
            }
        }
        below = top;
        top = match *token {
            Token::Quote(Callee::User(number)) => Some(number as usize),
            _ => None,
        };
    }
    Ok(())
}

/// As many times 0 as a style has functions.
pub(crate) fn no_claims(alloc: Global, style: &Style) -> Result<Vec<u32>, AllocError> {
    let mut claims: Vec<u32> = Vec::new(alloc);
    for _ in 0..style.functions() {
        claims.push(0)?;
    }
    Ok(claims)
}

// Says of each function that is the body of a loop which variable it counts down: the one of the loop's test.
fn counts_of(
    alloc: Global,
    style: &Style,
    loops: &[(usize, usize)],
    tests: &[u32],
    keeps: &[Vec<bool>],
) -> Result<Vec<u32>, AllocError> {
    let mut counts = no_claims(alloc, style)?;
    for turn in loops {
        let (body, test) = *turn;
        let claim = number_for(tests, test);
        if claim != 0 && body < counts.len() && body < style.functions() {
            let v = claim - 1;
            if (v as usize) < keeps.len()
                && is_counting(keeps[v as usize].as_slice(), v, style.body(body))
            {
                counts[body] = claim;
            }
        }
    }
    Ok(counts)
}

// ---- texts

/// How many measures, and how many walks, are looked at.
pub(crate) const MOST_MEASURES: usize = 16;

// A number of 32 bits, or the greatest one.
fn count_of(number: usize) -> u32 {
    match u32::try_from(number) {
        Ok(count) => count,
        Err(_) => 0,
    }
}

// Says of each function what it does with integers on top of the stack.
fn kinds_of(alloc: Global, style: &Style) -> Result<Vec<Kind>, AllocError> {
    let mut kinds: Vec<Kind> = Vec::new(alloc);
    let mut number: u32 = 0;
    for _ in 0..style.functions() {
        kinds.push(kind_for(style, number))?;
        number = next_number(number);
    }
    Ok(kinds)
}

// .. of one
fn kind_for(style: &Style, number: u32) -> Kind {
    if is_not(style, number) {
        Kind::Not
    } else if is_or(style, number) {
        Kind::Or
    } else if is_and(style, number) {
        Kind::And
    } else {
        Kind::Other
    }
}

// The measure by which a body seems to tell whether a loop may go on: by `t empty$ not`, `v not t empty$ not and`, `t #1 #1 substring$ "w" =`, the contrary of
// that, or by the first of these and the contrary of the third.
fn measure_told(body: &[Token]) -> Option<Measure> {
    if body.len() != 3 && body.len() != 6 && body.len() != 7 && body.len() != 11 {
        return None;
    }
    match (body[0], body[2]) {
        (Token::Run(Callee::GlobalString(text)), _) => Some(Measure {
            text,
            flag: 0,
            word: 0,
        }),
        (Token::Run(Callee::GlobalInteger(v)), Token::Run(Callee::GlobalString(text))) => {
            Some(Measure {
                text,
                flag: next_number(v),
                word: 0,
            })
        }
        _ => None,
    }
}

// The text with which the first byte of a variable is compared by some function that does nothing else; 0 if there is none.
fn word_for(style: &Style, text: u32) -> u32 {
    for number in 0..style.functions() {
        if let Some(word) = begins_word(text, style.body(number)) {
            return word;
        }
    }
    0
}

// The measures of the style's tests.
fn measures_of(alloc: Global, style: &Style) -> Result<Vec<Measure>, AllocError> {
    let mut measures: Vec<Measure> = Vec::new(alloc);
    for number in 0..style.functions() {
        let body = style.body(number);
        if measures.len() < MOST_MEASURES {
            if let Some(told) = measure_told(body) {
                if tells(style, told, body) {
                    let m = Measure {
                        word: word_for(style, told.text),
                        ..told
                    };
                    if !is_measure(&measures, m) {
                        measures.push(m)?;
                    }
                }
            }
        }
    }
    Ok(measures)
}

// Answers whether a measure is one of these.
fn is_measure(measures: &[Measure], wanted: Measure) -> bool {
    for m in measures {
        if *m == wanted {
            return true;
        }
    }
    false
}

// Says of each measure what each function does.
fn effects_of(
    alloc: Global,
    style: &Style,
    kinds: &[Kind],
    measures: &[Measure],
) -> Result<Vec<Vec<Effect>>, AllocError> {
    let mut rows: Vec<Vec<Effect>> = Vec::new(alloc);
    for m in measures {
        let mut row: Vec<Effect> = Vec::new(alloc);
        for number in 0..style.functions() {
            let effect = effect_for(style, *m, kinds, &row, style.body(number));
            row.push(effect)?;
        }
        rows.push(row)?;
    }
    Ok(rows)
}

/// Says what a function with this body does.
pub(crate) fn effect_for(
    style: &Style,
    m: Measure,
    kinds: &[Kind],
    row: &[Effect],
    body: &[Token],
) -> Effect {
    match tokens_through(style, m, kinds, row, false, body) {
        Some(true) => Effect::Shortens,
        Some(false) => Effect::Keeps,
        None => match tokens_through(style, m, kinds, row, true, body) {
            Some(true) => Effect::ShortensIfBegun,
            _ => Effect::Other,
        },
    }
}

// Says of each function by which measure it tells whether a loop may go on.
fn ends_of(alloc: Global, style: &Style, measures: &[Measure]) -> Result<Vec<u32>, AllocError> {
    let mut ends: Vec<u32> = Vec::new(alloc);
    for number in 0..style.functions() {
        ends.push(end_for(style, measures, style.body(number)))?;
    }
    Ok(ends)
}

// .. of one body: one more than the number of the measure, or 0
fn end_for(style: &Style, measures: &[Measure], body: &[Token]) -> u32 {
    let mut k: u32 = 0;
    for m in measures {
        k = next_number(k);
        if tells(style, *m, body) {
            return k;
        }
    }
    0
}

// Says of each function that is the body of a loop which measure it lessens: the one of the loop's test.
fn shortens_of(
    alloc: Global,
    style: &Style,
    loops: &[(usize, usize)],
    ends: &[u32],
    effects: &[Vec<Effect>],
) -> Result<Vec<u32>, AllocError> {
    let mut shortens = no_claims(alloc, style)?;
    for turn in loops {
        let (body, test) = *turn;
        note_loop(body, number_for(ends, test), effects, &mut shortens);
    }
    Ok(shortens)
}

// .. of one loop with this body, and a test of this claim
fn note_loop(body: usize, claim: u32, effects: &[Vec<Effect>], shortens: &mut [u32]) {
    if claim == 0 || body >= shortens.len() {
        return;
    }
    let k = (claim - 1) as usize;
    if k < effects.len() && is_shortening(effects[k].as_slice(), body) {
        shortens[body] = claim;
    }
}

// ---- steps

// Makes a claim for each function of a style; 0 where none was found.
fn costs_of(alloc: Global, style: &Style, found: &Certificate) -> Result<Vec<u64>, AllocError> {
    let mut costs: Vec<u64> = Vec::new(alloc);
    for number in 0..style.functions() {
        let cost = body_cost(found.claims(&costs), style.body(number));
        costs.push(match cost {
            None => 0,
            Some(cost) => more_than(cost),
        })?;
    }
    Ok(costs)
}

// The claim on what `call.type$` calls: the greatest one of the functions of the allowed types, and of `default.type`.
fn dearest(style: &Style, allowed: &[u32], costs: &[u64]) -> u64 {
    let mut types = match style.type_function(b"default.type") {
        None => 0,
        Some(number) => claim_of(costs, number as usize),
    };
    for number in allowed {
        let claim = claim_of(costs, *number as usize);
        types = if claim > types { claim } else { types };
    }
    types
}
