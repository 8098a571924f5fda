//! Which functions a run may reach, and for which types of entries a bound may be found. Nothing is promised of it: the checker judges what is found by it.
use crate::checker::Certificate;
use crate::claims::number_for;
use crate::search::{add_loops, least_bounds, proposed_with};
use btx_bst::{BuiltIn, Callee, Item, Style, Token};
use std::alloc::{AllocError, Global};

// Marks the function of a number.
fn mark(marks: &mut [bool], number: u32) {
    if (number as usize) < marks.len() {
        marks[number as usize] = true;
    }
}

// The number of the function of the style that a token executes or quotes.
fn used_by(token: Token) -> Option<u32> {
    match token {
        Token::Run(Callee::User(number)) | Token::Quote(Callee::User(number)) => Some(number),
        _ => None,
    }
}

// Marks the functions that a body executes or quotes.
fn mark_used(marks: &mut [bool], body: &[Token]) {
    for token in body {
        if let Some(number) = used_by(*token) {
            mark(marks, number);
        }
    }
}

// Marks the functions of the commands.
fn mark_commands(style: &Style, marks: &mut [bool]) {
    for item in style.items() {
        match *item {
            Item::Execute(Callee::User(number))
            | Item::Iterate(Callee::User(number))
            | Item::Reverse(Callee::User(number)) => mark(marks, number),
            _ => {}
        }
    }
}

// Marks the functions of the types of entries.
fn mark_types(style: &Style, allowed: &[u32], marks: &mut [bool]) {
    if let Some(number) = style.type_function(b"default.type") {
        mark(marks, number);
    }
    for number in allowed {
        mark(marks, *number);
    }
}

/// Says of each function whether a run may reach it, over entries of types that are allowed or unknown. A function uses only functions before it.
pub fn reached(alloc: Global, style: &Style, allowed: &[u32]) -> Result<Vec<bool>, AllocError> {
    let mut marks: Vec<bool> = vec![in alloc; false; style.functions()]?;
    mark_commands(style, &mut marks);
    mark_types(style, allowed, &mut marks);
    for back in 0..style.functions() {
        let number = style.functions() - 1 - back;
        if number < marks.len() && marks[number] {
            mark_used(&mut marks, style.body(number));
        }
    }
    Ok(marks)
}

// ---- types

// Answers whether a loop of this body and this test is of a kind that has bounds.
fn is_bounded_loop(found: &Certificate, body: usize, test: usize) -> bool {
    let counted = number_for(&found.tests, test);
    let ended = number_for(&found.ends, test);
    let told = number_for(&found.parts, test);
    let limited = number_for(&found.limits, test);
    (counted != 0 && number_for(&found.counts, body) == counted)
        || (ended != 0 && number_for(&found.shortens, body) == ended)
        || (told != 0 && number_for(&found.moves, body) == told)
        || (limited != 0 && number_for(&found.raises, body) == limited)
}

// Answers whether a body uses one of the functions that are marked.
fn uses_marked(marks: &[bool], body: &[Token]) -> bool {
    for token in body {
        if let Some(number) = used_by(*token) {
            if (number as usize) < marks.len() && marks[number as usize] {
                return true;
            }
        }
    }
    false
}

// How many `while$` a body has.
fn count_loops(body: &[Token]) -> usize {
    let mut count: usize = 0;
    for token in body {
        if *token == Token::Run(Callee::BuiltIn(BuiltIn::While)) {
            count = count.saturating_add(1);
        }
    }
    count
}

// Answers whether a body has a loop of no such kind. One whose body and test aren't quoted just before it is of none.
fn has_other_loop(alloc: Global, found: &Certificate, body: &[Token]) -> Result<bool, AllocError> {
    let mut loops: Vec<(usize, usize)> = Vec::new(alloc);
    add_loops(body, &mut loops)?;
    if loops.len() < count_loops(body) {
        return Ok(true);
    }
    for turn in loops.iter() {
        let (body, test) = *turn;
        if !is_bounded_loop(found, body, test) {
            return Ok(true);
        }
    }
    Ok(false)
}

// Says of each function whether it has a loop of another kind, or uses a function that has one.
fn unbounded(alloc: Global, style: &Style, found: &Certificate) -> Result<Vec<bool>, AllocError> {
    let mut marks: Vec<bool> = Vec::new(alloc);
    for number in 0..style.functions() {
        let body = style.body(number);
        let is_unbounded = uses_marked(&marks, body) || has_other_loop(alloc, found, body)?;
        marks.push(is_unbounded)?;
    }
    Ok(marks)
}

/// The types among these whose functions have no loop without a bound, as far as that is seen from the loops alone.
pub fn bounded_types(
    alloc: Global,
    style: &Style,
    allowed: &[u32],
    kept: u32,
) -> Result<Vec<u32>, AllocError> {
    let bounds = least_bounds(alloc, style)?;
    let found = proposed_with(alloc, style, allowed, kept, bounds)?;
    let marks = unbounded(alloc, style, &found)?;
    let mut types: Vec<u32> = Vec::new(alloc);
    for number in allowed {
        let function = *number as usize;
        if function < marks.len() && !marks[function] {
            types.push(*number)?;
        }
    }
    Ok(types)
}
