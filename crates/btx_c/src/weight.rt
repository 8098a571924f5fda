//! How much there is to do to look for a bound of a style. No clause speaks of it.
use btx_bst::{BuiltIn, Callee, Style, Token};

// The greatest weight of a style of which a bound is looked for, which takes some 0.2 seconds of a processor. The heaviest style of TeX Live has 940,000.
const MOST_WEIGHT: u64 = 20_000_000;

/// The greatest number of bytes of a style's text that is read for this.
pub(crate) const MOST_TEXT: usize = 4_000_000;

// How many tokens a style has, and one more for each function.
fn tokens_of(style: &Style<'_>) -> u64 {
    let mut tokens: u64 = 0;
    for number in 0..style.functions() {
        tokens = tokens
            .saturating_add(style.body(number).len() as u64)
            .saturating_add(1);
    }
    tokens
}

// How many loops stand in a body.
fn loops_in(body: &[Token]) -> u64 {
    let mut loops: u64 = 0;
    for token in body {
        if *token == Token::Run(Callee::BuiltIn(BuiltIn::While)) {
            loops = loops.saturating_add(1);
        }
    }
    loops
}

// How many loops a style has.
fn loops_of(style: &Style<'_>) -> u64 {
    let mut loops: u64 = 0;
    for number in 0..style.functions() {
        loops = loops.saturating_add(loops_in(style.body(number)));
    }
    loops
}

// How often each token is looked at: a few times, and twice for each global integer variable and each loop.
fn turns_of(style: &Style<'_>) -> u64 {
    (style.global_integers() as u64)
        .saturating_add(loops_of(style))
        .saturating_mul(2)
        .saturating_add(8)
}

/// Whether a bound of a style is looked for.
pub(crate) fn is_light(style: &Style<'_>) -> bool {
    tokens_of(style).saturating_mul(turns_of(style)) <= MOST_WEIGHT
}
