//! Which token of a style is executed.

use btx_bst::Style;
use btx_code::Code;
use btx_run::Standing;

/// A token of a style: the number of its function, in the order of the style's bodies, and its own number in that function, both from 0.
#[derive(Clone, Copy)]
pub struct TokenNumber {
    pub function: usize,
    pub token: usize,
}

// Answers how many of the first `functions` functions begin before a place of the code, where they stand in their order.
fn functions_before(code: &Code, functions: usize, place: usize) -> usize {
    let mut low = 0;
    let mut high = functions;
    while low < high {
        let middle = low + (high - low) / 2;
        if code.start(middle) < place {
            low = middle + 1;
        } else {
            high = middle;
        }
    }
    low
}

// Answers the token right before a place of the code. None if that is no token of the style.
fn token_before(style: &Style<'_>, code: &Code, place: usize) -> Option<TokenNumber> {
    let functions = style.functions();
    let function = functions_before(code, functions, place).checked_sub(1)?;
    let token = place.checked_sub(code.start(function))?.checked_sub(1)?;
    if function < functions && token < style.body(function).len() {
        Some(TokenNumber { function, token })
    } else {
        None
    }
}

// Answers the place of the code after the token that is executed. A loop runs a function of its own where no token stands: then it is that after its `while$`.
fn place_after(standing: &Standing<'_>) -> Option<usize> {
    if standing.place == standing.code.end() {
        Some(standing.marks.top()?.place)
    } else {
        Some(standing.place)
    }
}

/// Answers the token of a style that is executed. None where a command runs its function itself.
pub fn executed_token(style: &Style<'_>, standing: &Standing<'_>) -> Option<TokenNumber> {
    token_before(style, standing.code, place_after(standing)?)
}
