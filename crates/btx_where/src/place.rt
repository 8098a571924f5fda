//! Tokens of a style, by their places in the code.
ghost use Rattle.std.specs.Prelude.{◌≡◌, ◌<◌, ◌-◌, IfSome, length, drop, true, codes};
ghost use Rattle.std.specs.Str.{bytes_eq};
ghost use Rattle.btx_code.specs.refinement.Codes.{bodies_of, tokens_left};
ghost use Rattle.btx_where.specs.Notes as spec;
ghost use Rattle.btx_where.specs.Shown.{behind};

use btx_bst::{Callee, Style};
use btx_code::{Code, Op};

/// A token of a function of the style: the number of the function, and that of the token in it, both from 0.
#[derive(Clone, Copy, PartialEq, Eq, Debug)]
pub struct Place {
    pub function: usize,
    pub token: usize,
}

/// The name of the function of a number, in lower case; `{}` for a nameless one.
#[tactic(auto, unfolding(crate::specs::Notes::function_name))]
pub fn function_name<'s>(style: &'s Style<'_>, function: usize) -> &'s [u8]
    ensures { result.now ≡ spec.function_name style.now function }
{
    match u32::try_from(function) {
        Ok(number) => style.name(Callee::User(number)),
        Err(_) => b"{}",
    }
}

/// The token before a place of the code. If no function is found that reaches the place, there is none.
pub fn place_before(code: &Code, style: &Style<'_>, place: usize) -> Option<Place>
    requires code { bodies_of code.now ≡ style.now.bodies }
    ensures { IfSome result (λ found. behind style.now found ≡ tokens_left code.now place) }
{
    let function = function_around(code, style.functions(), place)?;
    let start = code.start(function);
    if start < place && reaches(code, start, place) {
        let token = place - start - 1;
        Some(Place { function, token })
    } else {
        None
    }
}

// The last of the first `functions` functions that begins before a place.
fn function_around(code: &Code, functions: usize, place: usize) -> Option<usize> {
    for back in 0..functions {
        let function = functions - 1 - back;
        if code.start(function) < place {
            return Some(function);
        }
    }
    None
}

// Whether no body ends from one place to a later one.
fn reaches(code: &Code, start: usize, place: usize) -> bool
    requires { start < length code.now.instructions }
    ensures { result ≡ true → start < place → drop (place - start) (tokens_left code.now start) ≡ tokens_left code.now place }
{
    for at in start..place {
        let instruction = code.instruction(at);
        match instruction.op {
            Op::Return => return false,
            _ => {}
        }
    }
    true
}
