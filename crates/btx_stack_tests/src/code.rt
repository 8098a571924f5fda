//! The code of a style, token by token.
use btx_bst::{BuiltIn, Callee, Style, Token, read_style};
use btx_code::{Code, Op};
use btx_text::Fault;
use std::alloc::Global;

// The first two tokens of a function; of an end of the body, `skip$`.
fn first_two(code: &Code, function: usize) -> (Token, Token) {
    let place = code.start(function);
    let first = code.instruction(place);
    match first.op {
        Op::Return => (first.token(), first.token()),
        _ => (first.token(), code.instruction(place + 1).token()),
    }
}

// Whether a function begins with these two tokens.
fn begins(code: &Code, function: usize, first: Token, second: Token) -> bool {
    first_two(code, function) == (first, second)
}

// Whether the bodies of the style begin so, and each of the two places after them is an end.
fn is_code(code: &Code) -> bool {
    let write = Token::Run(Callee::BuiltIn(BuiltIn::Write));
    let quoted = Token::Quote(Callee::User(0));
    let greater = Token::Run(Callee::BuiltIn(BuiltIn::Greater));
    let less = Token::Quote(Callee::BuiltIn(BuiltIn::Less));
    begins(code, 0, Token::Text(0), write)
        && begins(code, 1, Token::Integer(-2), quoted)
        && begins(code, 2, greater, less)
        && code.instruction(code.start(3)).op == Op::Return
        && code.instruction(code.end()).op == Op::Return
}

// Whether the code of a style is that. A style and its code are held by two functions: each way out of one that holds both drops both.
fn has_code(alloc: Global, style: &Style) -> Result<bool, Fault> {
    match Code::of(alloc, style) {
        Ok(code) => Ok(is_code(&code)),
        Err(_) => Err(Fault::Memory),
    }
}

fn style_has_code(alloc: Global) -> Result<bool, Fault> {
    let style = read_style(
        alloc,
        b"s.bst",
        b"FUNCTION {f} {\"a\" write$} FUNCTION {g} {#-2 'f} FUNCTION {h} {> '<}",
    )?;
    has_code(alloc, &style)
}

#[test]
fn code_of_a_style(rt: HostRuntime) {
    assert!(rt; style_has_code(rt.alloc()) == Ok(true));
}
