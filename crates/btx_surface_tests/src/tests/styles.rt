//! Styles.
use btx_bst::{Item, Style, Token, is_direct, read_style};
use btx_text::Fault;
use std::alloc::Global;

// A style of one function with a token of each kind, after a message.
const TEXT: &[u8] =
    b"nonsense\n\nENTRY {title}{}{} INTEGERS {i} STRINGS {s} MACRO {jan}{\"January\"} READ\n\
FUNCTION {f} {\"a\" #1 'title pop$} EXECUTE {f}";

// The line of a message, and 0 for a command.
fn line_of(item: &Item<'_>) -> usize {
    match item {
        Item::Message(message) => message.line,
        Item::Entry
        | Item::Function(_)
        | Item::Read
        | Item::Execute(_)
        | Item::Iterate(_)
        | Item::Reverse(_)
        | Item::Sort
        | Item::Integers
        | Item::Strings
        | Item::Macro => 0,
    }
}

// The line of the first of eight items.
fn first_line(items: &[Item<'_>]) -> usize {
    match items {
        [first, _, _, _, _, _, _, _] => line_of(first),
        _ => 0,
    }
}

// A letter for each kind of token.
fn token_letter(token: &Token) -> u8 {
    match token {
        Token::Text(_) => b't',
        Token::Integer(_) => b'i',
        Token::Quote(_) => b'q',
        Token::Run(_) => b'r',
    }
}

// The letters of four tokens.
fn letters_of(body: &[Token]) -> [u8; 4] {
    match body {
        [first, second, third, fourth] => [
            token_letter(first),
            token_letter(second),
            token_letter(third),
            token_letter(fourth),
        ],
        _ => [0; 4],
    }
}

// The letters of the tokens of a style's first function.
fn first_body(style: &Style<'_>) -> [u8; 4] {
    if 0 < style.functions() {
        letters_of(style.body(0))
    } else {
        [0; 4]
    }
}

// Whether a style is that of the text.
fn is_style(style: &Style<'_>) -> bool {
    let counts: [usize; 8] = [
        style.functions(),
        style.fields(),
        style.entry_integers(),
        style.entry_strings(),
        style.global_integers(),
        style.global_strings(),
        style.macros().len(),
        first_line(style.items()),
    ];
    let facts = [
        counts == [1, 2, 0, 1, 3, 1, 1, 1],
        first_body(style) == *b"tiqr",
        is_direct(style),
    ];
    facts == [true; 3]
}

// Whether what was read is the style of the text.
fn is_read(style: Result<Style<'_>, Fault>) -> bool {
    match style {
        Ok(style) => is_style(&style),
        Err(_) => false,
    }
}

// Whether the style of the text is that.
fn reads(alloc: Global) -> bool {
    is_read(read_style(alloc, b"s.bst", TEXT))
}

#[test]
fn styles(rt: HostRuntime) {
    assert!(rt; reads(rt.alloc()));
}
