//! A style read and shown by each call.
use super::showing::look_over;
use btx_bst::{BuiltIn, Callee, Style, Token, read_style};
use btx_tests::texts::{calling_functions, joined};
use btx_text::Fault;
use std::alloc::Global;
use std::process::Abort;

const TEXT: &[u8] =
    b"ENTRY {Title}{n}{label} integers {i} STRINGS {s}\nmacro {jan} {\"January\"} function {misc} {} read\n\
function {f} {\"a\" write$ {'f title} % none }\n #1 'skip$ if$} EXECUTE {F}\n\nSORT x";

// Styles that are direct. The first four are those of worked runs: a line, a loop that doesn't end, branches that show fields, and a loop that fills the
// stack.
const DIRECT: &[&[u8]] = &[
    b"ENTRY {title}{}{} FUNCTION {misc}{} READ FUNCTION {f} {\"a\" write$ newline$} EXECUTE {f}",
    b"ENTRY {title}{}{} FUNCTION {misc}{} READ FUNCTION {f} {{#1} {skip$} while$} EXECUTE {f}",
    b"ENTRY {title booktitle}{}{} FUNCTION {misc}{} FUNCTION {book}{} READ FUNCTION {f} {cite$ write$ \":\" write$ crossref missing$ int.to.str$ write$ \":\" write$ booktitle empty$ {\"-\"} {booktitle} if$ write$ newline$} ITERATE {f}",
    b"ENTRY {title}{}{} FUNCTION {misc}{} READ FUNCTION {f} {{#1} {#7} while$} EXECUTE {f}",
    b"ENTRY {title}{}{} FUNCTION {misc}{} READ FUNCTION {f} {#1 {#1} 'skip$ if$ pop$}",
    b"FUNCTION {f} {'skip$ {skip$} while$}",
    b"ENTRY {title}{}{} FUNCTION {misc}{} READ FUNCTION {f} {#1 'skip$ duplicate$ if$}",
    b"ENTRY {title}{}{} FUNCTION {misc}{} READ ITERATE {call.type$}",
];

// Styles that are not. The first runs itself through the stack.
const NOT_DIRECT: &[&[u8]] = &[
    b"ENTRY {title}{}{} FUNCTION {misc}{} READ FUNCTION {h} {duplicate$ #1 swap$ 'skip$ if$} FUNCTION {g} {'h h} EXECUTE {g}",
    b"ENTRY {title}{}{} FUNCTION {misc}{} READ FUNCTION {f} {#1 {skip$} duplicate$ if$}",
    b"FUNCTION {f} {duplicate$ #1 swap$ {skip$} if$}",
    b"FUNCTION {f} {#1 {skip$} 'skip$ 'skip$ if$}",
    b"FUNCTION {f} {{skip$} 'skip$ 'if$}",
    b"ENTRY {title}{}{} FUNCTION {misc}{} READ FUNCTION {f} {'call.type$ pop$}",
    b"FUNCTION {f} {} FUNCTION {g} {call.type$}",
];

// What the calls that take a name answer: whether each is as it is to be. A test that asserts of a style itself takes long to prove, since each
// assertion is a way out beside the style; so these answer plain values.
fn names(style: &Style<'_>) -> [bool; 9] {
    [
        style.field(b"title") == Some(1),
        style.named(b"crossref") == Some(Callee::Field(0)),
        style.named(b"while$") == Some(Callee::BuiltIn(BuiltIn::While)),
        style.type_function(b"misc") == Some(0),
        style.type_function(b"f").is_none(),
        style.macros().text(b"jan").is_some(),
        style.name(Callee::User(2)) == b"f".as_slice(),
        style.name(Callee::User(1)) == b"{}".as_slice(),
        style.name(Callee::Field(1)) == b"title".as_slice(),
    ]
}

// What the calls that count answer: the functions, items, fields, integers and strings of entries, global integers and strings, and macros.
fn counts(style: &Style<'_>) -> [usize; 8] {
    [
        style.functions(),
        style.items().len(),
        style.fields(),
        style.entry_integers(),
        style.entry_strings(),
        style.global_integers(),
        style.global_strings(),
        style.macros().len(),
    ]
}

// What a style holds: whether each is as it is to be.
fn texts(style: &Style<'_>) -> [bool; 4] {
    [
        style.text(0) == b"a".as_slice(),
        style.text(1) == b"".as_slice(),
        style.file_name() == b"s.bst".as_slice(),
        2 < style.functions() && style.body(2).first().copied() == Some(Token::Text(0)),
    ]
}

// What the calls of a style answer.
type Answers = ([bool; 9], [usize; 8], [bool; 4]);

fn answers_of(style: &Style<'_>) -> Result<Answers, Fault> {
    Ok((names(style), counts(style), texts(style)))
}

// The same of the style of a text.
fn answers(alloc: Global, text: &[u8]) -> Result<Answers, Fault> {
    let style = read_style(alloc, b"s.bst", text)?;
    answers_of(&style)
}

#[test]
fn a_style(rt: HostRuntime) {
    let wanted = ([true; 9], [3, 11, 2, 1, 2, 3, 1, 1], [true; 4]);
    assert!(rt; answers(rt.alloc(), TEXT) == Ok(wanted));
}

// Whether each of these styles is direct, or, where `direct` is false, none of them is.
fn all_are(alloc: Global, texts: &[&[u8]], direct: bool) -> Result<bool, Fault> {
    for text in texts {
        if look_over(alloc, text)?.is_direct != direct {
            return Ok(false);
        }
    }
    Ok(true)
}

// Whether a style of a type's function and `count` others, each of which calls the one before, is direct; and how many functions it has.
fn calling(alloc: Global, count: usize) -> Result<(bool, usize), Fault> {
    let functions = calling_functions(alloc, count)?;
    let start = b"ENTRY {title}{}{} FUNCTION {misc}{} READ ".as_slice();
    let text = joined(alloc, &[start, &functions])?;
    let found = look_over(alloc, &text)?;
    Ok((found.is_direct, found.functions))
}

// How many functions the style of this text has.
fn functions_of(alloc: Global, text: &[u8]) -> Result<usize, Fault> {
    Ok(look_over(alloc, text)?.functions)
}

#[test]
fn bodies_in_braces_are_functions(rt: HostRuntime) {
    let alone = b"ENTRY {title}{}{} FUNCTION {misc}{} READ".as_slice();
    let branches =
        b"ENTRY {title}{}{} FUNCTION {misc}{} READ FUNCTION {f} {#1 {skip$} {} if$}".as_slice();
    assert!(rt; functions_of(rt.alloc(), alone) == Ok(1));
    assert!(rt; functions_of(rt.alloc(), branches) == Ok(4));
}

#[test]
fn thousands_of_functions(rt: HostRuntime) {
    assert!(rt; calling(rt.alloc(), 4_097) == Ok((true, 4_098)));
}

#[test]
fn direct_styles(rt: HostRuntime) {
    assert!(rt; all_are(rt.alloc(), DIRECT, true) == Ok(true));
    assert!(rt; all_are(rt.alloc(), NOT_DIRECT, false) == Ok(true));
}
