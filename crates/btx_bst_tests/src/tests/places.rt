//! Where the tokens and the items of styles stand, worked out by hand: braces over lines, comments, whitespace at the ends of lines, and mistakes.
use btx_bst::{PlacedStyle, Span, read_placed_style};
use btx_text::Fault;
use std::alloc::{AllocError, Global};
use std::process::Abort;

// A style's text, and its places.
type Row = (&'static [u8], &'static [u8]);

// The places are a line for each function with those of its tokens, and one for each item; each place by its line and its bytes.
const ROWS: [Row; 6] = [
    (
        b"FUNCTION {f}\r\n{ % c }\r\n  {\r\n    #1 % {\r\n  }\r\n  {skip$}\tif$ \"a b\"% d\r\n}\r\n",
        b"function 4:32-34\nfunction 6:48-53\nfunction 3:25-43 6:47-54 6:55-58 6:59-64\nitem 1:0-8\n",
    ),
    (
        b"FUNCTION {f} {nosuch #x skip$}\nbogus  x\n\nFUNCTION {g} {'f pop$}",
        b"function 1:24-29\nfunction 4:55-57 4:58-62\nitem 1:14-20\nitem 1:21-23\nitem 1:0-8\nitem 2:36-36\nitem 4:41-49\n",
    ),
    (
        b"MACRO {a} {\"b\"\n\tFUNCTION {f} {skip$}\n\nfunction {g} {{{}} pop$}\n",
        b"function\nfunction 4:53-55\nfunction 4:52-56 4:57-61\nitem 2:16-16\nitem 4:38-46\n",
    ),
    (
        b"FUNCTION {f} {skip$} }\n  \t \nFUNCTION {g} {skip$}\n",
        b"function 1:14-19\nfunction 3:42-47\nitem 1:0-8\nitem 1:21-21\nitem 3:28-36\n",
    ),
    (
        b"FUNCTION {bad} {#1 {skip$} {skip$ nosuch} \"unended \n\nENTRY {a}{}{}\nREAD FUNCTION {f} {a}   \n EXECUTE {f} SORT",
        b"function 4:86-87\nitem 1:34-40\nitem 1:43-43\nitem 3:53-58\nitem 4:67-71\nitem 4:72-80\nitem 5:93-100\nitem 5:105-109\n",
    ),
    (b"FUNCTION {f} {pop$ % }\n", b"item 1:22-22\n"),
];

// Appends a place after a space.
fn push_span(alloc: Global, text: &mut Vec<u8>, span: Option<Span>) -> Result<(), AllocError> {
    let Some(span) = span else {
        return text.extend_from_slice(b" nowhere");
    };
    let (line, from, to) = (span.line, span.from, span.to);
    let shown = format!(in alloc; " {line}:{from}-{to}")?;
    text.extend_from_slice(shown.as_bytes())
}

// Appends the places of the tokens of a function.
fn push_function(
    alloc: Global,
    text: &mut Vec<u8>,
    placed: &PlacedStyle<'_>,
    function: usize,
    tokens: usize,
) -> Result<(), AllocError> {
    text.extend_from_slice(b"function")?;
    for token in 0..tokens {
        push_span(alloc, text, placed.places.token(function, token))?;
    }
    text.extend_from_slice(b"\n")
}

// The places of a style.
fn places(alloc: Global, placed: &PlacedStyle<'_>) -> Result<Vec<u8>, AllocError> {
    let mut text = Vec::new(alloc);
    for function in 0..placed.style.functions() {
        let tokens = placed.style.body(function).len();
        push_function(alloc, &mut text, placed, function, tokens)?;
    }
    for number in 0..placed.style.items().len() {
        text.extend_from_slice(b"item")?;
        push_span(alloc, &mut text, placed.places.item(number))?;
        text.extend_from_slice(b"\n")?;
    }
    Ok(text)
}

// Whether these are the places of a style, and past its last token and its last item there is none.
fn are_places(alloc: Global, placed: &PlacedStyle<'_>, wanted: &[u8]) -> Result<bool, Fault> {
    let functions = placed.style.functions();
    let items = placed.style.items().len();
    let none = placed.places.token(functions, 0).is_none() && placed.places.item(items).is_none();
    Ok(none && places(alloc, placed)?.as_slice() == wanted)
}

// Whether these are the places of the style of a text.
fn has_places(alloc: Global, text: &[u8], wanted: &[u8]) -> Result<bool, Fault> {
    let placed = read_placed_style(alloc, b"s", text)?;
    are_places(alloc, &placed, wanted)
}

// The number of the first row whose style stands elsewhere.
fn first_elsewhere(alloc: Global) -> Result<Option<usize>, Fault> {
    for (number, (text, wanted)) in ROWS.iter().enumerate() {
        if !has_places(alloc, text, wanted)? {
            return Ok(Some(number));
        }
    }
    Ok(None)
}

#[test]
fn tokens_and_items_have_places(rt: HostRuntime) {
    assert!(rt; first_elsewhere(rt.alloc()) == Ok(None));
}
