//! Literals pushed, joined, exchanged and popped, by words whose letters are calls.
use btx_bst::Callee;
use btx_code::Op;
use btx_code::op::Function;
use btx_stack::{Literal, Literals, Variable};
use btx_text::Text;
use std::alloc::{AllocError, Global};

// Words of calls (`called`), and the literals that they leave (`popped`).
const ROWS: [(&[u8], &[u8]); 18] = [
    (b"1f-lsmxyF", b"f5 3000y 2000x made short lent - f4 -7 "),
    (b"sm*", b"shortmade "),
    (b"ls*", b"lentshort "),
    (b"ml*", b"madelent "),
    (b"ll*", b"lentlent "),
    (b"mlsm**", b"lentshortmade made "),
    (b"sx*l*", b"2009s "),
    (b"s1*", b"-7 short "),
    (b"msm~", b"short made made "),
    (b"lxs~", b"2000x short lent "),
    (b"xy~", b"2000x 3000y "),
    (b"s~", b"short "),
    (b"ms2", b"short short made "),
    (b"x2", b"2000x 2000x "),
    (b"2f2", b"f4 f4 "),
    (b"smxy...", b"short "),
    (b"ms8y=", b"made -8 made "),
    (b"tyt", b"text 3000y text "),
];

// Pushes a string of 2,000 bytes that was made, and one of 3,000 bytes that is moved.
fn push_made(alloc: Global, stack: &mut Literals<'_>) -> Result<bool, AllocError> {
    let bytes = vec![in alloc; b'x'; 2000]?;
    stack.push_made(alloc, &bytes)
}

fn push_moved(alloc: Global, stack: &mut Literals<'_>) -> Result<bool, AllocError> {
    let bytes = vec![in alloc; b'y'; 3000]?;
    Ok(stack.push_moved(Text::owned(bytes)))
}

// Pushes the literal that a letter stands for.
fn pushed<'a>(alloc: Global, stack: &mut Literals<'a>, letter: u8) -> Result<bool, AllocError> {
    match letter {
        b'1' => Ok(stack.push_integer(-7)),
        b'f' => Ok(stack.push_function(Op::Call, 4)),
        b'-' => Ok(stack.push_missing()),
        b'l' => Ok(stack.push_lent(b"lent")),
        b's' => stack.push_short(b"short"),
        b'm' => stack.push_made(alloc, b"made"),
        b't' => stack.push_text(Text::borrowed(b"text")),
        b'x' => push_made(alloc, stack),
        b'y' => push_moved(alloc, stack),
        _ => stack.push(Literal::Function(Callee::User(5))),
    }
}

// Makes the call of a letter that wants a literal on top, if there is one.
fn changed<'a>(alloc: Global, stack: &mut Literals<'a>, letter: u8) -> Result<bool, AllocError> {
    if stack.len() == 0 {
        return Ok(false);
    }
    match letter {
        b'8' => stack.replace_integer(-8),
        b'=' => stack.replace_made(alloc, b"made")?,
        _ => stack.drop_top(),
    }
    Ok(true)
}

// Makes the call that a letter stands for.
fn called<'a>(alloc: Global, stack: &mut Literals<'a>, letter: u8) -> Result<bool, AllocError> {
    match letter {
        b'*' => stack.join(alloc),
        b'~' => stack.swap(alloc),
        b'2' => stack.duplicate(alloc),
        b'8' | b'=' | b'.' => changed(alloc, stack, letter),
        _ => pushed(alloc, stack, letter),
    }
}

// Makes the calls of a word.
fn call_all<'a>(alloc: Global, stack: &mut Literals<'a>, word: &[u8]) -> Result<(), AllocError> {
    for letter in word {
        called(alloc, stack, *letter)?;
    }
    Ok(())
}

// Shows a number after these bytes.
fn show_number(
    alloc: Global,
    shown: &mut Vec<u8>,
    front: &[u8],
    number: i64,
) -> Result<(), AllocError> {
    shown.extend_from_slice(front)?;
    let digits = format!(in alloc; "{number}")?;
    shown.extend_from_slice(digits.as_bytes())
}

// Shows a string, or the length and the first byte of one longer than 1,024 bytes.
fn show_text(alloc: Global, shown: &mut Vec<u8>, text: &[u8]) -> Result<(), AllocError> {
    if text.len() > 1024 {
        show_number(alloc, shown, b"", text.len() as i64)?;
        return shown.extend_from_slice(&text[..1]);
    }
    shown.extend_from_slice(text)
}

// Shows a literal: of a function its number. It is lent, so that no way out drops it.
fn show(
    alloc: Global,
    shown: &mut Vec<u8>,
    literal: &Option<Literal<'_>>,
) -> Result<(), AllocError> {
    match literal {
        Some(Literal::Integer(n)) => show_number(alloc, shown, b"", i64::from(*n)),
        Some(Literal::Text(text)) => show_text(alloc, shown, text.as_bytes()),
        Some(Literal::Function(Callee::User(number))) => {
            show_number(alloc, shown, b"f", i64::from(*number))
        }
        Some(Literal::Function(_)) => shown.extend_from_slice(b"f"),
        Some(Literal::Missing) => shown.extend_from_slice(b"-"),
        None => shown.extend_from_slice(b"none"),
    }
}

fn show_top(
    alloc: Global,
    stack: &mut Literals<'_>,
    shown: &mut Vec<u8>,
) -> Result<(), AllocError> {
    let literal = stack.pop(alloc)?;
    show(alloc, shown, &literal)
}

// The literals of a stack, top first, each before a space.
fn popped(alloc: Global, stack: &mut Literals<'_>) -> Result<Vec<u8>, AllocError> {
    let mut shown = Vec::new(alloc);
    for _ in 0..stack.len() {
        show_top(alloc, stack, &mut shown)?;
        shown.extend_from_slice(b" ")?;
    }
    Ok(shown)
}

// Whether a stack has these literals, which it loses.
fn pops(alloc: Global, stack: &mut Literals<'_>, literals: &[u8]) -> bool {
    match popped(alloc, stack) {
        Ok(shown) => shown.as_slice() == literals,
        Err(_) => false,
    }
}

// What is to hold of a stack.
#[derive(Clone, Copy)]
enum Trial<'t> {
    // It has these literals.
    Pops(&'t [u8]),
    // The lengths of the strings at these depths, from the top on; 0 where none stands.
    Lengths(&'t [usize]),
    // An integer, a missing field and a function stand below the top.
    Literals,
    // It has these literals once its top is given to a variable and pushed again.
    Given(&'t [u8]),
}

// The length of the string `depth` below the top, 0 if none stands there.
fn length_at(stack: &Literals<'_>, depth: usize) -> usize {
    match stack.text_at(depth) {
        Some(text) => text.len(),
        None => 0,
    }
}

// Whether the strings at the depths from the top on have these lengths.
fn has_lengths(stack: &Literals<'_>, lengths: &[usize]) -> bool {
    for (depth, length) in lengths.iter().enumerate() {
        if length_at(stack, depth) != *length {
            return false;
        }
    }
    true
}

// Whether the literals of the word `f-1m` stand below the top.
fn has_literals(stack: &Literals<'_>) -> bool {
    let function = Function {
        op: Op::Call,
        number: 4,
    };
    stack.integer_at(1) == Some(-7)
        && stack.missing_at(2)
        && !stack.missing_at(1)
        && stack.function_at(3) == Some(function)
}

// A string on top given to a variable and pushed again, below it a short string, and then the variable's bytes.
fn give<'a>(
    alloc: Global,
    stack: &mut Literals<'a>,
    variable: &mut Variable<'a>,
) -> Result<(), AllocError> {
    stack.give(alloc, variable, 3000)?;
    called(alloc, stack, b's')?;
    stack.push_variable(alloc, variable)?;
    stack.push_made(alloc, variable.as_bytes())?;
    Ok(())
}

fn given(alloc: Global, stack: &mut Literals<'_>) -> Result<(), AllocError> {
    let mut variable = Variable::new(alloc);
    give(alloc, stack, &mut variable)
}

fn holds(alloc: Global, stack: &mut Literals<'_>, trial: Trial<'_>) -> bool {
    match trial {
        Trial::Pops(literals) => pops(alloc, stack, literals),
        Trial::Lengths(lengths) => has_lengths(stack, lengths),
        Trial::Literals => has_literals(stack),
        Trial::Given(literals) => given(alloc, stack).is_ok() && pops(alloc, stack, literals),
    }
}

// Whether a trial holds of what the calls of a word leave. This function alone holds a stack: each way out of one that does drops it.
fn leaves(alloc: Global, word: &[u8], trial: Trial<'_>) -> bool {
    match Literals::new(alloc) {
        Ok(stack) => leaves_in(alloc, stack, word, trial),
        Err(_) => false,
    }
}

fn leaves_in(alloc: Global, stack: Literals<'static>, word: &[u8], trial: Trial<'_>) -> bool {
    let mut stack = stack;
    call_all(alloc, &mut stack, word).is_ok() && holds(alloc, &mut stack, trial)
}

// The number of the first row whose word doesn't leave its literals, which is that of all where each does.
fn first_wrong_row(alloc: Global, rows: &[(&[u8], &[u8])]) -> usize {
    for (number, (word, literals)) in rows.iter().enumerate() {
        if !leaves(alloc, word, Trial::Pops(literals)) {
            return number;
        }
    }
    rows.len()
}

#[test]
fn words_of_calls(rt: HostRuntime) {
    let row = first_wrong_row(rt.alloc(), &ROWS);
    assert!(rt; row == 18, "row {row}");
}

#[test]
fn strings_below_the_top(rt: HostRuntime) {
    let lengths = Trial::Lengths(&[0, 4, 5, 3000, 2000, 0]);
    assert!(rt; leaves(rt.alloc(), b"xysm1", lengths) == true);
}

#[test]
fn literals_below_the_top(rt: HostRuntime) {
    assert!(rt; leaves(rt.alloc(), b"f-1m", Trial::Literals) == true);
}

#[test]
fn strings_in_variables(rt: HostRuntime) {
    assert!(rt; leaves(rt.alloc(), b"l", Trial::Given(b"lent lent short ")) == true);
    assert!(rt; leaves(rt.alloc(), b"m", Trial::Given(b"made made short ")) == true);
    assert!(rt; leaves(rt.alloc(), b"y", Trial::Given(b"3000y 3000y short ")) == true);
}
