//! What the checker of styles finds, as text: the places where a style may go wrong, and their causes.
use btx_bst::{Callee, PlacedStyle, Style};
use btx_check::description::{Mask, Upper, Value};
use btx_code::Code;
use btx_lint::{Cause, Fault, Finding, Findings, Growth, Operand};
use btx_step::OperandKind;
use btx_text::log_texts::{push_number, push_two};
use btx_where::Place;
use btx_where::notes::Known;
use std::alloc::{AllocError, Global};

// Adds a line of two words and a name to `notes`.
fn push_name(notes: &mut Vec<u8>, word: &[u8], name: &[u8]) -> Result<(), AllocError> {
    push_two(notes, word, name)?;
    notes.extend_from_slice(b"\n")
}

// Adds an integer to `notes`.
fn push_integer(notes: &mut Vec<u8>, number: i64) -> Result<(), AllocError> {
    if number < 0 {
        notes.extend_from_slice(b"-")?;
    }
    push_number(notes, b"", number.unsigned_abs())
}

// The word of a message.
fn fault_word(fault: Fault) -> &'static [u8] {
    match fault {
        Fault::EmptyStack => b"stack",
        Fault::WrongKind => b"kind",
        Fault::Incomparable => b"equal",
        Fault::NotAssignable => b"variable",
        Fault::NoEntry => b"entry",
        Fault::LeftOver => b"left",
    }
}

// The word of what a function wants.
fn wanted_word(wanted: OperandKind) -> &'static [u8] {
    match wanted {
        OperandKind::Integer => b"integer",
        OperandKind::Text => b"text",
        OperandKind::TextOrMissing => b"text-or-missing",
        OperandKind::Function => b"function",
    }
}

// The token at a place that the checker names; none where a command runs a function.
fn token_at(place: btx_check::Place) -> Option<Place> {
    let function = usize::try_from(place.function?).ok()?;
    Some(Place {
        function,
        token: place.token,
    })
}

// Adds a bound of integers, or a hyphen where there is none.
fn push_bound(notes: &mut Vec<u8>, bound: Option<i32>) -> Result<(), AllocError> {
    notes.extend_from_slice(b" ")?;
    match bound {
        None => notes.extend_from_slice(b"-"),
        Some(number) => push_integer(notes, i64::from(number)),
    }
}

// Adds the classes of strings that a literal may be of: a missing field, the empty string, whitespace alone, another string.
fn push_classes(notes: &mut Vec<u8>, mask: Mask) -> Result<(), AllocError> {
    notes.extend_from_slice(b" ")?;
    let classes = [
        (mask.missing, b'm'),
        (mask.empty, b'e'),
        (mask.white, b'w'),
        (mask.full, b'f'),
    ];
    for (is_possible, letter) in classes {
        if is_possible {
            notes.push(letter)?;
        }
    }
    Ok(())
}

// Adds what a literal may be.
fn push_value(notes: &mut Vec<u8>, style: &Style<'_>, value: Value) -> Result<(), AllocError> {
    match value {
        Value::Any => notes.extend_from_slice(b" any"),
        Value::Integer(low, high) => {
            notes.extend_from_slice(b" integer")?;
            push_bound(notes, low)?;
            match high {
                Upper::Counter => push_bound(notes, None),
                Upper::Number(most) => push_bound(notes, most),
            }
        }
        Value::Text(mask) => {
            notes.extend_from_slice(b" text")?;
            push_classes(notes, mask)
        }
        Value::Function(callee) => push_two(notes, b" function ", style.name(callee)),
    }
}

// Adds the field or the variable whose value an operand is.
fn push_owner(notes: &mut Vec<u8>, style: &Style<'_>, operand: &Operand) -> Result<(), AllocError> {
    match operand.name {
        None => Ok(()),
        Some(Callee::Field(field)) => {
            let name = style.name(Callee::Field(field));
            push_name(notes, b"name field ", name)?;
            if matches!(operand.value, Value::Text(mask) if mask.missing) {
                push_name(notes, b"missing ", name)?;
            }
            Ok(())
        }
        Some(variable) => push_name(notes, b"name variable ", style.name(variable)),
    }
}

// Adds the operand that is the reason of a fault.
fn push_operand(
    notes: &mut Vec<u8>,
    style: &Style<'_>,
    operand: &Operand,
) -> Result<(), AllocError> {
    push_number(notes, b"operand ", operand.position as u64)?;
    push_value(notes, style, operand.value)?;
    notes.extend_from_slice(b"\n")?;
    if let Some(wanted) = operand.wanted {
        push_name(notes, b"wants ", wanted_word(wanted))?;
    }
    push_owner(notes, style, operand)
}

// Adds the places of the calls that lead to a finding, the innermost first.
fn push_way(
    known: &Known<'_>,
    way: &[btx_check::Place],
    notes: &mut Vec<u8>,
) -> Result<(), AllocError> {
    let mut word: &[u8] = b"at";
    for place in way.iter().rev() {
        if let Some(token) = token_at(*place) {
            known.note_place(notes, word, token)?;
            word = b"from";
        }
    }
    Ok(())
}

// Adds the types of entries for which a finding was met, and what is known of fields there.
fn push_entries(
    notes: &mut Vec<u8>,
    style: &Style<'_>,
    finding: &Finding,
) -> Result<(), AllocError> {
    for number in finding.types.iter() {
        match *number {
            None => notes.extend_from_slice(b"type\n")?,
            Some(number) => push_name(notes, b"type ", style.name(Callee::User(number)))?,
        }
    }
    for condition in finding.conditions.iter() {
        let word: &[u8] = if condition.is_given {
            b"given "
        } else {
            b"blank "
        };
        push_name(notes, word, style.name(Callee::Field(condition.field)))?;
    }
    Ok(())
}

// Adds the lines on a place where a style may go wrong.
fn push_finding(
    known: &Known<'_>,
    finding: &Finding,
    notes: &mut Vec<u8>,
) -> Result<(), AllocError> {
    let order: &[u8] = if finding.is_first {
        b" first\n"
    } else {
        b" later\n"
    };
    push_two(notes, b"warning ", fault_word(finding.fault))?;
    notes.extend_from_slice(order)?;
    push_name(notes, b"next ", known.style.name(finding.executed))?;
    push_number(notes, b"depth ", finding.literals as u64)?;
    notes.extend_from_slice(b"\n")?;
    if let Some(operand) = &finding.operand {
        push_operand(notes, known.style, operand)?;
    }
    known.note_item(notes, finding.item)?;
    if finding.fault != Fault::LeftOver {
        push_way(known, finding.way.as_slice(), notes)?;
    }
    push_entries(notes, known.style, finding)
}

// Adds by how many literals the stack grows.
fn push_growth(notes: &mut Vec<u8>, growth: Growth) -> Result<(), AllocError> {
    notes.extend_from_slice(b" ")?;
    push_integer(notes, growth.least)?;
    notes.extend_from_slice(b" ")?;
    push_integer(notes, growth.most)
}

// Adds the lines on a cause: an `if$` whose branches leave different numbers of literals.
fn push_cause(known: &Known<'_>, cause: &Cause, notes: &mut Vec<u8>) -> Result<(), AllocError> {
    let Some(token) = token_at(cause.place) else {
        return Ok(());
    };
    known.note_place(notes, b"cause", token)?;
    notes.extend_from_slice(b"grows")?;
    push_growth(notes, cause.yes)?;
    push_growth(notes, cause.no)?;
    notes.extend_from_slice(b"\n")
}

/// Answers the lines on what was found: of each place where the style may go wrong the message, the operand, the way that leads there, the types of entries and
/// what is known of fields; then the causes. There is none where nothing was found.
pub fn note_findings(
    alloc: Global,
    placed: &PlacedStyle<'_>,
    findings: &Findings,
) -> Result<Vec<u8>, AllocError> {
    let mut notes = Vec::new(alloc);
    if findings.found.is_empty() && findings.causes.is_empty() {
        return Ok(notes);
    }
    let style = &placed.style;
    let code = Code::of(alloc, style)?;
    let known = Known {
        style,
        code: &code,
        places: &placed.places,
    };
    for finding in findings.found.iter() {
        push_finding(&known, finding, &mut notes)?;
    }
    for cause in findings.causes.iter() {
        push_cause(&known, cause, &mut notes)?;
    }
    if !findings.is_whole {
        notes.extend_from_slice(b"partial\n")?;
    }
    Ok(notes)
}
