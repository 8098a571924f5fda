//! A database of two hundred entries of usual types.
use super::rows::{TEN_ENTRIES, TEN_GIVEN, USUAL_STYLE};
use super::showing::{Asked, shown_of};
use btx_text::Fault;
use std::alloc::{AllocError, Global};

// A text with these digits in the place of each `%`.
fn push_with_digits(whole: &mut Vec<u8>, digits: &[u8], text: &[u8]) -> Result<(), AllocError> {
    for byte in text {
        match *byte {
            b'%' => whole.extend_from_slice(digits)?,
            other => whole.push(other)?,
        }
    }
    Ok(())
}

// A text with a number in the place of each `%`.
fn push_numbered(
    whole: &mut Vec<u8>,
    alloc: Global,
    number: u32,
    text: &[u8],
) -> Result<(), AllocError> {
    let digits = format!(in alloc; "{number}")?;
    push_with_digits(whole, digits.as_bytes(), text)
}

// Some texts, once for each number below this one.
fn push_all(
    whole: &mut Vec<u8>,
    alloc: Global,
    count: u32,
    texts: &[&[u8]],
) -> Result<(), AllocError> {
    for number in 0..count {
        for text in texts {
            push_numbered(whole, alloc, number, text)?;
        }
    }
    Ok(())
}

// Some texts, once for each number below this one, which stands there in the place of each `%`.
fn numbered(alloc: Global, count: u32, texts: &[&[u8]]) -> Result<Vec<u8>, AllocError> {
    let mut whole = Vec::new(alloc);
    push_all(&mut whole, alloc, count, texts)?;
    Ok(whole)
}

/// Makes a database of `count` times ten entries.
pub fn entries(alloc: Global, count: u32) -> Result<Vec<u8>, AllocError> {
    numbered(alloc, count, &TEN_ENTRIES)
}

// What `count` times ten entries are to give, without the preamble.
fn given(alloc: Global, count: u32) -> Result<Vec<u8>, AllocError> {
    numbered(alloc, count, &TEN_GIVEN)
}

// What a database gives to a job that cites all.
fn shown_text(alloc: Global, bytes: &[u8]) -> Result<Vec<u8>, Fault> {
    let asked = Asked {
        style: USUAL_STYLE,
        fields: 6,
        keys: b"*",
        least: 2,
    };
    shown_of(alloc, asked, &[(b"d.bib".as_slice(), bytes)])
}

// What two hundred entries give.
fn found(alloc: Global) -> Result<Vec<u8>, Fault> {
    let text = entries(alloc, 20)?;
    shown_text(alloc, &text)
}

// Whether this is what two hundred entries are to give.
fn is_wanted(alloc: Global, found: &[u8]) -> Result<bool, Fault> {
    let given = given(alloc, 20)?;
    Ok(found.strip_prefix(given.as_slice()) == Some(b"[xxxxxxxxxxxxxxxxxxxx]\n".as_slice()))
}

// Whether two hundred entries give what they are to give.
fn is_right(alloc: Global) -> Result<bool, Fault> {
    let found = found(alloc)?;
    is_wanted(alloc, &found)
}

#[test]
fn two_hundred_entries(rt: HostRuntime) {
    assert!(rt; is_right(rt.alloc()) == Ok(true));
}
