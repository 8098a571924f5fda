//! Texts that tests are made of.
use std::alloc::{AllocError, Global};

// The digit that a byte is in decimal, if it is one.
fn digit_of(byte: u8) -> Option<usize> {
    if byte.is_ascii_digit() {
        return Some(usize::from(byte.wrapping_sub(b'0')));
    }
    None
}

/// Makes the text that `short` stands for: a byte after a decimal number stands there as often as that says, and any other once.
pub fn text_of(alloc: Global, short: &[u8]) -> Result<Vec<u8>, AllocError> {
    let mut text = Vec::new(alloc);
    let mut count: usize = 0;
    for byte in short {
        match digit_of(*byte) {
            Some(digit) => count = count.saturating_mul(10).saturating_add(digit),
            None => {
                text.extend_from_slice(&vec![in alloc; *byte; count.max(1)]?)?;
                count = 0;
            }
        }
    }
    Ok(text)
}

/// Joins texts, one after the other.
pub fn joined(alloc: Global, texts: &[&[u8]]) -> Result<Vec<u8>, AllocError> {
    let mut whole = Vec::new(alloc);
    for text in texts {
        whole.extend_from_slice(text)?;
    }
    Ok(whole)
}

/// Copies a text with `byte` at `place`, where it has a byte there.
pub fn spoilt(alloc: Global, text: &[u8], place: usize, byte: u8) -> Result<Vec<u8>, AllocError> {
    let mut bytes = Vec::from_slice(alloc, text)?;
    if let Some(old) = bytes.get_mut(place) {
        *old = byte;
    }
    Ok(bytes)
}

/// Repeats a text `count` times.
pub fn repeated(alloc: Global, text: &[u8], count: usize) -> Result<Vec<u8>, AllocError> {
    let mut whole = Vec::new(alloc);
    for _ in 0..count {
        whole.extend_from_slice(text)?;
    }
    Ok(whole)
}

/// Makes the text of `count` functions of a style, `f1` and so on. The first has an empty body, and each other one calls the one before.
pub fn calling_functions(alloc: Global, count: usize) -> Result<Vec<u8>, AllocError> {
    let mut text = Vec::from_slice(alloc, b"FUNCTION {f1} {}")?;
    for before in 1..count {
        let number = before.saturating_add(1);
        let function = format!(in alloc; " FUNCTION {{f{number}}} {{f{before}}}")?;
        text.extend_from_slice(function.as_bytes())?;
    }
    Ok(text)
}
