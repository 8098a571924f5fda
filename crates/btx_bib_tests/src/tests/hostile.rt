//! Databases that were cut or spoilt: each is read.
use super::rows::USUAL_STYLE;
use super::showing::{Asked, seen_of};
use super::usual::entries;
use btx_bib::End;
use btx_tests::texts::spoilt;
use btx_text::Fault;
use std::alloc::Global;

// Whether a database gives a whole library to a job that cites one of its entries, and all.
fn is_read(alloc: Global, text: &[u8]) -> Result<bool, Fault> {
    let asked = Asked {
        style: USUAL_STYLE,
        fields: 0,
        keys: b"c0,*",
        least: 2,
    };
    let seen = seen_of(alloc, asked, &[(b"d.bib".as_slice(), text)])?;
    Ok(seen.end == End::Whole)
}

// Whether each prefix of a database is read.
fn each_cut_is_read(alloc: Global, text: &[u8]) -> Result<bool, Fault> {
    for len in 0..text.len() {
        if !is_read(alloc, &text[..len])? {
            return Ok(false);
        }
    }
    Ok(true)
}

// Whether each prefix of thirty entries is read.
fn cuts_are_read(alloc: Global) -> Result<bool, Fault> {
    let text = entries(alloc, 3)?;
    each_cut_is_read(alloc, &text)
}

#[test]
fn every_cut(rt: HostRuntime) {
    assert!(rt; cuts_are_read(rt.alloc()) == Ok(true));
}

// Whether a database is read that has this byte in the place of another.
fn spoilt_is_read(alloc: Global, text: &[u8], place: usize, byte: u8) -> Result<bool, Fault> {
    let bytes = spoilt(alloc, text, place, byte)?;
    is_read(alloc, &bytes)
}

// Whether a database is read with this byte in each place.
fn each_spoilt_is_read(alloc: Global, text: &[u8], byte: u8) -> Result<bool, Fault> {
    for place in 0..text.len() {
        if !spoilt_is_read(alloc, text, place, byte)? {
            return Ok(false);
        }
    }
    Ok(true)
}

// Whether a database is read with each of these bytes in each place.
fn each_byte_is_read(alloc: Global, text: &[u8], bytes: &[u8]) -> Result<bool, Fault> {
    for byte in bytes {
        if !each_spoilt_is_read(alloc, text, *byte)? {
            return Ok(false);
        }
    }
    Ok(true)
}

// Whether ten entries are read with each of these bytes in each place.
fn spoilt_are_read(alloc: Global) -> Result<bool, Fault> {
    let text = entries(alloc, 1)?;
    each_byte_is_read(alloc, &text, b"{}\"@\0")
}

#[test]
fn every_byte_replaced(rt: HostRuntime) {
    assert!(rt; spoilt_are_read(rt.alloc()) == Ok(true));
}
