//! Short databases, and their records, worked by hand.
use btx_read::{Row, Rows, StringTable, add_string, put_rows, read_rows, read_short_rows};
use btx_text::log_texts::push_number;
use std::alloc::{AllocError, Global};

// A letter for each kind of record.
const LETTERS: [u8; 7] = *b"cpsef.!";

// Lists a row: its letter, how many bytes are before it and before its end, its line, its name and its text.
fn push_row(listed: &mut Vec<u8>, made: &Rows, row: &Row) -> Result<(), AllocError> {
    listed.push(*LETTERS.get(row.kind as usize).unwrap_or(&b'?'))?;
    push_number(listed, b"", row.start as u64)?;
    push_number(listed, b"-", row.end as u64)?;
    push_number(listed, b":", row.line as u64)?;
    listed.push(b' ')?;
    push_bytes(listed, made, row.name_at, row.name_len)?;
    listed.push(b'=')?;
    push_bytes(listed, made, row.text_at, row.text_len)?;
    listed.extend_from_slice(if row.is_whole { b";" } else { b" too long;" })
}

// Appends the bytes at a place of the room of texts.
fn push_bytes(listed: &mut Vec<u8>, made: &Rows, at: usize, len: usize) -> Result<(), AllocError> {
    for &byte in made.texts.as_slice().iter().skip(at).take(len) {
        listed.push(byte)?;
    }
    Ok(())
}

// The records of a database, listed one after another, where `jan` is known.
fn listed(alloc: Global, text: &[u8]) -> Result<Vec<u8>, AllocError> {
    let mut strings = StringTable::new(alloc);
    add_string(alloc, &mut strings, b"jan", b"January")?;
    let made = read_rows(alloc, b"d.bib", strings, text)?;
    let mut listed = Vec::new(alloc);
    for row in made.rows.as_slice() {
        push_row(&mut listed, &made, row)?;
    }
    Ok(listed)
}

// A row that no record has.
const NO_ROW: Row = Row {
    kind: 7,
    is_whole: false,
    start: 0,
    end: 0,
    line: 0,
    name_at: 0,
    name_len: 0,
    text_at: 0,
    text_len: 0,
};

// The records of a database, of which this number has room, listed one after another: those that have none are `?`.
fn listed_in(alloc: Global, text: &[u8], room: usize, rows: usize) -> Result<Vec<u8>, AllocError> {
    let made = read_short_rows(alloc, b"d.bib", StringTable::new(alloc), text)?;
    let mut put = vec![in alloc; NO_ROW; rows]?;
    put_rows(&made, &mut put.as_mut_slice()[..room.min(rows)]);
    let all = Rows {
        rows: put,
        texts: made.texts,
    };
    let mut listed = Vec::new(alloc);
    for row in all.rows.as_slice() {
        push_row(&mut listed, &all, row)?;
    }
    Ok(listed)
}

// Whether these are the records of a database where `room` of this number of rows may be written.
fn has_in(alloc: Global, text: &[u8], room: usize, rows: usize, expected: &[u8]) -> bool {
    match listed_in(alloc, text, room, rows) {
        Ok(listed) => listed.as_slice() == expected,
        Err(_) => false,
    }
}

// Short rows are put where there is room for them, and no others are touched.
#[test]
fn short_rows_are_put_where_there_is_room(rt: HostRuntime) {
    let alloc = rt.alloc();
    let text = b"@a{k, b = {cd}, e = 1}";
    assert!(rt; has_in(alloc, text, 0, 1, b"?0-0:0 = too long;"));
    assert!(rt;
        has_in(
            alloc,
            text,
            2,
            3,
            b"e0-4:1 a=k;f6-14:1 b=cd;?0-0:0 = too long;"
        )
    );
    assert!(rt;
        has_in(
            alloc,
            text,
            9,
            5,
            b"e0-4:1 a=k;f6-14:1 b=cd;f16-21:1 e=1;.21-22:1 =;?0-0:0 = too long;"
        )
    );
}

// Whether a database has these records.
fn has(alloc: Global, text: &[u8], expected: &[u8]) -> bool {
    match listed(alloc, text) {
        Ok(listed) => listed.as_slice() == expected,
        Err(_) => false,
    }
}

// Every kind of item, one that is repeated, and what is wrong.
#[test]
fn each_item_is_a_record(rt: HostRuntime) {
    let alloc = rt.alloc();
    assert!(rt; has(alloc, b"", b""));
    assert!(rt; has(alloc, b"no item\n", b""));
    assert!(rt;
        has(
            alloc,
            b"x @misc{k,\n a = {b} , c=1}\n@MISC(K)",
            b"e2-9:1 misc=k;f12-19:2 a=b;f22-25:2 c=1;.25-26:2 =;e27-35:3 MISC=K);!35-35:3 =Error--Illegal end of database file--line 3 of file d.bib;"
        )
    );
    assert!(rt;
        has(
            alloc,
            b"@comment{@preamble{\"a\"}\n@string{s = {b}}",
            b"c0-8:1 =;p9-22:1 =a;.22-23:1 =;s24-39:2 s=b;.39-40:2 =;"
        )
    );
    assert!(rt;
        has(
            alloc,
            b"@misc{k, a = {b}\n c = {d}}\n@a{l}",
            b"e0-7:1 misc=k;f9-16:1 a=b;!18-18:2 =Error--I was expecting a , or a }--line 2 of file d.bib;e27-31:3 a=l;.31-32:3 =;"
        )
    );
}

// Values after strings and `#`, squeezed; a field's is trimmed.
#[test]
fn texts_are_those_of_a_run(rt: HostRuntime) {
    let alloc = rt.alloc();
    assert!(rt;
        has(
            alloc,
            b"@string{s = s # \" b\tc \"}@string(S={d} # s)@string{s=s # S # 1}@a{k,m=jan,t= {  e }#s}",
            b"s0-23:1 s= b c ;.23-24:1 =;s24-41:1 S=d;.41-42:1 =;s42-61:1 s=1;.61-62:1 =;e62-66:1 a=k;f67-72:1 m=January;f73-84:1 t=e 1;.84-85:1 =;"
        )
    );
    assert!(rt;
        has(
            alloc,
            b"@string{s={b}}@string{s={c}}@preamble{s # \" \"}",
            b"s0-13:1 s=b;.13-14:1 =;s14-27:1 s=c;.27-28:1 =;p28-45:1 =c ;.45-46:1 =;"
        )
    );
}

// A name and a text lie in the room where the row says.
#[test]
fn rows_show_their_texts(rt: HostRuntime) {
    let alloc = rt.alloc();
    assert!(rt;
        has(
            alloc,
            b"@a{bc, d = efg}",
            b"e0-5:1 a=bc;f7-14:1 d=;.14-15:1 =;"
        )
    );
    assert!(rt;
        has(
            alloc,
            b"@a{bc, def = 12}",
            b"e0-5:1 a=bc;f7-15:1 def=12;.15-16:1 =;"
        )
    );
}

// A field of this many letters, and a string of them.
fn long_database(alloc: Global, letters: usize) -> Result<Vec<u8>, AllocError> {
    let mut text = Vec::new(alloc);
    text.extend_from_slice(b"@string{s={")?;
    for _ in 0..letters {
        text.push(b'x')?;
    }
    text.extend_from_slice(b"}}@a{k,t=s # {y}}")?;
    Ok(text)
}

// How many bytes the texts of a database have, and whether all of them are whole.
fn size(alloc: Global, letters: usize) -> Result<(usize, bool), AllocError> {
    let text = long_database(alloc, letters)?;
    let made = read_rows(alloc, b"d.bib", StringTable::new(alloc), text.as_slice())?;
    let whole = made.rows.as_slice().iter().all(|row| row.is_whole);
    Ok((made.texts.len(), whole))
}

// A text of 1,000,000 bytes is there, a longer one is left out, and the string is then unknown.
#[test]
fn a_text_that_is_too_long_is_left_out(rt: HostRuntime) {
    let alloc = rt.alloc();
    assert!(rt; size(alloc, 999_999) == Ok((2_000_003, true)));
    assert!(rt; size(alloc, 1_000_000) == Ok((1_000_004, false)));
    assert!(rt; size(alloc, 1_000_001) == Ok((5, false)));
}
