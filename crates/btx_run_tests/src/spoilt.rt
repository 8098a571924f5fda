//! Jobs whose files are cut and changed: each run ends as runs do, and the same files give the same bytes again.
use crate::jobs::Outputs;
use crate::rows::spoilt_rows;
use crate::worked::{Row, run_row, style_of};
use btx_tests::texts::spoilt;
use btx_text::Fault;
use std::alloc::Global;

// Each spoilt job has this budget, since a spoilt style may have a loop that doesn't end.
const BUDGET: u64 = 10_000;

// The bytes that stand in the place of another.
const BYTES: [u8; 4] = [b'{', b'}', b'"', 0];

// The file of a job that is spoilt.
#[derive(Clone, Copy)]
enum File {
    Aux,
    Style,
    Database,
}

// A row whose file has another text.
fn with_text<'a>(row: &Row<'a>, file: File, text: &'a [u8]) -> Row<'a> {
    let row = Row {
        budget: BUDGET,
        ..*row
    };
    match file {
        File::Aux => Row { aux: text, ..row },
        File::Style => Row {
            declared: text,
            text: b"",
            ..row
        },
        File::Database => Row {
            database: text,
            ..row
        },
    }
}

// Whether a run ended as runs do: without a fault, at one of the four statuses.
fn has_ended(ran: &Outputs) -> bool {
    match ran.answer {
        Ok(report) => matches!(report.status, 0 | 2 | 3 | 4),
        Err(_) => false,
    }
}

// Whether a run ended as runs do, and another of the same job wrote and answered the same.
fn are_same(one: &Outputs, other: &Outputs) -> bool {
    let facts = [
        has_ended(one),
        one.answer == other.answer,
        one.bbl.as_slice() == other.bbl.as_slice(),
        one.log.as_slice() == other.log.as_slice(),
    ];
    facts == [true; 4]
}

// Whether another run of the job of a row is the same as one that ended as runs do.
fn is_repeated(alloc: Global, row: &Row<'_>, one: &Outputs) -> Result<bool, Fault> {
    let other = run_row(alloc, row)?;
    Ok(are_same(one, &other))
}

// Whether the job of a row ends so, and again.
fn is_well(alloc: Global, row: &Row<'_>) -> Result<bool, Fault> {
    let one = run_row(alloc, row)?;
    is_repeated(alloc, row, &one)
}

// Whether it does with each of the bytes at one place of a file.
fn is_well_replaced(
    alloc: Global,
    row: &Row<'_>,
    file: File,
    text: &[u8],
    place: usize,
) -> Result<bool, Fault> {
    for byte in BYTES {
        let changed = spoilt(alloc, text, place, byte)?;
        if !is_well(alloc, &with_text(row, file, &changed))? {
            return Ok(false);
        }
    }
    Ok(true)
}

// Whether it does with a file of this text that is cut before each byte, or has another byte there.
fn is_well_spoilt(alloc: Global, row: &Row<'_>, file: File, text: &[u8]) -> Result<bool, Fault> {
    for place in 0..text.len() {
        if !is_well(alloc, &with_text(row, file, &text[..place]))?
            || !is_well_replaced(alloc, row, file, text, place)?
        {
            return Ok(false);
        }
    }
    Ok(true)
}

// Whether it does with each of its three files spoilt.
fn is_well_throughout(alloc: Global, row: &Row<'_>) -> Result<bool, Fault> {
    let style = style_of(alloc, row)?;
    Ok(
        is_well_spoilt(alloc, row, File::Aux, row.aux)?
            && is_well_spoilt(alloc, row, File::Style, &style)?
            && is_well_spoilt(alloc, row, File::Database, row.database)?,
    )
}

// How many of the jobs it holds of, up to the first of which it doesn't.
fn well_rows(alloc: Global, rows: &[Row<'_>]) -> Result<usize, Fault> {
    for (number, row) in rows.iter().enumerate() {
        if !is_well_throughout(alloc, row)? {
            return Ok(number);
        }
    }
    Ok(rows.len())
}

// The same of those from the number `first` on that stand before the number `end`.
fn well_between(alloc: Global, first: usize, end: usize) -> usize {
    match spoilt_rows().get(first..end) {
        Some(rows) => well_rows(alloc, rows).unwrap_or(0),
        None => 0,
    }
}

// A test has a minute. So the twelve jobs are parted among four, by the bytes of their files.
#[test]
fn spoilt_jobs_from_0(rt: HostRuntime) {
    assert!(rt; well_between(rt.alloc(), 0, 3) == 3);
}

#[test]
fn spoilt_jobs_from_3(rt: HostRuntime) {
    assert!(rt; well_between(rt.alloc(), 3, 5) == 2);
}

#[test]
fn spoilt_jobs_from_5(rt: HostRuntime) {
    assert!(rt; well_between(rt.alloc(), 5, 8) == 3);
}

#[test]
fn spoilt_jobs_from_8(rt: HostRuntime) {
    assert!(rt; well_between(rt.alloc(), 8, 12) == 4);
}
