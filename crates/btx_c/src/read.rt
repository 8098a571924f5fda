//! The call that reads a database.
ghost use Rattle.std.specs.Prelude.{◌≡◌, ◌≤◌, ◌⊎◌, IfOk, fold, length, true, []};
ghost use Rattle.std.specs.List.{flat_map};
ghost use Rattle.btx_text.specs.language.Limits.{is_too_long};
ghost use Rattle.btx_read.specs.Rows.{rows_along, texts_of};
ghost use Rattle.btx_read.specs.ShortRows.{bytes_of_all, rows_from};
ghost use Rattle.btx_c.specs.Outcomes.{filled};
ghost use Rattle.btx_c.specs.Read.{AreRead, Fits, IsFull, filled_rows, handed_strings, records_read, with_handed};

use crate::exports::{DONE, FULL, MEMORY, REFUSED};
use btx_read::{Row, ShortRows, StringTable, add_string, put_rows, read_short_rows};
use btx_text::GREATEST_FILE;
use std::alloc::{AllocError, Global};

/// A string that is known before a database: its name, and its text.
#[repr(C)]
#[derive(Clone, Copy)]
pub struct BtxString<'a> {
    pub name: &'a [u8],
    pub text: &'a [u8],
}

/// How many records a database has, and how many bytes their names and texts.
#[repr(C)]
#[derive(Clone, Copy)]
pub struct BtxSizes {
    pub records: usize,
    pub texts: usize,
}

// Copies rows, as many as `into` has room for.
pub(crate) fn copy_rows(rows: &[Row], into: &mut [Row])
    ensures { into.new ≡ filled_rows into.old rows.now }
{
    let fits = rows.len().min(into.len());
    into[..fits].copy_from_slice(&rows[..fits]);
}

// Copies bytes, as many as `into` has room for.
pub(crate) fn copy_texts(texts: &[u8], into: &mut [u8])
    ensures { into.new ≡ filled into.old texts.now }
{
    let fits = texts.len().min(into.len());
    into[..fits].copy_from_slice(&texts[..fits]);
}

// The strings that were handed in.
fn known<'a>(alloc: Global, strings: &[BtxString<'a>]) -> Result<StringTable<'a>, AllocError>
    ensures { IfOk result (λ known. known ≡ handed_strings strings.now) }
{
    let mut known = StringTable::new(alloc);
    for string in strings {
        add_string(alloc, &mut known, string.name, string.text)?;
    }
    Ok(known)
}

// The short rows of a database, before which these strings were handed in.
fn rows_read<'a>(
    alloc: Global,
    file: &[u8],
    text: &'a [u8],
    strings: &[BtxString<'a>],
) -> Result<ShortRows, AllocError>
    ensures rows { IfOk result (λ made. rows_from 0 made.rows.items ≡ rows_along file.now 0 (records_read strings.now text.now)) }
    ensures count { IfOk result (λ made. length made.rows.items ≡ length (rows_along file.now 0 (records_read strings.now text.now))) }
    ensures bytes { IfOk result (λ made. bytes_of_all made.rows.items ≡ length made.texts.items) }
    ensures texts { IfOk result (λ made. made.texts.items ≡ flat_map (texts_of file.now) (records_read strings.now text.now)) }
{
    let strings = known(alloc, strings)?;
    let made = read_short_rows(alloc, file, strings, text)?;
    Ok(made)
}

/// Reads the database `text`, which is the file `file`, before which these strings are known. Writes its records, as many as there is room for, with their
/// names and texts into `texts`, and how many there are in all into `sizes`.
#[unsafe(no_mangle)]
pub extern "C" fn btx_read<'a>(
    alloc: Global,
    file: &[u8],
    text: &'a [u8],
    strings: &[BtxString<'a>],
    records: &mut [Row],
    texts: &mut [u8],
    sizes: &mut BtxSizes,
) -> u32
    ensures answers { (result ≡ DONE) ⊎ ((result ≡ FULL) ⊎ ((result ≡ REFUSED) ⊎ (result ≡ MEMORY))) }

    // A database that is longer than a file may be is refused, and only such a one.
    ensures refused { result ≡ REFUSED → (is_too_long text.now ≡ true) × ((records.new ≡ records.old) × (texts.new ≡ texts.old) × (sizes.new ≡ sizes.old)) }
    ensures too_long { is_too_long text.now ≡ true → result ≡ REFUSED }
    ensures memory { result ≡ MEMORY → (records.new ≡ records.old) × (texts.new ≡ texts.old) × (sizes.new ≡ sizes.old) }

    // The records are those of the definition, whole or begun.
    ensures done { result ≡ DONE → AreRead file.now (records_read strings.now text.now) (records.old, records.new) (texts.old, texts.new) sizes.new
        × Fits sizes.new records.old texts.old }
    ensures full { result ≡ FULL → AreRead file.now (records_read strings.now text.now) (records.old, records.new) (texts.old, texts.new) sizes.new
        × IsFull sizes.new records.old texts.old }
{
    if text.len() > GREATEST_FILE {
        return REFUSED;
    }
    let Ok(made) = rows_read(alloc, file, text, strings) else {
        return MEMORY;
    };
    put_rows(&made, records);
    copy_texts(made.texts.as_slice(), texts);
    *sizes = BtxSizes {
        records: made.rows.len(),
        texts: made.texts.len(),
    };
    if made.rows.len() > records.len() || made.texts.len() > texts.len() {
        FULL
    } else {
        DONE
    }
}
