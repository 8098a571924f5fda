//! Libraries as plain texts and numbers, so that a test compares these and holds no library.
use btx_aux::{AuxJob, MemoryFinder, read_aux};
use btx_bib::{End, Library, Message, read_databases};
use btx_bst::{Style, read_style};
use btx_text::log_texts::push_number;
use btx_text::{Fault, LineKind, LogLine};
use std::alloc::{AllocError, Global};

/// What is asked of databases: a style's text and how many fields it has with `crossref`, the cited keys, and how many references keep
/// an entry that isn't cited.
#[derive(Clone, Copy)]
pub struct Asked<'a> {
    /// The style's text.
    pub style: &'a [u8],
    /// How many fields the style has.
    pub fields: u32,
    /// The cited keys, with commas between.
    pub keys: &'a [u8],
    /// How many references keep an entry that isn't cited.
    pub least: u32,
}

/// What is seen of a library.
#[derive(Drop)]
pub struct Seen {
    /// The library as a text.
    pub shown: Vec<u8>,
    /// For each message with a place, a space and how many bytes of its database are before that.
    pub places: Vec<u8>,
    /// How its reading ended.
    pub end: End,
}

// A value and a `;`: a `-` where it is missing.
fn push_value(shown: &mut Vec<u8>, value: Option<&[u8]>) -> Result<(), AllocError> {
    let text = match value {
        Some(value) => value,
        None => b"-",
    };
    shown.extend_from_slice(text)?;
    shown.extend_from_slice(b";")
}

// An entry's key, and a `=` if the style has its type and a `?` if not.
fn push_head(shown: &mut Vec<u8>, library: &Library<'_>, number: usize) -> Result<(), AllocError> {
    shown.extend_from_slice(library.key(number))?;
    let mark: &[u8] = match library.kind(number) {
        Some(_) => b"=",
        None => b"?",
    };
    shown.extend_from_slice(mark)
}

// An entry: its key with the mark of its type, and its values.
fn push_entry(
    shown: &mut Vec<u8>,
    fields: u32,
    library: &Library<'_>,
    number: usize,
) -> Result<(), AllocError> {
    push_head(shown, library, number)?;
    for field in 0..fields {
        push_value(shown, library.value(number, field))?;
    }
    shown.extend_from_slice(b"\n")
}

// A line of the log, an error after a `!`.
fn push_line(shown: &mut Vec<u8>, line: &LogLine) -> Result<(), AllocError> {
    if line.kind() == LineKind::Error {
        shown.extend_from_slice(b"!")?;
    }
    shown.extend_from_slice(line.text())?;
    shown.extend_from_slice(b"\n")
}

// A message as a line of the log.
fn push_message(
    shown: &mut Vec<u8>,
    alloc: Global,
    message: &Message<'_>,
) -> Result<(), AllocError> {
    let line = message.log_line(alloc)?;
    push_line(shown, &line)
}

// The messages of a library as lines of the log.
fn push_messages(
    shown: &mut Vec<u8>,
    alloc: Global,
    library: &Library<'_>,
) -> Result<(), AllocError> {
    for message in library.messages() {
        push_message(shown, alloc, message)?;
    }
    Ok(())
}

// The preamble of a library in brackets.
fn push_preamble(shown: &mut Vec<u8>, library: &Library<'_>) -> Result<(), AllocError> {
    shown.extend_from_slice(b"[")?;
    shown.extend_from_slice(library.preamble().as_bytes())?;
    shown.extend_from_slice(b"]\n")
}

// A library: its entries, its preamble, and its messages.
fn push_library(
    shown: &mut Vec<u8>,
    alloc: Global,
    fields: u32,
    library: &Library<'_>,
) -> Result<(), AllocError> {
    for number in 0..library.len() {
        push_entry(shown, fields, library, number)?;
    }
    push_preamble(shown, library)?;
    push_messages(shown, alloc, library)
}

// The text of a library.
fn library_shown(alloc: Global, fields: u32, library: &Library<'_>) -> Result<Vec<u8>, AllocError> {
    let mut shown = Vec::new(alloc);
    push_library(&mut shown, alloc, fields, library)?;
    Ok(shown)
}

// The place of a message, if it has one.
fn push_spot(places: &mut Vec<u8>, message: &Message<'_>) -> Result<(), AllocError> {
    match message.spot() {
        Some(spot) => push_number(places, b" ", spot.at as u64),
        None => Ok(()),
    }
}

// The places of the messages of a library.
fn places_shown(alloc: Global, library: &Library<'_>) -> Result<Vec<u8>, AllocError> {
    let mut places = Vec::new(alloc);
    for message in library.messages() {
        push_spot(&mut places, message)?;
    }
    Ok(places)
}

// The text of an `.aux` file that cites these keys.
fn aux_text(alloc: Global, keys: &[u8]) -> Result<Vec<u8>, AllocError> {
    let mut text = Vec::from_slice(alloc, b"\\citation{")?;
    push_keys(&mut text, keys)?;
    Ok(text)
}

// The cited keys, and the end of their line.
fn push_keys(text: &mut Vec<u8>, keys: &[u8]) -> Result<(), AllocError> {
    text.extend_from_slice(keys)?;
    text.extend_from_slice(b"}\n")
}

// The job of an `.aux` file.
fn job_of(alloc: Global, top: &[u8]) -> Result<AuxJob, Fault> {
    let mut finder = MemoryFinder::new(alloc, &[(b"job.aux", top)])?;
    read_aux(alloc, &mut finder, b"job.aux")
}

// The job that cites these keys.
fn citing(alloc: Global, keys: &[u8]) -> Result<AuxJob, Fault> {
    let top = aux_text(alloc, keys)?;
    job_of(alloc, &top)
}

// What is seen of a library.
fn seen_in(alloc: Global, fields: u32, library: &Library<'_>) -> Result<Seen, Fault> {
    Ok(Seen {
        shown: library_shown(alloc, fields, library)?,
        places: places_shown(alloc, library)?,
        end: library.end(),
    })
}

// What databases give, with a style and a job. Each of these functions holds one thing that is dear to drop, and has one `?`.
fn seen_with(
    alloc: Global,
    asked: Asked<'_>,
    style: &Style<'_>,
    job: &AuxJob,
    databases: &[(&[u8], &[u8])],
) -> Result<Seen, Fault> {
    let library = read_databases(alloc, style, job, databases, asked.least)?;
    seen_in(alloc, asked.fields, &library)
}

// What databases give, with a style.
fn seen_by(
    alloc: Global,
    asked: Asked<'_>,
    style: &Style<'_>,
    databases: &[(&[u8], &[u8])],
) -> Result<Seen, Fault> {
    let job = citing(alloc, asked.keys)?;
    seen_with(alloc, asked, style, &job, databases)
}

/// Answers what is seen of what the `databases` give to what is asked.
pub fn seen_of(
    alloc: Global,
    asked: Asked<'_>,
    databases: &[(&[u8], &[u8])],
) -> Result<Seen, Fault> {
    let style = read_style(alloc, b"s.bst", asked.style)?;
    seen_by(alloc, asked, &style, databases)
}

/// Shows what the `databases` give to what is asked.
pub fn shown_of(
    alloc: Global,
    asked: Asked<'_>,
    databases: &[(&[u8], &[u8])],
) -> Result<Vec<u8>, Fault> {
    let seen = seen_of(alloc, asked, databases)?;
    Ok(seen.shown)
}
