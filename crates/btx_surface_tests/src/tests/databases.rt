//! What databases give to a job.
use crate::tests::files::the_job;
use btx_aux::AuxJob;
use btx_bib::{End, Library, read_databases};
use btx_bst::{Style, read_style};
use btx_text::Fault;
use std::alloc::Global;

const STYLE: &[u8] = b"ENTRY {title note}{}{} FUNCTION {misc}{} READ";

const SOURCES: [(&[u8], &[u8]); 1] = [(
    b"d.bib",
    b"@preamble{{P}} @misc{K, title = {T}, title = {U}}",
)];

// A letter for each end.
fn end_letter(end: End) -> u8 {
    match end {
        End::Whole => b'w',
        End::FileLimit => b'f',
        End::StringLimit => b's',
    }
}

// Whether a library has the one entry of the database, whose key is spelled as it is cited, and the message on its second title.
fn is_library(library: &Library<'_>) -> bool {
    let facts = [
        library.len() == 1,
        library.key(0) == b"k".as_slice(),
        library.kind(0) == Some(0),
        library.value(0, 1) == Some(b"T".as_slice()),
        library.value(0, 2).is_none(),
        library.preamble().as_bytes() == b"P".as_slice(),
        library.messages().len() == 1,
        end_letter(library.end()) == b'w',
    ];
    facts == [true; 8]
}

// Whether what was read is that library.
fn is_read(library: Result<Library<'_>, Fault>) -> bool {
    match library {
        Ok(library) => is_library(&library),
        Err(_) => false,
    }
}

// Whether the database gives that to a job and its style.
fn gives<'x>(alloc: Global, style: &Style<'x>, job: &'x AuxJob) -> bool {
    is_read(read_databases(alloc, style, job, &SOURCES, 2))
}

// Whether it gives that to the style's text and a job.
fn gives_for(alloc: Global, job: &AuxJob) -> bool {
    match read_style(alloc, b"s.bst", STYLE) {
        Ok(style) => gives(alloc, &style, job),
        Err(_) => false,
    }
}

// Whether it gives that to this job.
fn gives_to(alloc: Global, job: Result<AuxJob, Fault>) -> bool {
    match job {
        Ok(job) => gives_for(alloc, &job),
        Err(_) => false,
    }
}

#[test]
fn libraries(rt: HostRuntime) {
    let alloc = rt.alloc();
    assert!(rt; gives_to(alloc, the_job(alloc)));
}
