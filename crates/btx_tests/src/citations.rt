//! What the `.aux` files of a job say, and files in memory. A helper answers whether a job says what it is to say, so no test holds a job or a finder.
use crate::finders::FaultyFinder;
use crate::texts::joined;
use btx_aux::{AuxJob, End, FetchFault, Finder, MemoryFinder, read_aux};
use btx_text::{Failures, Fault, LineKind, LogLine};
use std::alloc::Global;
use std::test::Fail;

// How many lines, errors and keys a job has, and how its reading ended.
type Counts = (usize, usize, usize, End);

// What a job is to say: keys, each with a semicolon; the log's lines, each with its end and an error after a `!`; and databases, each with a
// semicolon, with the style after a colon.
#[derive(Clone, Copy)]
enum Wanted<'a> {
    // Its keys, its log and its counts.
    Job(&'a [u8], &'a [u8], Counts),
    // Its databases and its style, and the place of `*`.
    Files(&'a [u8], Option<usize>),
    // A key's lowered form, and its place.
    Place(&'a [u8], Option<usize>),
}

// What of a text comes after these names, each with a semicolon; None if it doesn't begin so.
fn behind_names<'a>(text: &'a [u8], names: &[Vec<u8>]) -> Option<&'a [u8]> {
    let mut rest = text;
    for name in names {
        rest = rest.strip_prefix(name.as_slice())?.strip_prefix(b";")?;
    }
    Some(rest)
}

// What of a text comes after a line of a log, with its end; None if it doesn't begin so.
fn behind_line<'a>(text: &'a [u8], line: &LogLine) -> Option<&'a [u8]> {
    let mark = if line.kind() == LineKind::Error {
        b"!".as_slice()
    } else {
        b""
    };
    text.strip_prefix(mark)?
        .strip_prefix(line.text())?
        .strip_prefix(b"\n")
}

// What of a text comes after these lines of a log; None if it doesn't begin so.
fn behind_lines<'a>(text: &'a [u8], lines: &[LogLine]) -> Option<&'a [u8]> {
    let mut rest = text;
    for line in lines {
        rest = behind_line(rest, line)?;
    }
    Some(rest)
}

// Whether nothing is left of a text that began as it was to begin.
fn is_all(rest: Option<&[u8]>) -> bool {
    match rest {
        Some(rest) => rest.is_empty(),
        None => false,
    }
}

// Whether a job has these databases, and this style.
fn has_files(job: &AuxJob, files: &[u8]) -> bool {
    let Some(rest) = behind_names(files, job.databases()) else {
        return false;
    };
    match job.style() {
        Some(style) => rest.strip_prefix(b":") == Some(style),
        None => rest.is_empty(),
    }
}

// How many lines of the log are errors.
fn errors(job: &AuxJob) -> usize {
    let lines = job.log().iter();
    lines.filter(|line| line.kind() == LineKind::Error).count()
}

// Whether a job has these keys and these counts.
fn has_keys(job: &AuxJob, keys: &[u8], counts: Counts) -> bool {
    let found = (job.log().len(), errors(job), job.keys().len(), job.end());
    found == counts && is_all(behind_names(keys, job.keys()))
}

// Whether a job says what it is to say.
fn job_says(job: &AuxJob, wanted: Wanted<'_>) -> bool {
    match wanted {
        Wanted::Job(keys, log, counts) => {
            has_keys(job, keys, counts) && is_all(behind_lines(log, job.log()))
        }
        Wanted::Files(files, all) => has_files(job, files) && job.all() == all,
        Wanted::Place(lowered, place) => job.position(lowered) == place,
    }
}

// Whether the job of a name says that, over a finder.
fn says_over<F: Finder>(
    alloc: Global,
    finder: &mut F,
    name: &[u8],
    wanted: Wanted<'_>,
) -> Result<bool, Fault> {
    match read_aux(alloc, finder, name) {
        Ok(job) => Ok(job_says(&job, wanted)),
        Err(fault) => Err(fault),
    }
}

// A file's name and bytes.
type File<'a> = (&'a [u8], &'a [u8]);

// Whether the job of a name says that, over files in memory.
fn says_named(alloc: Global, files: &[File<'_>], name: &[u8], wanted: Wanted<'_>) -> bool {
    match MemoryFinder::new(alloc, files) {
        Ok(finder) => says_in(alloc, finder, name, wanted),
        Err(_) => false,
    }
}

fn says_in(alloc: Global, finder: MemoryFinder, name: &[u8], wanted: Wanted<'_>) -> bool {
    let mut finder = finder;
    says_over(alloc, &mut finder, name, wanted) == Ok(true)
}

// Whether the job `job.aux` says that, over files in memory.
fn says(alloc: Global, files: &[File<'_>], wanted: Wanted<'_>) -> bool {
    says_named(alloc, files, b"job.aux", wanted)
}

// Whether the job of one file of these bytes says that.
fn top_says(alloc: Global, top: &[u8], wanted: Wanted<'_>) -> bool {
    says(alloc, &[(b"job.aux", top)], wanted)
}

// Whether a job says that whose top file ends in one line for a database and one for a style.
fn lines_say(alloc: Global, lines: &[u8], wanted: Wanted<'_>) -> bool {
    match joined(alloc, &[lines, b"\n\\bibdata{d}\n\\bibstyle{s}\n"]) {
        Ok(top) => top_says(alloc, &top, wanted),
        Err(_) => false,
    }
}

// Files that input one another, one of them given twice.
fn through() -> [File<'static>; 3] {
    [
        (b"a.aux", b"an older file of this name"),
        (
            b"job.aux",
            b"\\@input{a.aux}\n\\citation{k}\n\\bibdata{d}\n\\bibstyle{s}\n",
        ),
        (b"a.aux", b"\\citation{k}\n\\@input{job.aux}\n"),
    ]
}

const PARTS: &[u8] = b"\\citation{a,B}\n\\citation{*,c}\n\\bibdata{x,y.bib}";

// The log of these lines: a second one for databases follows.
fn two_bibdata() -> &'static [u8] {
    b"The top-level auxiliary file: job.aux\n!Error--Illegal, another \\bibdata command--line 4 of file job.aux\n"
}

// Whether these lines' job says that.
fn parts_say(alloc: Global, wanted: Wanted<'_>) -> bool {
    lines_say(alloc, PARTS, wanted)
}

#[test]
fn gives_each_part(rt: HostRuntime) {
    let job = Wanted::Job(b"a;B;c;", two_bibdata(), (2, 1, 3, End::Whole));
    assert!(rt; parts_say(rt.alloc(), job) == true);
    let files = Wanted::Files(b"x.bib;y.bib;:s.bst", Some(2));
    assert!(rt; parts_say(rt.alloc(), files) == true);
}

// Whether the key of a lowered form has this place among the keys of these lines.
fn stands(alloc: Global, lowered: &[u8], place: Option<usize>) -> bool {
    top_says(alloc, PARTS, Wanted::Place(lowered, place))
}

#[test]
fn finds_keys_by_their_lowered_forms(rt: HostRuntime) {
    assert!(rt; stands(rt.alloc(), b"b", Some(1)) == true);
    assert!(rt; stands(rt.alloc(), b"c", Some(2)) == true);
    assert!(rt; stands(rt.alloc(), b"B", None) == true);
}

// The log of an empty top file.
fn all_missing() -> &'static [u8] {
    b"The top-level auxiliary file: job.aux\n!Error--I found no \\citation commands\n!Error--I found no \\bibdata command\n!Error--I found no \\bibstyle command\n"
}

// Whether the job of a name says that, over an empty `job.aux`.
fn empty_says(alloc: Global, name: &[u8], wanted: Wanted<'_>) -> bool {
    says_named(alloc, &[(b"job.aux", b"")], name, wanted)
}

#[test]
fn logs_what_is_missing(rt: HostRuntime) {
    let job = Wanted::Job(b"", all_missing(), (4, 3, 0, End::Whole));
    assert!(rt; empty_says(rt.alloc(), b"job.aux", job) == true);
    let nothing = Wanted::Job(b"", b"", (0, 0, 0, End::TopMissing));
    assert!(rt; empty_says(rt.alloc(), b"other.aux", nothing) == true);
    let no_files = Wanted::Files(b"", None);
    assert!(rt; empty_says(rt.alloc(), b"other.aux", no_files) == true);
}

// The log of files that input one another.
fn through_log() -> &'static [u8] {
    b"The top-level auxiliary file: job.aux\nA level-1 auxiliary file: a.aux\n!Error--Already encountered file job.aux--line 2 of file a.aux\n"
}

// What the job of files that input one another says.
fn through_job() -> Wanted<'static> {
    Wanted::Job(b"k;", through_log(), (3, 1, 1, End::Whole))
}

#[test]
fn reads_no_file_twice(rt: HostRuntime) {
    assert!(rt; says(rt.alloc(), &through(), through_job()) == true);
}

// How a read ended whose finder fails: its fault, and how often the finder was asked and failed.
type Tried = (Option<Fault>, u64, u64);

// Reads the files that input one another, where one fetch fails.
fn read_faulty(alloc: Global, inner: MemoryFinder, fault: FetchFault, fails_at: u64) -> Tried {
    let mut finder = FaultyFinder {
        inner,
        fails_at,
        fault,
        fetches: 0,
        failures: Failures::none(),
    };
    let answer = says_over(alloc, &mut finder, b"job.aux", through_job());
    (answer.err(), finder.fetches, finder.failures.count)
}

// Reads them so over files in memory. Without memory for these nothing is fetched.
fn try_faulty(alloc: Global, fault: FetchFault, fails_at: u64) -> Tried {
    match MemoryFinder::new(alloc, &through()) {
        Ok(inner) => read_faulty(alloc, inner, fault, fails_at),
        Err(_) => (None, 0, 0),
    }
}

// Whether `fault` at a fetch ends the reading as `met`, with so many failures of the device. Two files are fetched: at a third fetch it isn't met.
fn is_met(alloc: Global, fault: FetchFault, met: Fault, failures: u64) -> bool {
    try_faulty(alloc, fault, 0) == (Some(met), 1, failures)
        && try_faulty(alloc, fault, 1) == (Some(met), 2, failures)
        && try_faulty(alloc, fault, 2) == (None, 2, 0)
}

#[test]
fn stops_at_a_fault_of_a_fetch(rt: HostRuntime) {
    assert!(rt; is_met(rt.alloc(), FetchFault::Device, Fault::Device, 1));
    assert!(rt; is_met(rt.alloc(), FetchFault::Memory, Fault::Memory, 0));
}

// Fetches one of the files that input one another.
fn fetch(alloc: Global, name: &[u8], into: &mut Vec<u8>) -> Result<bool, FetchFault> {
    let mut finder = MemoryFinder::new(alloc, &through())?;
    finder.fetch(alloc, name, into)
}

// Whether a file is fetched, or isn't there, and these bytes stand in place of what was there.
fn fetches(alloc: Global, name: &[u8], is_found: bool, bytes: &[u8], into: &mut Vec<u8>) -> bool {
    fetch(alloc, name, into) == Ok(is_found) && into.as_slice() == bytes
}

// Whether the later of two files of a name is fetched, and none whose name has another case.
fn both_hold(alloc: Global, into: &mut Vec<u8>) -> bool {
    let bytes = b"\\citation{k}\n\\@input{job.aux}\n";
    fetches(alloc, b"a.aux", true, bytes, into) && fetches(alloc, b"A.aux", false, b"", into)
}

#[test]
fn fetches_from_memory(rt: HostRuntime) -> Result<(), Fail> {
    let mut into = Vec::from_slice(rt.alloc(), b"what was there")?;
    assert!(rt; both_hold(rt.alloc(), &mut into) == true);
    Ok(())
}

// Whether a fault says this.
fn reads(alloc: Global, fault: FetchFault, text: &str) -> bool {
    match fault.to_string(alloc) {
        Ok(found) => found.as_bytes() == text.as_bytes(),
        Err(_) => false,
    }
}

#[test]
fn says_what_failed(rt: HostRuntime) {
    assert!(rt; reads(rt.alloc(), FetchFault::Device, "device error") == true);
    assert!(rt; reads(rt.alloc(), FetchFault::Memory, "out of memory") == true);
}
