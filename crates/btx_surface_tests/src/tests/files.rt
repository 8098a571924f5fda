//! Where files come from, and what the `.aux` files of a job say.
ghost use Rattle.std.specs.Prelude.{◌≡◌, [], IfErr, None, OnErr, OnOk};

use crate::tests::texts::fault_letter;
use btx_aux::{AuxJob, End, FetchFault, Finder, History, MemoryFinder, read_aux};
use btx_text::{Failures, Fault};
use std::alloc::Global;

// A finder of the top file alone. It doesn't show its content.
#[derive(Drop)]
struct OneFile {
    // Whether its device fails.
    fails: bool,
    history: History,
    failures: Failures,
}

const TOP: &[u8] = b"job.aux";

// The text of the top file, and what it says: a key, all entries after it, a database and a style.
const AUX: &[u8] = b"\\citation{k,*}\n\\bibdata{d}\n\\bibstyle{s}\n";

// Puts `bytes` in place of what `into` had.
fn fill(into: &mut Vec<u8>, bytes: &[u8]) -> Result<(), FetchFault>
    ensures ok { OnOk result (into.new.items ≡ bytes.now) }
    ensures err { OnErr result (into.new.items ≡ []) }
    ensures fault { IfErr result (λ fault. fault ≡ FetchFault.Memory) }
{
    into.clear();
    match into.extend_from_slice(bytes) {
        Ok(()) => Ok(()),
        Err(_) => Err(FetchFault::Memory),
    }
}

impl Finder for OneFile {
    ghost content = { λ _. None };

    ghost answers = { λ finder. finder.history };

    ghost failures = { λ finder. finder.failures };

    fn fetch(
        &mut self,
        alloc: Global,
        name: &[u8],
        into: &mut Vec<u8>,
    ) -> Result<bool, FetchFault> {
        let is_top = name == TOP;
        let filled = fill(into, if is_top { AUX } else { b"" });
        let answer = match filled {
            _ if self.fails => Err(FetchFault::Device),
            Ok(()) => Ok(is_top),
            Err(fault) => Err(fault),
        };
        let answer = self.history.answer(alloc, name, answer, into);
        self.failures
            .note(matches!(answer, Err(FetchFault::Device)));
        answer
    }
}

// Makes a finder of the top file, whose device fails or doesn't.
fn one_file(alloc: Global, fails: bool) -> OneFile {
    OneFile {
        fails,
        history: History::new(alloc),
        failures: Failures::none(),
    }
}

// A letter for each end.
fn end_letter(end: End) -> u8 {
    match end {
        End::Whole => b'w',
        End::TooManyOpen => b'o',
        End::TopMissing => b'n',
        End::FileLimit => b'l',
    }
}

// A letter for each fault of a fetch.
fn fetch_letter(fault: FetchFault) -> u8 {
    match fault {
        FetchFault::Memory => b'M',
        FetchFault::Device => b'D',
    }
}

// Whether these are one name alone.
fn is_only(names: &[Vec<u8>], name: &[u8]) -> bool {
    match names {
        [only] => only.as_slice() == name,
        _ => false,
    }
}

// The letter of a job's end, in place of `w` a `j` where it is that of the text, read from its one file.
fn job_letter(job: &AuxJob) -> u8 {
    let facts = [
        is_only(job.keys(), b"k"),
        job.all() == Some(1),
        is_only(job.databases(), b"d.bib"),
        job.style() == Some(b"s.bst".as_slice()),
        job.log().len() == 1,
        end_letter(job.end()) == b'w',
    ];
    if facts == [true; 6] {
        b'j'
    } else {
        end_letter(job.end())
    }
}

// The job of this name, read from a finder's files.
fn job_from<F: Finder + Drop>(alloc: Global, finder: F, name: &[u8]) -> Result<AuxJob, Fault> {
    let mut finder = finder;
    read_aux(alloc, &mut finder, name)
}

// A letter for a job, or for a fault.
fn letter(answer: Result<AuxJob, Fault>) -> u8 {
    match answer {
        Ok(job) => job_letter(&job),
        Err(fault) => fault_letter(fault),
    }
}

// The job of files in memory, if they could be kept.
fn job_of(alloc: Global, kept: Result<MemoryFinder, FetchFault>) -> Result<AuxJob, Fault> {
    match kept {
        Ok(finder) => job_from(alloc, finder, TOP),
        Err(fault) => Err(fault.into()),
    }
}

/// The job of the text.
pub fn the_job(alloc: Global) -> Result<AuxJob, Fault> {
    job_of(alloc, MemoryFinder::new(alloc, &PAIRS))
}

// A letter for what a fetch found: `f` for a file of that text, `n` for none.
fn found_letter(facts: [bool; 2]) -> u8 {
    if facts == [true; 2] {
        b'f'
    } else if facts == [false; 2] {
        b'n'
    } else {
        b'x'
    }
}

// A letter for what a fetch of this name answers.
fn fetched(alloc: Global, finder: MemoryFinder, name: &[u8]) -> u8 {
    let mut finder = finder;
    let mut bytes = Vec::new(alloc);
    let found: Result<bool, FetchFault> = finder.fetch(alloc, name, &mut bytes);
    match found {
        Ok(found) => found_letter([found, bytes.as_slice() == AUX]),
        Err(fault) => fetch_letter(fault),
    }
}

// The same of the files in memory, if they could be kept.
fn fetch_kept(alloc: Global, kept: Result<MemoryFinder, FetchFault>, name: &[u8]) -> u8 {
    match kept {
        Ok(finder) => fetched(alloc, finder, name),
        Err(fault) => fetch_letter(fault),
    }
}

// The text of the top file stands after another that has its name first.
const PAIRS: [(&[u8], &[u8]); 2] = [(TOP, b"other"), (TOP, AUX)];

#[test]
fn files(rt: HostRuntime) {
    let alloc = rt.alloc();
    let letters = [
        letter(job_from(alloc, one_file(alloc, false), TOP)),
        letter(job_from(alloc, one_file(alloc, true), TOP)),
        letter(job_from(alloc, one_file(alloc, false), b"none.aux")),
        letter(the_job(alloc)),
        fetch_kept(alloc, MemoryFinder::new(alloc, &PAIRS), TOP),
        fetch_kept(alloc, MemoryFinder::new(alloc, &PAIRS), b"none"),
    ];
    assert!(rt; letters == *b"jdnjfn");
}
