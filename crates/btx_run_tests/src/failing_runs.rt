//! Runs whose devices fail: what they have written then.
use crate::jobs::{AUX, Came, DATABASE, DEVICE, FOUND, File, STYLE, job_of, options, status_of};
use btx_run::{FetchFault, MemoryFinder, Over, run};
use btx_tests::fakes::{Failing, FakeWriter};
use btx_tests::finders::FaultyFinder;
use btx_text::Failures;
use std::alloc::Global;

// A style that writes several lines, one of them long.
const LINES: &[u8] =
    b"ENTRY {title}{}{} FUNCTION {misc}{} READ FUNCTION {f} {\"one\" write$ newline$ newline$ \"aaaaaaaaaaaaaaaaaaaaaaaaaaaaaaaaaaaaaaaa aaaaaaaaaaaaaaaaaaaaaaaaaaaaaaaaaaaaaaaaaaaaaaa\" write$ \" b\" write$} EXECUTE {f}";

const BBL: &[u8] =
    b"one\n\naaaaaaaaaaaaaaaaaaaaaaaaaaaaaaaaaaaaaaaa\n  aaaaaaaaaaaaaaaaaaaaaaaaaaaaaaaaaaaaaaaaaaaaaaa b\n";

const LOG: &[u8] =
    b"The top-level auxiliary file: job.aux\nThe style file: s.bst\nDatabase file #1: d.bib\nEnded: finished, warnings 0, errors 0, steps 9\n";

// How an output takes what it is given: the most bytes at a time, how it fails and at which write.
#[derive(Clone, Copy)]
struct Device {
    most: usize,
    how: Failing,
    at: u64,
}

// A device that takes at most `most` bytes at a time, and fails at no write.
fn sound(most: usize) -> Device {
    failing(most, Failing::Never, 0)
}

// A device that takes at most `most` bytes at a time, and fails at one write.
fn failing(most: usize, how: Failing, at: u64) -> Device {
    Device { most, how, at }
}

// A sink over a device.
fn sink(alloc: Global, device: Device) -> Over<FakeWriter> {
    Over::new(FakeWriter::new(alloc, device.most, device.how, device.at))
}

// What a run has done whose devices may fail: its status, and its outputs. What holds one takes long to prove where a `?` follows, since
// that is a way out on which all of it is dropped.
#[derive(Drop)]
struct Tried {
    status: u8,
    bbl: Over<FakeWriter>,
    log: Over<FakeWriter>,
    // How often the finder was asked, and how often it failed.
    fetches: (u64, u64),
}

// A finder that has failed as often as can be counted, and not last.
const OFTEN: Failures = Failures {
    count: u64::MAX,
    last_failed: false,
};

// Runs a job whose finder fails at one fetch, over two devices.
fn try_job(
    alloc: Global,
    files: &[File<'_>],
    fails_at: u64,
    bbl: Device,
    log: Device,
) -> Result<Tried, FetchFault> {
    let mut finder = FaultyFinder {
        inner: MemoryFinder::new(alloc, files)?,
        fails_at,
        fault: FetchFault::Device,
        fetches: 0,
        failures: OFTEN,
    };
    let mut bbl = sink(alloc, bbl);
    let mut log = sink(alloc, log);
    let report = run(alloc, &mut finder, b"job", &options(9), &mut bbl, &mut log);
    Ok(Tried {
        status: status_of(report),
        bbl,
        log,
        fetches: (finder.fetches, finder.failures.count),
    })
}

// Runs the job of a style over two devices.
fn try_style(alloc: Global, style: &[u8], bbl: Device, log: Device) -> Result<Tried, FetchFault> {
    try_job(alloc, &job_of(AUX, style, DATABASE), u64::MAX, bbl, log)
}

// The output that fails.
#[derive(Clone, Copy)]
enum Side {
    Bbl,
    Log,
}

// Runs the job of several lines, where one output fails at one write.
fn try_side(
    alloc: Global,
    side: Side,
    most: usize,
    how: Failing,
    at: u64,
) -> Result<Tried, FetchFault> {
    let device = failing(most, how, at);
    match side {
        Side::Bbl => try_style(alloc, LINES, device, sound(most)),
        Side::Log => try_style(alloc, LINES, sound(most), device),
    }
}

// Whether an output failed once, was not written to again, and holds a prefix of a text that isn't all of it.
fn is_cut(output: &Over<FakeWriter>, at: u64, whole: &[u8]) -> bool {
    let writer = &output.writer;
    let facts = [
        output.failures.count == 1,
        output.failures.last_failed,
        writer.writes == at.saturating_add(1),
        whole.starts_with(&writer.bytes),
        writer.bytes.len() < whole.len(),
    ];
    facts == [true; 5]
}

// Whether a run stopped at the write at which its `.bbl` fails. The log lacks its last line alone.
fn stops_at_bbl(tried: &Tried, at: u64) -> bool {
    is_cut(&tried.bbl, at, BBL) && tried.log.writer.bytes.as_slice() == FOUND
}

// Whether a run stopped at the write at which its log fails. The `.bbl` is empty before the log's last line, and whole at it.
fn stops_at_log(tried: &Tried, at: u64) -> bool {
    let is_last = tried.log.writer.bytes.len() >= FOUND.len();
    let list = if is_last { BBL } else { b"" };
    is_cut(&tried.log, at, LOG) && tried.bbl.writer.bytes.as_slice() == list
}

// Whether a run wrote all of the list and the log.
fn is_whole(tried: &Tried) -> bool {
    tried.bbl.writer.bytes.as_slice() == BBL && tried.log.writer.bytes.as_slice() == LOG
}

// Whether a run was past the write at which one output fails, which was its next.
fn is_past(tried: &Tried, output: &Over<FakeWriter>, at: u64) -> bool {
    let facts = [
        tried.status == 0,
        output.writer.writes == at,
        is_whole(tried),
    ];
    facts == [true; 3]
}

// What came of a run where one output fails at one write, and the other doesn't.
fn came_of(tried: &Tried, side: Side, at: u64) -> Came {
    let (output, other, stops) = match side {
        Side::Bbl => (&tried.bbl, &tried.log, stops_at_bbl(tried, at)),
        Side::Log => (&tried.log, &tried.bbl, stops_at_log(tried, at)),
    };
    if other.failures.count != 0 {
        Came::Wrong
    } else if is_past(tried, output, at) {
        Came::Past
    } else if stops & (tried.status == DEVICE) {
        Came::BrokenOff
    } else {
        Came::Wrong
    }
}

// The same where the output fails in this way.
fn came(alloc: Global, side: Side, most: usize, how: Failing, at: u64) -> Came {
    match try_side(alloc, side, most, how, at) {
        Ok(tried) => came_of(&tried, side, at),
        Err(_) => Came::Wrong,
    }
}

// Fails one output at one write after another, until the run is past them all: whether it broke off at each as it has to.
fn is_well_failed(alloc: Global, side: Side, most: usize, how: Failing) -> bool {
    for at in 0..1000u64 {
        match came(alloc, side, most, how, at) {
            Came::Past => return true,
            Came::BrokenOff => {}
            Came::Wrong => return false,
        }
    }
    false
}

// The same of each output, each way to fail, and each of these numbers of bytes that it takes at most at a time.
fn are_well_failed(alloc: Global, hows: &[Failing], sizes: &[usize]) -> bool {
    for how in hows {
        for most in sizes {
            if !is_well_failed(alloc, Side::Bbl, *most, *how)
                || !is_well_failed(alloc, Side::Log, *most, *how)
            {
                return false;
            }
        }
    }
    true
}

const HOWS: [Failing; 3] = [Failing::Error, Failing::Zero, Failing::Interrupted];

const SIZES: [usize; 8] = [1, 2, 3, 4, 5, 6, 7, 1000];

#[test]
fn keeps_step(rt: HostRuntime) {
    assert!(rt; are_well_failed(rt.alloc(), &HOWS, &SIZES));
}

// A style that writes a line, warns, and writes another line.
const WARNING: &[u8] =
    b"ENTRY {title}{}{} FUNCTION {misc}{} READ FUNCTION {f} {\"a\" write$ newline$ \"w\" warning$ \"b\" write$ newline$} EXECUTE {f}";

const WARNED: &[u8] =
    b"The top-level auxiliary file: job.aux\nThe style file: s.bst\nDatabase file #1: d.bib\nWarning--w\n";

// What the `.bbl` holds where the log broke off after `log` bytes.
fn list_behind(log: usize) -> &'static [u8] {
    if log < FOUND.len() {
        b""
    } else if log < WARNED.len() {
        b"a\n"
    } else {
        b"a\nb\n"
    }
}

// Whether both outputs of the job that warns broke off in the same step, where the log failed.
fn is_in_step(tried: &Tried) -> bool {
    let list = list_behind(tried.log.writer.bytes.len());
    let facts = [
        tried.status == DEVICE,
        tried.bbl.writer.bytes.as_slice() == list,
    ];
    facts == [true; 2]
}

// Whether they do where the log fails at one write.
fn warns_in_step(alloc: Global, at: u64) -> bool {
    let device = failing(1000, Failing::Error, at);
    match try_style(alloc, WARNING, sound(1000), device) {
        Ok(tried) => is_in_step(&tried),
        Err(_) => false,
    }
}

// How many of ten writes of the log they do at, up to the first at which they don't.
fn warnings_in_step(alloc: Global) -> u64 {
    for at in 0..10u64 {
        if !warns_in_step(alloc, at) {
            return at;
        }
    }
    10
}

// Whether the log of the job that warned ends with the lines of the files, and nothing of the list is written.
fn is_before_the_list(tried: &Tried) -> bool {
    let facts = [
        tried.status == DEVICE,
        tried.bbl.writer.bytes.is_empty(),
        tried.log.writer.bytes.as_slice() == FOUND,
    ];
    facts == [true; 3]
}

// Whether it is so where the list fails at its first write.
fn warns_behind_the_list(alloc: Global) -> bool {
    let device = failing(1000, Failing::Error, 0);
    match try_style(alloc, WARNING, device, sound(1000)) {
        Ok(tried) => is_before_the_list(&tried),
        Err(_) => false,
    }
}

// A warning between two lines of the list is logged only if the first was written, and the second is written only if the warning was logged.
#[test]
fn keeps_step_at_a_warning(rt: HostRuntime) {
    assert!(rt; warns_behind_the_list(rt.alloc()));
    assert!(rt; warnings_in_step(rt.alloc()) == 10);
}

// A job, how often it fetches, and how its run ends.
struct Fetching {
    files: &'static [File<'static>],
    count: u64,
    status: u8,
}

const FETCHING: [Fetching; 5] = [
    Fetching {
        files: &[
            (
                b"job.aux",
                b"\\@input{a.aux}\n\\@input{missing.aux}\n\\citation{k}\n\\bibdata{d}\n\\bibstyle{s}\n",
            ),
            (b"s.bst", STYLE),
            (b"d.bib", DATABASE),
            (b"a.aux", b"\\citation{k}"),
        ],
        count: 5,
        status: 2,
    },
    Fetching {
        files: &[(b"job.aux", AUX), (b"s.bst", STYLE), (b"d.bib", DATABASE)],
        count: 3,
        status: 0,
    },
    Fetching {
        files: &[(b"job.aux", AUX), (b"s.bst", STYLE), (b"d.bib", b"")],
        count: 3,
        status: 0,
    },
    Fetching {
        files: &[(b"job.aux", AUX), (b"s.bst", b""), (b"d.bib", DATABASE)],
        count: 3,
        status: 0,
    },
    Fetching {
        files: &[(b"job.aux", b""), (b"s.bst", STYLE), (b"d.bib", DATABASE)],
        count: 1,
        status: 2,
    },
];

// Whether a run ended so whose finder fails at one fetch, or after the last: the list is begun after the last fetch alone.
fn is_fetched(tried: &Tried, row: &Fetching, fails_at: u64) -> bool {
    let (fetches, failures) = tried.fetches;
    let facts = if fails_at < row.count {
        [
            tried.status == DEVICE,
            fetches == fails_at.saturating_add(1),
            failures == 0,
            tried.bbl.writer.writes == 0,
        ]
    } else {
        [
            tried.status == row.status,
            fetches == row.count,
            failures == u64::MAX,
            true,
        ]
    };
    facts == [true; 4]
}

// Whether the run of a row ends so where its finder fails at one fetch.
fn fetches(alloc: Global, row: &Fetching, fails_at: u64) -> bool {
    match try_job(alloc, row.files, fails_at, sound(9), sound(9)) {
        Ok(tried) => is_fetched(&tried, row, fails_at),
        Err(_) => false,
    }
}

// Fails each fetch of each job in turn, and then none: how many jobs end so, up to the first that doesn't.
fn well_fetched(alloc: Global, rows: &[Fetching]) -> usize {
    for (number, row) in rows.iter().enumerate() {
        for fails_at in 0..row.count.saturating_add(1) {
            if !fetches(alloc, row, fails_at) {
                return number;
            }
        }
    }
    rows.len()
}

#[test]
fn stops_at_a_failing_fetch(rt: HostRuntime) {
    assert!(rt; well_fetched(rt.alloc(), &FETCHING) == 5);
}
