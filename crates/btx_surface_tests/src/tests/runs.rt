//! Runs.
use btx_run::{
    End, FetchFault, Finder, KeptBytes, Limit, LineLength, MemoryFinder, Options, Over, Report,
    RunFault, Sink, SinkFault, TextMode, run,
};
use std::alloc::Global;

// A letter for each limit.
fn limit_letter(limit: Limit) -> u8 {
    match limit {
        Limit::Literals => b'l',
        Limit::Calls => b'c',
        Limit::Loops => b'o',
        Limit::String => b's',
        Limit::File => b'f',
        Limit::Files => b'i',
    }
}

// A letter for each end.
fn end_letter(end: End) -> u8 {
    match end {
        End::Finished => b'F',
        End::Stopped => b'S',
        End::Limit(limit) => limit_letter(limit),
        End::NoTopFile => b'N',
    }
}

// The letter of an end, and five numbers: the status, the steps, the greatest number of open bodies, the warnings and the errors.
type Numbers = (u8, [u64; 5]);

// The numbers of a report.
fn numbers_of(report: Report) -> Numbers {
    let Report {
        status,
        end,
        steps,
        deepest,
        warnings,
        errors,
    } = report;
    let numbers = [u64::from(status), steps, deepest as u64, warnings, errors];
    (end_letter(end), numbers)
}

// The numbers of what a run answered.
fn numbers(answer: Result<Report, RunFault>) -> Numbers {
    match answer {
        Ok(report) => numbers_of(report),
        Err(RunFault::Memory) => (b'm', [0; 5]),
        Err(RunFault::Device) => (b'd', [0; 5]),
    }
}

// Runs a job over these files and outputs.
fn try_run<F: Finder, W: Sink, L: Sink>(
    alloc: Global,
    finder: &mut F,
    options: &Options,
    bbl: &mut W,
    log: &mut L,
) -> Numbers {
    numbers(run(alloc, finder, b"job", options, bbl, log))
}

// All that can be asked of a run, with this budget.
fn options_with(budget: u64, kept: KeptBytes) -> Options {
    Options {
        min_crossrefs: 2,
        budget,
        text: TextMode::Utf8,
        line: LineLength::default(),
        entry_max: kept,
        global_max: kept,
    }
}

// Whether a run over this finder writes this list, and comes to these numbers.
fn comes_to(
    alloc: Global,
    finder: MemoryFinder,
    options: &Options,
    list: &[u8],
    (end, numbers): Numbers,
) -> bool {
    let mut finder = finder;
    let mut bbl = Over::new(Vec::new(alloc));
    let mut log = Over::new(Vec::new(alloc));
    let ran = try_run(alloc, &mut finder, options, &mut bbl, &mut log);
    let facts = [
        bbl.writer.as_slice() == list,
        ran.0 == end,
        ran.1 == numbers,
    ];
    facts == [true; 3]
}

// Whether it does over these files, and with this budget.
fn runs_to(
    alloc: Global,
    finder: Result<MemoryFinder, FetchFault>,
    options: &Options,
    list: &[u8],
    numbers: Numbers,
) -> bool {
    match finder {
        Ok(finder) => comes_to(alloc, finder, options, list, numbers),
        Err(_) => false,
    }
}

const FILES: [(&[u8], &[u8]); 3] = [
    (b"job.aux", b"\\citation{k}\n\\bibdata{d}\n\\bibstyle{s}\n"),
    (b"d.bib", b"@misc{k, title = {T}}"),
    (
        b"s.bst",
        b"ENTRY {title}{}{} FUNCTION {misc}{} READ FUNCTION {f} {\"a\" write$ newline$} EXECUTE {f}",
    ),
];

const FINISHED: Numbers = (b'F', [0, 4, 1, 0, 0]);

const STOPPED: Numbers = (b'S', [4, 3, 1, 0, 0]);

const NO_TOP_FILE: Numbers = (b'N', [3, 0, 0, 0, 0]);

// Whether runs of these files finish, are stopped, and end without a top file.
fn end(alloc: Global, kept: KeptBytes) -> bool {
    let (enough, few) = (options_with(4, kept), options_with(3, kept));
    let facts = [
        runs_to(
            alloc,
            MemoryFinder::new(alloc, &FILES),
            &enough,
            b"a\n",
            FINISHED,
        ),
        runs_to(alloc, MemoryFinder::new(alloc, &FILES), &few, b"", STOPPED),
        runs_to(alloc, MemoryFinder::new(alloc, &[]), &few, b"", NO_TOP_FILE),
    ];
    facts == [true; 3]
}

// Whether they do where variables keep 250 bytes.
fn end_with_usual(alloc: Global) -> bool {
    match KeptBytes::new(250) {
        Some(kept) => end(alloc, kept),
        None => false,
    }
}

// How many bytes are kept of a string, and 0 where that is no such number.
fn kept_of(bytes: u32) -> u32 {
    let kept: Option<KeptBytes> = KeptBytes::new(bytes);
    match kept {
        Some(kept) => kept.get(),
        None => 0,
    }
}

// Whether a kept string has 1 to 1,000,000 bytes at most.
fn bounds_kept() -> bool {
    let numbers: [u32; 4] = [
        kept_of(0),
        kept_of(1),
        kept_of(1_000_000),
        kept_of(1_000_001),
    ];
    numbers == [0, 1, 1_000_000, 0]
}

// Whether a fault is printed with these words.
fn is_printed(alloc: Global, fault: RunFault, words: &str) -> bool {
    match fault.to_string(alloc) {
        Ok(text) => text.as_str() == words,
        Err(_) => false,
    }
}

// What a sink answers that takes nothing.
const NOTHING_TAKEN: Result<usize, SinkFault> = Err(SinkFault);

#[test]
fn runs(rt: HostRuntime) {
    let alloc = rt.alloc();
    let facts = [
        bounds_kept(),
        end_with_usual(alloc),
        is_printed(alloc, RunFault::Memory, "out of memory"),
        is_printed(alloc, RunFault::Device, "device error"),
        NOTHING_TAKEN.is_err(),
    ];
    assert!(rt; facts == [true; 5]);
}
