//! A program of one's own over the library: it runs a job whose files are in memory, and prints the reference list. Its exit status is the
//! run's, and 5 after a fault. Copy it and put your own files into the place of these.
#![tactic(auto)]

ghost use Rattle.std.specs.Prelude.{◌≡◌, IfOk, OnErr};
ghost use Rattle.btx_text.specs.declared.element_kind.TextMode.TheVariants.{Utf8};

use btx_run::{
    FetchFault, KeptBytes, LineLength, MemoryFinder, Options, Over, Report, RunFault, TextMode, run,
};
use std::alloc::Global;
use std::process::ExitCode;
use std::str;

// The files of a job: what LaTeX wrote of a document, a style, and a database.
const AUX: &[u8] = b"\\citation{newts}\n\\bibstyle{short}\n\\bibdata{books}\n";

const STYLE: &[u8] = b"ENTRY {author title}{}{}
FUNCTION {book} {\"[\" write$ author #1 \"{l}] {ff~}{ll}: \" format.name$ write$ title write$ \".\" write$ newline$}
READ
ITERATE {call.type$}
";

// The author is Karel Čapek, in UTF-8. One entry alone refers to the second one, which therefore isn't listed.
const DATABASE: &[u8] =
    b"@book{newts, author = {Karel \xC4\x8Capek}, title = {War with the Newts}, crossref = {works}}
@book{works, author = {Karel \xC4\x8Capek}, title = {Works}}
";

// What a run wrote, and what it answered.
#[derive(Drop)]
struct Ran {
    list: Vec<u8>,
    log: Vec<u8>,
    answer: Result<Report, RunFault>,
}

// What can be asked of a run: each option as the program has it by default, but a small budget, and text that is read as UTF-8.
fn options() -> Options
    ensures crossrefs { result.min_crossrefs ≡ 2 }
    ensures budget { result.budget ≡ 1000000 }
    ensures text { result.text ≡ Utf8 }
{
    Options {
        min_crossrefs: 2,
        budget: 1_000_000,
        text: TextMode::Utf8,
        line: LineLength::default(),
        entry_max: KeptBytes::of_entries(),
        global_max: KeptBytes::of_globals(),
    }
}

// Runs the job `paper` over its files in memory.
fn run_paper(alloc: Global) -> Result<Ran, FetchFault> {
    let files: [(&[u8], &[u8]); 3] = [
        (b"paper.aux", AUX),
        (b"short.bst", STYLE),
        (b"books.bib", DATABASE),
    ];
    let mut finder = MemoryFinder::new(alloc, &files)?;
    let mut list = Over::new(Vec::new(alloc));
    let mut log = Over::new(Vec::new(alloc));
    let answer = run(
        alloc,
        &mut finder,
        b"paper",
        &options(),
        &mut list,
        &mut log,
    );
    Ok(Ran {
        list: list.writer,
        log: log.writer,
        answer,
    })
}

// The exit status after a fault.
const AFTER_A_FAULT: u8 = 5;

// The exit status for what a run answered: its report's, or 5 after a fault.
fn status_of(answer: Result<Report, RunFault>) -> u8
    ensures report { IfOk answer (λ report. result ≡ report.status) }
    ensures fault { OnErr answer (result ≡ 5) }
{
    match answer {
        Ok(report) => report.status,
        Err(_) => AFTER_A_FAULT,
    }
}

fn main(rt: HostRuntime) -> ExitCode {
    let Ok(ran) = run_paper(rt.alloc()) else {
        return ExitCode::from(AFTER_A_FAULT);
    };
    match ran.answer {
        Ok(_) => {
            let list = str::from_utf8(ran.list.as_slice()).unwrap_or("the list isn't UTF-8\n");
            let _ = print!(rt; "{list}");
        }
        Err(fault) => {
            let _ = eprintln!(rt; "{fault}");
        }
    }
    ExitCode::from(status_of(ran.answer))
}
