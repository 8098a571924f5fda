//! Runs whose logs are noted: what a notebook is handed.
ghost use Rattle.std.specs.Prelude.{None};

use crate::jobs::{AUX, Came, DATABASE, File, STYLE, job_of, options};
use btx_run::{About, Executed, MemoryFinder, Notebook, Over, run_noted};
use btx_tests::fakes::{Failing, FakeWriter};
use btx_text::{Failures, Fault, LineKind, LogLine};
use std::alloc::Global;

// Keeps the lines, each with byte 10, and for each a letter of where it was met; of an execution also what is executed, for which entry.
#[derive(Drop)]
struct Kept {
    lines: Vec<u8>,
    // How many bytes of them stand before the last line.
    before: usize,
    places: Vec<u8>,
    is_full: bool,
}

impl Kept {
    fn new(alloc: Global) -> Kept {
        Kept {
            lines: Vec::new(alloc),
            before: 0,
            places: Vec::new(alloc),
            is_full: false,
        }
    }

    // Appends a line.
    fn keep_line(&mut self, line: &LogLine) -> Result<(), Fault> {
        self.before = self.lines.len();
        self.lines.extend_from_slice(line.text())?;
        Ok(self.lines.push(b'\n')?)
    }

    // Appends what is executed.
    fn keep_executed(&mut self, executed: &Executed<'_>) -> Result<(), Fault> {
        self.places.extend_from_slice(executed.name)?;
        if let Some(key) = executed.key {
            self.places.push(b'@')?;
            self.places.extend_from_slice(key)?;
        }
        Ok(())
    }

    // Appends where a line was met, of which kind.
    fn keep_place(&mut self, kind: LineKind, about: About<'_>) -> Result<(), Fault> {
        self.places.push(kind_letter(kind))?;
        let place = match about {
            About::Execution(executed) => return self.keep_executed(&executed),
            About::Files => b'F',
            About::Style(_) => b'S',
            About::Databases(_) => b'D',
            About::End => b'E',
        };
        Ok(self.places.push(place)?)
    }

    fn keep(&mut self, line: &LogLine, about: About<'_>) -> Result<(), Fault> {
        self.keep_line(line)?;
        self.keep_place(line.kind(), about)
    }
}

// A letter for a kind of line.
fn kind_letter(kind: LineKind) -> u8 {
    match kind {
        LineKind::Plain => b' ',
        LineKind::Warning => b'?',
        LineKind::Error => b'!',
    }
}

impl Notebook for Kept {
    ghost noted = { λ _. None };

    ghost handed = { λ _. None };

    fn note(&mut self, line: &LogLine, about: About<'_>) {
        if self.keep(line, about).is_err() {
            self.is_full = true;
        }
    }
}

// What a notebook kept of a run, and what the log's device took.
#[derive(Drop)]
struct NotedRun {
    kept: Kept,
    log: Over<FakeWriter>,
    is_ok: bool,
}

// Runs a job whose log's device fails at one write, if at all.
fn run_and_note(
    alloc: Global,
    files: &[File<'_>],
    how: Failing,
    at: u64,
) -> Result<NotedRun, Fault> {
    let mut finder = MemoryFinder::new(alloc, files)?;
    let mut bbl = Over::new(Vec::new(alloc));
    let mut log = Over {
        writer: FakeWriter::new(alloc, 7, how, at),
        failures: Failures::none(),
    };
    let mut kept = Kept::new(alloc);
    let options = options(99);
    let answer = run_noted(
        alloc,
        &mut finder,
        b"job",
        &options,
        &mut bbl,
        &mut log,
        &mut kept,
    );
    Ok(NotedRun {
        kept,
        log,
        is_ok: answer.is_ok(),
    })
}

// A job's `.aux` file, style and database, and where the lines of its log are met.
type Row = (&'static [u8], &'static [u8], &'static [u8], &'static [u8]);

// Whether a run's log is what was noted, line by line, and the lines were met at these places.
fn is_noted(ran: &NotedRun, places: &[u8]) -> bool {
    let facts = [
        ran.is_ok,
        !ran.kept.is_full,
        ran.log.writer.bytes.as_slice() == ran.kept.lines.as_slice(),
        ran.kept.places.as_slice() == places,
    ];
    facts == [true; 4]
}

// Whether it is so of a row's run.
fn notes(alloc: Global, (aux, style, database, places): Row) -> bool {
    match run_and_note(alloc, &job_of(aux, style, database), Failing::Never, 0) {
        Ok(ran) => is_noted(&ran, places),
        Err(_) => false,
    }
}

// How many of the rows it is so of, up to the first of which it isn't.
fn noted_rows(alloc: Global, rows: &[Row]) -> usize {
    for (number, row) in rows.iter().enumerate() {
        if !notes(alloc, *row) {
            return number;
        }
    }
    rows.len()
}

// A job with an error in its `.aux` file.
const BAD_AUX: &[u8] = b"\\citation{k}\n\\bibdata{d}\n\\bibdata{e}\n\\bibstyle{s}\n";

// A style with an error in its text, and one whose function warns and errs for an entry and leaves a literal.
const BAD_STYLE: &[u8] = b"ENTRY {title}{}{} FUNCTION {misc}{} READ STRUNG {f}\n";

const BAD_BODY: &[u8] =
    b"ENTRY {title}{}{} FUNCTION {misc}{\"w\" warning$ pop$ #7} READ ITERATE {call.type$}\n";

// A database with an error.
const BAD_DATABASE: &[u8] = b"@misc{k title}\n";

const ROWS: [Row; 5] = [
    (AUX, STYLE, DATABASE, b" F F F E"),
    (BAD_AUX, STYLE, DATABASE, b" F!F F F E"),
    (AUX, BAD_STYLE, DATABASE, b" F F F!S E"),
    (AUX, STYLE, BAD_DATABASE, b" F F F!D E"),
    (
        AUX,
        BAD_BODY,
        DATABASE,
        b" F F F?warning$@k!pop$@k!ITERATE@k ITERATE@k E",
    ),
];

#[test]
fn notes_each_line(rt: HostRuntime) {
    assert!(rt; noted_rows(rt.alloc(), &ROWS) == 5);
}

// What came of a run whose log may fail at a write. If it does, the log is what was noted without its last line, and a prefix of that line.
fn came_of(ran: &NotedRun) -> Came {
    let log = ran.log.writer.bytes.as_slice();
    let lines = ran.kept.lines.as_slice();
    let facts = [
        lines.starts_with(log),
        ran.kept.before <= log.len(),
        ran.is_ok == (log.len() == lines.len()),
    ];
    if facts != [true; 3] {
        Came::Wrong
    } else if ran.is_ok {
        Came::Past
    } else {
        Came::BrokenOff
    }
}

// What comes of one whose log fails at this write.
fn came(alloc: Global, at: u64) -> Came {
    match run_and_note(alloc, &job_of(AUX, BAD_BODY, DATABASE), Failing::Error, at) {
        Ok(ran) => came_of(&ran),
        Err(_) => Came::Wrong,
    }
}

// Fails the log at one write after another, until the run is past them all: whether it broke off at each as it has to.
fn is_well_failed(alloc: Global) -> bool {
    for at in 0..1000u64 {
        match came(alloc, at) {
            Came::Past => return true,
            Came::BrokenOff => {}
            Came::Wrong => return false,
        }
    }
    false
}

#[test]
fn notes_a_line_that_breaks_off(rt: HostRuntime) {
    assert!(rt; is_well_failed(rt.alloc()));
}
