//! The words of a command line, and exit statuses.
use btx_command::{Refusal, Settings, exit_status, settings};
use btx_run::{End, Options, Report, RunFault, TextMode};
use std::alloc::{AllocError, Global};

// Adds the words of a line.
fn add_words(alloc: Global, words: &mut Vec<String>, line: &str) -> Result<(), AllocError> {
    for word in line.split(' ') {
        words.push(String::from_str(alloc, word)?)?;
    }
    Ok(())
}

// Whether options are those that a line asks for where it names none but the budget.
fn are_usual(options: Options, budget: u64) -> bool {
    let Options {
        min_crossrefs,
        budget: steps,
        text,
        line,
        entry_max,
        global_max,
    } = options;
    let numbers = [min_crossrefs, line.get(), entry_max.get(), global_max.get()];
    let facts = [
        numbers == [2, 79, 250, 20_000],
        steps == budget,
        text == TextMode::Bytes,
    ];
    facts == [true; 3]
}

// What a line asks for: the letter `s` where it has these settings, and the status of its refusal with whether that has a text.
fn asked(answer: Result<Settings<'_>, Refusal>) -> (u8, bool) {
    match answer {
        Ok(
            Settings {
                directory,
                job,
                name,
                terse,
                options,
            },
        ) => {
            let facts = [
                directory == "d",
                job == "j.aux",
                name == "j",
                terse,
                are_usual(options, 7),
            ];
            (b's', facts == [true; 5])
        }
        Err(refusal) => (refusal.status(), !refusal.text().is_empty()),
    }
}

// What is asked for by a line of words.
fn asked_by(alloc: Global, line: &str) -> (u8, bool) {
    let mut words = Vec::new(alloc);
    match add_words(alloc, &mut words, line) {
        Ok(()) => asked(settings(alloc, words.as_slice())),
        Err(_) => (b'm', false),
    }
}

// What a run answered that was stopped.
const STOPPED: Result<Report, RunFault> = Ok(Report {
    status: 4,
    end: End::Stopped,
    steps: 3,
    deepest: 1,
    warnings: 0,
    errors: 0,
});

// Whether each answer has its status.
fn have_statuses() -> bool {
    let statuses: [u8; 3] = [
        exit_status(&STOPPED),
        exit_status(&Err(RunFault::Memory)),
        exit_status(&Err(RunFault::Device)),
    ];
    statuses == [4, 5, 6]
}

#[test]
fn command(rt: HostRuntime) {
    let alloc = rt.alloc();
    let facts = [
        asked_by(alloc, "bibtex --dir d --budget 7 --terse j.aux") == (b's', true),
        asked_by(alloc, "bibtex --help") == (0, true),
        asked_by(alloc, "bibtex --min-crossrefs -1 j") == (1, true),
        asked(Err(Refusal::Memory)) == (5, false),
        have_statuses(),
    ];
    assert!(rt; facts == [true; 5]);
}
