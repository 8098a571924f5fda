//! Words of command lines, with the settings that are read from them or the text of the refusal.
use btx_command::{ABOUT, Refusal, STATUSES, Settings, settings};
use btx_run::Options;
use std::alloc::{AllocError, Global};
use std::process::Abort;
use std::test::Fail;

// What a refusal has, in one text: its status, and its text.
fn refusal_text(alloc: Global, refusal: &Refusal) -> Result<String, AllocError> {
    let (status, text) = (refusal.status(), refusal.text());
    format!(in alloc; "refused {status} {text}")
}

// The options of a run, in one text.
fn options_text(alloc: Global, options: &Options) -> Result<String, AllocError> {
    let (references, budget, mode) = (options.min_crossrefs, options.budget, options.text);
    let line = options.line.get();
    let (entry_max, global_max) = (options.entry_max.get(), options.global_max.get());
    format!(in alloc; "{references} {budget} {mode:?} {line} {entry_max} {global_max}")
}

// Settings in one text: the folder, the job, the name, whether the log isn't printed, and the options.
fn settings_text(alloc: Global, settings: &Settings<'_>) -> Result<String, AllocError> {
    let options = options_text(alloc, &settings.options)?;
    let (directory, job, name) = (settings.directory, settings.job, settings.name);
    let terse = settings.terse;
    format!(in alloc; "{directory} {job} {name} {terse} {options}")
}

// What is answered for words, in one text.
fn text_of(alloc: Global, words: &[String]) -> Result<String, AllocError> {
    match settings(alloc, words) {
        Ok(settings) => settings_text(alloc, &settings),
        Err(refusal) => refusal_text(alloc, &refusal),
    }
}

// The words of a line, the program's name first.
fn words_of(alloc: Global, line: &str) -> Result<Vec<String>, AllocError> {
    let mut words = Vec::new(alloc);
    for word in line.split(' ') {
        words.push(String::from_str(alloc, word)?)?;
    }
    Ok(words)
}

// What is answered for a line of words.
fn answered(alloc: Global, line: &str) -> Result<String, AllocError> {
    let words = words_of(alloc, line)?;
    text_of(alloc, words.as_slice())
}

// What of an answer is given: its text, or a prefix of a longer one.
#[derive(Clone, Copy)]
enum Part {
    Text,
    Front,
}

// A line of words, and what is answered for it.
type Row = (&'static [u8], Part, &'static [u8]);

// Whether this is answered for a line of words.
fn gives(alloc: Global, line: &[u8], part: Part, answer: &[u8]) -> Result<bool, AllocError> {
    let text = answered(alloc, str::from_utf8(line).unwrap_or("no text"))?;
    let text = text.as_bytes();
    Ok(match part {
        Part::Text => text == answer,
        Part::Front => text.starts_with(answer) && text.len() > answer.len(),
    })
}

// Asserts what is answered for each line of words.
fn all_give(rt: &(impl Abort + AllocGlobal), rows: &[Row]) -> Result<(), Fail> {
    for (line, part, answer) in rows {
        assert!(rt; gives(rt.alloc(), line, *part, answer)?);
    }
    Ok(())
}

const WORDS: [Row; 7] = [
    (
        b"bibtex j",
        Part::Text,
        b". j j false 2 1000000000 Bytes 79 250 20000",
    ),
    (
        b"bibtex --dir a/b j.aux --terse",
        Part::Text,
        b"a/b j.aux j true 2 1000000000 Bytes 79 250 20000",
    ),
    (
        b"bibtex j.aux.aux --min-crossrefs 3 --budget=7",
        Part::Text,
        b". j.aux.aux j.aux false 3 7 Bytes 79 250 20000",
    ),
    (
        b"bibtex --text utf8 --line=80 --entry-max 12 --global-max=+34 -- -j",
        Part::Text,
        b". -j -j false 2 1000000000 Utf8 80 12 34",
    ),
    (
        b"bibtex .aux --dir= --text=bytes",
        Part::Text,
        b" .aux  false 2 1000000000 Bytes 79 250 20000",
    ),
    // Each range has both of its ends.
    (
        b"bibtex --min-crossrefs 0 --budget 0 --line 20 --entry-max 1 --global-max 1 j",
        Part::Text,
        b". j j false 0 0 Bytes 20 1 1",
    ),
    (
        b"bibtex --min-crossrefs 2147483647 --budget 1000000000000000 --line 1000 --entry-max 1000000 --global-max 1000000 j",
        Part::Text,
        b". j j false 2147483647 1000000000000000 Bytes 1000 1000000 1000000",
    ),
];

#[test]
fn reads_words(rt: HostRuntime) -> Result<(), Fail> {
    all_give(&rt, &WORDS)
}

// Lines that are mistakes.
const MISTAKES: [&[u8]; 18] = [
    // Numbers past the ends of their ranges, and texts that are no number.
    b"bibtex --min-crossrefs=2147483648 j",
    b"bibtex --budget=1000000000000001 j",
    b"bibtex --budget=x j",
    b"bibtex --budget=-1 j",
    b"bibtex --line=19 j",
    b"bibtex --line=1001 j",
    b"bibtex --entry-max=0 j",
    b"bibtex --entry-max=1000001 j",
    b"bibtex --global-max=0 j",
    b"bibtex --global-max=1000001 j",
    // Values that an option doesn't have.
    b"bibtex --text=utf-8 j",
    b"bibtex --text=UTF8 j",
    b"bibtex --terse=1 j",
    // No job, no such option, an option twice, and one without its value.
    b"bibtex",
    b"bibtex --nope",
    b"bibtex --dir=a",
    b"bibtex --terse --terse j",
    b"bibtex --text j",
];

// Asserts that each line is refused with a text.
fn all_refused(rt: &(impl Abort + AllocGlobal), lines: &[&[u8]]) -> Result<(), Fail> {
    for line in lines {
        assert!(rt; gives(rt.alloc(), line, Part::Front, b"refused 1 error: ")?);
    }
    Ok(())
}

#[test]
fn refuses_mistakes(rt: HostRuntime) -> Result<(), Fail> {
    all_refused(&rt, &MISTAKES)
}

// Want of memory has a status, and no text.
#[test]
fn refuses_without_memory(rt: HostRuntime) {
    let refusal = Refusal::Memory;
    assert!(rt; refusal.status() == 5 && refusal.text().is_empty());
}

// Whether the help says what the program does, and lists the statuses.
fn says_all(alloc: Global) -> Result<bool, AllocError> {
    let help = answered(alloc, "bibtex --help")?;
    let help = help.as_str();
    Ok(help.contains(ABOUT) && help.contains(STATUSES))
}

#[test]
fn helps(rt: HostRuntime) -> Result<(), Fail> {
    assert!(rt; says_all(rt.alloc())?);
    Ok(())
}

// Lines that ask for a text.
const SHOWN: [Row; 3] = [
    (b"bibtex --version", Part::Text, b"refused 0 bibtex 1.0.0\n"),
    (b"bibtex -V", Part::Text, b"refused 0 bibtex 1.0.0\n"),
    (b"bibtex -h", Part::Front, b"refused 0 "),
];

#[test]
fn shows_what_is_asked(rt: HostRuntime) -> Result<(), Fail> {
    all_give(&rt, &SHOWN)
}
