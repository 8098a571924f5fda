//! Runs of the whole language: jobs of a few lines, with all that they write and answer.
use crate::jobs::{DATABASE, STYLE, is_ended, options, run_with};
use crate::worked::{Ends, Row, USUAL, holding};
use btx_run::{End, Report, budget_law, direct_law, steps_law};
use std::alloc::Global;

const CHILDREN: &[u8] =
    b"@misc{c1, title = {One}, crossref = {p}}\n@misc{c2, title = {Two}, crossref = {p}}\n@book{P, booktitle = {Vol}}\n";

const CROSSING: &[u8] = b"ENTRY {title booktitle}{}{} FUNCTION {misc}{} FUNCTION {book}{} READ ";

const SHOWING: &[u8] =
    b"FUNCTION {f} {cite$ write$ \":\" write$ crossref missing$ int.to.str$ write$ \":\" write$ booktitle empty$ {\"-\"} {booktitle} if$ write$ newline$} ITERATE {f}";

// Jobs with accents, parents, names, a database that breaks off, and faulty lines of `.aux` files.
const SPOILT: [Row<'static>; 12] = [
    // A prefix and a length of an accented title.
    Row {
        database: b"@misc{k, title = {{\\\"O}zg{ab}c}}",
        text: b"FUNCTION {f} {title #4 text.prefix$ write$ newline$} ITERATE {f}",
        bbl: b"{\\\"O}zg{a}\n",
        steps: 6,
        ..USUAL
    },
    Row {
        database: b"@misc{k, title = {{\\\"O}zg{ab}c}}",
        text: b"FUNCTION {f} {title text.length$ int.to.str$ write$ newline$} ITERATE {f}",
        bbl: b"6\n",
        steps: 6,
        ..USUAL
    },
    // A comment's braces aren't skipped, and a value is squeezed as a whole.
    Row {
        aux: b"\\citation{K}\n\\bibdata{d}\n\\bibstyle{s}\n",
        database: b"@comment{@misc{k, title = \"a \" # {  b }}}",
        text: b"FUNCTION {f} {cite$ write$ \"=\" write$ title write$ newline$} ITERATE {f}",
        bbl: b"K=a b\n",
        steps: 8,
        ..USUAL
    },
    // A database that breaks off.
    Row {
        database: b"@misc{k, title = {A}, note = \"cu",
        text: b"FUNCTION {f} {title write$ newline$} ITERATE {f}",
        bbl: b"A\n",
        after: b"Error--Illegal end of database file--line 1 of file d.bib\n",
        steps: 4,
        errors: 1,
        ..USUAL
    },
    // A parent that is named once leaves, and one that is named twice stays.
    Row {
        aux: b"\\citation{c1}\n\\bibdata{d}\n\\bibstyle{s}\n",
        database: CHILDREN,
        declared: CROSSING,
        text: SHOWING,
        bbl: b"c1:1:Vol\n",
        steps: 20,
        deepest: 2,
        ..USUAL
    },
    Row {
        aux: b"\\citation{c1,c2}\n\\bibdata{d}\n\\bibstyle{s}\n",
        database: CHILDREN,
        declared: CROSSING,
        text: SHOWING,
        bbl: b"c1:0:Vol\nc2:0:Vol\nP:1:Vol\n",
        steps: 60,
        deepest: 2,
        ..USUAL
    },
    // A key in another case, whitespace in an argument, and one without its end.
    Row {
        aux: b"\\citation{k,K}\n\\bibdata{d}\n\\bibstyle{s}\n",
        before: b"Error--Case mismatch error between cite keys k and K--line 1 of file job.aux\n",
        deepest: 0,
        errors: 1,
        ..USUAL
    },
    Row {
        aux: b"\\citation{k, j}\n\\bibdata{d}\n\\bibstyle{s}\n",
        before: b"Error--White space in argument--line 1 of file job.aux\n",
        deepest: 0,
        errors: 1,
        ..USUAL
    },
    Row {
        aux: b"\\citation{k\n\\bibdata{d}\n\\bibstyle{s}\n",
        before: b"Error--No \"}\"--line 1 of file job.aux\nError--I found no \\citation commands\n",
        deepest: 0,
        errors: 2,
        ..USUAL
    },
    // Names with a hyphen, with an initial, and with a Jr.
    Row {
        text: b"FUNCTION {f} {\"Jean-Paul Sartre\" #1 \"{f.~}{ll}\" format.name$ write$ newline$} EXECUTE {f}",
        bbl: b"J.-P. Sartre\n",
        steps: 7,
        ..USUAL
    },
    Row {
        text: b"FUNCTION {f} {\"D. Knuth\" #1 \"{f.~}{ll}\" format.name$ write$ newline$} EXECUTE {f}",
        bbl: b"D.~Knuth\n",
        steps: 7,
        ..USUAL
    },
    Row {
        text: b"FUNCTION {f} {\"Smith, Jr, John\" #1 \"{ff }{vv }{ll}{, jj}\" format.name$ write$ newline$} EXECUTE {f}",
        bbl: b"John Smith, Jr\n",
        steps: 7,
        ..USUAL
    },
];

/// The jobs whose files are spoilt.
pub fn spoilt_rows() -> &'static [Row<'static>] {
    &SPOILT
}

const TWO_STEPS: &[u8] = b"FUNCTION {f} {#1 pop$} EXECUTE {f}";

const ABC: &[u8] = b"FUNCTION {f} {\"abc\" write$ newline$} EXECUTE {f}";

const NESTED_LOOPS: &[u8] =
    b"INTEGERS {i j} FUNCTION {f} {#2 'i := {i #0 >} {#2 'j := {j #0 >} {\"x\" write$ j #1 - 'j :=} while$ i #1 - 'i :=} while$ newline$} EXECUTE {f}";

/// A style that writes the keys of entries, sorted by their bytes.
pub const SORTED: &[u8] =
    b"FUNCTION {f} {cite$ 'sort.key$ :=} FUNCTION {g} {cite$ write$ newline$} ITERATE {f} SORT ITERATE {g}";

const THREE: &[u8] = b"@misc{a}\n@misc{b}\n@misc{C}\n";

// Jobs with steps and limits, lines of the list, strings and names, messages, and the order of entries.
const ROWS: [Row<'static>; 43] = [
    // A line, and the budget that it takes.
    Row {
        text: b"FUNCTION {f} {\"a\" write$ newline$} EXECUTE {f}",
        bbl: b"a\n",
        steps: 4,
        ..USUAL
    },
    Row {
        text: TWO_STEPS,
        budget: 3,
        steps: 3,
        ..USUAL
    },
    Row {
        text: TWO_STEPS,
        budget: 2,
        ends: Ends::Stopped,
        steps: 2,
        ..USUAL
    },
    Row {
        text: TWO_STEPS,
        budget: 0,
        ends: Ends::Stopped,
        deepest: 0,
        ..USUAL
    },
    // A pending line is not written at a stop.
    Row {
        text: ABC,
        budget: 3,
        ends: Ends::Stopped,
        steps: 3,
        ..USUAL
    },
    Row {
        text: ABC,
        budget: 4,
        bbl: b"abc\n",
        steps: 4,
        ..USUAL
    },
    // A loop that doesn't end, recursion through the stack, and a loop that fills the stack.
    Row {
        text: b"FUNCTION {f} {{#1} {skip$} while$} EXECUTE {f}",
        budget: 100,
        ends: Ends::Stopped,
        steps: 100,
        deepest: 2,
        ..USUAL
    },
    Row {
        text: b"FUNCTION {h} {duplicate$ #1 swap$ 'skip$ if$} FUNCTION {g} {'h h} EXECUTE {g}",
        ends: Ends::Calls,
        steps: 24_573,
        deepest: 4_096,
        ..USUAL
    },
    Row {
        text: b"FUNCTION {f} {{#1} {#7} while$} EXECUTE {f}",
        ends: Ends::Literals,
        steps: 4_006,
        deepest: 2,
        ..USUAL
    },
    // Loops in loops, and a loop whose body is the function of a loop.
    Row {
        text: NESTED_LOOPS,
        budget: 100,
        bbl: b"xxxx\n",
        steps: 100,
        deepest: 3,
        ..USUAL
    },
    Row {
        text: NESTED_LOOPS,
        budget: 99,
        ends: Ends::Stopped,
        steps: 99,
        deepest: 3,
        ..USUAL
    },
    Row {
        text: b"INTEGERS {i} FUNCTION {f} {{i #1 + 'i := {#0} 'skip$ i #3 <} 'while$ while$ pop$ pop$ \"x\" write$ newline$} EXECUTE {f}",
        bbl: b"x\n",
        steps: 48,
        deepest: 2,
        ..USUAL
    },
    // As many loops as may run, and one more.
    Row {
        text: b"INTEGERS {n} FUNCTION {t} {n #1 + 'n := n #4096 < {duplicate$ 'while$ #1} {#0} if$} FUNCTION {f} {'t duplicate$ 'while$ while$ pop$} EXECUTE {f}",
        steps: 126_965,
        deepest: 3,
        ..USUAL
    },
    Row {
        text: b"FUNCTION {t} {duplicate$ 'while$ #1} FUNCTION {f} {'t duplicate$ 'while$ while$} EXECUTE {f}",
        ends: Ends::Loops,
        steps: 20_485,
        deepest: 2,
        ..USUAL
    },
    // Where function literals stand before `if$` alone, no more bodies are open at once than the style has functions: here two of three.
    Row {
        text: b"FUNCTION {f} {#1 { newline$ } 'skip$ if$} EXECUTE {f}",
        budget: 9,
        bbl: b"\n",
        steps: 7,
        deepest: 2,
        ..USUAL
    },
    // A line is broken at its last whitespace, or at all of the first past its length.
    Row {
        text: b"FUNCTION {f} {\"aaaaaaaaaaaaaaaaaaaaaaaaaaaaaaaaaaaaaaaaaaaaaaaaaaaaaaaaaaaaaaaaaaaaaaaaaaaaaaa b\" write$ newline$} EXECUTE {f}",
        bbl: b"aaaaaaaaaaaaaaaaaaaaaaaaaaaaaaaaaaaaaaaaaaaaaaaaaaaaaaaaaaaaaaaaaaaaaaaaaaaaaaa\n  b\n",
        steps: 4,
        ..USUAL
    },
    Row {
        text: b"FUNCTION {f} {\"aaaaaaaaaaaaaaaaaaaaaaaaaaaaaaaaaaaaaaaaaaaaaaaaaaaaaaaaaaaaaaaaaaaaaaaaaaaaaaaa  b\" write$ newline$} EXECUTE {f}",
        bbl: b"aaaaaaaaaaaaaaaaaaaaaaaaaaaaaaaaaaaaaaaaaaaaaaaaaaaaaaaaaaaaaaaaaaaaaaaaaaaaaaaa\n  b\n",
        steps: 4,
        ..USUAL
    },
    Row {
        text: b"FUNCTION {f} {\"aaaaaaaaaaaaaaaaaaaaaaaaaaaaaaaaaaaaaaaaaaaaaaaaaaaaaaaaaaaaaaaaaaaaaaaaaaaaaaaa \" write$ \" b\" write$ newline$} EXECUTE {f}",
        bbl: b"aaaaaaaaaaaaaaaaaaaaaaaaaaaaaaaaaaaaaaaaaaaaaaaaaaaaaaaaaaaaaaaaaaaaaaaaaaaaaaaa\n  b\n",
        steps: 6,
        ..USUAL
    },
    // An empty line is written, and one of whitespace is not.
    Row {
        text: b"FUNCTION {f} {newline$} EXECUTE {f}",
        bbl: b"\n",
        steps: 2,
        ..USUAL
    },
    Row {
        text: b"FUNCTION {f} {\" \" write$ newline$} EXECUTE {f}",
        steps: 4,
        ..USUAL
    },
    // Pieces of a string.
    Row {
        text: b"FUNCTION {f} {\"abcdef\" #-2 #3 substring$ write$ newline$} EXECUTE {f}",
        bbl: b"cde\n",
        steps: 7,
        ..USUAL
    },
    Row {
        text: b"FUNCTION {f} {\"abcdef\" #-2 #10 substring$ write$ newline$} EXECUTE {f}",
        bbl: b"abcde\n",
        steps: 7,
        ..USUAL
    },
    Row {
        text: b"FUNCTION {f} {\"abcdef\" #0 #3 substring$ write$ newline$} EXECUTE {f}",
        bbl: b"\n",
        steps: 7,
        ..USUAL
    },
    // Cases.
    Row {
        text: b"FUNCTION {f} {\"The {TeX}book: A {\\AE}ON\" \"t\" change.case$ write$ newline$} EXECUTE {f}",
        bbl: b"The {TeX}book: A {\\ae}on\n",
        steps: 6,
        ..USUAL
    },
    Row {
        text: b"FUNCTION {f} {\"{\\ss}a\" \"u\" change.case$ write$ newline$} EXECUTE {f}",
        bbl: b"{SS}A\n",
        steps: 6,
        ..USUAL
    },
    // A purified title.
    Row {
        database: b"@misc{k, title = {{\\\"o}sterreich--{\\oe}uvre~1}}",
        text: b"FUNCTION {f} {title purify$ write$ newline$} ITERATE {f}",
        bbl: b"osterreich  oeuvre 1\n",
        steps: 5,
        ..USUAL
    },
    // Widths.
    Row {
        text: b"FUNCTION {f} {\"AB\" width$ int.to.str$ write$ newline$} EXECUTE {f}",
        bbl: b"1458\n",
        steps: 6,
        ..USUAL
    },
    Row {
        text: b"FUNCTION {f} {\"{B}\" width$ int.to.str$ write$ newline$} EXECUTE {f}",
        bbl: b"1708\n",
        steps: 6,
        ..USUAL
    },
    Row {
        text: b"FUNCTION {f} {\"{\\oe}\" width$ int.to.str$ write$ newline$} EXECUTE {f}",
        bbl: b"778\n",
        steps: 6,
        ..USUAL
    },
    // A name of many parts, and how many names there are.
    Row {
        text: b"FUNCTION {f} {\"Charles Louis Xavier Joseph de la Vall{\\'e}e Poussin\" #1 \"{vv~}{ll}{, jj}{, f}?\" format.name$ write$ newline$} EXECUTE {f}",
        bbl: b"de~la Vall{\\'e}e~Poussin, C. L. X.~J?\n",
        steps: 7,
        ..USUAL
    },
    Row {
        text: b"FUNCTION {f} {\"A and {B and C} AND D\" num.names$ int.to.str$ write$ newline$} EXECUTE {f}",
        bbl: b"3\n",
        steps: 6,
        ..USUAL
    },
    Row {
        text: b"FUNCTION {f} {\"\" num.names$ int.to.str$ write$ newline$} EXECUTE {f}",
        bbl: b"0\n",
        steps: 6,
        ..USUAL
    },
    // A key without an entry.
    Row {
        aux: b"\\citation{nope}\n\\bibdata{d}\n\\bibstyle{s}\n",
        after: b"Warning--I didn't find a database entry for \"nope\"\n",
        deepest: 0,
        warnings: 1,
        ..USUAL
    },
    // Literals that are left, and none where one is wanted.
    Row {
        text: b"FUNCTION {f} {#7 \"x\"} EXECUTE {f}",
        after: b"Error--The literal stack isn't empty while executing EXECUTE\n\"x\"\n7\n",
        steps: 3,
        errors: 1,
        ..USUAL
    },
    Row {
        text: b"FUNCTION {f} {+ pop$} EXECUTE {f}",
        after: b"Error--You can't pop an empty literal stack while executing +\nError--You can't pop an empty literal stack while executing +\n",
        steps: 3,
        errors: 2,
        ..USUAL
    },
    // No function for a branch, and no entry.
    Row {
        text: b"FUNCTION {f} {#1 'skip$ \"x\" if$} EXECUTE {f}",
        after: b"Error--\"x\" is not a function while executing if$\n",
        steps: 5,
        errors: 1,
        ..USUAL
    },
    Row {
        text: b"FUNCTION {f} {cite$} EXECUTE {f}",
        after: b"Error--You can't mess with entries here while executing cite$\n",
        steps: 2,
        errors: 1,
        ..USUAL
    },
    // An overflow.
    Row {
        text: b"FUNCTION {f} {#2147483647 #1 + int.to.str$ write$ newline$} EXECUTE {f}",
        bbl: b"0\n",
        steps: 7,
        after: b"Error--Integer overflow while executing +\n",
        errors: 1,
        ..USUAL
    },
    // An unknown function, and a style that breaks off.
    Row {
        text: b"FUNCTION {f} {nosuch \"a\" write$ newline$} EXECUTE {f}",
        bbl: b"a\n",
        after: b"Error--nosuch is an unknown function--line 1 of file s.bst\n",
        steps: 4,
        errors: 1,
        ..USUAL
    },
    Row {
        text: b"FUNCTION {f} {\"a\"",
        after: b"Error--Illegal end of style file--line 1 of file s.bst\n",
        deepest: 0,
        errors: 1,
        ..USUAL
    },
    // Entries sorted by their keys' bytes, and from the last to the first.
    Row {
        aux: b"\\citation{b,a,C}\n\\bibdata{d}\n\\bibstyle{s}\n",
        database: THREE,
        text: SORTED,
        bbl: b"C\na\nb\n",
        steps: 24,
        ..USUAL
    },
    Row {
        aux: b"\\citation{b,a,C}\n\\bibdata{d}\n\\bibstyle{s}\n",
        database: THREE,
        text: b"FUNCTION {g} {cite$ write$ newline$} REVERSE {g}",
        bbl: b"C\na\nb\n",
        steps: 12,
        ..USUAL
    },
    // The function of an entry's type, by a command.
    Row {
        text: b"ITERATE {call.type$}",
        steps: 2,
        ..USUAL
    },
];

// How many of the jobs hold, up to the first that doesn't.
fn holding_rows(alloc: Global) -> usize {
    holding(alloc, &ROWS)
}

// The report of a run without a top file.
const NO_TOP: Report = Report {
    status: 3,
    end: End::NoTopFile,
    steps: 0,
    deepest: 0,
    warnings: 0,
    errors: 0,
};

// Whether a run without a top file writes its last line alone.
fn ends_without_top(alloc: Global) -> bool {
    match run_with(
        alloc,
        &[(b"s.bst", STYLE), (b"d.bib", DATABASE)],
        &options(9),
    ) {
        Ok(ran) => is_ended(alloc, &ran, b"", &[], NO_TOP, "no top file"),
        Err(_) => false,
    }
}

#[test]
fn worked_jobs(rt: HostRuntime) {
    // (what is promised of budgets, steps and direct styles has no value, and only has to be callable)
    budget_law();
    steps_law();
    direct_law();
    let alloc = rt.alloc();
    let holding = [holding(alloc, spoilt_rows()), holding_rows(alloc)];
    assert!(rt; holding == [12, 43]);
    assert!(rt; ends_without_top(alloc));
}
