//! Small styles with their bounds, worked by hand, and styles that aren't known to end.
use btx_bst::read_style;
use btx_ends::{Bound, check};
use std::alloc::{AllocError, Global};

// What stands before the commands of each style.
const HEAD: &[u8] = b"ENTRY {title}{}{label} INTEGERS {n} STRINGS {s} ";

// The rest of styles that end, a line each.
const ENDING: &[u8] = b"FUNCTION {f} {skip$} READ EXECUTE {f}
FUNCTION {f} {title empty$ 'skip$ {title write$} if$} READ ITERATE {f}
FUNCTION {g} {skip$ skip$} FUNCTION {f} {g g} READ EXECUTE {f} REVERSE {g}
FUNCTION {article} {\"a\" write$} FUNCTION {default.type} {article} READ ITERATE {call.type$}
READ SORT
FUNCTION {f} {#1 {#0 'skip$ {\"a\" write$} if$} 'skip$ if$} READ EXECUTE {f}
FUNCTION {g} {{#0} 'skip$ while$} FUNCTION {f} {skip$} READ EXECUTE {f}
FUNCTION {article} {skip$} FUNCTION {f} {call.type$ call.type$} READ ITERATE {f} ITERATE {f}
FUNCTION {f} {#1 'n swap$ :=} READ EXECUTE {f}
FUNCTION {f} {#3 'n := {n #0 >} {n #1 - 'n :=} while$} READ EXECUTE {f}
FUNCTION {f} {#-3 'n := {n #0 >} {n #1 - 'n :=} while$} READ EXECUTE {f}
FUNCTION {f} {title 's := s num.names$ 'n := {n #0 >} {n #1 - 'n :=} while$} READ ITERATE {f}
INTEGERS {m} FUNCTION {g} {\"a\" write$} FUNCTION {f} {#2 'm := m 'n := {n #0 >} {g #1 'g 'skip$ if$ n #1 - 'n :=} while$} READ EXECUTE {f}
INTEGERS {m} FUNCTION {f} {#2 'n := {n #0 >} {#3 'm := {m #0 >} {m #1 - 'm :=} while$ n #1 - 'n :=} while$} READ REVERSE {f}
FUNCTION {not} {{#0} {#1} if$} FUNCTION {f} {title 's := {s empty$ not} {s #2 global.max$ substring$ 's :=} while$} READ ITERATE {f}
FUNCTION {f} {title 's := {s #1 #1 substring$ \"-\" =} {s #2 global.max$ substring$ 's :=} while$} READ ITERATE {f}
FUNCTION {not} {{#0} {#1} if$} FUNCTION {f} {title 's := \"\" {s empty$ not} {s #1 #1 substring$ \"-\" = {s #1 #2 substring$ \"--\" = not {\"--\" * s #2 global.max$ substring$ 's :=} {{s #1 #1 substring$ \"-\" =} {\"-\" * s #2 global.max$ substring$ 's :=} while$} if$} {s #1 #1 substring$ * s #2 global.max$ substring$ 's :=} if$} while$ pop$} READ ITERATE {f}
FUNCTION {not} {{#0} {#1} if$} FUNCTION {and} {'skip$ {pop$ #0} if$} FUNCTION {or} {{pop$ #1} 'skip$ if$} FUNCTION {f} {title 's := #0 'n := {n not s empty$ not and} {s #1 #1 substring$ duplicate$ \"-\" = swap$ duplicate$ \",\" = swap$ \"+\" = or or {#1 'n :=} {s #2 global.max$ substring$ 's :=} if$} while$} READ ITERATE {f}
FUNCTION {not} {{#0} {#1} if$} FUNCTION {f} {title 's := {s empty$ not} {s #1 #1 substring$ s #2 global.max$ substring$ 's := missing$ 'skip$ {\"\" 's :=} if$} while$} READ ITERATE {f}
FUNCTION {not} {{#0} {#1} if$} FUNCTION {f} {title 's := {s empty$ not} {s #2 global.max$ substring$ 's := {s #1 #1 substring$ \"-\" =} {s #2 global.max$ substring$ 's :=} while$} while$} READ ITERATE {f}
FUNCTION {f} {#3 'n := {n #0 >} {n #0 > {#1 'n :=} 'skip$ if$ n #1 - 'n :=} while$} READ EXECUTE {f}
INTEGERS {m} FUNCTION {f} {#3 'n := {n #0 >} {n #1 - 'n := m #1 - 'm := \"a\" write$} while$} READ EXECUTE {f}
INTEGERS {m} FUNCTION {f} {n #1 + 'n := {n #0 >} {n #1 - 'n :=} while$} READ EXECUTE {f}
FUNCTION {not} {{#0} {#1} if$} FUNCTION {f} {title 's := {s empty$ not} {s #-2 global.max$ substring$ 's :=} while$} READ ITERATE {f}
FUNCTION {not} {{#0} {#1} if$} FUNCTION {and} {'skip$ {pop$ #0} if$} FUNCTION {or} {{pop$ #1} 'skip$ if$} FUNCTION {f} {title 's := {s empty$ not s #1 #1 substring$ \"-\" = not and} {s #2 global.max$ substring$ 's :=} while$} READ ITERATE {f}
INTEGERS {m} FUNCTION {not} {{#0} {#1} if$} FUNCTION {f} {title 's := #1 'n := #2 'm := {s n m substring$ \"\" = not} {n #1 + 'n :=} while$} READ ITERATE {f}
INTEGERS {m} FUNCTION {not} {{#0} {#1} if$} FUNCTION {f} {title 's := #1 'n := #2 'm := {s n m substring$ \"\" = not} {s n m substring$ \"a\" = {n m + 'n :=} {n #1 + 'n :=} if$} while$} READ ITERATE {f}
STRINGS {t} FUNCTION {not} {{#0} {#1} if$} FUNCTION {cut} {'n := duplicate$ #1 #1 substring$ \"\" = {\"\"} {'s := #2 duplicate$ #2 < {pop$ \"\"} {s swap$ global.max$ substring$} if$} if$} FUNCTION {f} {title {duplicate$ \"\" = not} {#1 cut 't := t} while$ pop$} READ ITERATE {f}
STRINGS {t} FUNCTION {not} {{#0} {#1} if$} FUNCTION {cut} {'n := duplicate$ #1 #1 substring$ \"\" = {\"\"} {'s := #2 duplicate$ #2 < {pop$ \"\"} {#1 + s swap$ global.max$ substring$} if$} if$} FUNCTION {f} {title {duplicate$ \"\" = not} {#1 cut 't := t} while$ pop$} READ ITERATE {f}
STRINGS {t} FUNCTION {not} {{#0} {#1} if$} FUNCTION {cut} {'n := duplicate$ #1 #1 substring$ \"\" = {\"\"} {'s := #2 duplicate$ #2 < {pop$ \"\"} {s swap$ global.max$ substring$} if$} if$} FUNCTION {f} {title {duplicate$ \"\" = not} {#1 cut 't := s write$ t} while$ pop$} READ ITERATE {f}
STRINGS {t} FUNCTION {not} {{#0} {#1} if$} FUNCTION {w} {#55} FUNCTION {cut} {'n := duplicate$ #1 #1 substring$ \"\" = {\"\"} {'s := #2 duplicate$ #2 < {pop$ \"\"} {s swap$ global.max$ substring$} if$} if$} FUNCTION {f} {title {duplicate$ \"\" = not} {w cut 't := t} while$ pop$} READ ITERATE {f}
STRINGS {t} FUNCTION {not} {{#0} {#1} if$} FUNCTION {cut} {'n := duplicate$ #1 #1 substring$ \"\" = {\"\"} {'s := n {duplicate$ #0 >} {#1 -} while$ duplicate$ #2 < {pop$ \"\"} {duplicate$ s swap$ #1 swap$ substring$ swap$ s swap$ global.max$ substring$} if$} if$} FUNCTION {f} {title {duplicate$ \"\" = not} {n cut 't := * write$ \"\" t} while$ pop$} READ ITERATE {f}
FUNCTION {not} {{#0} {#1} if$} FUNCTION {f} {title 's := {s #1 #1 substring$ \"\" = not} {s #2 global.max$ substring$ 's :=} while$} READ ITERATE {f}";

// Their bounds: the steps of a run, and for each entry.
const BOUNDS: [(u64, u64); 33] = [
    (2, 0),
    (0, 9),
    (7, 3),
    (0, 5),
    (0, 0),
    (13, 0),
    (2, 0),
    (0, 14),
    (5, 0),
    (47, 0),
    (17, 0),
    (0, 1031),
    (70, 0),
    (0, 175),
    (0, 1623),
    (0, 1421),
    (0, 167164),
    (0, 6272),
    (0, 2835),
    (0, 144740),
    (87, 0),
    (75, 0),
    (21474836499, 0),
    (0, 1623),
    (0, 3542),
    (0, 3832),
    (0, 5842),
    (0, 4290),
    (0, 4494),
    (0, 4494),
    (0, 4392),
    (0, 1533303331002),
    (0, 2027),
];

// .. and of styles that aren't known to end: for a loop whose test looks at no variable, a type that calls the entry's type, functions that don't stand just
// before their `if$`; and for loops whose variable is given something that isn't known to be bounded, or is changed by what the body calls, and one
// whose body counts another variable down.
const OTHERS: &[u8] = b"FUNCTION {f} {{#0} 'skip$ while$} READ EXECUTE {f}
FUNCTION {f} {{#1} 'skip$ while$} READ EXECUTE {f}
FUNCTION {article} {call.type$} READ ITERATE {call.type$}
FUNCTION {g} {call.type$} FUNCTION {article} {g} READ ITERATE {g}
FUNCTION {g} {if$} FUNCTION {f} {#1 'skip$ 'skip$ g} READ EXECUTE {f}
FUNCTION {f} {#1 'skip$ skip$ 'skip$ if$} READ EXECUTE {f}
FUNCTION {f} {#1 'skip$ 'while$ if$} READ EXECUTE {f}
READ EXECUTE {while$}
FUNCTION {f} {title num.names$ 'n := {n #0 >} {n #1 - 'n :=} while$} READ ITERATE {f}
FUNCTION {g} {#9 'n :=} FUNCTION {f} {#3 'n := {n #0 >} {g n #1 - 'n :=} while$} READ EXECUTE {f}
FUNCTION {f} {#3 'n := {n #0 >} {n #1 - 'n := #1 'n :=} while$} READ EXECUTE {f}
FUNCTION {f} {#3 'n := {n #0 >} {#1 n - 'n :=} while$} READ EXECUTE {f}
INTEGERS {m} FUNCTION {f} {#3 'n := {n #0 >} {m #1 - 'm :=} while$} READ EXECUTE {f}
FUNCTION {not} {{#0} {#1} if$} FUNCTION {f} {title 's := {s empty$ not} {s #1 global.max$ substring$ 's :=} while$} READ ITERATE {f}
FUNCTION {not} {{#0} {#1} if$} FUNCTION {f} {title 's := {s empty$} {s #2 global.max$ substring$ 's :=} while$} READ ITERATE {f}
FUNCTION {not} {{#0} {#1} if$} FUNCTION {f} {title 's := {s empty$ not} {s #2 global.max$ substring$ 's := title 's :=} while$} READ ITERATE {f}
FUNCTION {not} {{#0} {#1} if$} FUNCTION {f} {title 's := {s empty$ not} {s #2 global.max$ substring$ pop$} while$} READ ITERATE {f}
FUNCTION {not} {{#1} {#0} if$} FUNCTION {f} {title 's := {s empty$ not} {s #2 global.max$ substring$ 's :=} while$} READ ITERATE {f}
FUNCTION {f} {title 's := {s #1 #1 substring$ \"\" =} {s #2 global.max$ substring$ 's :=} while$} READ ITERATE {f}
FUNCTION {not} {{#0} {#1} if$} FUNCTION {f} {title 's := {s empty$ not} {#1 {s #2 global.max$ substring$ 's :=} 'skip$ if$} while$} READ ITERATE {f}
FUNCTION {not} {{#0} {#1} if$} FUNCTION {f} {title 's := {s empty$ not} {title {s #2 global.max$ substring$ 's :=} {s #2 global.max$ substring$ 's :=} if$} while$} READ ITERATE {f}
FUNCTION {not} {{#0} {#1} if$} FUNCTION {f} {title 's := \"\" {s empty$ not} {s #1 #1 substring$ \"-\" = {s #1 #2 substring$ \"--\" = not {\"--\" * s #2 global.max$ substring$ 's :=} {{s #1 #1 substring$ \"+\" =} {\"-\" * s #2 global.max$ substring$ 's :=} while$} if$} {s #1 #1 substring$ * s #2 global.max$ substring$ 's :=} if$} while$ pop$} READ ITERATE {f}
FUNCTION {not} {{#0} {#1} if$} FUNCTION {f} {title 's := \"\" {s empty$ not} {s #1 #1 substring$ \"-\" = {s #1 #2 substring$ \"--\" = not {\"--\" * s #2 global.max$ substring$ 's :=} {{s #1 #1 substring$ \"-\" =} {\"-\" * s #2 global.max$ substring$ 's :=} while$} if$} {s #1 #1 substring$ * s #1 global.max$ substring$ 's :=} if$} while$ pop$} READ ITERATE {f}
FUNCTION {not} {{#0} {#1} if$} FUNCTION {and} {'skip$ {pop$ #0} if$} FUNCTION {or} {{pop$ #1} 'skip$ if$} FUNCTION {f} {title 's := #0 'n := {n not s empty$ not and} {s #1 #1 substring$ duplicate$ \"-\" = swap$ duplicate$ \",\" = swap$ \"+\" = or or {#0 'n :=} {s #2 global.max$ substring$ 's :=} if$} while$} READ ITERATE {f}
FUNCTION {not} {{#0} {#1} if$} FUNCTION {and} {'skip$ {pop$ #0} if$} FUNCTION {or} {{pop$ #1} 'skip$ if$} FUNCTION {f} {title 's := #0 'n := {n not s empty$ not and} {s #1 #1 substring$ duplicate$ \"-\" = swap$ duplicate$ \",\" = swap$ \"+\" = or or {skip$} {s #2 global.max$ substring$ 's :=} if$} while$} READ ITERATE {f}
FUNCTION {not} {{#0} {#1} if$} FUNCTION {and} {'skip$ {pop$ #0} if$} FUNCTION {or} {{pop$ #1} 'skip$ if$} FUNCTION {f} {title 's := #0 'n := {n not s empty$ not and} {s #1 #1 substring$ duplicate$ \"-\" = swap$ duplicate$ \",\" = swap$ \"+\" = or pop$ title {#1 'n :=} {s #2 global.max$ substring$ 's :=} if$} while$} READ ITERATE {f}
FUNCTION {not} {{#0} {#1} if$} FUNCTION {and} {'skip$ {pop$ #0} if$} FUNCTION {or} {{pop$ #1} 'skip$ if$} FUNCTION {f} {title 's := #0 'n := {n not not s empty$ not and} {s #1 #1 substring$ duplicate$ \"-\" = swap$ duplicate$ \",\" = swap$ \"+\" = or or {#1 'n :=} {s #2 global.max$ substring$ 's :=} if$} while$} READ ITERATE {f}
FUNCTION {not} {{#0} {#1} if$} FUNCTION {f} {title 's := {s empty$ not} {s #1 #1 substring$ s #2 global.max$ substring$ 's := missing$ 'skip$ {\"a\" 's :=} if$} while$} READ ITERATE {f}
FUNCTION {not} {{#0} {#1} if$} FUNCTION {f} {title 's := {s empty$ not} {s #1 #1 substring$ s #2 global.max$ substring$ 's := missing$ 'skip$ {title 's :=} if$} while$} READ ITERATE {f}
FUNCTION {not} {{#0} {#1} if$} FUNCTION {f} {title 's := {s empty$ not} {s #1 global.max$ substring$ 's := {s #1 #1 substring$ \"-\" =} {s #2 global.max$ substring$ 's :=} while$} while$} READ ITERATE {f}
FUNCTION {not} {{#0} {#1} if$} FUNCTION {f} {title 's := {s empty$ not} {s #2 global.max$ substring$ 's := {s #1 #1 substring$ \"\" =} {s #2 global.max$ substring$ 's :=} while$} while$} READ ITERATE {f}
FUNCTION {f} {#3 'n := {n #0 >} {n #0 > {#2 'n :=} 'skip$ if$ n #1 - 'n :=} while$} READ EXECUTE {f}
FUNCTION {f} {#3 'n := {n #0 >} {n #0 > {#1 'n :=} 'skip$ if$ n #0 - 'n :=} while$} READ EXECUTE {f}
INTEGERS {m} FUNCTION {f} {#3 'n := {n #0 >} {n #1 - 'm := m #1 - 'm := \"a\" write$} while$} READ EXECUTE {f}
INTEGERS {m} FUNCTION {f} {n #1 + 'n := {n #0 >} {n #0 - 'n :=} while$} READ EXECUTE {f}
INTEGERS {m} FUNCTION {f} {n #1 + 'n := {n #0 >} {n #1 - 'm :=} while$} READ EXECUTE {f}
FUNCTION {not} {{#0} {#1} if$} FUNCTION {f} {title 's := {s empty$ not} {s #-1 global.max$ substring$ 's :=} while$} READ ITERATE {f}
FUNCTION {not} {{#0} {#1} if$} FUNCTION {f} {title 's := {s empty$ not} {s #-2 global.max$ substring$ 'label :=} while$} READ ITERATE {f}
FUNCTION {not} {{#0} {#1} if$} FUNCTION {and} {'skip$ {pop$ #0} if$} FUNCTION {or} {{pop$ #1} 'skip$ if$} FUNCTION {f} {title 's := {s empty$ not s #1 #1 substring$ \"-\" = not or} {s #2 global.max$ substring$ 's :=} while$} READ ITERATE {f}
FUNCTION {not} {{#0} {#1} if$} FUNCTION {and} {'skip$ {pop$ #0} if$} FUNCTION {or} {{pop$ #1} 'skip$ if$} FUNCTION {f} {title 's := {s empty$ not s #1 #1 substring$ \"-\" = not and} {s #1 global.max$ substring$ 's :=} while$} READ ITERATE {f}
INTEGERS {m} FUNCTION {not} {{#0} {#1} if$} FUNCTION {f} {title 's := #1 'n := #2 'm := {s n m substring$ \"\" = not} {n #0 + 'n :=} while$} READ ITERATE {f}
INTEGERS {m} FUNCTION {not} {{#0} {#1} if$} FUNCTION {f} {title 's := #1 'n := #2 'm := {s n m substring$ \"\" = not} {n #1 - 'n :=} while$} READ ITERATE {f}
INTEGERS {m} FUNCTION {not} {{#0} {#1} if$} FUNCTION {f} {title 's := #1 'n := #2 'm := {s n m substring$ \"a\" = not} {n #1 + 'n :=} while$} READ ITERATE {f}
INTEGERS {m} FUNCTION {not} {{#0} {#1} if$} FUNCTION {f} {title 's := #1 'n := #2 'm := {s n m substring$ \"\" = not} {s n m substring$ \"a\" = {n m + 'n :=} 'skip$ if$} while$} READ ITERATE {f}
INTEGERS {m} FUNCTION {not} {{#0} {#1} if$} FUNCTION {f} {title 's := #1 'n := #2 'm := {s n m substring$ \"\" = not} {s n m substring$ \"a\" = {n m + 'n :=} {m #1 + 'n :=} if$} while$} READ ITERATE {f}
INTEGERS {m} FUNCTION {not} {{#0} {#1} if$} FUNCTION {f} {title 's := #1 'n := #2 'm := {s n m substring$ \"\" = not} {#0 'm := n m + 'n :=} while$} READ ITERATE {f}
INTEGERS {m} FUNCTION {not} {{#0} {#1} if$} FUNCTION {f} {title 's := #1 'n := #2 'm := {s n m substring$ \"\" = not} {title 's := n #1 + 'n :=} while$} READ ITERATE {f}
STRINGS {t} FUNCTION {not} {{#0} {#1} if$} FUNCTION {cut} {'n := duplicate$ #1 #1 substring$ \"\" = {\"\"} {'s := #2 duplicate$ #1 < {pop$ \"\"} {s swap$ global.max$ substring$} if$} if$} FUNCTION {f} {title {duplicate$ \"\" = not} {#1 cut 't := t} while$ pop$} READ ITERATE {f}
STRINGS {t} FUNCTION {not} {{#0} {#1} if$} FUNCTION {cut} {'n := duplicate$ #1 #1 substring$ \"\" = {\"\"} {'s := #2 duplicate$ #2 < {pop$ \"\"} {#1 - s swap$ global.max$ substring$} if$} if$} FUNCTION {f} {title {duplicate$ \"\" = not} {#1 cut 't := t} while$ pop$} READ ITERATE {f}
STRINGS {t} FUNCTION {not} {{#0} {#1} if$} FUNCTION {cut} {'n := duplicate$ #1 #1 substring$ \"\" = {\"\"} {'s := #2 duplicate$ #2 < {pop$ \"\"} {s swap$ global.max$ substring$} if$} if$} FUNCTION {f} {title {duplicate$ \"\" = not} {#1 cut 't := s 't := t} while$ pop$} READ ITERATE {f}
STRINGS {t} FUNCTION {not} {{#0} {#1} if$} FUNCTION {w} {\"a\"} FUNCTION {cut} {'n := duplicate$ #1 #1 substring$ \"\" = {\"\"} {'s := #2 duplicate$ #2 < {pop$ \"\"} {s swap$ global.max$ substring$} if$} if$} FUNCTION {f} {title {duplicate$ \"\" = not} {w cut 't := t} while$ pop$} READ ITERATE {f}
STRINGS {t} FUNCTION {not} {{#0} {#1} if$} FUNCTION {cut} {'n := duplicate$ #1 #1 substring$ \"\" = {\"\"} {'s := n {duplicate$ #0 >} {#1 -} while$ duplicate$ #2 < {pop$ \"\"} {duplicate$ s swap$ #1 swap$ substring$ swap$ title 's := s swap$ global.max$ substring$} if$} if$} FUNCTION {f} {title {duplicate$ \"\" = not} {n cut 't := * write$ \"\" t} while$ pop$} READ ITERATE {f}
FUNCTION {not} {{#0} {#1} if$} FUNCTION {f} {title 's := {s #1 #1 substring$ \"a\" = not} {s #2 global.max$ substring$ 's :=} while$} READ ITERATE {f}
STRINGS {t} FUNCTION {not} {{#0} {#1} if$} FUNCTION {cut} {'n := duplicate$ #1 #1 substring$ \"\" = {\"\"} {'s := #2 duplicate$ #2 < {pop$ \"\"} {s swap$ global.max$ substring$} if$} if$} FUNCTION {f} {title {duplicate$ \"a\" = not} {#1 cut 't := t} while$ pop$} READ ITERATE {f}
STRINGS {t} FUNCTION {not} {{#0} {#1} if$} FUNCTION {cut} {'n := duplicate$ #1 #1 substring$ \"\" = {\"a\"} {'s := #2 duplicate$ #2 < {pop$ \"\"} {s swap$ global.max$ substring$} if$} if$} FUNCTION {f} {title {duplicate$ \"\" = not} {#1 cut 't := t} while$ pop$} READ ITERATE {f}
STRINGS {t} FUNCTION {not} {{#0} {#1} if$} FUNCTION {cut} {'n := duplicate$ #1 #1 substring$ \"\" = {\"\"} {'s := #2 duplicate$ #2 < {pop$ \"a\"} {s swap$ global.max$ substring$} if$} if$} FUNCTION {f} {title {duplicate$ \"\" = not} {#1 cut 't := t} while$ pop$} READ ITERATE {f}";

// How many bytes a global string variable keeps in these tests.
const KEPT: u32 = 100;

// A style of the head and this rest.
fn text_of(alloc: Global, rest: &[u8]) -> Result<Vec<u8>, AllocError> {
    let mut text: Vec<u8> = Vec::from_slice(alloc, HEAD)?;
    text.extend_from_slice(rest)?;
    Ok(text)
}

// The bound of a style of the head and this rest, where an entry's type may be `article`.
fn bound_of(alloc: Global, rest: &[u8]) -> Option<Bound> {
    let Ok(text) = text_of(alloc, rest) else {
        return None
    };
    let Ok(style) = read_style(alloc, b"s.bst", &text) else {
        return None
    };
    let found = match style.type_function(b"article") {
        None => check(alloc, &style, &[], KEPT),
        Some(article) => check(alloc, &style, &[article], KEPT),
    };
    match found {
        Ok(bound) => bound,
        Err(_) => None,
    }
}

// Whether these lines are styles with just these bounds.
fn are_bounded(alloc: Global, lines: &[u8], bounds: &[(u64, u64)]) -> bool {
    let mut place = 0;
    for line in lines.split(|b| *b == b'\n') {
        if place >= bounds.len() {
            return false;
        }
        let (once, each) = bounds[place];
        match bound_of(alloc, line) {
            None => return false,
            Some(bound) => {
                if bound.once != once || bound.each != each {
                    return false;
                }
            }
        }
        place += 1;
    }
    place == bounds.len()
}

// Whether none of these lines is a style that is known to end.
fn are_others(alloc: Global, lines: &[u8]) -> bool {
    for line in lines.split(|b| *b == b'\n') {
        if bound_of(alloc, line).is_some() {
            return false;
        }
    }
    true
}

#[test]
fn ending_styles(rt: HostRuntime) {
    assert!(rt; are_bounded(rt.alloc(), ENDING, &BOUNDS));
}

#[test]
fn other_styles(rt: HostRuntime) {
    assert!(rt; are_others(rt.alloc(), OTHERS));
}
