//! Bodies of one function: operands right and wrong for each built-in function, too few of them, and what is left over.
use crate::styles::is_clean;
use std::alloc::Global;

// Bodies that are called clean, a line each.
const RIGHT: &[u8] = b"#1 #1 > pop$
#1 #1 < pop$
#1 #1 + pop$
#1 #1 - pop$
\"a\" \"a\" * pop$
\"a\" add.period$ pop$
\"a\" \"a\" change.case$ pop$
\"a\" chr.to.int$ pop$
title empty$ pop$
\"a\" #1 \"a\" format.name$ pop$
#1 'skip$ 'skip$ if$
#1 int.to.chr$ pop$
#1 int.to.str$ pop$
title missing$ pop$
\"a\" num.names$ pop$
\"a\" purify$ pop$
\"a\" #1 #1 substring$ pop$
\"a\" text.length$ pop$
\"a\" #1 text.prefix$ pop$
\"a\" warning$
{#0} 'skip$ while$
\"a\" width$ pop$
\"a\" write$
newline$
skip$
stack$
preamble$ pop$
quote$ pop$
cite$ pop$
type$ pop$
#1 pop$
\"a\" duplicate$ pop$ pop$
#1 \"a\" swap$ pop$ pop$
title top$
#1 #2 = pop$
\"a\" \"b\" = pop$
#1 'n :=
\"a\" 's :=
#1 'year :=
\"a\" 'label :=
n 'year := year n = pop$
s 'label := label write$
title empty$ 'skip$ {title 's := s write$} if$
title missing$ {\"\"} 'title if$ write$
n #0 > {n} {#0} if$ 'm :=
#3 'n := {n #0 >} {n #1 - 'n := s write$} while$
title \"b\" swap$ pop$ write$
title empty$ {editor empty$ 'skip$ {editor write$} if$} {title write$} if$
editor missing$ #0 = {editor write$} 'skip$ if$
title empty$ 'editor 'title if$ pop$
#1 {\"a\"} {\"b\"} if$ write$
s empty$ {#1} {#0} if$ 'n := n pop$
{skip$} pop$
's 'label pop$ pop$";

// Bodies that aren't.
const WRONG: &[u8] = b"#1 > pop$
\"a\" #1 > pop$
title #1 > pop$
'skip$ #1 > pop$
#1 \"a\" > pop$
#1 title > pop$
#1 'skip$ > pop$
#1 #1 >
#1 < pop$
\"a\" #1 < pop$
title #1 < pop$
'skip$ #1 < pop$
#1 \"a\" < pop$
#1 title < pop$
#1 'skip$ < pop$
#1 #1 <
#1 + pop$
\"a\" #1 + pop$
title #1 + pop$
'skip$ #1 + pop$
#1 \"a\" + pop$
#1 title + pop$
#1 'skip$ + pop$
#1 #1 +
#1 - pop$
\"a\" #1 - pop$
title #1 - pop$
'skip$ #1 - pop$
#1 \"a\" - pop$
#1 title - pop$
#1 'skip$ - pop$
#1 #1 -
\"a\" * pop$
#1 \"a\" * pop$
title \"a\" * pop$
'skip$ \"a\" * pop$
\"a\" #1 * pop$
\"a\" title * pop$
\"a\" 'skip$ * pop$
\"a\" \"a\" *
add.period$ pop$
#1 add.period$ pop$
title add.period$ pop$
'skip$ add.period$ pop$
\"a\" add.period$
\"a\" change.case$ pop$
#1 \"a\" change.case$ pop$
title \"a\" change.case$ pop$
'skip$ \"a\" change.case$ pop$
\"a\" #1 change.case$ pop$
\"a\" title change.case$ pop$
\"a\" 'skip$ change.case$ pop$
\"a\" \"a\" change.case$
chr.to.int$ pop$
#1 chr.to.int$ pop$
title chr.to.int$ pop$
'skip$ chr.to.int$ pop$
\"a\" chr.to.int$
empty$ pop$
#1 empty$ pop$
'skip$ empty$ pop$
title empty$
#1 \"a\" format.name$ pop$
#1 #1 \"a\" format.name$ pop$
title #1 \"a\" format.name$ pop$
'skip$ #1 \"a\" format.name$ pop$
\"a\" \"a\" \"a\" format.name$ pop$
\"a\" title \"a\" format.name$ pop$
\"a\" 'skip$ \"a\" format.name$ pop$
\"a\" #1 #1 format.name$ pop$
\"a\" #1 title format.name$ pop$
\"a\" #1 'skip$ format.name$ pop$
\"a\" #1 \"a\" format.name$
'skip$ 'skip$ if$
\"a\" 'skip$ 'skip$ if$
title 'skip$ 'skip$ if$
'skip$ 'skip$ 'skip$ if$
#1 #1 'skip$ if$
#1 \"a\" 'skip$ if$
#1 title 'skip$ if$
#1 'skip$ #1 if$
#1 'skip$ \"a\" if$
#1 'skip$ title if$
int.to.chr$ pop$
\"a\" int.to.chr$ pop$
title int.to.chr$ pop$
'skip$ int.to.chr$ pop$
#1 int.to.chr$
int.to.str$ pop$
\"a\" int.to.str$ pop$
title int.to.str$ pop$
'skip$ int.to.str$ pop$
#1 int.to.str$
missing$ pop$
#1 missing$ pop$
'skip$ missing$ pop$
title missing$
num.names$ pop$
#1 num.names$ pop$
title num.names$ pop$
'skip$ num.names$ pop$
\"a\" num.names$
purify$ pop$
#1 purify$ pop$
title purify$ pop$
'skip$ purify$ pop$
\"a\" purify$
#1 #1 substring$ pop$
#1 #1 #1 substring$ pop$
title #1 #1 substring$ pop$
'skip$ #1 #1 substring$ pop$
\"a\" \"a\" #1 substring$ pop$
\"a\" title #1 substring$ pop$
\"a\" 'skip$ #1 substring$ pop$
\"a\" #1 \"a\" substring$ pop$
\"a\" #1 title substring$ pop$
\"a\" #1 'skip$ substring$ pop$
\"a\" #1 #1 substring$
text.length$ pop$
#1 text.length$ pop$
title text.length$ pop$
'skip$ text.length$ pop$
\"a\" text.length$
#1 text.prefix$ pop$
#1 #1 text.prefix$ pop$
title #1 text.prefix$ pop$
'skip$ #1 text.prefix$ pop$
\"a\" \"a\" text.prefix$ pop$
\"a\" title text.prefix$ pop$
\"a\" 'skip$ text.prefix$ pop$
\"a\" #1 text.prefix$
warning$
#1 warning$
title warning$
'skip$ warning$
'skip$ while$
#1 'skip$ while$
\"a\" 'skip$ while$
title 'skip$ while$
{#0} #1 while$
{#0} \"a\" while$
{#0} title while$
width$ pop$
#1 width$ pop$
title width$ pop$
'skip$ width$ pop$
\"a\" width$
write$
#1 write$
title write$
'skip$ write$
pop$
duplicate$
swap$
top$
#1 swap$ pop$
preamble$
quote$
cite$
type$
#1
{skip$}
#1 \"a\" = pop$
\"a\" title = pop$
title \"a\" = pop$
'skip$ 'skip$ = pop$
#1 = pop$
= pop$
\"a\" 'n :=
#1 's :=
title 's :=
'skip$ 'n :=
#1 'title :=
#1 'skip$ :=
'n :=
:=
\"a\" #1 :=
#1 'call.type$ :=
title empty$ {title write$} 'skip$ if$
title missing$ {title write$} 'skip$ if$
editor empty$ 'skip$ {title write$} if$
n #0 > {\"a\"} {#1} if$ write$
n #0 > {\"a\"} 'skip$ if$ pop$
#3 'n := {n #0 >} {n #1 - 'n := s} while$
#3 'n := {n} {s 'n :=} while$
{s} 'skip$ while$
{} 'skip$ while$
s {pop$} {} if$
title duplicate$ empty$ 'skip$ {write$} if$
title editor empty$ 'pop$ 'write$ if$
label #1 + 'year :=
year write$
n title empty$ + * pop$";

// What stands before and after the body of the function.
const BEFORE: &[u8] = b"FUNCTION {f} {";

const AFTER: &[u8] = b"} READ ITERATE {f}";

// Whether a style of this body is called clean.
fn is_clean_body(alloc: Global, body: &[u8]) -> bool {
    let mut rest: Vec<u8> = Vec::new(alloc);
    if rest.extend_from_slice(BEFORE).is_err()
        || rest.extend_from_slice(body).is_err()
        || rest.extend_from_slice(AFTER).is_err()
    {
        return false;
    }
    is_clean(alloc, &rest)
}

// The number of the first of these lines whose verdict isn't this one, from 1; 0 if there is none.
fn first_other(alloc: Global, lines: &[u8], wanted: bool) -> usize {
    let mut number = 0;
    for line in lines.split(|b| *b == b'\n') {
        if number < 1000 {
            number += 1;
        }
        if is_clean_body(alloc, line) != wanted {
            return number;
        }
    }
    0
}

#[test]
fn right_operands(rt: HostRuntime) {
    assert!(rt; first_other(rt.alloc(), RIGHT, true) == 0);
}

#[test]
fn wrong_operands(rt: HostRuntime) {
    assert!(rt; first_other(rt.alloc(), WRONG, false) == 0);
}
