//! Texts that were cut or spoilt: each is read.
use super::showing::look_over;
use btx_tests::texts::spoilt;
use btx_text::Fault;
use std::alloc::Global;

// A style of about 2,000 bytes.
const TEXT: &[u8] = b"ENTRY {author title year note}{seen}{label}\n\
INTEGERS {count depth}\nSTRINGS {before after}\n% what months are called\nMACRO {jan} {\"January\"} MACRO {feb} {\"February\"}\n\n\
FUNCTION {opposite} {{#0} {#1} if$}\nFUNCTION {both} {{pop$ #0} {pop$} if$ }\n\n\
FUNCTION {begin} {\"\" 'before := #0 'count := #1 'depth :=}\nFUNCTION {put} {duplicate$ empty$ 'pop$ {\", \" swap$ * write$} if$}\n\n\
FUNCTION {people}\n{ author empty$\n    { \"nobody wrote \" cite$ * warning$ \"\" }\n    { author #1 \"{ff~}{vv~}{ll}{, jj}\" format.name$ }\n  if$\n}\n\n\
FUNCTION {what}\n{ title empty$ % none\n    { \"nothing is \" cite$ * warning$ \"\" }\n    { title \"t\" change.case$ }\n  if$\n}\n\n\
FUNCTION {when} { year missing$ {\"\"} {year purify$ #-1 #4 substring$} if$ }\n\n\
FUNCTION {counted}\n{ count #1 + 'count :=\n  count #99 >\n    { \"more than \" #99 int.to.str$ * warning$ }\n    'skip$\n  if$\n}\n\n\
FUNCTION {deeper} { { depth #0 > } { depth #1 - 'depth := } while$ }\n\n\
FUNCTION {article}\n{ begin people put what put when put\n  note missing$ 'skip$ { note add.period$ put } if$\n  newline$ counted deeper\n}\n\n\
FUNCTION {default.type} {article}\nFUNCTION {book} {article}\nFUNCTION {misc} { before after * pop$ #1 'seen := article }\n\n\
READ\n\nFUNCTION {sortkey}\n{ author missing$ {\"\"} {author #1 \"{ll{ }}{ff{ }}\" format.name$ purify$ \"l\" change.case$} if$\n\
  year missing$ {\"\"} {year} if$ * #1 entry.max$ substring$ 'sort.key$ :=\n  cite$ 'label := seen pop$\n}\n\nITERATE {sortkey}\nSORT\n\n\
FUNCTION {head} { preamble$ empty$ 'skip$ {preamble$ write$ newline$} if$ \"{list}\" write$ newline$ }\n\nEXECUTE {head}\n\n\
ITERATE {call.type$}\n\nFUNCTION {tail} { newline$ \"{end}\" write$ newline$ quote$ pop$ #65 int.to.chr$ chr.to.int$ pop$ }\nEXECUTE {tail}\n\
REVERSE {counted}\n\nSTRINGS {last} INTEGERS {turn}\n\n\
FUNCTION {repeated}\n{ #3 'turn :=\n  { turn #0 > }\n  { turn #1 - 'turn :=\n    \"again \" turn int.to.str$ * write$ newline$\n  }\n  while$\n}\n\n\
FUNCTION {widths} { \"{\\oe}uvre\" width$ \"A-b~c\" text.length$ + #7 = 'skip$ { \"abc\" #2 text.prefix$ 'last := } if$ }\n\n\
EXECUTE {repeated}\nEXECUTE {widths} % the end\n";

// How many items and functions a text has, together.
fn size(alloc: Global, text: &[u8]) -> Result<usize, Fault> {
    let found = look_over(alloc, text)?;
    Ok(found.items.saturating_add(found.functions))
}

// How many items and functions all prefixes of a text have, together.
fn cuts(alloc: Global, text: &[u8]) -> Result<usize, Fault> {
    let mut sum: usize = 0;
    for len in 0..text.len() {
        sum = sum.saturating_add(size(alloc, &text[..len])?);
    }
    Ok(sum)
}

// How many items and functions a text has, together, with a byte in the place of another.
fn spoilt_size(alloc: Global, text: &[u8], place: usize, byte: u8) -> Result<usize, Fault> {
    let bytes = spoilt(alloc, text, place, byte)?;
    size(alloc, &bytes)
}

// How many items and functions a text has, together, with each of its bytes replaced by this one.
fn replaced(alloc: Global, text: &[u8], byte: u8) -> Result<usize, Fault> {
    let mut sum: usize = 0;
    for place in 0..text.len() {
        sum = sum.saturating_add(spoilt_size(alloc, text, place, byte)?);
    }
    Ok(sum)
}

// Whether a text has items or functions with each of these bytes in each place.
fn all_replaced(alloc: Global, text: &[u8], bytes: &[u8]) -> Result<bool, Fault> {
    for byte in bytes {
        if replaced(alloc, text, *byte)? == 0 {
            return Ok(false);
        }
    }
    Ok(true)
}

// How many items, functions and messages the text has.
fn whole(alloc: Global) -> Result<(usize, usize, usize), Fault> {
    let found = look_over(alloc, TEXT)?;
    Ok((found.items, found.functions, found.messages))
}

#[test]
fn the_whole_text(rt: HostRuntime) {
    assert!(rt; TEXT.len() >= 2_000);
    assert!(rt; whole(rt.alloc()) == Ok((34, 41, 0)));
}

// Whether the prefixes of the text have items or functions.
fn cuts_are_read(alloc: Global) -> Result<bool, Fault> {
    Ok(cuts(alloc, TEXT)? > 0)
}

#[test]
fn every_cut(rt: HostRuntime) {
    assert!(rt; cuts_are_read(rt.alloc()) == Ok(true));
}

// Whether the text is read with each of these bytes in each place: an opening brace, a closing one, a quote, a comment, and zero.
fn replaced_are_read(alloc: Global) -> Result<bool, Fault> {
    all_replaced(alloc, TEXT, b"{}\"%\0")
}

#[test]
fn every_byte_replaced(rt: HostRuntime) {
    assert!(rt; replaced_are_read(rt.alloc()) == Ok(true));
}
