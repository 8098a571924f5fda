//! A style of more than a thousand lines, made of parts for fields, types, months and journals, is read without a message.
use super::showing::look_over;
use btx_text::Fault;
use std::alloc::{AllocError, Global};

// The style's fields, with spaces between.
const FIELDS: &[u8] = b"\
address author booktitle chapter edition editor howpublished institution journal key month note \
number organization pages publisher school series title volume year url doi isbn";

// The types of entries, each with a field that it has to have.
const TYPES: &[u8] = b"\
article=journal book=publisher booklet=title inbook=chapter incollection=booktitle \
inproceedings=booktitle manual=title mastersthesis=school misc=note phdthesis=school \
proceedings=year techreport=institution unpublished=note default.type=title";

// The names of months.
const MONTHS: &[u8] = b"jan feb mar apr may jun jul aug sep oct nov dec";

// What stands before the parts: what is used by them.
const HEAD: &[u8] = b"INTEGERS { state fresh running closing namecount nameindex }\n\
STRINGS { pending listed }\n\n\
FUNCTION {opposite} {{#0} {#1} if$}\n\
FUNCTION {both} {{} {pop$ #0} if$}\n\
FUNCTION {either} {{pop$ #1} {} if$}\n\n\
FUNCTION {start.all}\n{\n  #0 'fresh :=\n  #1 'running :=\n  #2 'closing :=\n  \"\" 'pending :=\n}\n\n\
FUNCTION {flush}\n{\n  pending write$\n  \"\" 'pending :=\n}\n\n\
FUNCTION {hold}\n{\n  'listed :=\n  state running =\n    { pending \", \" * 'pending := }\n    { running 'state := }\n  if$\n\
  flush\n  listed 'pending :=\n}\n\n\
FUNCTION {hold.if.there}\n{\n  duplicate$ empty$\n    'pop$\n    'hold\n  if$\n}\n\n\
FUNCTION {all.names}\n{\n  'listed :=\n  listed num.names$ 'namecount :=\n  #1 'nameindex :=\n  \"\"\n\
  { nameindex namecount > opposite }\n  {\n    nameindex #1 > { \" and \" * } { skip$ } if$\n    listed nameindex \"{ff~}{vv~}{ll}{, jj}\" format.name$ *\n\
    nameindex #1 + 'nameindex :=\n  }\n  while$\n}\n\n";

// What comes after the parts.
const TAIL: &[u8] = b"READ\n\n\
FUNCTION {make.key}\n{\n  author missing$\n    { \"\" }\n    { author all.names purify$ \"l\" change.case$ }\n  if$\n\
  title missing$ { \"\" } { title purify$ } if$\n  *\n  #1 entry.max$ substring$\n  'sort.key$ :=\n}\n\n\
ITERATE {make.key}\n\nSORT\n\n\
FUNCTION {open.list}\n{\n  preamble$ empty$\n    { skip$ }\n    { preamble$ write$ newline$ }\n  if$\n  \"list\" write$ newline$\n}\n\n\
EXECUTE {open.list}\n\nEXECUTE {start.all}\n\nITERATE {call.type$}\n\n\
FUNCTION {close.list} { newline$ \"end of list\" write$ newline$ }\n\nEXECUTE {close.list}\n";

// A part for a field, where `@` stands for it.
const FIELD_PART: &[u8] = b"% the field @\n\
FUNCTION {has.@} {@ empty$ opposite}\n\n\
FUNCTION {show.@}\n{\n  has.@\n    { @ hold }\n    { skip$ }\n  if$\n}\n\n\
FUNCTION {want.@}\n{\n  has.@\n    { show.@ }\n    {\n      \"there is no @ in \" cite$ * warning$\n    }\n  if$\n}\n\n\
FUNCTION {labelled.@}\n{\n  has.@\n    { \"@ \" @ * hold }\n    'skip$\n  if$\n}\n\n";

// A part for a type, where `@` stands for it and `!` for its field.
const TYPE_PART: &[u8] = b"% an entry of type @\n\
FUNCTION {@}\n{\n  fresh 'state :=\n  author missing$\n    { \"\" }\n    { author all.names }\n  if$\n  hold.if.there\n  want.title\n  want.!\n\
  show.volume\n  labelled.number\n  show.month\n  show.year\n  show.note\n  flush\n  newline$\n  type$ \"@\" =\n    'skip$\n    { \"@ stands for \" type$ * warning$ }\n  if$\n}\n\n";

// A part with what stands for its marks.
fn push_part(
    text: &mut Vec<u8>,
    part: &[u8],
    first: &[u8],
    second: &[u8],
) -> Result<(), AllocError> {
    for &byte in part {
        match byte {
            b'@' => text.extend_from_slice(first)?,
            b'!' => text.extend_from_slice(second)?,
            _ => text.push(byte)?,
        }
    }
    Ok(())
}

// What stands before the `=` of a word, and after it.
fn cut(word: &[u8]) -> (&[u8], &[u8]) {
    let mut parts = word.splitn(2, |byte| *byte == b'=');
    (parts.next().unwrap_or(b""), parts.next().unwrap_or(b""))
}

// A part for each of these words, which are a first one and, after a `=`, a second.
fn push_parts(text: &mut Vec<u8>, part: &[u8], words: &[u8]) -> Result<(), AllocError> {
    for word in words.split(|byte| *byte == b' ') {
        let (first, second) = cut(word);
        push_part(text, part, first, second)?;
    }
    Ok(())
}

// The style.
fn push_text(text: &mut Vec<u8>) -> Result<(), AllocError> {
    text.extend_from_slice(b"% a style of many parts\nENTRY\n{\n")?;
    push_parts(text, b"  @\n", FIELDS)?;
    text.extend_from_slice(b"}\n{}\n{ label }\n\n")?;
    push_parts(text, b"MACRO {@} {\"the month @\"}\n", MONTHS)?;
    text.extend_from_slice(HEAD)?;
    push_parts(text, FIELD_PART, FIELDS)?;
    push_parts(text, TYPE_PART, TYPES)?;
    text.extend_from_slice(TAIL)
}

// How many lines a text has.
fn lines(text: &[u8]) -> usize {
    text.iter().filter(|byte| **byte == b'\n').count()
}

// How many messages, macros and fields the style of a text has.
fn counts(alloc: Global, text: &[u8]) -> Result<(usize, usize, usize), Fault> {
    let found = look_over(alloc, text)?;
    Ok((found.messages, found.macros, found.fields))
}

// Whether a text has a thousand lines, and its style no message and the macros and fields that it should have.
fn is_long_style(alloc: Global, text: &[u8]) -> Result<bool, Fault> {
    Ok(lines(text) >= 1_000 && counts(alloc, text)? == (0, 12, 25))
}

// Whether the style is long, and read without a message.
fn is_right(alloc: Global) -> Result<bool, Fault> {
    let mut text = Vec::new(alloc);
    push_text(&mut text)?;
    is_long_style(alloc, &text)
}

#[test]
fn a_long_style(rt: HostRuntime) {
    assert!(rt; is_right(rt.alloc()) == Ok(true));
}
