//! What is known of the literals on top of the stack after a token, where a text gets shorter.
ghost use Rattle.std.specs.Prelude.{◌≡◌, IsTrue, slice_index_or, nat_eq};
ghost use Rattle.std.specs.Str.{bytes_eq};
ghost use Rattle.btx_ends.specs.Shortening as shortening;

use crate::measures::{Kind, Measure, Seen, Tops};
use btx_bst::{BuiltIn, Callee, Style, Token};

// What is known of the literals on top.
fn tops_of(top: Seen, below: Seen, third: Seen, fourth: Seen) -> Tops
    ensures { result ≡ shortening.tops_of top below third fourth }
{
    Tops {
        top,
        below,
        third,
        fourth,
    }
}

/// Nothing is known of them.
pub(crate) fn nothing_seen() -> Tops
    ensures { result ≡ shortening.nothing_seen }
{
    tops_of(
        Seen::Anything,
        Seen::Anything,
        Seen::Anything,
        Seen::Anything,
    )
}

// .. after a literal is pushed
fn push(it: Seen, tops: Tops) -> Tops
    ensures { result ≡ shortening.push it tops }
{
    tops_of(it, tops.top, tops.below, tops.third)
}

/// Answers whether a literal is known to be an integer.
pub(crate) fn is_number(it: Seen) -> bool
    ensures { result ≡ shortening.is_number it }
{
    match it {
        Seen::Integer(_) => true,
        Seen::Number => true,
        Seen::Begins => true,
        _ => false,
    }
}

// .. a string
fn is_text(it: Seen) -> bool
    ensures { result ≡ shortening.is_text it }
{
    match it {
        Seen::Text => true,
        Seen::Word(_) => true,
        Seen::Whole => true,
        Seen::Start => true,
        Seen::Shorter => true,
        _ => false,
    }
}

// .. one of both
fn is_value(it: Seen) -> bool
    ensures { result ≡ shortening.is_value it }
{
    is_number(it) || is_text(it)
}

// Answers what is known of a part of the text from a byte on, or up to one that is counted from the right, where this is known of its length.
fn part_of(size: Seen, start: i32) -> Seen
    ensures { result ≡ shortening.part_of size start }
{
    if start >= 2 || start <= -2 {
        return Seen::Shorter;
    }
    match size {
        Seen::Integer(n) if n == 1 && start == 1 => Seen::Start,
        _ => Seen::Text,
    }
}

// .. after `substring$`
fn part_seen(tops: Tops) -> Tops
    ensures { result ≡ shortening.part_seen tops tops.below tops.third }
{
    match (tops.below, tops.third) {
        (Seen::Integer(start), Seen::Whole) => {
            if is_number(tops.top) {
                tops_of(
                    part_of(tops.top, start),
                    tops.fourth,
                    Seen::Anything,
                    Seen::Anything,
                )
            } else {
                nothing_seen()
            }
        }
        _ => nothing_seen(),
    }
}

/// Answers whether two texts of a style are the same.
pub(crate) fn is_same_word(style: &Style, one: u32, other: u32) -> bool
    ensures { result ≡ bytes_eq (shortening.word_of style.now one) (shortening.word_of style.now other) }
{
    style.text(one) == style.text(other)
}

// Answers what is known of a comparison of two strings.
fn equal_seen(style: &Style, m: Measure, top: Seen, below: Seen) -> Seen
    ensures { result ≡ shortening.equal_seen style.now m top below }
{
    match (top, below) {
        (Seen::Word(w), Seen::Start) => {
            if is_same_word(style, w, m.word) {
                Seen::Begins
            } else {
                Seen::Number
            }
        }
        _ => Seen::Number,
    }
}

// .. after `=`
fn compared_seen(style: &Style, m: Measure, tops: Tops) -> Tops
    ensures { result ≡ shortening.compared_seen style.now m tops }
{
    if is_text(tops.top) && is_text(tops.below) {
        let equal = equal_seen(style, m, tops.top, tops.below);
        tops_of(equal, tops.third, tops.fourth, Seen::Anything)
    } else {
        nothing_seen()
    }
}

// .. after `duplicate$`
fn doubled_seen(tops: Tops) -> Tops
    ensures { result ≡ shortening.doubled_seen tops }
{
    if is_value(tops.top) {
        push(tops.top, tops)
    } else {
        nothing_seen()
    }
}

// .. after `swap$`
fn swapped_seen(tops: Tops) -> Tops
    ensures { result ≡ shortening.swapped_seen tops }
{
    if is_value(tops.top) && is_value(tops.below) {
        tops_of(tops.below, tops.top, tops.third, tops.fourth)
    } else {
        nothing_seen()
    }
}

// .. after a built-in function
fn built_in_seen(style: &Style, m: Measure, tops: Tops, f: BuiltIn) -> Tops
    ensures { result ≡ shortening.built_in_seen style.now m tops f }
{
    match f {
        BuiltIn::Substring => part_seen(tops),
        BuiltIn::Equals => compared_seen(style, m, tops),
        BuiltIn::Duplicate => doubled_seen(tops),
        BuiltIn::Swap => swapped_seen(tops),
        _ => nothing_seen(),
    }
}

// .. after a function of the style of this kind
fn called_seen(kind: Kind, tops: Tops) -> Tops
    ensures { result ≡ shortening.called_seen kind tops }
{
    match kind {
        Kind::Not => {
            if is_number(tops.top) {
                tops_of(Seen::Number, tops.below, tops.third, tops.fourth)
            } else {
                nothing_seen()
            }
        }
        Kind::Or => {
            if is_number(tops.top) && is_number(tops.below) {
                tops_of(Seen::Number, tops.third, tops.fourth, Seen::Anything)
            } else {
                nothing_seen()
            }
        }
        Kind::And => nothing_seen(),
        Kind::Other => nothing_seen(),
    }
}

/// Answers of what kind a function is said to be, by its number.
pub(crate) fn kind_of(kinds: &[Kind], number: usize) -> Kind
    ensures { result ≡ shortening.kinds_by kinds.now number }
{
    if number < kinds.len() {
        kinds[number]
    } else {
        Kind::Other
    }
}

// .. of a global string variable's value
fn string_seen(m: Measure, number: u32) -> Seen
    ensures { result ≡ shortening.string_seen m number }
{
    if number == m.text {
        Seen::Whole
    } else {
        Seen::Text
    }
}

/// Answers what is known of the literals on top of the stack after a token.
pub(crate) fn tops_after(
    style: &Style,
    m: Measure,
    kinds: &[Kind],
    tops: Tops,
    token: Token,
) -> Tops
    ensures { result ≡ shortening.tops_after style.now m (shortening.kinds_by kinds.now) tops token }
{
    match token {
        Token::Quote(f) => push(Seen::Function(f), tops),
        Token::Integer(n) => push(Seen::Integer(n), tops),
        Token::Text(w) => push(Seen::Word(w), tops),
        Token::Run(Callee::GlobalInteger(_)) => push(Seen::Number, tops),
        Token::Run(Callee::GlobalString(i)) => push(string_seen(m, i), tops),
        Token::Run(Callee::BuiltIn(f)) => built_in_seen(style, m, tops, f),
        Token::Run(Callee::User(number)) => called_seen(kind_of(kinds, number as usize), tops),
        Token::Run(_) => nothing_seen(),
    }
}
