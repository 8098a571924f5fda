//! Which class a byte has.
ghost use Rattle.std.specs.Prelude.{◌≡◌};
ghost use Rattle.btx_text.specs.language.Class.{class_of, is_alpha, is_name_byte, is_white};

use crate::byte_class::Class;

/// The class of a byte.
#[tactic(auto, unfolding(crate::specs::language::Class::class_of))]
pub fn class(byte: u8) -> Class
    ensures { result ≡ class_of byte }
{
    if is_alpha(byte) {
        return Class::Alpha;
    }
    match byte {
        b' ' | b'\t' | b'\r' => Class::White,
        b'0'..=b'9' => Class::Digit,
        b'~' | b'-' => Class::Sep,
        _ => Class::Other,
    }
}

/// Whether a byte is whitespace: a space, a tab or a carriage return.
pub fn is_white(byte: u8) -> bool
    ensures { result ≡ is_white byte }
{
    matches!(byte, b' ' | b'\t' | b'\r')
}

/// Whether a byte is alpha: a letter `A-Z` or `a-z`, or a byte from 128 up.
pub fn is_alpha(byte: u8) -> bool
    ensures { result ≡ is_alpha byte }
{
    byte.is_ascii_alphabetic() || byte >= 128
}

/// Whether a byte is one that names are made of, in styles and in databases: from 33 up, and none of `" # % ' ( ) , = { }`.
#[inline(always)]
pub fn is_name_byte(byte: u8) -> bool
    ensures { result ≡ is_name_byte byte }
{
    !matches!(
        byte,
        0..=32 | b'"' | b'#' | b'%' | b'\'' | b'(' | b')' | b',' | b'=' | b'{' | b'}'
    )
}
