//! Laws over the definitions, each the contract of a function that does nothing.
ghost use Rattle.std.specs.Prelude.{◌≡◌, ◌<◌, ◌≤◌, ◌↔◌, ◌++◌, ◌&&◌, ℕ, List, IsTrue, not, codes, encode_utf8, false};
ghost use Rattle.std.specs.Char.{IsScalar};
ghost use Rattle.std.specs.List.{All, filter, list_any, range_with_len};
ghost use Rattle.btx_text.specs.declared.byte_class.Class.{Class};
ghost use Rattle.btx_text.specs.declared.element_kind.TextMode.{TextMode};
ghost use Rattle.btx_text.specs.declared.element_kind.TextMode.TheVariants.{Bytes, Utf8};
ghost use Rattle.btx_text.specs.language.Class.{begins_name, class_of, is_alpha, is_name_byte, is_sep, is_white};
ghost use Rattle.btx_text.specs.laws.Class.{is_of_class};
ghost use Rattle.btx_text.specs.language.Elements.{Element, elements_of};
ghost use Rattle.btx_text.specs.laws.Elements.{IsDivision, is_wide};
ghost use Rattle.btx_text.specs.language.Limits.{greatest_file, greatest_string};
ghost use Rattle.btx_text.specs.language.Sequences.{is_sequence};

/// Each byte is of exactly one of the five classes.
pub fn one_class()
    ensures { (b : ℕ) (class : Class) → IsTrue (is_of_class class b) ↔ (class ≡ class_of b) }
{}

/// Of the 256 bytes, the whitespace is tab, carriage return and space, the separators are `-` and `~`, and the letters are the 52 and each byte from 128 up.
pub fn classes_of_bytes()
    ensures white { filter is_white (range_with_len 0 256) ≡ codes "\t\r " }
    ensures separators { filter is_sep (range_with_len 0 256) ≡ codes "-~" }
    ensures letters { filter is_alpha (range_with_len 0 256) ≡ codes "ABCDEFGHIJKLMNOPQRSTUVWXYZabcdefghijklmnopqrstuvwxyz" ++ range_with_len 128 128 }
{}

/// Of the 256 bytes, those that can't stand in a name are the first 33, up to the space, and ten signs; so byte 127 can, and each from 128 up. Of those
/// that can, a name doesn't begin with a digit, and begins with any other.
pub fn name_bytes()
    ensures none { filter (λ b. not (is_name_byte b)) (range_with_len 0 256) ≡ range_with_len 0 33 ++ codes "\"#%'(),={}" }
    ensures inside { filter (λ b. is_name_byte b && not (begins_name b)) (range_with_len 0 256) ≡ codes "0123456789" }
{}

/// The greatest lengths in bytes, by their numbers: of a file, and of a string.
pub fn greatest_lengths()
    ensures file { greatest_file ≡ 2147483647 }
    ensures string { greatest_string ≡ 1000000 }
{}

/// Each string has exactly one division into elements, in either mode.
pub fn one_division()
    ensures divides { (mode : TextMode) (string : List ℕ) → IsDivision mode string (elements_of mode string) }
    ensures only { (mode : TextMode) (string : List ℕ) (parts : List Element) →
        IsDivision mode string parts → parts ≡ elements_of mode string }
{}

/// A string of bytes below 128 has the same elements in both modes, and read as bytes no string has a wide one.
pub fn same_in_both_modes()
    ensures same { (string : List ℕ) → All (λ b. b < 128) string → elements_of Utf8 string ≡ elements_of Bytes string }
    ensures bytes { (string : List ℕ) → list_any (λ part. is_wide part.kind) (elements_of Bytes string) ≡ false }
{}

/// The well-formed sequences are the UTF-8 of the scalar values of Unicode from 128 up, and nothing else.
pub fn sequences_are_characters()
    ensures encodes { (c : ℕ) → IsScalar c → 128 ≤ c → IsTrue (is_sequence (encode_utf8 c)) }
    ensures encoded { (text : List ℕ) → IsTrue (is_sequence text) →
        (c : ℕ) × IsScalar c × (128 ≤ c) × (encode_utf8 c ≡ text) }
{}
