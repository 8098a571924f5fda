//! The length of a string in characters of text.
ghost use Rattle.std.specs.Prelude.{◌≡◌, ◌≤◌, length, pos};
ghost use Rattle.btx_strings.specs.language.Lengths.{text_length_of};
ghost use Rattle.btx_text.specs.language.Limits.{greatest_string};

use btx_text::{Elements, TextMode};

/// How many characters of text a string has, read in a mode: bytes that are no brace, special characters and wide ones, at any depth.
/// It takes no memory.
pub fn text_length(string: &[u8], mode: TextMode) -> i32
    requires { length string.now ≤ greatest_string }
    ensures { result ≡ pos (text_length_of mode string.now) }
{
    Elements::of_text(string, mode)
        .filter(|element| element.is_character())
        .count() as i32
}
