//! Lines and the whitespace at their ends.
ghost use Rattle.std.specs.Prelude.{◌≡◌};
ghost use Rattle.btx_text.specs.language.Lines.{lines_of, trimmed};

use crate::classify::is_white;
use crate::text_lines::Lines;

/// The lines of a text. A last piece counts if it has a byte.
pub fn lines(text: &[u8]) -> Lines<'_>
    ensures { result ≡ lines_of text.now }
{
    Lines::of(text)
}

/// A text without the whitespace at its end.
#[tactic(auto, using(crate::proofs::LineLemmas::trim_steps))]
pub fn without_trailing_white(text: &[u8]) -> &[u8]
    ensures { result.now ≡ trimmed text.now }
{
    let mut end = text.len();
    while end > 0 {
        if !is_white(text[end - 1]) {
            return &text[..end];
        }
        end -= 1;
    }
    &[]
}
