//! The prefix of a string, in characters of text.
ghost use Rattle.std.specs.Prelude.{◌≡◌};
ghost use Rattle.btx_text.specs.language.Elements.{elements_of};
ghost use Rattle.btx_strings.specs.language.Answers.{no_complaints};
ghost use Rattle.btx_strings.specs.refinement.Answers.{Answers};
ghost use Rattle.btx_strings.specs.language.Lengths.{take_characters, text_prefix_of, wanted_length};
ghost use Rattle.btx_strings.specs.refinement.Lengths.{with_braces_closed};
ghost use Rattle.btx_text.specs.laws.Elements.{text_of};

use crate::answers::Answer;
use btx_text::{Elements, Fault, TextMode, depth_at};
use std::alloc::Global;

/// The first `count` characters of a string that is read in a mode, with the braces before and between them, and as many `}` as
/// that leaves open; all of the string where it has fewer, nothing where `count` is below 1.
///
/// Errors: [`Fault::Memory`]; [`Fault::StringLimit`] where the text would be over 1,000,000 bytes.
pub fn text_prefix(
    alloc: Global,
    string: &[u8],
    count: i32,
    mode: TextMode,
) -> Result<Answer, Fault>
    ensures { Answers result (text_prefix_of mode string.now count) no_complaints }
{
    closed(alloc, front(string, wanted(count), mode))
}

// The shortest prefix of whole elements with this number of characters.
fn front(string: &[u8], count: usize, mode: TextMode) -> &[u8]
    ensures { result.now ≡ text_of (take_characters count (elements_of mode string.now)) }
{
    let mut end = 0;
    let mut left = count;
    for element in Elements::of_text(string, mode) {
        if left == 0 {
            return &string[..end];
        }
        end += element.text.len();
        if element.is_character() {
            left -= 1;
        }
    }
    string
}

// How many characters a number asks for.
fn wanted(count: i32) -> usize
    ensures { result ≡ wanted_length count }
{
    usize::try_from(count).unwrap_or(0)
}

// A text with the braces closed that it leaves open.
fn closed(alloc: Global, front: &[u8]) -> Result<Answer, Fault>
    ensures { Answers result (with_braces_closed front.now) no_complaints }
{
    Answer::extended(alloc, front, depth_at(front, front.len()), b'}')
}
