//! A period at the end of a string.
ghost use Rattle.std.specs.Prelude.{◌≡◌, ◌++◌, [], ◌∷◌, if◌then◌else◌};
ghost use Rattle.btx_strings.specs.language.Answers.{no_complaints};
ghost use Rattle.btx_strings.specs.refinement.Answers.{Answers};
ghost use Rattle.btx_strings.specs.language.Positions as spec;
ghost use Rattle.btx_strings.specs.refinement.Positions as part;

use crate::answers::{Answer, Complaints};
use btx_text::Fault;
use std::alloc::Global;

/// A string with a period at its end. It stays where its last byte that is no `}` is `.`, `?` or `!`, and where it is empty.
///
/// Errors: [`Fault::Memory`]; [`Fault::StringLimit`] where the text would be over 1,000,000 bytes.
pub fn add_period(alloc: Global, string: &[u8]) -> Result<Answer, Fault>
    ensures { Answers result (spec.add_period_of string.now) no_complaints }
{
    if !lacks_period(string) {
        return Answer::copy_of(alloc, string, Complaints::NONE);
    }
    Answer::extended(alloc, string, 1, b'.')
}

/// Whether a string gets a period by [`add_period`].
pub fn lacks_period(string: &[u8]) -> bool
    ensures { spec.add_period_of string.now ≡ (if result then string.now ++ part.period ∷ [] else string.now) }
{
    if string.is_empty() {
        return false;
    }
    !is_ended(string)
}

// Whether a string ends in a stop, closing braces aside.
fn is_ended(string: &[u8]) -> bool
    ensures { result ≡ spec.is_ended (part.last_mark string.now) }
{
    matches!(last_mark(string), Some(b'.' | b'?' | b'!'))
}

// The last byte that is no closing brace.
fn last_mark(string: &[u8]) -> Option<u8>
    ensures { result ≡ part.last_mark string.now }
{
    string.iter().rev().find(|byte| **byte != b'}').copied()
}
