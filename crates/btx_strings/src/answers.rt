//! What a string function answers.
ghost use Rattle.std.specs.Prelude.{◌≤◌, ◌+◌, length};
ghost use Rattle.btx_text.specs.language.Limits.{greatest_string};

use crate::limit::within_limit;
use btx_text::Fault;
use std::alloc::Global;

/// What was wrong with the operands of a string function or a name function: a flag for each of its five errors, in the order of the messages in
/// `docs/RULES.md`. More than one can be set.
#[derive(Clone, Copy, Debug, PartialEq, Eq)]
pub struct Complaints {
    /// `"TEXT" is an illegal case-conversion string`: the conversion of `change.case$` is not one of the letters `t`, `l` and `u`.
    pub x9: bool,
    /// `There is no name number N in "NAMES"`: the number that `format.name$` is given is below 1 or above the number of names.
    pub x10: bool,
    /// `Name N in "NAMES" has a comma at the end`: a comma of the name has no token after it.
    pub x11: bool,
    /// `Too many commas in name N of "NAMES"`: the name has more than two commas.
    pub x12: bool,
    /// `The format string "FORMAT" is illegal`: its braces are unbalanced, or a piece has another letter than one of `f v l j`, once or twice.
    pub x13: bool,
}

impl Complaints {
    /// Nothing was wrong.
    pub const NONE: Complaints = Complaints {
        x9: false,
        x10: false,
        x11: false,
        x12: false,
        x13: false,
    };
}

/// A text that is no longer than a string may be, and what was wrong with the operands.
#[derive(Debug, Drop)]
pub struct Answer {
    /// The text.
    pub text: Vec<u8>,
    /// What was wrong.
    pub complaints: Complaints,
    pub ghost within: { length text.items ≤ greatest_string },
}

impl Answer {
    ghost use Rattle.std.specs.Prelude.{◌++◌, replicate};
    ghost use Rattle.btx_strings.specs.language.Answers.{no_complaints};
    ghost use Rattle.btx_strings.specs.refinement.Answers.{Answers};

    /// A text as an answer with these complaints, or [`Fault::StringLimit`] where it is too long.
    pub fn new(text: Vec<u8>, complaints: Complaints) -> Result<Answer, Fault>
        ensures { Answers result text.items complaints }
    {
        within_limit(text.len())?;
        Ok(Answer { text, complaints })
    }

    /// A copy of a text as an answer with these complaints, or [`Fault::StringLimit`] where it is too long.
    pub fn copy_of(alloc: Global, text: &[u8], complaints: Complaints) -> Result<Answer, Fault>
        ensures { Answers result text.now complaints }
    {
        within_limit(text.len())?;
        Ok(Answer {
            text: Vec::from_slice(alloc, text)?,
            complaints,
        })
    }

    // A text with a byte after it, this number of times, without complaints, or [`Fault::StringLimit`] where that is too long.
    pub(crate) fn extended(
        alloc: Global,
        text: &[u8],
        count: usize,
        byte: u8,
    ) -> Result<Answer, Fault>
        requires { count ≤ length text.now + 1 }
        ensures { Answers result (text.now ++ replicate count byte) no_complaints }
    {
        let size = text.len() + count;
        within_limit(size)?;
        let mut extended = Vec::with_capacity(alloc, size)?;
        extended.extend_from_slice(text)?;
        extended.resize(size, byte)?;
        Ok(Answer {
            text: extended,
            complaints: Complaints::NONE,
        })
    }
}
