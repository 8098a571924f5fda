//! What can be asked of a run.
use btx_out::LineLength;
use btx_step::KeptBytes;
use btx_text::TextMode;

/// What can be asked of a run.
#[derive(Clone, Copy, Debug)]
pub struct Options {
    /// How many references keep an entry in the list that isn't cited.
    pub min_crossrefs: u32,
    /// The greatest number of steps.
    pub budget: u64,
    /// How the text of strings is read.
    pub text: TextMode,
    /// The greatest length of a line of the `.bbl`, in bytes, if whitespace allows a break.
    pub line: LineLength,
    /// How many bytes of a string a variable of an entry keeps.
    pub entry_max: KeptBytes,
    /// How many bytes of a string a global variable keeps.
    pub global_max: KeptBytes,
}
