//! The lines of a log.
use crate::list::List;
use std::marker::Model;

/// What a line of the log is.
#[derive(Clone, Copy, Debug, PartialEq, Eq)]
pub enum LineKind {
    /// Neither a warning nor an error: a file that was found, or a literal that a style shows.
    Plain,
    /// A warning.
    Warning,
    /// An error.
    Error,
}

/// A line of the log, without its end.
#[derive(Drop)]
pub struct LogLine {
    text: Vec<u8>,
    kind: LineKind,
}

impl Model for LogLine {
    ghost use Rattle.btx_text.specs.language.LogLines.{Line};

    ghost Value = { Line };

    ghost view = { λ line. record { text = line.text.items; kind = line.kind } };
}

impl LogLine {
    ghost use Rattle.std.specs.Prelude.{◌≡◌};

    /// A line of this text.
    pub fn new(text: Vec<u8>, kind: LineKind) -> Self
        ensures text { result.text ≡ text.items }
        ensures kind { result.kind ≡ kind }
    {
        LogLine { text, kind }
    }

    /// The text, without an end of line.
    pub fn text(&self) -> &[u8]
        ensures { result.now ≡ self.now.text }
    {
        self.text.as_slice()
    }

    /// What the line is.
    pub fn kind(&self) -> LineKind
        ensures { result ≡ self.now.kind }
    {
        self.kind
    }
}

/// Lines of the log, in order.
pub type LogLines = List<LogLine>;
