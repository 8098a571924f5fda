//! The messages of databases.
use crate::grammar::slip::SyntaxError;
use crate::spelling::{Spelling, Word};
use btx_text::List;

/// The place of a database that a message is about: its file, a line of it, and where the reading stood.
#[derive(Drop)]
pub struct SourcePosition<'a> {
    /// The name of the file.
    pub file: Word<'a>,
    /// The line, from 1 up.
    pub line: usize,
    /// Where the reading stood: the number of bytes of the file before that place.
    pub at: usize,
}

impl<'a> SourcePosition<'a> {
    ghost use Rattle.std.specs.Prelude.{◌≡◌};

    /// Makes the spot of the line `line` of the file `file`, where the reading stood after `at` of its bytes.
    pub fn of(file: &Word<'a>, line: usize, at: usize) -> SourcePosition<'a>
        ensures { result ≡ record { file = file.now; line = line; at = at } }
    {
        SourcePosition {
            file: file.copy(),
            line,
            at,
        }
    }
}

/// A message of READ, as data: its line is made when it is logged.
#[derive(Drop)]
pub enum Message<'a> {
    /// What is wrong in a database.
    Wrong(SyntaxError, SourcePosition<'a>),
    /// The type of the entry with this key isn't one of the style.
    UnknownKind(Word<'a>, SourcePosition<'a>),
    /// An entry's key, and a field of it that it had already.
    ExtraField(Word<'a>, Word<'a>, SourcePosition<'a>),
    /// A name that stands for no string.
    UndefinedString(Word<'a>, SourcePosition<'a>),
    /// A name that stands in the string's own definition.
    OwnString(Word<'a>, SourcePosition<'a>),
    /// An entry's key, and the key of its parent, which has no entry.
    BadReference(Spelling<'a>, Spelling<'a>),
    /// An entry's key, and the key of its parent, which has a parent of its own.
    NestedReference(Spelling<'a>, Spelling<'a>),
    /// A key of the list that has no entry.
    NoEntry(Spelling<'a>),
}

/// Messages, in order.
pub type Messages<'a> = List<Message<'a>>;
