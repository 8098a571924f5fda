//! What a record says.
use btx_bib::Word;
use btx_bib::grammar::slip::SyntaxError;
use btx_text::Text;

/// What a record says. A text that is longer than a string may be is left out.
#[derive(Drop)]
pub enum Content<'a> {
    /// An `@comment`, which ends with its name.
    Comment,
    /// A `@preamble`, and its text.
    Preamble(Option<Text<'a>>),
    /// A `@string`: its name, and its text.
    Definition(Word<'a>, Option<Text<'a>>),
    /// The beginning of an entry: its type, and its key.
    Entry(Word<'a>, Word<'a>),
    /// A field of the entry: its name, and its text.
    Field(Word<'a>, Option<Text<'a>>),
    /// The end of a `@preamble`, a `@string` or an entry.
    End,
    /// What is wrong.
    Wrong(SyntaxError),
}
