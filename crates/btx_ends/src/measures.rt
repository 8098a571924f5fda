//! What a loop is measured by that makes a text shorter or walks along it, and what is known of literals relative to that text.
use btx_bst::Callee;

/// A loop goes on until a text is empty, or until a flag is set.
#[derive(Clone, Copy, PartialEq, Eq)]
pub struct Measure {
    /// The number of the global string variable whose text gets shorter.
    pub text: u32,
    /// One more than the number of the global integer variable that ends the loop when it is above 0; 0 if none does.
    pub flag: u32,
    /// The number of the text of the style that the text is compared with, where that tells that it isn't empty.
    pub word: u32,
}

/// A loop goes on as long as a text has a part from a place on.
#[derive(Clone, Copy, PartialEq, Eq)]
pub struct Walk {
    /// The number of the global string variable of the text.
    pub text: u32,
    /// The number of the global integer variable of the place, which each turn moves on.
    pub place: u32,
    /// The number of the global integer variable that says how long the part is.
    pub size: u32,
}

/// What a place is below.
#[derive(Clone, Copy, PartialEq, Eq)]
pub enum Limit {
    /// The value of the walk's size.
    Size,
    /// The length of the walk's text, as `text.length$` counts it.
    Length,
    /// This number.
    Number(i32),
}

/// A loop goes on as long as a place is below a limit.
#[derive(Clone, Copy, PartialEq, Eq)]
pub struct Climb {
    /// The variables: the place, which each turn raises, and the limit's. A text that isn't the limit's is none that the style has, and such a size is the place.
    pub walk: Walk,
    /// What the place is below.
    pub limit: Limit,
}

/// A loop puts a shorter text in the place of one on top of the stack.
#[derive(Clone, Copy, PartialEq, Eq)]
pub struct Replacement {
    /// The number of the global string variable that the text is kept in while it is cut.
    pub text: u32,
    /// The number of the global string variable whose text each turn pushes at its end.
    pub given: u32,
}

/// What a call of a function does to the text and the flag.
#[derive(Clone, Copy, PartialEq, Eq)]
pub enum Effect {
    /// Nothing is known of it.
    Other,
    /// They stay as they are.
    Keeps,
    /// The text gets shorter, unless it is empty, or the flag is set.
    Shortens,
    /// The same, if the text begins with the word.
    ShortensIfBegun,
}

/// What a function does with integers on top of the stack, if that is known.
#[derive(Clone, Copy, PartialEq, Eq)]
pub enum Kind {
    /// Nothing is known of it.
    Other,
    /// It is `not`: it takes an integer and leaves one.
    Not,
    /// It is `or`: it takes two integers and leaves one.
    Or,
    /// It is `and`: it takes two integers and leaves one.
    And,
}

/// What is known of a literal.
#[derive(Clone, Copy)]
pub enum Seen {
    /// Nothing: there may be none.
    Anything,
    /// It is this function.
    Function(Callee),
    /// It is this integer.
    Integer(i32),
    /// It is an integer.
    Number,
    /// It is a string.
    Text,
    /// It is the text of the style of this number.
    Word(u32),
    /// It is the text that gets shorter.
    Whole,
    /// It is the first byte of that text, or empty.
    Start,
    /// It is a string that is shorter than that text, or both are empty.
    Shorter,
    /// It is an integer, and the text begins with the word if it is above 0.
    Begins,
}

/// What is known of the four literals on top of the stack.
#[derive(Clone, Copy)]
pub struct Tops {
    /// Of the one on top.
    pub top: Seen,
    /// Of the one below it.
    pub below: Seen,
    /// Of the third one.
    pub third: Seen,
    /// Of the fourth one.
    pub fourth: Seen,
}
