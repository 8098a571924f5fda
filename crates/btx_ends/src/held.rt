//! What is known of literals, where a loop counts an integer down that stands on top of the stack, or puts a shorter text in the place of one that stands there.

/// What is known of a literal, beside the integer or the text that stood on top when a turn began.
#[derive(Clone, Copy)]
pub enum Held {
    /// Nothing: there may be none.
    Anything,
    /// It is a string.
    Text,
    /// It is an integer.
    Number,
    /// It is 0.
    Zero,
    /// It is an integer above 0.
    Positive,
    /// It is an integer that is no greater than that one, or not above 0.
    Same,
    /// The same, if it is an integer; there may be none.
    Low,
    /// It is an integer, and above 0 only where that one is.
    Told,
    /// It is a string that is no longer than that text.
    Whole,
    /// If it is an integer, it is at least 2; there may be none.
    Late,
    /// If it is an integer, it is at least 2, or it is 0; there may be none.
    Apart,
}

/// What is known of the eight literals on top of the stack.
#[derive(Clone, Copy)]
pub struct Pile {
    /// Of the one on top.
    pub first: Held,
    /// Of the one below it.
    pub second: Held,
    /// Of the third one.
    pub third: Held,
    /// Of the fourth one.
    pub fourth: Held,
    /// Of the fifth one.
    pub fifth: Held,
    /// Of the sixth one.
    pub sixth: Held,
    /// Of the seventh one.
    pub seventh: Held,
    /// Of the eighth one.
    pub eighth: Held,
}
