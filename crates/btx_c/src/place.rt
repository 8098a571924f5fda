//! Where a line of the log was met, as C has it.

use btx_bst::Span;

/// The place that a line of the log is about: some bytes of one of the files that were handed in, and a token of the style that was executed.
#[repr(C)]
#[derive(Clone, Copy)]
pub struct BtxPlace {
    /// The number of the file among those that were handed in, from 0; `NO_FILE` where no place is known.
    pub file: u64,
    /// How many bytes of the file stand before the place.
    pub start: u64,
    /// How many bytes of the file stand before the end of the place.
    pub end: u64,
    /// The line of the first byte, from 1; 0 where no place is known.
    pub line: u64,
    /// The number of the function whose token was executed, from 0 in the order of the style's bodies; else `NO_FUNCTION`.
    pub function: u32,
    /// The number of the token in that function, from 0.
    pub token: u32,
}

/// No file is known.
pub const NO_FILE: u64 = u64::MAX;

/// No token of a function was executed.
pub const NO_FUNCTION: u32 = u32::MAX;

impl BtxPlace {
    /// No place is known.
    pub fn none() -> Self {
        BtxPlace {
            file: NO_FILE,
            start: 0,
            end: 0,
            line: 0,
            function: NO_FUNCTION,
            token: 0,
        }
    }

    /// A point of a line of a file.
    pub fn at(file: usize, line: usize, offset: usize) -> Self {
        BtxPlace {
            file: file as u64,
            start: offset as u64,
            end: offset as u64,
            line: line as u64,
            ..BtxPlace::none()
        }
    }

    /// A part of a file.
    pub fn of(file: usize, part: &Span) -> Self {
        BtxPlace {
            file: file as u64,
            start: part.from as u64,
            end: part.to as u64,
            line: part.line as u64,
            ..BtxPlace::none()
        }
    }

    /// The same place, of a token of a function.
    pub fn with_token(self, function: u32, token: u32) -> Self {
        BtxPlace {
            function,
            token,
            ..self
        }
    }
}
