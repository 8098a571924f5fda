//! What is said of a style, in numbers.
ghost use Rattle.std.specs.Prelude.{◌≡◌, IsTrue};

/// What is said of a style, in numbers as C has them.
#[repr(C)]
#[derive(Clone, Copy)]
pub struct BtxVerdict {
    /// 0 clean, 1 not known to be clean, 2 the check didn't come to an end.
    pub verdict: u32,
    /// Of a clean style the greatest number of literals on the stack that was met.
    pub literals: u64,
    /// Of a clean style the greatest number of bodies of functions that are open at once.
    pub bodies: u64,
    /// How many bytes the names of the types have.
    pub types_len: usize,
    /// How many bytes the notes have.
    pub notes_len: usize,
}

/// The style is clean.
pub const CLEAN: u32 = 0;

/// The style isn't known to be clean.
pub const WARNINGS: u32 = 1;

/// The check didn't come to an end.
pub const INCOMPLETE: u32 = 2;

/// The number of a verdict.
pub fn verdict_of(is_clean: bool, is_whole: bool) -> u32
    ensures { result ≡ CLEAN → IsTrue is_clean }
{
    if is_clean {
        CLEAN
    } else if is_whole {
        WARNINGS
    } else {
        INCOMPLETE
    }
}

/// What is said of the steps of a style's runs, in numbers as C has them.
#[repr(C)]
#[derive(Clone, Copy)]
pub struct BtxBound {
    /// Of a style that ends: the steps of a run, and
    pub once: u64,
    /// the steps for each entry of the list.
    pub each: u64,
    /// How many bytes the names of the types have.
    pub types_len: usize,
    /// How many bytes the notes have.
    pub notes_len: usize,
    /// Whether each run ends within the bound.
    pub ends: bool,
}
