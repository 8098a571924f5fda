//! The functions of the style language on strings: lengths and prefixes in characters of text, case, purified forms, widths, pieces.
#![tactic(auto)]

mod answers;
mod case_change;
pub mod controls;
pub mod conversions;
pub mod laws;
mod lengths;
mod limit;
mod periods;
mod prefixes;
mod purified;
mod substrings;
mod widths;

pub use answers::{Answer, Complaints};
pub use case_change::{change_case, change_case_into};
pub use lengths::text_length;
pub use periods::{add_period, lacks_period};
pub use prefixes::text_prefix;
pub use purified::{purify, purify_into};
pub use substrings::{Piece, piece_of, substring};
pub use widths::width;
