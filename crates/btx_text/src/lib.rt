//! The words of the other crates: byte classes, the lines of a text, the elements of a string, strings that are
//! lent or shared, the lines of a log, the limits of a run, the faults of a call, and how often a device failed.
#![tactic(auto)]

pub mod byte_class;
pub mod classify;
pub mod depths;
pub mod element_kind;
pub mod failures;
pub mod fault;
pub mod keys;
pub mod laws;
pub mod limits;
pub mod list;
pub mod log_line;
pub mod log_texts;
pub mod lowered;
mod sequences;
pub mod string_elements;
pub mod text;
pub mod text_lines;
pub mod trimming;

pub use byte_class::Class;
pub use classify::class;
pub use depths::depth_at;
pub use element_kind::{Kind, TextMode};
pub use failures::Failures;
pub use fault::Fault;
pub use keys::{fold_key, same_key};
pub use limits::{GREATEST_FILE, GREATEST_STRING, Limit, MOST_LITERALS};
pub use list::List;
pub use log_line::{LineKind, LogLine, LogLines};
pub use log_texts::Place;
pub use lowered::Lowered;
pub use string_elements::{Element, Elements};
pub use text::Text;
pub use text_lines::Lines;
pub use trimming::lines;
