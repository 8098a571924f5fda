//! What databases give to a job: its entries with their values and cross-references, the preamble, and the messages.
#![tactic(auto)]

mod databases;
mod draft;
mod end;
mod entry;
mod few_places;
mod gathering;
pub mod grammar;
pub mod laws;
mod library;
mod marks;
mod message;
mod message_texts;
mod names;
mod passes;
mod places;
mod reading;
mod request;
mod site;
mod slots;
mod spelling;
pub mod strings;
mod style_fields;
mod texts;
mod values;

pub use databases::read_databases;
pub use end::End;
pub use entry::Entry;
pub use library::Library;
pub use message::{Message, Messages, SourcePosition};
pub use spelling::{Spelling, Word};
pub use values::Values;
