//! Where files come from, and what the `.aux` files of a job say.
#![tactic(auto)]

pub mod citations;
mod command;
mod draft;
pub mod end;
pub mod fetch_fault;
pub mod finder;
pub mod history;
pub mod job;
mod keys;
pub mod laws;
mod line_words;
pub mod memory;
mod name;
mod name_set;
mod notes;
mod pieces;
mod reading;

pub use citations::read_aux;
pub use end::End;
pub use fetch_fault::{FetchFault, Fetched};
pub use finder::Finder;
pub use history::History;
pub use job::AuxJob;
pub use memory::{MemoryFinder, fill};
