//! What a run of BibTeX comes to, as one relation in which no function, string, field or entry has a number (`specs/language`): definitions, and laws about
//! them; with the types that they name, the options of a run and the files that it found.
#![tactic(auto)]

pub mod found;
pub mod laws;
pub mod options;

pub use found::{FilesRead, FoundFile, FoundFiles, JobFiles, next_number};
pub use options::Options;
