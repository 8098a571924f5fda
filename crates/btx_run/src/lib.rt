//! A run: from a job's files to its list of references and its log.
#![tactic(auto)]

pub mod contents;
pub mod files;
pub mod law;
pub mod run_fault;
pub mod runner;

pub use btx_aux::{FetchFault, Fetched, Finder, History, MemoryFinder};
pub use btx_core::Options;
pub use btx_machine::{About, End, Executed, Notebook, Report, Standing, Unnoted};
pub use btx_out::{LineLength, Over, Sink, SinkFault};
pub use btx_step::KeptBytes;
pub use btx_text::{Limit, TextMode};
pub use law::{budget_law, direct_law, steps_law, worked_jobs_come_to_this};
pub use run_fault::RunFault;
pub use runner::{run, run_noted};
