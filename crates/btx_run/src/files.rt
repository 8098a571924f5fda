//! The files of a run: its job's `.aux` files, its style and its databases are found and read, and each line of the log is written when
//! what it is about happens.

mod databases;
pub mod fetching;
pub mod laws;
mod lines;
mod logging;
mod names;
pub mod reading;

pub use btx_core::{FilesRead, FoundFile, FoundFiles, JobFiles};
pub use reading::{read_files, read_job};
