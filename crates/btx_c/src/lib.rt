//! The library for C, and for all that calls C. A caller hands in the files of a job and gets back what the job writes. All that C sees lies in the
//! caller's memory: no call keeps what it was given, and none hands out memory of its own. So no call depends on another one, in any thread.
#![tactic(auto)]

pub mod answers;
pub mod bounded;
pub mod cause;
pub mod checked;
pub mod event;
pub mod exports;
pub mod handed;
pub mod index;
pub mod job_rows;
pub mod kept;
pub mod laws;
pub mod lines;
pub mod needs;
pub mod noted;
pub mod numbers;
pub mod options;
pub mod others;
pub mod place;
pub mod places;
pub mod placing;
pub mod read;
pub mod read_job;
pub mod report;
pub mod run;
pub mod supposed;
pub mod tokens;
pub mod unbounded;
pub mod verdict;
pub mod warned;
mod weight;
