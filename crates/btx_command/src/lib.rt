//! The command: from the words of a command line to the outputs of a job and the exit code.
#![tactic(auto)]

pub mod command_line;
pub mod directory;
pub mod given;
mod handed;
pub mod job;
mod list_file;
pub mod options;
pub mod outcome;
pub mod outputs;
pub mod paths;
pub mod program;
mod reading;
mod spelling;
pub mod system;

pub use btx_run::History;
pub use command_line::settings;
pub use directory::DirectoryFinder;
pub use given::{Refusal, Settings};
pub use job::{printed_log, run_job};
pub use list_file::{EmptiedFile, SystemFile};
pub use options::{ABOUT, STATUSES};
pub use outcome::{Exit, exit_status};
pub use outputs::{Outputs, SystemOutputs};
pub use paths::path_of;
pub use program::run_command_line;
pub use system::{RealSystem, System};
