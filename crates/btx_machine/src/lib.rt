//! The machine that executes a style, once the files of a job are read: what a style means, both outputs, and the run's report.
#![tactic(auto)]

mod at_once;
mod command;
mod counted_since;
mod ending;
mod items;
mod journal;
mod last;
mod law;
pub mod lists;
mod log_sink;
pub mod machine;
pub mod marks;
pub mod notebook;
mod noted_log;
pub mod outputs;
pub mod program;
mod quick;
pub mod report;
mod run;
mod since;
pub mod visits;
mod wholeness;
pub mod work;

pub use command::Command;
pub use ending::Ending;
pub use journal::Journal;
pub use last::log_end;
pub use law::{
    budget_law, counts_go_up_and_stay, depth_law, direct_law, limits_law, meaning_exists,
    meaning_is_unique, steps_law, worked_bodies_come_to_this, worked_reports_are_written_so,
};
pub use log_sink::LogSink;
pub use notebook::{About, Executed, Notebook, Standing, Unnoted};
pub use noted_log::NotedLog;
pub use report::{End, LogCounts, Report};
pub use run::execute_style;
pub use wholeness::Wholeness;
