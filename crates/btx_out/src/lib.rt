//! Where outputs go, the lines of a log, and how long lines are broken.
#![tactic(auto)]

pub mod breaker;
pub mod breaking;
pub mod line_length;
pub mod log;
pub mod sink;

pub use breaker::Breaker;
pub use line_length::LineLength;
pub use log::Log;
pub use sink::{Over, Sink, SinkFault};
