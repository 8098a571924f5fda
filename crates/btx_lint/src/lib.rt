//! The places where a style may go wrong, and their causes: a search for whoever shows them to a style's designer.
#![tactic(auto)]

mod faults;
pub mod findings;
mod frames;
mod least;
mod reach;
mod search;
mod traces;
mod tracing;
mod visits;

pub use findings::{Cause, Condition, Fault, Finding, Findings, Growth, Operand, examine};
