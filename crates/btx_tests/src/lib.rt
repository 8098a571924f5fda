//! Tests of the layers, each by itself, for what no contract says; and what tests of whole runs take as well: devices that fail, texts,
//! and logical lines.
#![tactic(auto)]

#[cfg(test)]
mod breaking;
#[cfg(test)]
mod citations;
pub mod fakes;
#[cfg(test)]
mod faults;
pub mod finders;
#[cfg(test)]
mod logs;
#[cfg(test)]
mod names;
#[cfg(test)]
mod sinks;
#[cfg(test)]
mod strings;
pub mod texts;
pub mod worked_lines;
