//! The tests, by module.
mod command_line;
mod directory;
mod job;
mod outcome;
mod program;
mod scratch;
