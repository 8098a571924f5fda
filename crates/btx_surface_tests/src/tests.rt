//! The tests, by module. Each uses the public names of one or two crates in the form in which a caller writes them: a `match` names every variant of a type, a pattern
//! every field, and a call every argument and its result.
mod command;
mod databases;
mod files;
mod outputs;
mod runs;
mod strings;
mod styles;
mod texts;
