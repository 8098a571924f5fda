//! Tests of the command, for what no contract says. It has no code of its own.
#![tactic(auto)]

#[cfg(test)]
mod tests;
