//! Tests of the public names of the crates. It has no code of its own.
#![tactic(auto)]

#[cfg(test)]
mod tests;
