//! Tests of the reading of databases.
#![tactic(auto)]

#[cfg(test)]
mod tests;
