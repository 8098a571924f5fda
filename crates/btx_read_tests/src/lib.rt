//! Tests of the records of databases.
#![tactic(auto)]

#[cfg(test)]
mod tests;
