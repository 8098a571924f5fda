//! Tests of the literal stack and of the flat code: each public call once on its happy path.
#![tactic(auto)]

#[cfg(test)]
mod code;
#[cfg(test)]
mod stack;
