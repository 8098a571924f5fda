//! Tests of the checker of ends: which styles it calls ending, and with which bounds.
#![tactic(auto)]

#[cfg(test)]
mod styles;
