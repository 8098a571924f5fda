//! Tests of the checker of styles: which styles it calls clean.
#![tactic(auto)]

#[cfg(test)]
mod operands;
#[cfg(test)]
mod styles;
