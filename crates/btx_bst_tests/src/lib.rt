//! Tests of the reader of styles: what each text comes to, worked by hand; a long style; and texts that were cut or spoilt.
#![tactic(auto)]

#[cfg(test)]
mod tests;
