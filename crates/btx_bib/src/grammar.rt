//! The grammar of databases: what stands in a text, and what is wrong in it.

pub(crate) mod byte_sets;
mod commands;
pub mod events;
mod field_readers;
pub(crate) mod fields;
mod item_readers;
pub mod laws;
pub mod line_counter;
pub mod parts;
mod passed;
mod passed_fields;
mod plain;
pub mod plain_fields;
pub mod reader;
pub mod slip;
mod squeezing;
mod tokens;
pub mod value_ends;
pub mod value_texts;
pub mod values;
