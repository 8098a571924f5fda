//! Names: how many a string holds, and a name in the form that a style asks for.
#![tactic(auto)]

mod format_items;
mod format_pieces;
mod formatted;
mod initials;
mod kept_formats;
mod kept_item;
mod kept_name;
mod kept_names;
pub mod laws;
mod name_formatter;
mod name_list;
mod name_parts;
mod name_ranges;
mod name_reading;
mod name_token;
mod name_tokens;
mod part;
mod pieces;
mod place;
mod runs;
mod separators;
mod token_counts;
mod token_list;
mod von_tokens;
mod writer;

pub use name_formatter::{NameFormatter, format_name};
pub use name_list::num_names;
