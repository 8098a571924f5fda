//! Styles: what a `.bst` file says.
#![tactic(auto)]

mod bodies;
mod body_words;
mod built_in;
mod callee;
mod command;
mod complaint;
mod cursor;
mod direct;
mod draft;
mod fronts;
mod integers;
mod item;
pub mod laws;
mod lists;
mod macros;
mod message;
mod name_table;
mod names;
mod open;
mod reader;
mod recorder;
mod span;
mod style;
mod style_places;
mod token;
mod turn;
mod word;

pub use built_in::BuiltIn;
pub use callee::Callee;
pub use command::Command;
pub use complaint::Complaint;
pub use direct::is_direct;
pub use item::Item;
pub use macros::Macros;
pub use message::Message;
pub use span::Span;
pub use style::{PlacedStyle, Style, read_placed_style, read_style};
pub use style_places::StylePlaces;
pub use token::Token;
