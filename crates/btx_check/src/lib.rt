//! A checker of styles: a style that it calls clean never logs a fault of its own, for any databases whose entries have types that it allows, and any budget
//! of at most 1,500,000,000 steps.
#![tactic(auto)]

pub mod adding;
pub mod bounds;
pub mod description;
pub mod entries;
mod joining;
mod known_rules;
pub mod lasting;
pub mod laws;
pub mod likeness;
pub mod loops;
pub mod memo;
pub mod name_rules;
pub mod operands;
mod plain_rules;
pub mod rules;
mod running;
mod stack_rules;
pub mod state;
mod sums;
pub mod table;
pub mod types;
pub mod verdict;
mod within;
pub mod work;

pub use state::State;
pub use verdict::{Clean, Verdict, check};
pub use work::{Place, Warning};
