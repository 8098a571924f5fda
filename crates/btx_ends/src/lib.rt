//! Does every run of a style end? A proved checker of certificates, which claim for each function of a style how many steps a call of it takes at most.
#![tactic(auto)]

pub mod checker;
pub mod claims;
pub mod climb_search;
pub mod climbing;
pub mod climbs;
pub mod costs;
pub mod descending;
pub mod held;
pub mod keeping;
pub mod kinds;
pub mod known;
pub mod laws;
pub mod literals;
pub mod measures;
pub mod piles;
pub mod reaching;
pub mod replacement_search;
pub mod replacements;
pub mod replacing;
pub mod search;
pub mod shortening;
pub mod telling;
pub mod tokens;
pub mod tops;
pub mod walk_search;
pub mod walking;
pub mod walks;

pub use checker::{Certificate, check, ends};
pub use costs::Bound;
pub use reaching::{bounded_types, reached};
pub use search::proposed;
