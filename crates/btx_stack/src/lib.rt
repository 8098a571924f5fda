//! The literal stack of a style: small values over one pool of bytes, in memory that is taken once.
#![tactic(auto)]

pub mod literal;
pub mod literals;
mod pool;
mod slot;
mod slots;
pub mod variable;

pub use literal::Literal;
pub use literals::Literals;
pub use slots::GREATEST_SHORT;
pub use variable::Variable;
