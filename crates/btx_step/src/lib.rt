//! One step of a style: what a token does to the literals, the variables and the current entry, and what it says.
#![tactic(auto)]

pub mod calculation;
mod job;
mod kept_bytes;
pub mod laws;
pub mod lines;
mod list;
mod literal;
mod next;
pub mod operands;
mod outcome;
pub mod reserved;
mod said;
pub mod sorting;
pub mod stand_in;
mod store;
mod values;

pub use job::Job;
pub use kept_bytes::KeptBytes;
pub use literal::{Literal, OperandKind};
pub use next::Next;
pub use outcome::Outcome;
pub use said::{Note, Notes, StepOutput};
pub use store::Store;
pub use values::EntryValues;
