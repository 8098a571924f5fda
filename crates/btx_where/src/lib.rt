//! Where a style stands: which steps of a run log errors, at which token of the style each of them stands, who called it, and which literals are on the
//! stack; and the same where a run is stopped or met a limit. It stands beside `btx_run`, and changes nothing of a run.
#![tactic(auto)]

pub mod calls;
pub mod course;
pub mod explainer;
pub mod items;
pub mod levels;
pub mod machine;
pub mod notes;
pub mod place;
pub mod runner;
pub mod scene;
pub mod scratch;
pub mod stand;
pub mod stops;
pub mod visits;

pub use place::Place;
pub use runner::locate;
pub use scene::{Level, StoppedState};
pub use scratch::{DiscardingSink, ResettableSink, Scratch};
pub use stops::scene_after;
