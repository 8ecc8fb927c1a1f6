//! Runs of a gateway: a list of events in their order, with what came of each, and the law that every run keeps.
#![tactic(auto)]

mod drive;
mod play;

pub use drive::{run, step};
pub use events::Event;
pub use play::{NotPlayed, open_and_run};
