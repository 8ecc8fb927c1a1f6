//! Scripts of events, played on gateways.
#![tactic(auto)]

mod play;
mod script;

pub use script::play_script;
