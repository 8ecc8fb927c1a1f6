//! The rules of exchange events at one call: messages that find it, expiries of its timer, and the call that a SETUP makes.
#![tactic(auto)]

mod dialled;
mod expiry;
mod message;
mod moment;
mod setup;

pub use expiry::on_expiry;
pub use message::{asks_for_another, on_type, tries_again};
pub use setup::{DialledSetup, begins};
