//! Reads a QSIG message from the caller's octets.
#![tactic(auto)]

mod contents;
mod element;
mod header;
mod message;
mod noting;
mod refusal;

pub use message::read;
