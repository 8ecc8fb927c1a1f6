//! Writes a QSIG message into the caller's buffer.
#![tactic(auto)]

mod element;
mod message;
mod parts;
mod ranges;
mod sizes;

pub use message::write;
