//! Writes a message and reads it back: the same record, always.
#![tactic(auto)]

mod checked;

pub use checked::write_checked;
