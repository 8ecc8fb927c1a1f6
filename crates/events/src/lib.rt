//! The events that come to a gateway, as values that own their octets, and what each says to the rules (in specs/).
#![tactic(auto)]

mod event;

pub use event::Event;
