//! What comes of an event, decided from the table of calls alone: a refusal, an answer that touches no call, or an effect at one
//! place. What needs a channel of the pool is decided where it is seized.
#![tactic(auto)]

mod exchange;
mod outcome;
mod sip;

pub use exchange::{at_its_call, busy_cause, on_expiry_of, turned_away, wants_another};
pub use outcome::Outcome;
pub use sip::{is_status, on_bye, on_cancel, on_expiry_of_cancel, on_response, screen};
