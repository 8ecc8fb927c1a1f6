//! What a step does to one call: the moves of its two sides, what it says to the exchange, and the effect of both moves together.
#![tactic(auto)]

mod clearing;
mod effect;
mod exchange;
mod sip;
mod telling;

pub use clearing::{cause_for, is_unavailable, own_cause, status_for};
pub use effect::{Effect, ExchangeMove, SipMove, made, moved, redialled};
pub use exchange::{clears_exchange, ends, enters, releases, retries, stays};
pub use sip::{answers, becomes, clears_sip, invites, keeps, leaves_sip, responds};
pub use telling::{answer_to_setup, rejection, setup_on, tell, tell_cause, tell_progress};
