//! What is asked of the two sides of a call: the exchange's and SIP's.
#![tactic(auto)]

mod exchange;
mod sip;

pub use exchange::{
    is_over, is_repeated, is_running, is_uncleared, is_unreleased, sent_cause, timer_of,
};
pub use sip::{awaits_response, is_gone, is_held_by, is_no_sip, is_unanswered, number_of};
