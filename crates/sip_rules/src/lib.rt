//! The rules of SIP events at one call, and of the call that an INVITE makes.
#![tactic(auto)]

mod ending;
mod invite;
mod news;
mod response;
mod ringing;

pub use ending::{leaves, on_cancel_expiry};
pub use invite::{dialled, invited};
pub use response::{accepts, ack, ack_and_bye, on_other};
