//! The gateway over any kind of pool: one call for each kind of event, and two that take the oldest message from its outgoing queues, which its
//! caller keeps and lends.
#![tactic(auto)]

mod applying;
mod gateway;
mod number;
mod opening;
mod outgoing;
mod seizing;
mod setup;
mod steps;

pub use gateway::Gateway;
pub use number::following;
pub use outgoing::Outgoing;
