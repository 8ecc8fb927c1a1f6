//! One queue for every kind of message, over places that its caller lends.
#![tactic(auto)]

pub mod few;
pub mod queue;
