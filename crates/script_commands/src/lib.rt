//! What a line of a script asks for, by exact promises.
#![tactic(auto)]

mod asked;
mod command;
mod event_words;
mod opening_words;
mod shown;
mod timers;

pub use asked::parse;
pub use command::{Command, Opening, PoolKind};
pub use timers::{timer_name, timer_of};
