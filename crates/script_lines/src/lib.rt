//! The lines of scripts and what they ask for, and what is printed of a play. No rule of the gateway stands here.
#![tactic(auto)]

mod line;
mod printed;
mod shown;

pub use line::{Line, lines_of};
pub use printed::{print_answers, print_calls, print_drained, print_refused, print_unopened};
pub use script_commands::{Command, Opening, PoolKind};
