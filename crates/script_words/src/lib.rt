//! The words of a script's lines and what a single word stands for, by exact promises.
#![tactic(auto)]

mod bad_line;
mod channels;
mod numbers;
mod switches;
mod words;

pub use bad_line::BadLine;
pub use channels::channels_of;
pub use numbers::{count_of, number_of, octet_of, short_of};
pub use switches::{flag_of, media_of};
pub use words::words_of;
