//! Seized channels: a token for each that stands in no call, the trunk that hands them out and takes them back, and the
//! table of the calls that hold them. Tokens are made and spent in this crate alone.
#![tactic(auto)]

mod key;
mod table;
mod token;
mod trunk;

pub use key::Key;
pub use table::Table;
pub use token::Token;
pub use trunk::Trunk;
