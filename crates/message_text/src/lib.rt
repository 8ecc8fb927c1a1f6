//! What the programs print of messages and refusals, a line each.
#![tactic(auto)]

mod answer;
mod shown;

pub use answer::{Answer, answer_to, is_remark};
pub use shown::{MessageText, OctetsText};
