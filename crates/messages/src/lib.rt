//! QSIG messages as records, and the octet layout with its laws as definitions (in specs/).
#![tactic(auto)]

mod complete;
mod digit;
mod kind;
mod record;
mod shown;

pub use digit::all_digits;
pub use kind::{MessageType, UnknownCode};
pub use record::{CallReference, Cause, Channel, Elements, Message, Misread, Part};
