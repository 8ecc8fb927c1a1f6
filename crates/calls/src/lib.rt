//! The calls of a gateway between a QSIG exchange and a SIP network: their records, the rules of every step as definitions
//! (in specs/), runs of steps, and the laws that every run keeps.
#![tactic(auto)]

mod answers;
mod incoming;
mod laws;
mod outgoing;
mod record;
mod sides;

pub use answers::{Answer, Refused, Report, Timer};
pub use incoming::{Invite, Response};
pub use laws::{collisions_stand, examples_stand, run_law_stands};
pub use outgoing::SipMessage;
pub use record::{Call, Digits, Found, Origin};
pub use sides::{ExchangeSide, News, SipSide, Told};
