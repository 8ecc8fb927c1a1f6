use calls::{Response, Timer};
use messages::CallReference;

/// What comes to a gateway, with the octets that it brings.
#[derive(Drop)]
pub enum Event {
    /// A message of the exchange.
    Exchange {
        octets: Vec<u8>,
    },
    /// An INVITE, its fields one by one: the digits are owned here, and lent to the step.
    Invite {
        transaction: u64,
        dialogue: u64,
        digits: Vec<u8>,
    },
    /// CANCEL of an INVITE.
    Cancel {
        transaction: u64,
    },
    /// BYE on a dialogue.
    Bye {
        dialogue: u64,
    },
    /// A response to an INVITE of ours.
    Response(Response),
    /// A timer of the exchange side, by the reference as the exchange sends it.
    Expiry {
        timer: Timer,
        reference: CallReference,
    },
    /// The timer of the CANCEL with this number.
    CancelExpiry {
        number: u64,
    },
    /// The oldest message for the exchange is taken.
    TakeExchange,
    /// The oldest message for SIP is taken.
    TakeSip,
}
