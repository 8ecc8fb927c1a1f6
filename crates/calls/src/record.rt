use crate::sides::{ExchangeSide, SipSide};
use messages::CallReference;

/// At most 20 digits of a called number: the first `count` of the octets.
#[derive(Clone, Copy, PartialEq, Eq, Debug)]
pub struct Digits {
    // Stays an array with its count: calls and messages are `Copy`, which no vector is.
    pub octets: [u8; 20],
    pub count: usize,
}

/// Where a call came from.
#[derive(Clone, Copy, PartialEq, Eq, Debug)]
pub enum Origin {
    /// A SETUP made it. The number is that of the INVITE that goes out, from 1 on, and is the call's for its life.
    Exchange { number: u64 },
    /// An INVITE made it.
    Sip,
}

/// A call. What it holds, owes and awaits is asked by the functions of its two sides.
#[derive(Clone, Copy, PartialEq, Eq, Debug)]
pub struct Call {
    /// As the exchange's messages carry it: flag 0 where the exchange gave the number out, 1 where the gateway did.
    pub reference: CallReference,
    /// The call's own while its exchange side is not over.
    pub channel: u8,
    pub origin: Origin,
    pub digits: Digits,
    pub exchange: ExchangeSide,
    pub sip: SipSide,
}

/// A call that was looked for, and its place in the table, below 64.
#[derive(Clone, Copy, PartialEq, Eq, Debug)]
pub struct Found {
    pub place: usize,
    pub call: Call,
}
