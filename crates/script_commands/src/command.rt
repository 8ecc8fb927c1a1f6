//! The commands of a script.
use events::Event;

/// The channels that a gateway is opened over.
#[derive(Drop)]
pub enum PoolKind {
    /// The 30 channels of a link.
    Link,
    /// Channels that take turns, in list order.
    Turn(Vec<u8>),
}

/// What a gateway is opened with.
#[derive(Drop)]
pub struct Opening {
    pub pool: PoolKind,
    /// How many digits make a number full.
    pub length: usize,
    /// The number of the first INVITE.
    pub first: u64,
    /// How many messages find a place in the queue for the exchange.
    pub exchange_places: usize,
    /// How many messages find a place in the queue for SIP.
    pub sip_places: usize,
}

/// What a line of a script asks for.
#[derive(Drop)]
pub enum Command {
    /// Opens a gateway.
    Open(Opening),
    /// Lets an event come.
    Event(Event),
    /// Takes all that waits for the exchange, then all that waits for SIP.
    Drain,
    /// Prints the calls.
    Calls,
}
