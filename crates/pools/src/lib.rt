//! What every pool of channels does, whatever its kind: the state of a channel, and the interface of a pool with its meaning.
#![tactic(auto)]

mod channel;
mod pool;

pub use channel::ChannelState;
pub use pool::Pool;
