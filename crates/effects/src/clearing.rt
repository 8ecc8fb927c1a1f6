//! Causes of a clearing, and the statuses that go with them.
ghost use Rattle.std.specs.Prelude.{◌≡◌};
ghost use Rattle.calls.specs.Effects.{own_cause, status_for, cause_for, is_unavailable};

use causes::{CHANNEL_UNAVAILABLE, REMOTE_PRIVATE_NETWORK, cause_of, counted_cause, status_of};
use messages::Cause;

/// A cause of the gateway's own: it comes from the private network that serves the remote user.
pub fn own_cause(value: u8) -> Cause
    ensures from_the_remote_network { result ≡ own_cause value }
{
    Cause {
        value,
        location: REMOTE_PRIVATE_NETWORK,
    }
}

/// The status for a clearing message, which need not carry a cause.
pub fn status_for(cause: Option<Cause>) -> u16
    ensures status_of_the_clearing { result ≡ status_for cause }
{
    status_of(Cause {
        value: counted_cause(cause.map(|given| given.value)),
        location: cause.map_or(REMOTE_PRIVATE_NETWORK, |given| given.location),
    })
}

/// The cause for a final response that refuses. Stays beside `cause_of`: it promises the record that the rules name.
pub fn cause_for(status: u16) -> Cause
    ensures cause_of_the_status { result ≡ cause_for status }
{
    cause_of(status)
}

/// Whether the exchange says that the requested channel is not available.
pub fn is_unavailable(cause: Option<Cause>) -> bool
    ensures that_cause_alone { result ≡ is_unavailable cause }
{
    cause.is_some_and(|given| given.value == CHANNEL_UNAVAILABLE)
}
