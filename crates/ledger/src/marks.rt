//! What an event or a message is to the counts.
ghost use Rattle.std.specs.Prelude.{◌≡◌};
ghost use Rattle.calls.specs.Sides.{one_if};
ghost use Rattle.calls.specs.Laws.{brought_by};
ghost use Rattle.events.specs.Events.{event_of};
ghost use Rattle.ledger.specs.Counts.{setups, oks, byes, connect, ok_sent, bye_sent};

use calls::{Digits, SipMessage};
use events::Event;
use messages::{Message, MessageType};
use reader::read;

const OK: u16 = 200;

/// A message of the exchange that reads as SETUP.
pub(crate) fn brings_setup(event: &Event) -> bool
    ensures by_the_laws { one_if result ≡ setups (brought_by (event_of event.now)) }
{
    match event {
        Event::Exchange { octets } => match read(octets) {
            Ok(message) => message.kind.is_setup(),
            Err(_) => false,
        },
        _ => false,
    }
}

/// A 200 that comes.
pub(crate) fn brings_ok(event: &Event) -> bool
    ensures by_the_laws { one_if result ≡ oks (brought_by (event_of event.now)) }
{
    match event {
        Event::Response(response) => response.status == OK,
        _ => false,
    }
}

/// A BYE that comes.
pub(crate) fn brings_bye(event: &Event) -> bool
    ensures by_the_laws { one_if result ≡ byes (brought_by (event_of event.now)) }
{
    matches!(event, Event::Bye { .. })
}

/// CONNECT that goes out.
pub(crate) fn is_connect(message: &Message<Digits>) -> bool
    ensures by_the_laws { one_if result ≡ connect message.now }
{
    message.kind == MessageType::Connect
}

/// A 200 that goes out.
pub(crate) fn is_ok(message: &SipMessage) -> bool
    ensures by_the_laws { one_if result ≡ ok_sent message.now }
{
    match message {
        SipMessage::Response { status, .. } => *status == OK,
        _ => false,
    }
}

/// A BYE that goes out.
pub(crate) fn is_bye(message: &SipMessage) -> bool
    ensures by_the_laws { one_if result ≡ bye_sent message.now }
{
    matches!(message, SipMessage::Bye { .. })
}
