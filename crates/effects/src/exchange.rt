//! The moves of the exchange side.
ghost use Rattle.std.specs.Prelude.{◌≡◌};
ghost use Rattle.queues.specs.Few.{few_items};
ghost use Rattle.calls.specs.Effects.{stays, enters, ends, clears_exchange, retries, releases};
ghost use Rattle.effects.specs.Moves.{exchange_move_of};

use crate::effect::ExchangeMove;
use crate::telling::{setup_on, tell_cause};
use call_states::{is_uncleared, sent_cause, timer_of};
use calls::{Call, Digits, ExchangeSide};
use messages::{CallReference, Cause, Message, MessageType};
use queues::few::Few;

/// The state stays, and its timer runs on.
pub fn stays(call: Call, sent: Few<Message<Digits>>) -> ExchangeMove
    ensures same_state_and_timer { exchange_move_of result ≡ stays call (few_items sent) }
{
    ExchangeMove {
        side: call.exchange,
        reference: call.reference,
        channel: call.channel,
        seized: None,
        released: None,
        timer: None,
        sent,
    }
}

/// A state is entered, and its timer starts.
pub fn enters(call: Call, side: ExchangeSide, sent: Few<Message<Digits>>) -> ExchangeMove
    ensures new_state_and_its_timer { exchange_move_of result ≡ enters call side (few_items sent) }
{
    ExchangeMove {
        side,
        timer: timer_of(side),
        ..stays(call, sent)
    }
}

/// The side is over, and its channel is released.
pub fn ends(call: Call, sent: Few<Message<Digits>>) -> ExchangeMove
    ensures over_and_its_channel_released { exchange_move_of result ≡ ends call (few_items sent) }
{
    ExchangeMove {
        side: ExchangeSide::Over,
        released: Some(call.channel),
        ..stays(call, sent)
    }
}

/// DISCONNECT goes out, unless one end clears already; the channel is held until the end of the release.
pub fn clears_exchange(call: Call, cause: Cause) -> ExchangeMove
    ensures disconnect_unless_clearing { exchange_move_of result ≡ clears_exchange call cause }
{
    if is_uncleared(call.exchange) {
        let disconnect = tell_cause(MessageType::Disconnect, call, Some(cause));
        let clearing = ExchangeSide::DisconnectSent { cause };
        enters(call, clearing, Few::One(disconnect))
    } else {
        stays(call, Few::Zero)
    }
}

/// SETUP once more, on another channel, which was idle while the refused one was still held; the refused one is released.
pub fn retries(call: Call, channel: u8) -> ExchangeMove
    ensures setup_on_the_other_channel { exchange_move_of result ≡ retries call channel }
{
    let refused = call.channel;
    let setup = setup_on(channel, call.digits);
    ExchangeMove {
        reference: CallReference {
            number: u16::from(channel),
            ..call.reference
        },
        channel,
        seized: Some(channel),
        released: Some(refused),
        ..enters(call, ExchangeSide::SetupSent, Few::One(setup))
    }
}

/// RELEASE goes out, with the cause that went out before.
pub fn releases(call: Call, repeated: bool) -> ExchangeMove
    ensures release_with_the_same_cause { exchange_move_of result ≡ releases call repeated }
{
    let cause = sent_cause(call.exchange);
    let release = tell_cause(MessageType::Release, call, cause);
    enters(
        call,
        ExchangeSide::ReleaseSent { cause, repeated },
        Few::One(release),
    )
}
