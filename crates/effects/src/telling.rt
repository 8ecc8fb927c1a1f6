//! Messages to the exchange.
ghost use Rattle.std.specs.Prelude.{◌≡◌};
ghost use Rattle.calls.specs.Effects.{turned, said, exclusively, tell, tell_cause, tell_progress, setup_on, answer_to_setup, rejection};

use crate::clearing::own_cause;
use calls::{Call, Digits};
use messages::{CallReference, Cause, Channel, Elements, Message, MessageType};

/// The same reference as the other end sends it.
fn turned(reference: CallReference) -> CallReference
    ensures other_flag_same_number { result ≡ turned reference }
{
    CallReference {
        flag: !reference.flag,
        ..reference
    }
}

/// A message in answer to this reference, with these elements.
fn said(kind: MessageType, reference: CallReference, elements: Elements<Digits>) -> Message<Digits>
    ensures message_of_these_elements { result ≡ said kind reference elements }
{
    Message {
        reference: turned(reference),
        kind,
        elements,
    }
}

/// A message on a call, without any element.
pub fn tell(kind: MessageType, call: Call) -> Message<Digits>
    ensures bare_message { result ≡ tell kind call }
{
    said(kind, call.reference, Elements::bare())
}

/// A message on a call with a cause, if there is one.
pub fn tell_cause(kind: MessageType, call: Call, cause: Option<Cause>) -> Message<Digits>
    ensures message_with_the_cause { result ≡ tell_cause kind call cause }
{
    let with_cause = Elements {
        cause,
        ..Elements::bare()
    };
    said(kind, call.reference, with_cause)
}

/// A message on a call with a progress description, if there is one.
pub fn tell_progress(kind: MessageType, call: Call, progress: Option<u8>) -> Message<Digits>
    ensures message_with_the_progress { result ≡ tell_progress kind call progress }
{
    let with_progress = Elements {
        progress,
        ..Elements::bare()
    };
    said(kind, call.reference, with_progress)
}

/// That channel and no other.
fn exclusively(channel: u8) -> Option<Channel>
    ensures that_channel_alone { result ≡ exclusively channel }
{
    Some(Channel {
        number: channel,
        exclusive: true,
    })
}

/// The SETUP of a call from SIP: its reference is its channel's number, and the called number is whole.
pub fn setup_on(channel: u8, digits: Digits) -> Message<Digits>
    ensures setup_with_a_whole_number { result ≡ setup_on channel digits }
{
    Message {
        reference: CallReference {
            flag: false,
            number: u16::from(channel),
        },
        kind: MessageType::Setup,
        elements: Elements {
            complete: true,
            channel: exclusively(channel),
            digits: Some(digits),
            ..Elements::bare()
        },
    }
}

/// An answer to the SETUP with this reference, which says on which channel the call goes.
pub fn answer_to_setup(kind: MessageType, reference: CallReference, channel: u8) -> Message<Digits>
    ensures message_with_the_channel { result ≡ answer_to_setup kind reference channel }
{
    let with_channel = Elements {
        channel: exclusively(channel),
        ..Elements::bare()
    };
    said(kind, reference, with_channel)
}

/// RELEASE COMPLETE with a cause of the gateway's own, to a message that makes or finds no call.
pub fn rejection(reference: CallReference, value: u8) -> Message<Digits>
    ensures release_complete_with_the_cause { result ≡ rejection reference value }
{
    let with_cause = Elements {
        cause: Some(own_cause(value)),
        ..Elements::bare()
    };
    said(MessageType::ReleaseComplete, reference, with_cause)
}
