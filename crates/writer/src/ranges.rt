//! Whether the fields of a message are within the ranges that the layout can carry.
ghost use Rattle.std.specs.Prelude.{◌≡◌};
ghost use Rattle.messages.specs.Writing.{reference_fits, is_writable};
ghost use Rattle.writer.specs.Values.{values};

use messages::{CallReference, Message, MessageType, all_digits};

/// The most digits that a called number is written with.
const MOST_DIGITS: usize = 20;

fn reference_fits(reference: CallReference, kind: MessageType) -> bool
    ensures reference_in_range { result ≡ reference_fits reference kind }
{
    (1..=0x7fff).contains(&reference.number) && !(kind.is_setup() && reference.flag)
}

/// Whether each field of the message can be written.
pub fn all_fit(message: Message<&[u8]>) -> bool
    ensures every_field_in_range { result ≡ is_writable (values message.entry) }
{
    let elements = message.elements;
    reference_fits(message.reference, message.kind)
        && elements
            .cause
            .is_none_or(|cause| cause.value <= 127 && cause.location <= 15)
        && elements
            .channel
            .is_none_or(|channel| (1..=127).contains(&channel.number))
        && elements
            .progress
            .is_none_or(|description| description <= 127)
        && elements
            .digits
            .is_none_or(|digits| digits.len() <= MOST_DIGITS && all_digits(digits))
}
