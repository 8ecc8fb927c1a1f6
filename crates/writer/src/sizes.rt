//! How many octets a message takes.
ghost use Rattle.std.specs.Prelude.{◌≡◌, length};
ghost use Rattle.messages.specs.Writing.{encoded};
ghost use Rattle.writer.specs.Values.{values};

use messages::Message;

/// How many octets the message takes.
pub fn size_of(message: Message<&[u8]>) -> usize
    ensures size_of_the_whole { result ≡ length (encoded (values message.entry)) }
{
    let elements = message.elements;
    let bearer = if message.kind.is_setup() { 5 } else { 0 };
    5 + usize::from(elements.complete)
        + bearer
        + elements.cause.map_or(0, |_| 4)
        + elements.channel.map_or(0, |_| 5)
        + elements.progress.map_or(0, |_| 4)
        + elements.digits.map_or(0, |digits| 3 + digits.len())
}
