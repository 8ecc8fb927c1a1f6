ghost use Rattle.std.specs.Prelude.{◌≡◌, ◌≤◌, true, ◌++◌, length, drop, IfOk};
ghost use Rattle.messages.specs.Writing.{encoded, is_writable, writes, buffer_after};
ghost use Rattle.writer.specs.Values.{values, sizes};

use crate::parts::{
    put_bearer, put_cause, put_channel, put_complete, put_digits, put_header, put_progress,
};
use crate::ranges::all_fit;
use crate::sizes::size_of;
use messages::Message;
use refusals::Ground;

/// Writes a message that is known to fit: each element in its turn gets what is left of the buffer.
fn put_message(buffer: &mut [u8], message: Message<&[u8]>) -> usize
    requires in_range { is_writable (values message) ≡ true }
    requires room { sizes (values message) ≤ length buffer.old }
    ensures after { buffer.new ≡ encoded (values message.entry) ++ drop result buffer.old }
    ensures size { result ≡ length (encoded (values message.entry)) }
{
    put_header(buffer, message.reference, message.kind);
    let mut at = 5;
    at += put_complete(&mut buffer[at..], message.elements.complete);
    at += put_bearer(&mut buffer[at..], message.kind);
    at += put_cause(&mut buffer[at..], message.elements.cause);
    at += put_channel(&mut buffer[at..], message.elements.channel);
    at += put_progress(&mut buffer[at..], message.elements.progress);
    at += put_digits(&mut buffer[at..], message.elements.digits);
    at
}

/// Writes the message at the front of the buffer and answers how many octets that took. All is checked before the first
/// octet is written, so a refusal leaves the buffer as it was.
pub fn write(buffer: &mut [u8], message: Message<&[u8]>) -> Result<usize, Ground>
    ensures size_or_first_ground { result ≡ writes (length buffer.old) (values message.entry) }
    ensures within_the_buffer { IfOk result (λ n. n ≤ length buffer.old) }
    ensures buffer_holds_the_message_or_all_as_it_was { buffer.new ≡ buffer_after buffer.old (values message.entry) result }
{
    if !all_fit(message) {
        return Err(Ground::FieldOutOfRange);
    }
    if message.elements.lack_for(message.kind) {
        return Err(Ground::IncompleteSetup);
    }
    if buffer.len() < size_of(message) {
        return Err(Ground::BufferTooShort);
    }
    Ok(put_message(buffer, message))
}
