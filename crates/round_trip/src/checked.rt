ghost use Rattle.std.specs.Prelude.{◌≡◌, ◌≤◌, true, false, length, IfOk, IsTrue, ◌↔◌};
ghost use Rattle.messages.specs.Written.{without_place};
ghost use Rattle.messages.specs.Laws.{RoundTrip, LayoutExamples};
ghost use Rattle.messages.specs.Writing.{encoded, is_writable, writes, buffer_after};
ghost use Rattle.messages.specs.Reading.{lacking};
ghost use Rattle.writer.specs.Values.{values};

use messages::{Message, Part};
use reader::read;
use refusals::Ground;
use writer::write;

/// Whether two messages have the same values, wherever their digits lie.
fn are_equal(a: Message<&[u8]>, b: Message<&[u8]>) -> bool
    ensures equal_exactly_if_all_values_agree { IsTrue result ↔ (values a.entry ≡ values b.entry) }
{
    a == b
}

/// Whether what was read is what was written.
fn is_same(read: Message<Part<'_>>, message: Message<&[u8]>) -> bool
    ensures same_exactly_if_all_values_agree { IsTrue result ↔ (values (without_place read.entry) ≡ values message.entry) }
{
    are_equal(Message::from(read), message)
}

/// Sees that the octets of a message read back as the same record; no answer is needed, since they do.
fn see_same(octets: &[u8], message: Message<&[u8]>)
    requires octets_of_the_message { octets.now ≡ encoded (values message) }
    requires in_range { is_writable (values message) ≡ true }
    requires complete { lacking message.kind (values message).elements ≡ false }
{
    match read(octets) {
        Ok(read) => {
            if !is_same(read, message) {
                unreachable();
            }
        }
        Err(_) => unreachable(),
    }
}

/// Writes the message as `write` does, and sees that it reads back as the same record. That it always does is the law.
pub fn write_checked(buffer: &mut [u8], message: Message<&[u8]>) -> Result<usize, Ground>
    ensures written_reads_back_as_the_same { RoundTrip }
    ensures examples_read_and_written { LayoutExamples }
    ensures size_or_first_ground { result ≡ writes (length buffer.old) (values message.entry) }
    ensures within_the_buffer { IfOk result (λ n. n ≤ length buffer.old) }
    ensures buffer_holds_the_message_or_all_as_it_was { buffer.new ≡ buffer_after buffer.old (values message.entry) result }
{
    let written = write(buffer, message);
    if let Ok(size) = written {
        see_same(&buffer[0..size], message);
    }
    written
}
