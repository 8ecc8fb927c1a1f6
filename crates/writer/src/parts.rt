//! Each element in its turn: nothing where it is absent, else the element at the front of the part that is lent.
// Stays one function for each element: a closure's caller does not learn what the closure left in the part that it was lent.
ghost use Rattle.std.specs.Prelude.{◌≡◌, ◌+◌, ◌<◌, ◌≤◌, true, ◌∷◌, ◌++◌, length, drop};
ghost use Rattle.messages.specs.Writing.{element, head_octets, complete_octets, bearer_octets, cause_octets, channel_octets, progress_octets, digits_octets, cause_fits, channel_fits, progress_fits, digits_fit};
ghost use Rattle.writer.specs.Values.{values_of};

use crate::element::write_element;
use messages::{CallReference, Cause, Channel, MessageType};

/// An element that is known to have room.
fn put_element(part: &mut [u8], id: u8, first: u8, rest: &[u8]) -> usize
    requires room { 3 + length rest.now ≤ length part.old }
    requires countable { length rest.now < 255 }
    ensures after { part.new ≡ element id (first ∷ rest.now) ++ drop result part.old }
    ensures size { result ≡ 3 + length rest.now }
{
    write_element(part, id, first, rest).unwrap()
}

/// The five octets with which every message begins.
pub(crate) fn put_header(buffer: &mut [u8], reference: CallReference, kind: MessageType)
    requires room { 5 ≤ length buffer.old }
    requires number { reference.number ≤ 32767 }
    ensures after { buffer.new ≡ head_octets reference kind ++ drop 5 buffer.old }
{
    let flag = if reference.flag { 0x80 } else { 0x00 };
    let [high, low] = reference.number.to_be_bytes();
    buffer[0] = 0x08;
    buffer[1] = 0x02;
    buffer[2] = flag + high;
    buffer[3] = low;
    buffer[4] = u8::from(kind);
}

pub(crate) fn put_complete(part: &mut [u8], complete: bool) -> usize
    requires room { length (complete_octets complete) ≤ length part.old }
    ensures after { part.new ≡ complete_octets complete ++ drop result part.old }
    ensures size { result ≡ length (complete_octets complete) }
{
    if !complete {
        return 0;
    }
    part[0] = 0xa1;
    1
}

pub(crate) fn put_bearer(part: &mut [u8], kind: MessageType) -> usize
    requires room { length (bearer_octets kind) ≤ length part.old }
    ensures after { part.new ≡ bearer_octets kind ++ drop result part.old }
    ensures size { result ≡ length (bearer_octets kind) }
{
    if !kind.is_setup() {
        return 0;
    }
    put_element(part, 0x04, 0x80, &[0x90, 0xa3])
}

pub(crate) fn put_cause(part: &mut [u8], cause: Option<Cause>) -> usize
    requires room { length (cause_octets cause) ≤ length part.old }
    requires range { cause_fits cause ≡ true }
    ensures after { part.new ≡ cause_octets cause ++ drop result part.old }
    ensures size { result ≡ length (cause_octets cause) }
{
    let Some(cause) = cause else {
        return 0;
    };
    put_element(part, 0x08, 0x80 + cause.location, &[0x80 + cause.value])
}

pub(crate) fn put_channel(part: &mut [u8], channel: Option<Channel>) -> usize
    requires room { length (channel_octets channel) ≤ length part.old }
    requires range { channel_fits channel ≡ true }
    ensures after { part.new ≡ channel_octets channel ++ drop result part.old }
    ensures size { result ≡ length (channel_octets channel) }
{
    let Some(channel) = channel else {
        return 0;
    };
    let wish = if channel.exclusive { 0xa9 } else { 0xa1 };
    put_element(part, 0x18, wish, &[0x83, 0x80 + channel.number])
}

pub(crate) fn put_progress(part: &mut [u8], progress: Option<u8>) -> usize
    requires room { length (progress_octets progress) ≤ length part.old }
    requires range { progress_fits progress ≡ true }
    ensures after { part.new ≡ progress_octets progress ++ drop result part.old }
    ensures size { result ≡ length (progress_octets progress) }
{
    let Some(description) = progress else {
        return 0;
    };
    put_element(part, 0x1e, 0x81, &[0x80 + description])
}

pub(crate) fn put_digits(part: &mut [u8], digits: Option<&[u8]>) -> usize
    requires room { length (digits_octets (values_of digits)) ≤ length part.old }
    requires range { digits_fit (values_of digits) ≡ true }
    ensures after { part.new ≡ digits_octets (values_of digits.entry) ++ drop result part.old }
    ensures size { result ≡ length (digits_octets (values_of digits.entry)) }
{
    let Some(digits) = digits else {
        return 0;
    };
    put_element(part, 0x70, 0x80, digits)
}
