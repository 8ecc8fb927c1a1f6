use MessageType::*;
use With::*;
use messages::{CallReference, Cause, Channel, Elements, Message, MessageType};
use std::alloc::{AllocError, Global};
use std::test::Fail;
use writer::write;

/// What stands in the buffer before a message is written.
const OLD: u8 = 0xee;

const ROOM: usize = 48;

/// The elements of a message.
#[derive(Clone, Copy)]
enum With {
    Nothing,
    /// Whether sending is complete, the one channel that is wished, and the digits.
    Called(bool, Option<u8>, Option<&'static [u8]>),
    /// A cause's value and location.
    Cleared(u8, u8),
    /// A progress description.
    Described(u8),
    /// Every element, and of each the largest value.
    Everything,
}

/// Messages by flag, reference, type and elements, and the room of the buffer; the octets that are written, or the number of the
/// ground on which the message is refused.
const CASES: [(bool, u16, MessageType, With, usize, Result<&[u8], u8>); 23] = [
    (
        false,
        5,
        Setup,
        Called(true, Some(7), Some(b"417")),
        ROOM,
        Ok(b"\x08\x02\x00\x05\x05\xa1\x04\x03\x80\x90\xa3\x18\x03\xa9\x83\x87\x70\x04\x80417"),
    ),
    (
        true,
        5,
        Disconnect,
        Cleared(16, 5),
        ROOM,
        Ok(b"\x08\x02\x80\x05\x45\x08\x02\x85\x90"),
    ),
    (
        true,
        32767,
        Connect,
        Nothing,
        5,
        Ok(b"\x08\x02\xff\xff\x07"),
    ),
    (
        false,
        1,
        Alerting,
        Described(8),
        9,
        Ok(b"\x08\x02\x00\x01\x01\x1e\x02\x81\x88"),
    ),
    (
        false,
        1,
        Information,
        Called(false, None, Some(b"")),
        8,
        Ok(b"\x08\x02\x00\x01\x7b\x70\x01\x80"),
    ),
    // the longest message
    (
        false,
        32767,
        Setup,
        Everything,
        47,
        Ok(
            b"\x08\x02\x7f\xff\x05\xa1\x04\x03\x80\x90\xa3\x08\x02\x8f\xff\x18\x03\xa1\x83\xff\x1e\x02\x81\xff\x70\x15\x800123456789*#01234567",
        ),
    ),
    (false, 32767, Setup, Everything, 46, Err(9)),
    // fields out of range
    (false, 0, Connect, Nothing, ROOM, Err(10)),
    (false, 32768, Connect, Nothing, ROOM, Err(10)),
    (
        true,
        5,
        Setup,
        Called(false, Some(7), Some(b"1")),
        ROOM,
        Err(10),
    ),
    (false, 5, Release, Cleared(128, 0), ROOM, Err(10)),
    (false, 5, Release, Cleared(16, 16), ROOM, Err(10)),
    (
        false,
        5,
        CallProceeding,
        Called(false, Some(0), None),
        ROOM,
        Err(10),
    ),
    (
        false,
        5,
        CallProceeding,
        Called(false, Some(128), None),
        ROOM,
        Err(10),
    ),
    (false, 5, Progress, Described(128), ROOM, Err(10)),
    (
        false,
        5,
        Information,
        Called(false, None, Some(b"012345678901234567890")),
        ROOM,
        Err(10),
    ),
    (
        false,
        5,
        Information,
        Called(false, None, Some(b"12a")),
        ROOM,
        Err(10),
    ),
    // the order of the checks: fields, channel and digits of a SETUP, room
    (
        false,
        5,
        Setup,
        Called(true, None, Some(b"1")),
        ROOM,
        Err(6),
    ),
    (false, 5, Setup, Called(true, Some(7), None), ROOM, Err(6)),
    (
        false,
        5,
        Setup,
        Called(true, Some(200), None),
        ROOM,
        Err(10),
    ),
    (false, 5, Setup, Called(true, Some(7), None), 0, Err(6)),
    (false, 5, Connect, Nothing, 4, Err(9)),
    (false, 5, Connect, Nothing, 0, Err(9)),
];

fn channel(number: u8, exclusive: bool) -> Option<Channel> {
    Some(Channel { number, exclusive })
}

fn elements(with: With) -> Elements<&'static [u8]> {
    let bare = Elements::bare();
    match with {
        Nothing => bare,
        Called(complete, wished, digits) => Elements {
            complete,
            channel: match wished {
                Some(number) => channel(number, true),
                None => None,
            },
            digits,
            ..bare
        },
        Cleared(value, location) => Elements {
            cause: Some(Cause { value, location }),
            ..bare
        },
        Described(description) => Elements {
            progress: Some(description),
            ..bare
        },
        Everything => Elements {
            complete: true,
            cause: Some(Cause {
                value: 127,
                location: 15,
            }),
            channel: channel(127, false),
            progress: Some(127),
            digits: Some(b"0123456789*#01234567"),
        },
    }
}

fn message(flag: bool, number: u16, kind: MessageType, with: With) -> Message<&'static [u8]> {
    Message {
        reference: CallReference { flag, number },
        kind,
        elements: elements(with),
    }
}

/// Whether the octets stand at the front of the buffer, and behind them it is as it was.
fn begins_with(buffer: &[u8], octets: &[u8]) -> bool {
    if buffer.len() < octets.len() {
        return false;
    }
    for octet in &buffer[octets.len()..] {
        if *octet != OLD {
            return false;
        }
    }
    &buffer[0..octets.len()] == octets
}

/// Whether the message is written into a buffer of `room` octets as these, or refused on the ground of that number, and the rest of
/// the buffer is as it was.
fn comes_out(
    heap: Global,
    message: Message<&'static [u8]>,
    room: usize,
    said: Result<&[u8], u8>,
) -> Result<bool, AllocError> {
    let mut buffer = vec![in heap; OLD; room]?;
    let written = write(buffer.as_mut_slice(), message);
    Ok(match (written, said) {
        (Ok(count), Ok(octets)) => count == octets.len() && begins_with(buffer.as_slice(), octets),
        (Err(ground), Err(number)) => ground.number() == number
            && begins_with(buffer.as_slice(), &[]),
        _ => false,
    })
}

#[test]
fn messages_are_written_or_refused(rt: HostRuntime) -> Result<(), Fail> {
    for (at, &(flag, number, kind, with, room, said)) in CASES.iter().enumerate() {
        let message = message(flag, number, kind, with);
        assert!(rt; comes_out(rt.alloc(), message, room, said)?, "case {at}");
    }
    Ok(())
}
