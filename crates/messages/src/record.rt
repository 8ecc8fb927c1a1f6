ghost use Rattle.std.specs.Prelude.{◌≡◌};
ghost use Rattle.messages.specs.Written.{without_place};
ghost use Rattle.messages.specs.Shown.{wish_text};

use crate::kind::MessageType;
use refusals::Ground;

/// The number by which the two ends know a call. The flag is 0 (false) where the sender gave the number out, 1 where the receiver did.
#[derive(Clone, Copy, PartialEq, Eq, Debug)]
pub struct CallReference {
    pub flag: bool,
    pub number: u16,
}

/// Why a call is cleared, and where in the network that was decided.
#[derive(Clone, Copy, PartialEq, Eq, Debug)]
pub struct Cause {
    pub value: u8,
    pub location: u8,
}

/// The channel that a message names: that one alone, or that one if it can be had.
#[derive(Clone, Copy, PartialEq, Eq, Debug)]
pub struct Channel {
    pub number: u8,
    pub exclusive: bool,
}

impl Channel {
    /// How firmly the channel is named, in a word.
    pub(crate) fn wish(self) -> &'static str
        ensures exclusive_or_preferred { result.now ≡ wish_text self }
    {
        if self.exclusive {
            "exclusive"
        } else {
            "preferred"
        }
    }
}

/// The information elements of a message that this product reads and writes, with the called number's digits as a `D`.
#[derive(Clone, Copy, PartialEq, Eq, Debug)]
pub struct Elements<D> {
    pub complete: bool,
    pub cause: Option<Cause>,
    pub channel: Option<Channel>,
    pub progress: Option<u8>,
    pub digits: Option<D>,
}

impl<D> Elements<D> {
    ghost use Rattle.messages.specs.Elements.{bare};

    /// No element at all.
    pub fn bare() -> Self
        ensures none_of_them { result ≡ bare }
    {
        Elements {
            complete: false,
            cause: None,
            channel: None,
            progress: None,
            digits: None,
        }
    }
}

/// A QSIG message.
#[derive(Clone, Copy, PartialEq, Eq, Debug)]
pub struct Message<D> {
    pub reference: CallReference,
    pub kind: MessageType,
    pub elements: Elements<D>,
}

/// A part of the caller's octets, with the place of its first.
#[derive(Clone, Copy, PartialEq, Eq, Debug)]
pub struct Part<'a> {
    pub place: usize,
    pub octets: &'a [u8],
}

/// A message that was read, to be written: its digits without their place.
impl<'a> From<Message<Part<'a>>> for Message<&'a [u8]> {
    ghost from_gives = { λ read message. message ≡ without_place read };

    fn from(read: Message<Part<'a>>) -> Self {
        let elements = read.elements;
        Message {
            reference: read.reference,
            kind: read.kind,
            elements: Elements {
                complete: elements.complete,
                cause: elements.cause,
                channel: elements.channel,
                progress: elements.progress,
                digits: elements.digits.map(|part| part.octets),
            },
        }
    }
}

/// Why a message could not be read, and at which octet, counted from 0.
#[derive(Clone, Copy, PartialEq, Eq, Debug)]
pub struct Misread {
    pub ground: Ground,
    pub place: usize,
}
