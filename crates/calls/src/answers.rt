use crate::outgoing::SipMessage;
use crate::record::Digits;
use messages::{Message, Misread};
use refusals::Ground;
use std::error::Error;
use std::fmt;

/// The timers of the exchange side.
#[derive(Clone, Copy, PartialEq, Eq, Debug)]
pub enum Timer {
    T301,
    T302,
    T303,
    T305,
    T308,
    T310,
    T313,
}

/// What a step did beside its messages: the channel that it seized, the one that it released, the timer of the exchange side
/// that it started, and whether it started the timer of a CANCEL.
#[derive(Clone, Copy, PartialEq, Eq, Debug, Default)]
pub struct Report {
    pub seized: Option<u8>,
    pub released: Option<u8>,
    pub timer: Option<Timer>,
    pub cancelling: bool,
}

/// Why a step was refused; the place is that of the octet where a message could not be read.
#[derive(Clone, Copy, PartialEq, Eq, Debug)]
pub struct Refused {
    pub ground: Ground,
    pub place: Option<usize>,
}

/// A ground of the state, which has no place in any octets.
impl From<Ground> for Refused {
    ghost use Rattle.std.specs.Prelude.{◌≡◌};
    ghost use Rattle.calls.specs.Refusing.{placeless};

    ghost from_gives = { λ why refused. refused ≡ placeless why };

    fn from(ground: Ground) -> Refused {
        Refused {
            ground,
            place: None,
        }
    }
}

/// A message that could not be read, at its octet.
impl From<Misread> for Refused {
    ghost use Rattle.std.specs.Prelude.{◌≡◌};
    ghost use Rattle.calls.specs.Refusing.{placed};

    ghost from_gives = { λ misread refused. refused ≡ placed misread };

    fn from(misread: Misread) -> Refused {
        Refused {
            ground: misread.ground,
            place: Some(misread.place),
        }
    }
}

/// The number of the ground, the place if there is one, and what the ground means.
impl fmt::Display for Refused {
    ghost use Rattle.std.specs.Prelude.{Some};
    ghost use Rattle.refusals.specs.Grounds.{refusal_text};

    ghost output = { λ refused. Some (refusal_text refused.ground refused.place) };

    fn fmt<W: fmt::Write>(&self, f: &mut fmt::Formatter<W>) -> fmt::Result {
        write!(f, "refused {}", self.ground.number())?;
        if let Some(place) = self.place {
            write!(f, " at {place}")?;
        }
        write!(f, ": {}", self.ground)
    }
}

impl Error for Refused {}

/// What came of an event: of a step its report or refusal, else the message that was taken, if one waited.
#[derive(Clone, Copy, PartialEq, Eq, Debug)]
pub enum Answer {
    Step(Result<Report, Refused>),
    Exchange(Option<Message<Digits>>),
    Sip(Option<SipMessage>),
}
