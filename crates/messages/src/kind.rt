ghost use Rattle.std.specs.Prelude.{◌≡◌, Some};
ghost use Rattle.messages.specs.Types.{code_of, is_setup, Decodes};
ghost use Rattle.messages.specs.Shown.{name_of, unknown_text};

use std::error::Error;
use std::fmt;

/// The message types of a basic call.
#[derive(Clone, Copy, PartialEq, Eq, Debug)]
pub enum MessageType {
    Alerting,
    CallProceeding,
    Progress,
    Setup,
    Connect,
    SetupAcknowledge,
    ConnectAcknowledge,
    Disconnect,
    Release,
    ReleaseComplete,
    Information,
}

/// An octet that stands for no message type.
#[derive(Clone, Copy, PartialEq, Eq, Debug)]
pub struct UnknownCode(pub u8);

/// The octet that stands for the type in a message.
impl From<MessageType> for u8 {
    ghost from_gives = { λ kind code. code ≡ code_of kind };

    fn from(kind: MessageType) -> u8 {
        match kind {
            MessageType::Alerting => 0x01,
            MessageType::CallProceeding => 0x02,
            MessageType::Progress => 0x03,
            MessageType::Setup => 0x05,
            MessageType::Connect => 0x07,
            MessageType::SetupAcknowledge => 0x0d,
            MessageType::ConnectAcknowledge => 0x0f,
            MessageType::Disconnect => 0x45,
            MessageType::Release => 0x4d,
            MessageType::ReleaseComplete => 0x5a,
            MessageType::Information => 0x7b,
        }
    }
}

/// The type that an octet stands for, if any.
impl TryFrom<u8> for MessageType {
    type Error = UnknownCode;

    ghost try_from_gives = { Decodes };

    fn try_from(code: u8) -> Result<Self, UnknownCode> {
        match code {
            0x01 => Ok(MessageType::Alerting),
            0x02 => Ok(MessageType::CallProceeding),
            0x03 => Ok(MessageType::Progress),
            0x05 => Ok(MessageType::Setup),
            0x07 => Ok(MessageType::Connect),
            0x0d => Ok(MessageType::SetupAcknowledge),
            0x0f => Ok(MessageType::ConnectAcknowledge),
            0x45 => Ok(MessageType::Disconnect),
            0x4d => Ok(MessageType::Release),
            0x5a => Ok(MessageType::ReleaseComplete),
            0x7b => Ok(MessageType::Information),
            _ => Err(UnknownCode(code)),
        }
    }
}

impl MessageType {
    /// Whether the message begins a call.
    pub fn is_setup(self) -> bool
        ensures setup_alone { result ≡ is_setup self }
    {
        self == MessageType::Setup
    }
}

/// The name that people write.
impl fmt::Display for MessageType {
    ghost output = { λ kind. Some (name_of kind) };

    fn fmt<W: fmt::Write>(&self, f: &mut fmt::Formatter<W>) -> fmt::Result {
        f.write_str(match self {
            MessageType::Alerting => "ALERTING",
            MessageType::CallProceeding => "CALL PROCEEDING",
            MessageType::Progress => "PROGRESS",
            MessageType::Setup => "SETUP",
            MessageType::Connect => "CONNECT",
            MessageType::SetupAcknowledge => "SETUP ACKNOWLEDGE",
            MessageType::ConnectAcknowledge => "CONNECT ACKNOWLEDGE",
            MessageType::Disconnect => "DISCONNECT",
            MessageType::Release => "RELEASE",
            MessageType::ReleaseComplete => "RELEASE COMPLETE",
            MessageType::Information => "INFORMATION",
        })
    }
}

impl fmt::Display for UnknownCode {
    ghost output = { λ code. Some (unknown_text code) };

    #[tactic(auto, using(std::proofs::lemmas::Fmt::hex_byte))]
    fn fmt<W: fmt::Write>(&self, f: &mut fmt::Formatter<W>) -> fmt::Result {
        let octet = self.0;
        write!(f, "no message type has the octet {octet:02X}")
    }
}

impl Error for UnknownCode {}
