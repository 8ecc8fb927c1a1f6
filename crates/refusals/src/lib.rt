// Every ground on which the product refuses something, with its number and a short text.
#![tactic(auto)]

ghost use Rattle.std.specs.Prelude.{◌≡◌, Some};
ghost use Rattle.refusals.specs.Grounds.{number_of, words_of};

use std::error::Error;
use std::fmt;

// Why an input was refused. A new ground joins as one more case here, in `number` and in `text`. Its number is what people and logs
// name it by, and no other way to keep it: code compares grounds themselves.
#[derive(Clone, Copy, PartialEq, Eq, Debug)]
pub enum Ground {
    TooFewOctets,
    WrongDiscriminator,
    UnknownType,
    ElementPastEnd,
    BadElement,
    IncompleteSetup,
    BadReference,
    StatusOutOfRange,
    BufferTooShort,
    FieldOutOfRange,
    SettingOutOfRange,
    NoSuchCall,
    NotNow,
    TimerNotRunning,
    QueueFull,
    TransactionInUse,
    DialogueInUse,
    ReferenceInUse,
}

impl Ground {
    // The number by which people and logs know the ground.
    pub fn number(self) -> u8
        ensures number_of_the_ground { result ≡ number_of self }
    {
        match self {
            Ground::TooFewOctets => 1,
            Ground::WrongDiscriminator => 2,
            Ground::UnknownType => 3,
            Ground::ElementPastEnd => 4,
            Ground::BadElement => 5,
            Ground::IncompleteSetup => 6,
            Ground::BadReference => 7,
            Ground::StatusOutOfRange => 8,
            Ground::BufferTooShort => 9,
            Ground::FieldOutOfRange => 10,
            Ground::SettingOutOfRange => 11,
            Ground::NoSuchCall => 20,
            Ground::NotNow => 21,
            Ground::TimerNotRunning => 22,
            Ground::QueueFull => 23,
            Ground::TransactionInUse => 24,
            Ground::DialogueInUse => 25,
            Ground::ReferenceInUse => 26,
        }
    }

    // What the ground means, in a few words.
    pub fn text(self) -> &'static str
        ensures text_of_the_ground { result.now ≡ words_of self }
    {
        match self {
            Ground::TooFewOctets => "fewer than five octets",
            Ground::WrongDiscriminator => "octets 0 and 1 are not 08 02",
            Ground::UnknownType => "the message type is unknown",
            Ground::ElementPastEnd => "an element runs past the end",
            Ground::BadElement => "an element breaks its layout",
            Ground::IncompleteSetup => "SETUP without channel or called number",
            Ground::BadReference => "call reference 0, or SETUP with flag 1",
            Ground::StatusOutOfRange => "the SIP status is not 100 to 699",
            Ground::BufferTooShort => "the buffer is too short",
            Ground::FieldOutOfRange => "a field to be written is out of its range",
            Ground::SettingOutOfRange => "a setting is out of its range",
            Ground::NoSuchCall => "no call matches",
            Ground::NotNow => "the call does not take this now",
            Ground::TimerNotRunning => "that timer is not running",
            Ground::QueueFull => "not enough free places in an outgoing queue",
            Ground::TransactionInUse => "a call with an unanswered INVITE has this transaction",
            Ground::DialogueInUse => "another call holds this dialogue",
            Ground::ReferenceInUse => "a call has this reference already",
        }
    }
}

impl fmt::Display for Ground {
    ghost output = { λ why. Some (words_of why) };

    fn fmt<W: fmt::Write>(&self, f: &mut fmt::Formatter<W>) -> fmt::Result {
        f.write_str(self.text())
    }
}

impl Error for Ground {}
