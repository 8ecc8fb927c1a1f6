//! Calls as they stand before a row, on channel 7. A call that a SETUP made has reference 5 and number 77; a call from SIP has
//! transaction 3. The dialogue is 9.
use calls::{Call, Digits, ExchangeSide, Invite, Origin, SipSide};
use messages::CallReference;

pub const CHANNEL: u8 = 7;

pub const NUMBER: u64 = 77;

const TRANSACTION: u64 = 3;

const DIALOGUE: u64 = 9;

/// Of a call that a SETUP made, and of a SETUP that comes.
pub const SETUP_REFERENCE: CallReference = CallReference {
    flag: false,
    number: 5,
};

/// Of a call from SIP: the number of its channel.
const INVITE_REFERENCE: CallReference = CallReference {
    flag: true,
    number: CHANNEL as u16,
};

pub const UNANSWERED: SipSide = SipSide::InviteUnanswered {
    transaction: TRANSACTION,
    dialogue: DIALOGUE,
};

pub const TALKING: SipSide = SipSide::Up { dialogue: DIALOGUE };

pub fn from_exchange(digits: Digits, exchange: ExchangeSide, sip: SipSide) -> Call {
    Call {
        reference: SETUP_REFERENCE,
        channel: CHANNEL,
        origin: Origin::Exchange { number: NUMBER },
        digits,
        exchange,
        sip,
    }
}

pub fn from_sip(digits: Digits, exchange: ExchangeSide, sip: SipSide) -> Call {
    Call {
        reference: INVITE_REFERENCE,
        channel: CHANNEL,
        origin: Origin::Sip,
        digits,
        exchange,
        sip,
    }
}

/// An INVITE to these digits.
pub fn invite(digits: &[u8]) -> Invite<&[u8]> {
    Invite {
        transaction: TRANSACTION,
        dialogue: DIALOGUE,
        digits,
    }
}
