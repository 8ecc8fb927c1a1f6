ghost use Rattle.std.specs.Prelude.{◌≡◌, drop, IfOk};
ghost use Rattle.messages.specs.Reading.{headed, bad_reference};
ghost use Rattle.reader.specs.Seen.{seen_header};

use crate::refusal::refuse;
use messages::{CallReference, MessageType, Misread};
use refusals::Ground;

/// The five octets with which every message begins, and the octets behind them.
#[derive(Clone, Copy)]
pub struct Header<'a> {
    pub reference: CallReference,
    pub kind: MessageType,
    pub elements: &'a [u8],
}

fn is_bad(reference: CallReference, kind: MessageType) -> bool
    ensures bad_for_this_type { result ≡ bad_reference reference kind }
{
    reference.number == 0 || (kind.is_setup() && reference.flag)
}

pub fn read_header(octets: &[u8]) -> Result<Header<'_>, Misread>
    ensures the_five_octets { seen_header result ≡ headed octets.now }
    ensures the_rest { IfOk result (λ h. h.elements.now ≡ drop 5 octets.now) }
{
    let [discriminator, length, high, low, code, elements @ ..] = octets else {
        return refuse(Ground::TooFewOctets, octets.len());
    };
    if *discriminator != 0x08 {
        return refuse(Ground::WrongDiscriminator, 0);
    }
    if *length != 0x02 {
        return refuse(Ground::WrongDiscriminator, 1);
    }
    let Ok(kind) = MessageType::try_from(*code) else {
        return refuse(Ground::UnknownType, 4);
    };
    let reference = CallReference {
        flag: *high >= 0x80,
        number: u16::from_be_bytes([*high % 0x80, *low]),
    };
    if is_bad(reference, kind) {
        return refuse(Ground::BadReference, 2);
    }
    Ok(Header {
        reference,
        kind,
        elements,
    })
}
