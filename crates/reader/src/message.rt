ghost use Rattle.std.specs.Prelude.{◌≡◌, IfOk};
ghost use Rattle.messages.specs.Elements.{bare};
ghost use Rattle.messages.specs.Reading.{elements_from, decoded};
ghost use Rattle.reader.specs.Seen.{seen_message, PartOf};
ghost use Rattle.reader.specs.Items.{seen_noted};

use crate::element::Reader;
use crate::header::read_header;
use crate::noting::note;
use crate::refusal::refuse;
use messages::{Elements, Message, Misread, Part};
use refusals::Ground;

/// How many octets come before the first element.
const HEADER: usize = 5;

fn read_elements(part: &[u8]) -> Result<Elements<Part<'_>>, Misread>
    ensures read_from_the_left { seen_noted result ≡ elements_from 0 5 part.now bare }
{
    // Stays a literal: after a call of `bare` the borrow checker does not cover the loop.
    let mut seen = Elements {
        complete: false,
        cause: None,
        channel: None,
        progress: None,
        digits: None,
    };
    let elements = Reader {
        rest: part,
        place: HEADER,
    };
    for element in elements {
        seen = note(seen, element?)?;
    }
    Ok(seen)
}

/// The message that the octets are, or why they are none and where.
pub fn read(octets: &[u8]) -> Result<Message<Part<'_>>, Misread>
    ensures exactly_by_the_layout { seen_message result ≡ decoded octets.now }
    ensures digits_are_that_part { IfOk result (λ m. PartOf octets.now m.elements.digits) }
{
    let header = read_header(octets)?;
    let elements = read_elements(header.elements)?;
    if elements.lack_for(header.kind) {
        return refuse(Ground::IncompleteSetup, octets.len());
    }
    Ok(Message {
        reference: header.reference,
        kind: header.kind,
        elements,
    })
}
