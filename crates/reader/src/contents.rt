//! What the contents of each element that is read stand for, or that they break its layout.
ghost use Rattle.std.specs.Prelude.{◌≡◌};
ghost use Rattle.messages.specs.Elements.{cause_of, channel_of, progress_of, digits_of};
ghost use Rattle.reader.specs.Seen.{seen_digits};

use crate::element::Element;
use messages::{Cause, Channel, Part, all_digits};

pub fn cause_of(contents: &[u8]) -> Option<Cause>
    ensures location_and_cause { result ≡ cause_of contents.now }
{
    let [location @ 0x80..=0xff, value @ 0x80..=0xff, ..] = contents else {
        return None;
    };
    Some(Cause {
        value: *value % 0x80,
        location: *location % 0x10,
    })
}

pub fn channel_of(contents: &[u8]) -> Option<Channel>
    ensures wish_and_channel { result ≡ channel_of contents.now }
{
    let [wish @ (0xa9 | 0xa1), 0x83, number @ 0x81..=0xff] = contents else {
        return None;
    };
    Some(Channel {
        number: *number % 0x80,
        exclusive: *wish == 0xa9,
    })
}

pub fn progress_of(contents: &[u8]) -> Option<u8>
    ensures description { result ≡ progress_of contents.now }
{
    let [0x80..=0xff, description @ 0x80..=0xff] = contents else {
        return None;
    };
    Some(*description % 0x80)
}

/// The digits of a called number, which begin behind its identifier, its length and its plan.
pub fn digits_of(element: Element<'_>) -> Option<Part<'_>>
    ensures digits_at_their_place { seen_digits result ≡ digits_of element.entry.place element.entry.contents.now }
{
    let [0x80..=0xff, digits @ ..] = element.contents else {
        return None;
    };
    all_digits(digits).then_some(Part {
        place: element.place + 3,
        octets: digits,
    })
}
