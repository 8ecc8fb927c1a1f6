//! One element joins those seen before it: the first of each kind is read, any later one is skipped.
ghost use Rattle.std.specs.Prelude.{◌≡◌};
ghost use Rattle.std.specs.Option.{ok_or, option_or};
ghost use Rattle.messages.specs.Elements.{noted};
ghost use Rattle.reader.specs.Seen.{seen_elements};
ghost use Rattle.reader.specs.Items.{seen_noted, bad_at};

use crate::contents::{cause_of, channel_of, digits_of, progress_of};
use crate::element::Element;
use crate::refusal::refuse;
use messages::{Elements, Misread, Part};
use refusals::Ground;

/// What was seen of this kind before, or else what the element at `place` reads as.
fn first_of<T: Copy>(seen: Option<T>, read: Option<T>, place: usize) -> Result<T, Misread>
    ensures seen_or_read { result ≡ ok_or (option_or seen read) (bad_at place) }
{
    seen.or(read).ok_or(Misread {
        ground: Ground::BadElement,
        place,
    })
}

/// What the elements seen so far become by one more.
pub fn note<'a>(
    seen: Elements<Part<'a>>,
    element: Element<'a>,
) -> Result<Elements<Part<'a>>, Misread>
    ensures one_more { seen_noted result ≡ noted element.entry.id element.entry.place element.entry.contents.now (seen_elements seen.entry) }
{
    let contents = element.contents;
    let place = element.place;
    match element.id {
        0x90..=0x9f => refuse(Ground::BadElement, place),
        0xa1 => Ok(Elements {
            complete: true,
            ..seen
        }),
        0x08 => Ok(Elements {
            cause: Some(first_of(seen.cause, cause_of(contents), place)?),
            ..seen
        }),
        0x18 => Ok(Elements {
            channel: Some(first_of(seen.channel, channel_of(contents), place)?),
            ..seen
        }),
        0x1e => Ok(Elements {
            progress: Some(first_of(seen.progress, progress_of(contents), place)?),
            ..seen
        }),
        0x70 => Ok(Elements {
            digits: Some(first_of(seen.digits, digits_of(element), place)?),
            ..seen
        }),
        _ => Ok(seen),
    }
}
