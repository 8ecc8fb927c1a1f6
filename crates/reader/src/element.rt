ghost use Rattle.std.specs.Prelude.{◌≡◌, ◌+◌, ◌^◌, ◌<◌, length};

use crate::refusal::refuse;
use messages::Misread;
use refusals::Ground;
use std::mem;

/// An information element: its identifier, the place of its first octet in the message, and its contents.
#[derive(Clone, Copy)]
pub struct Element<'a> {
    pub id: u8,
    pub place: usize,
    pub contents: &'a [u8],
    ghost countable: { place + 3 < 2 ^ 64 },
}

/// Goes through the elements of a message: the octets that are left, and the place of their first in the message.
#[derive(Drop)]
pub struct Reader<'a> {
    pub rest: &'a [u8],
    pub place: usize,
    ghost countable: { place + length rest.now + 3 < 2 ^ 64 },
}

impl<'a> Reader<'a> {
    ghost use Rattle.reader.specs.Items.{seen_parts, parts_of};

    /// The contents of an element and the octets behind it, by its identifier and all that follows that; `None` where the
    /// contents are not all there.
    fn parts(id: u8, behind: &'a [u8]) -> Option<(&'a [u8], &'a [u8])>
        ensures contents_and_rest { seen_parts result ≡ parts_of id behind.now }
    {
        if id >= 0x80 {
            return Some(behind.split_at(0));
        }
        let (count, behind) = behind.split_first()?;
        behind.split_at_checked(usize::from(*count))
    }
}

impl<'a> Iterator for Reader<'a> {
    ghost use Rattle.std.specs.Iterator.{item_count};
    ghost use Rattle.reader.specs.Items.{octets_left, GivesElement};

    type Item = Result<Element<'a>, Misread>;

    ghost next_gives = { GivesElement };

    ghost remaining = { item_count octets_left };

    fn next(&mut self) -> Option<Result<Element<'a>, Misread>> {
        // An element that is cut off leaves nothing behind it.
        let octets = mem::take(&mut self.rest);
        let place = self.place;
        let (id, behind) = octets.split_first()?;
        let Some((contents, rest)) = Self::parts(*id, behind) else {
            return Some(refuse(Ground::ElementPastEnd, place));
        };
        self.rest = rest;
        self.place += octets.len() - rest.len();
        Some(Ok(Element {
            id: *id,
            place,
            contents,
        }))
    }
}
