//! One information element, written through a guard that sets the length octet when it ends.
ghost use Rattle.std.specs.Prelude.{◌≡◌, ◌+◌, ◌<◌, ◌∷◌, length, is_ok, if◌then◌else◌, slice_set};
ghost use Rattle.messages.specs.Writing.{element};
ghost use Rattle.writer.specs.Element.{room_for, ShortOnly, element_buffer, element_answer};

use refusals::Ground;

/// The most contents that a length octet can count.
const MOST: usize = 255;

/// An element that is being written: its octets from the first on, and how many of its contents are put. A count beside a part, since
/// the buffer is the caller's.
struct Guard<'a> {
    bytes: &'a mut [u8],
    put: usize,
}

impl Drop for Guard<'_> {
    /// However the writing ends, the length octet is the number of octets put.
    fn drop(self)
        requires { (1 < length self.bytes.now) × (self.put < 256) }
        ensures { self.exit.0.now ≡ slice_set self.entry.bytes.now 1 self.entry.put }
    {
        self.bytes[1] = self.put as u8;
        let Guard { bytes: _, put: _ } = self;
    }
}

impl Guard<'_> {
    /// Puts one octet of the contents, or refuses and leaves all as it is.
    fn push(&mut self, octet: u8) -> Result<(), Ground>
        requires { (1 < length self.old.bytes.now) × (self.old.put < 256) }
        ensures value { is_ok result ≡ room_for self.old.bytes.now self.old.put }
        ensures ground { ShortOnly result }
        ensures bytes { self.new.bytes.now ≡ (if is_ok result then slice_set self.old.bytes.now (2 + self.old.put) octet else self.old.bytes.now) }
        ensures put { self.new.put ≡ (if is_ok result then self.old.put + 1 else self.old.put) }
        ensures lender { self.new.bytes.ghost_name ≡ self.old.bytes.ghost_name }
    {
        if self.put == MOST {
            return Err(Ground::BufferTooShort);
        }
        if self.put + 2 >= self.bytes.len() {
            return Err(Ground::BufferTooShort);
        }
        self.bytes[2 + self.put] = octet;
        self.put += 1;
        Ok(())
    }
}

/// Writes an element at the front of `bytes`: its identifier, the length octet, `first` and `rest`. Where they do not all find
/// a place, those that do are put and the rest is refused; the length octet is the number of octets put in any case.
pub(crate) fn write_element(
    bytes: &mut [u8],
    id: u8,
    first: u8,
    rest: &[u8],
) -> Result<usize, Ground>
    ensures length_octet_counts_what_was_put { bytes.new ≡ element_buffer bytes.old id (first ∷ rest.now) }
    ensures size_or_refused { result ≡ element_answer bytes.old (first ∷ rest.now) }
{
    if bytes.len() < 2 {
        return Err(Ground::BufferTooShort);
    }
    let mut element = Guard { bytes, put: 0 };
    element.bytes[0] = id;
    element.push(first)?;
    for octet in rest {
        element.push(*octet)?;
    }
    Ok(2 + element.put)
}

#[cfg(test)]
mod tests {
    use super::write_element;
    use std::test::Fail;

    /// What stands in the octets before the element is written.
    const OLD: u8 = 0xee;

    #[test]
    fn an_element_without_room_counts_what_it_put(rt: HostRuntime) -> Result<(), Fail> {
        let mut bytes = [OLD; 4];
        let refused = write_element(&mut bytes, 0x70, 0x80, b"123").map_err(
            |ground| ground.number(),
        );
        assert_eq!(rt; refused, Err(9));
        assert_eq!(rt; &bytes[0..4], b"\x70\x02\x801".as_slice());
        Ok(())
    }
}
