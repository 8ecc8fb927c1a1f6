ghost use Rattle.std.specs.Prelude.{Some};
ghost use Rattle.std.specs.Fmt.{WritesOnOk};
ghost use Rattle.messages.specs.Shown.{hex_octet};
ghost use Rattle.reader.specs.Seen.{seen_record};
ghost use Rattle.message_text.specs.Lines.{octets_text, written_text, unplaced, line_of};

use messages::{Message, Part};
use round_trip::write_checked;
use std::fmt;

/// At least as many octets as the longest message takes, 47.
const ROOM: usize = 64;

/// Octets in upper case hexadecimal without spaces. A type of its own: a slice is not shown so, and the kit's
/// `hex` would put it on the heap first.
#[derive(Clone, Copy)]
pub struct OctetsText<'a> {
    pub octets: &'a [u8],
}

impl fmt::Display for OctetsText<'_> {
    ghost output = { λ text. Some (octets_text text.octets.now) };

    fn fmt<W: fmt::Write>(&self, f: &mut fmt::Formatter<W>) -> fmt::Result {
        for octet in self.octets {
            show_octet(f, *octet)?;
        }
        Ok(())
    }
}

#[tactic(auto, using(std::proofs::lemmas::Fmt::hex_byte))]
fn show_octet<W: fmt::Write>(f: &mut fmt::Formatter<W>, octet: u8) -> fmt::Result
    ensures two_digits { WritesOnOk W.write_str_gives f.old result (hex_octet octet) f.new }
{
    write!(f, "{octet:02X}")
}

/// A message as its fields, and its octets as they are written from those fields.
#[derive(Clone, Copy)]
pub struct MessageText<'a> {
    pub message: Message<Part<'a>>,
}

impl fmt::Display for MessageText<'_> {
    ghost output = { λ text. line_of (seen_record text.message) };

    fn fmt<W: fmt::Write>(&self, f: &mut fmt::Formatter<W>) -> fmt::Result {
        let message = self.message;
        write!(f, "{message}")?;
        show_written(f, message)
    }
}

/// The octets, or the ground on which the message is not written. The buffer has room for each message that can be.
fn show_written<W: fmt::Write>(f: &mut fmt::Formatter<W>, message: Message<Part<'_>>) -> fmt::Result
    ensures octets_or_why_not { WritesOnOk W.write_str_gives f.old result (written_text (unplaced (seen_record message.entry))) f.new }
{
    let mut buffer = [0u8; ROOM];
    match write_checked(&mut buffer, Message::from(message)) {
        Ok(size) => {
            let octets = OctetsText {
                octets: &buffer[0..size],
            };
            write!(f, " octets={octets}")
        }
        Err(ground) => write!(f, " unwritable {}", ground.number()),
    }
}
