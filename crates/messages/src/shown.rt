//! Messages and refusals as people read them, a line each.
ghost use Rattle.std.specs.Prelude.{Some};
ghost use Rattle.std.specs.Fmt.{WritesOnOk};
ghost use Rattle.messages.specs.Shown.{heading_text, complete_text, cause_text, channel_text, progress_text, fields_text, message_text, misread_text, part_text};

use crate::kind::MessageType;
use crate::record::{CallReference, Cause, Channel, Message, Misread, Part};
use std::error::Error;
use std::fmt;

/// The digits, or a dash where there are none.
impl fmt::Display for Part<'_> {
    ghost output = { λ part. Some (part_text part.octets.now) };

    fn fmt<W: fmt::Write>(&self, f: &mut fmt::Formatter<W>) -> fmt::Result {
        if self.octets.is_empty() {
            return f.write_str("-");
        }
        for digit in self.octets {
            write!(f, "{}", *digit as char)?;
        }
        Ok(())
    }
}

fn show_heading<W: fmt::Write>(
    f: &mut fmt::Formatter<W>,
    kind: MessageType,
    reference: CallReference,
) -> fmt::Result
    ensures type_flag_and_number { WritesOnOk W.write_str_gives f.old result (heading_text kind reference) f.new }
{
    let flag = u8::from(reference.flag);
    write!(
        f,
        "exchange {kind} flag={flag} reference={}",
        reference.number
    )
}

fn show_complete<W: fmt::Write>(f: &mut fmt::Formatter<W>, complete: bool) -> fmt::Result
    ensures a_word_if_complete { WritesOnOk W.write_str_gives f.old result (complete_text complete) f.new }
{
    if complete {
        write!(f, " complete")?;
    }
    Ok(())
}

fn show_cause<W: fmt::Write>(f: &mut fmt::Formatter<W>, cause: Option<Cause>) -> fmt::Result
    ensures its_text_if_present { WritesOnOk W.write_str_gives f.old result (cause_text cause) f.new }
{
    if let Some(cause) = cause {
        write!(f, " cause={} location={}", cause.value, cause.location)?;
    }
    Ok(())
}

fn show_channel<W: fmt::Write>(f: &mut fmt::Formatter<W>, channel: Option<Channel>) -> fmt::Result
    ensures its_text_if_present { WritesOnOk W.write_str_gives f.old result (channel_text channel) f.new }
{
    if let Some(channel) = channel {
        write!(f, " channel={}/{}", channel.number, channel.wish())?;
    }
    Ok(())
}

fn show_progress<W: fmt::Write>(f: &mut fmt::Formatter<W>, progress: Option<u8>) -> fmt::Result
    ensures its_text_if_present { WritesOnOk W.write_str_gives f.old result (progress_text progress) f.new }
{
    if let Some(description) = progress {
        write!(f, " progress={description}")?;
    }
    Ok(())
}

/// All but the digits, each field that is present under its name.
fn show_fields<D, W: fmt::Write>(f: &mut fmt::Formatter<W>, message: &Message<D>) -> fmt::Result
    ensures each_field_present { WritesOnOk W.write_str_gives f.old result (fields_text message.now) f.new }
{
    show_heading(f, message.kind, message.reference)?;
    show_complete(f, message.elements.complete)?;
    show_cause(f, message.elements.cause)?;
    show_channel(f, message.elements.channel)?;
    show_progress(f, message.elements.progress)
}

/// The fields that are present, each under its name.
impl<D: fmt::Display> fmt::Display for Message<D> {
    ghost output = { λ message. message_text D.output message };

    fn fmt<W: fmt::Write>(&self, f: &mut fmt::Formatter<W>) -> fmt::Result {
        show_fields(f, self)?;
        if let Some(digits) = &self.elements.digits {
            write!(f, " digits={digits}")?;
        }
        Ok(())
    }
}

/// The number of the ground, the place and what the ground means.
impl fmt::Display for Misread {
    ghost output = { λ misread. Some (misread_text misread) };

    fn fmt<W: fmt::Write>(&self, f: &mut fmt::Formatter<W>) -> fmt::Result {
        write!(
            f,
            "refused {} at {}: {}",
            self.ground.number(),
            self.place,
            self.ground
        )
    }
}

impl Error for Misread {}
