//! The lines of the file of rows.
use crate::bad_line::BadLine;
use crate::fields::{digits_of, elements_of, octets_of};
use crate::sides::{exchange_side_of, sip_side_of};
use crate::stand::{from_exchange, from_sip};
use crate::words::{kind_of, timer_of};
use calls::{Call, Timer};
use messages::{Elements, MessageType, Part};
use std::alloc::Global;

/// What comes at a call that stands.
#[derive(Clone, Copy)]
pub enum Event<'a> {
    /// A message from the exchange, and a channel that is idle if there is one.
    Message {
        kind: MessageType,
        elements: Elements<Part<'a>>,
        idle: Option<u8>,
    },
    Expiry(Timer),
    CancelExpiry,
    /// A response to the call's INVITE.
    Response {
        status: u16,
        dialogue: u64,
        media: bool,
    },
    /// The other end's CANCEL or BYE.
    Leaving,
}

/// What a row tries.
#[derive(Clone, Copy)]
pub enum Trial<'a> {
    AtCall(Call, Event<'a>),
    /// The digits of an INVITE that finds no call.
    Invite(&'a [u8]),
    /// The elements of a SETUP that finds no call.
    Setup(Elements<Part<'a>>),
}

#[derive(Clone, Copy)]
pub struct Row<'a> {
    pub trial: Trial<'a>,
    pub expected: &'a str,
}

#[derive(Clone, Copy)]
pub enum Line<'a> {
    /// Empty, or a comment.
    Remark,
    /// The heading of a table.
    Table(&'a str),
    Row(Row<'a>),
}

fn message_of<'a>(name: &str, words: &[&'a str], idle: Option<u8>) -> Result<Event<'a>, BadLine> {
    Ok(Event::Message {
        kind: kind_of(name).ok_or(BadLine::NoEvent)?,
        elements: elements_of(words)?,
        idle,
    })
}

fn media_of(word: &str) -> Result<bool, BadLine> {
    match word {
        "media" => Ok(true),
        "silent" => Ok(false),
        _ => Err(BadLine::NeitherMediaNorSilent),
    }
}

fn event_of<'a>(words: &[&'a str]) -> Result<Event<'a>, BadLine> {
    match words {
        ["expires", "TC"] => Ok(Event::CancelExpiry),
        ["expires", timer] => Ok(Event::Expiry(timer_of(timer).ok_or(BadLine::NoTimer)?)),
        ["response", status, "dialogue", dialogue, media] => Ok(Event::Response {
            status: status.parse()?,
            dialogue: dialogue.parse()?,
            media: media_of(media)?,
        }),
        ["leaves"] => Ok(Event::Leaving),
        [name, fields @ .., "idle", channel] => message_of(name, fields, Some(channel.parse()?)),
        [name, fields @ ..] => message_of(name, fields, None),
        [] => Err(BadLine::NoEvent),
    }
}

/// The call that stands, by the end that made it.
fn call_of(origin: &str, digits: &str, exchange: &str, sip: &str) -> Result<Call, BadLine> {
    let digits = digits_of(digits)?;
    let exchange = exchange_side_of(exchange)?;
    let sip = sip_side_of(sip)?;
    match origin {
        "from-exchange" => Ok(from_exchange(digits, exchange, sip)),
        "from-sip" => Ok(from_sip(digits, exchange, sip)),
        _ => Err(BadLine::NoRow),
    }
}

/// The digits of an INVITE, as `digits=4171`.
fn invite_of(word: &str) -> Result<Trial<'_>, BadLine> {
    match word.strip_prefix("digits=") {
        Some(digits) => Ok(Trial::Invite(octets_of(digits))),
        None => Err(BadLine::NoField),
    }
}

fn trial_of<'a>(words: &[&'a str]) -> Result<Trial<'a>, BadLine> {
    match words {
        ["new-call", "SETUP", fields @ ..] => Ok(Trial::Setup(elements_of(fields)?)),
        ["new-call", "INVITE", digits] => invite_of(digits),
        [origin, digits, exchange, sip, event @ ..] => {
            let call = call_of(origin, digits, exchange, sip)?;
            Ok(Trial::AtCall(call, event_of(event)?))
        }
        _ => Err(BadLine::NoRow),
    }
}

/// A row: what is tried, `gives`, and the line that is to come of it.
fn row_of(heap: Global, line: &str) -> Result<Row<'_>, BadLine> {
    let (trial, expected) = line.split_once(" gives ").ok_or(BadLine::NoRow)?;
    let words: Vec<&str> = trial.split_ascii_whitespace().collect(heap)?;
    Ok(Row {
        trial: trial_of(&words)?,
        expected: expected.trim_end(),
    })
}

/// What a line of the file is.
pub fn parse(heap: Global, line: &str) -> Result<Line<'_>, BadLine> {
    if line.trim_ascii().is_empty() || line.starts_with('#') {
        return Ok(Line::Remark);
    }
    match line.strip_prefix("table ") {
        Some(name) => Ok(Line::Table(name.trim_end())),
        None => Ok(Line::Row(row_of(heap, line)?)),
    }
}
