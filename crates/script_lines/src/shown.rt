//! What people read of answers and calls.
ghost use Rattle.std.specs.Prelude.{◌≡◌, Some};
ghost use Rattle.std.specs.Fmt.{WritesOnOk};
ghost use Rattle.calls.specs.Effects.{meant};
ghost use Rattle.calls.specs.Sides.{held_channel};
ghost use Rattle.reader.specs.Seen.{seen_record, seen_part};
ghost use Rattle.script_lines.specs.Names.{exchange_name, sip_name, yes_or_no};
ghost use Rattle.script_lines.specs.Shown.{channel_text, timer_text, report_text, digits_text, sip_text, lent_digits, lent, answer_text, reference_text, sides_text, origin_text, dialogue_text, call_text};

use calls::{Answer, Call, Digits, ExchangeSide, Origin, Report, SipMessage, SipSide, Timer};
use digits::meant;
use message_text::MessageText;
use messages::{CallReference, Elements, Message, Part};
use script_commands::timer_name;
use std::fmt;

/// A channel, or a dash where there is none.
#[derive(Clone, Copy)]
struct ChannelText(Option<u8>);

impl fmt::Display for ChannelText {
    ghost output = { λ text. Some (channel_text text.0) };

    fn fmt<W: fmt::Write>(&self, f: &mut fmt::Formatter<W>) -> fmt::Result {
        match self.0 {
            Some(channel) => write!(f, "{channel}"),
            None => f.write_str("-"),
        }
    }
}

/// A timer, or a dash where there is none.
#[derive(Clone, Copy)]
struct TimerText(Option<Timer>);

impl fmt::Display for TimerText {
    ghost output = { λ text. Some (timer_text text.0) };

    fn fmt<W: fmt::Write>(&self, f: &mut fmt::Formatter<W>) -> fmt::Result {
        match self.0 {
            Some(timer) => f.write_str(timer_name(timer)),
            None => f.write_str("-"),
        }
    }
}

fn exchange_name(side: ExchangeSide) -> &'static str
    ensures name_of_the_state { result.now ≡ exchange_name side }
{
    match side {
        ExchangeSide::Over => "over",
        ExchangeSide::Collecting => "collecting",
        ExchangeSide::Proceeding => "proceeding",
        ExchangeSide::ConnectSent => "connect-sent",
        ExchangeSide::Up => "up",
        ExchangeSide::SetupSent => "setup-sent",
        ExchangeSide::ProceedingOutwards => "proceeding-outwards",
        ExchangeSide::Ringing => "ringing",
        ExchangeSide::DisconnectSent { .. } => "disconnect-sent",
        ExchangeSide::ReleaseSent { .. } => "release-sent",
    }
}

fn sip_name(side: SipSide) -> &'static str
    ensures name_of_the_state { result.now ≡ sip_name side }
{
    match side {
        SipSide::None => "none",
        SipSide::InviteSent { .. } => "invite-sent",
        SipSide::InviteUnanswered { .. } => "invite-unanswered",
        SipSide::Up { .. } => "up",
        SipSide::CancelSent => "cancel-sent",
    }
}

fn yes_or_no(flag: bool) -> &'static str
    ensures yes_or_no { result.now ≡ yes_or_no flag }
{
    if flag { "yes" } else { "no" }
}

/// The digits of a record, lent.
fn part_of(digits: &Digits) -> Part<'_>
    ensures as_many_as_count { seen_part result ≡ lent_digits digits.now }
{
    Part {
        place: 0,
        octets: meant(digits),
    }
}

/// A message with its digits lent.
fn lent(message: &Message<Digits>) -> Message<Part<'_>>
    ensures all_else_the_same { seen_record result ≡ lent message.now }
{
    let elements = &message.elements;
    Message {
        reference: message.reference,
        kind: message.kind,
        elements: Elements {
            complete: elements.complete,
            cause: elements.cause,
            channel: elements.channel,
            progress: elements.progress,
            digits: elements.digits.as_ref().map(part_of),
        },
    }
}

#[derive(Clone, Copy)]
struct ReportText(Report);

impl fmt::Display for ReportText {
    ghost output = { λ text. Some (report_text text.0) };

    fn fmt<W: fmt::Write>(&self, f: &mut fmt::Formatter<W>) -> fmt::Result {
        let report = self.0;
        write!(
            f,
            "report seized={} released={} timer={} tc={}",
            ChannelText(report.seized),
            ChannelText(report.released),
            TimerText(report.timer),
            yes_or_no(report.cancelling)
        )
    }
}

#[derive(Clone, Copy)]
struct SipText(SipMessage);

impl fmt::Display for SipText {
    ghost output = { λ text. Some (sip_text text.0) };

    fn fmt<W: fmt::Write>(&self, f: &mut fmt::Formatter<W>) -> fmt::Result {
        match &self.0 {
            SipMessage::Invite { number, digits } => {
                write!(f, "sip INVITE n={number} digits={}", part_of(digits))
            }
            SipMessage::Cancel { number } => write!(f, "sip CANCEL n={number}"),
            SipMessage::Ack { number, dialogue } => write!(f, "sip ACK n={number} d={dialogue}"),
            SipMessage::Bye { dialogue } => write!(f, "sip BYE d={dialogue}"),
            SipMessage::Response {
                transaction,
                status,
            } => write!(f, "sip RESPONSE t={transaction} status={status}"),
        }
    }
}

/// What came of an event.
#[derive(Clone, Copy)]
pub(crate) struct AnswerText(pub(crate) Answer);

impl fmt::Display for AnswerText {
    ghost output = { λ text. answer_text text.0 };

    fn fmt<W: fmt::Write>(&self, f: &mut fmt::Formatter<W>) -> fmt::Result {
        match &self.0 {
            Answer::Step(Ok(report)) => write!(f, "{}", ReportText(*report)),
            Answer::Step(Err(refused)) => write!(f, "{refused}"),
            Answer::Exchange(Some(message)) => {
                let message = lent(message);
                write!(f, "{}", MessageText { message })
            }
            Answer::Sip(Some(message)) => write!(f, "{}", SipText(*message)),
            Answer::Exchange(None) | Answer::Sip(None) => f.write_str("none"),
        }
    }
}

/// A call as it stands.
#[derive(Clone, Copy)]
pub(crate) struct CallText(pub(crate) Call);

fn held_channel(call: &Call) -> Option<u8>
    ensures unless_the_exchange_side_is_over { result ≡ held_channel call.now }
{
    match call.exchange {
        ExchangeSide::Over => None,
        _ => Some(call.channel),
    }
}

fn show_reference<W: fmt::Write>(f: &mut fmt::Formatter<W>, reference: CallReference) -> fmt::Result
    ensures flag_and_number { WritesOnOk W.write_str_gives f.old result (reference_text reference) f.new }
{
    let flag = u8::from(reference.flag);
    write!(f, "call flag={flag} reference={}", reference.number)
}

fn show_sides<W: fmt::Write>(f: &mut fmt::Formatter<W>, call: &Call) -> fmt::Result
    ensures channel_and_states { WritesOnOk W.write_str_gives f.old result (sides_text call.now) f.new }
{
    write!(
        f,
        " channel={} exchange={} sip={}",
        ChannelText(held_channel(call)),
        exchange_name(call.exchange),
        sip_name(call.sip)
    )
}

fn show_origin<W: fmt::Write>(f: &mut fmt::Formatter<W>, origin: Origin) -> fmt::Result
    ensures its_number_if_numbered { WritesOnOk W.write_str_gives f.old result (origin_text origin) f.new }
{
    match origin {
        Origin::Exchange { number } => write!(f, " n={number}"),
        Origin::Sip => Ok(()),
    }
}

fn show_dialogue<W: fmt::Write>(f: &mut fmt::Formatter<W>, side: SipSide) -> fmt::Result
    ensures where_the_state_has_one { WritesOnOk W.write_str_gives f.old result (dialogue_text side) f.new }
{
    match side {
        SipSide::InviteUnanswered {
            transaction,
            dialogue,
        } => write!(f, " t={transaction} d={dialogue}"),
        SipSide::Up { dialogue } => write!(f, " d={dialogue}"),
        SipSide::None | SipSide::InviteSent { .. } | SipSide::CancelSent => Ok(()),
    }
}

impl fmt::Display for CallText {
    ghost output = { λ text. Some (call_text text.0) };

    fn fmt<W: fmt::Write>(&self, f: &mut fmt::Formatter<W>) -> fmt::Result {
        let call = &self.0;
        show_reference(f, call.reference)?;
        show_sides(f, call)?;
        show_origin(f, call.origin)?;
        show_dialogue(f, call.sip)?;
        write!(f, " digits={}", part_of(&call.digits))
    }
}
