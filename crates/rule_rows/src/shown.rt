//! An effect as one line: where the call then stands, what is reported, and what goes out to the exchange and to SIP. It is the
//! rows' own short form, which leaves out what a row does not try; the records' own `Display` would not.
use crate::words::{exchange_name, kind_name, sip_name};
use calls::{Digits, SipMessage, SipSide};
use effects::Effect;
use messages::Message;
use queues::few::Few;
use refusals::Ground;
use std::alloc::{AllocError, Global};
use std::fmt;

#[derive(Clone, Copy)]
struct EffectText(Effect);

/// What is reported, or a dash where there is nothing.
#[derive(Clone, Copy)]
struct OrDash<T>(Option<T>);

/// What the exchange has been told while the INVITE is out.
fn show_told<W: fmt::Write>(side: SipSide, f: &mut fmt::Formatter<W>) -> fmt::Result {
    if let SipSide::InviteSent { told } = side {
        if told.interworking {
            write!(f, "/1")?;
        }
        if told.inband {
            write!(f, "/8")?;
        }
        if told.alerting {
            write!(f, "/alerting")?;
        }
    }
    Ok(())
}

fn show_message<W: fmt::Write>(message: Message<Digits>, f: &mut fmt::Formatter<W>) -> fmt::Result {
    let name = kind_name(message.kind);
    let flag = u8::from(message.reference.flag);
    write!(f, " {name}:{flag}:{}", message.reference.number)?;
    let elements = message.elements;
    if let Some(cause) = elements.cause {
        write!(f, ":cause={}@{}", cause.value, cause.location)?;
    }
    if let Some(channel) = elements.channel {
        write!(f, ":channel={}", channel.number)?;
    }
    if let Some(description) = elements.progress {
        write!(f, ":progress={description}")?;
    }
    if let Some(digits) = elements.digits {
        write!(f, ":digits={}", digits.count)?;
    }
    Ok(())
}

fn show_sip<W: fmt::Write>(message: SipMessage, f: &mut fmt::Formatter<W>) -> fmt::Result {
    match message {
        SipMessage::Invite { number, digits } => {
            write!(f, " INVITE:{number}:digits={}", digits.count)
        }
        SipMessage::Cancel { number } => write!(f, " CANCEL:{number}"),
        SipMessage::Ack { number, dialogue } => write!(f, " ACK:{number}:{dialogue}"),
        SipMessage::Bye { dialogue } => write!(f, " BYE:{dialogue}"),
        SipMessage::Response {
            transaction,
            status,
        } => write!(f, " {status}:{transaction}"),
    }
}

/// What goes out on one side, each message shown in its turn.
fn show_few<M: Copy, W: fmt::Write, S: Fn(M, &mut fmt::Formatter<W>) -> fmt::Result>(
    few: Few<M>,
    f: &mut fmt::Formatter<W>,
    show: S,
) -> fmt::Result
    requires any_message { S.IsAlwaysCallable show }
{
    match few {
        Few::Zero => Ok(()),
        Few::One(message) => show(message, f),
        Few::Two(first, second) => {
            show(first, f)?;
            show(second, f)
        }
    }
}

impl<T: fmt::Debug> fmt::Display for OrDash<T> {
    fn fmt<W: fmt::Write>(&self, f: &mut fmt::Formatter<W>) -> fmt::Result {
        match &self.0 {
            Some(value) => write!(f, "{value:?}"),
            None => f.write_str("-"),
        }
    }
}

impl fmt::Display for EffectText {
    fn fmt<W: fmt::Write>(&self, f: &mut fmt::Formatter<W>) -> fmt::Result {
        let effect = self.0;
        match effect.after {
            None => f.write_str("gone")?,
            Some(call) => {
                let exchange = exchange_name(call.exchange);
                let sip = sip_name(call.sip);
                write!(f, "{exchange} {sip}")?;
                show_told(call.sip, f)?;
                write!(f, " channel={} digits={}", call.channel, call.digits.count)?;
            }
        }
        let report = effect.report;
        let seized = OrDash(report.seized);
        let released = OrDash(report.released);
        let timer = OrDash(report.timer);
        let cancelling = if report.cancelling { "yes" } else { "no" };
        write!(
            f,
            " seized={seized} released={released} timer={timer} tc={cancelling}"
        )?;
        show_few(effect.exchange, f, show_message)?;
        show_few(effect.sip, f, show_sip)
    }
}

/// The line of an effect, or of a refusal.
pub fn line_of(heap: Global, decision: Result<Effect, Ground>) -> Result<String, AllocError> {
    match decision {
        Ok(effect) => format!(in heap; "{}", EffectText(effect)),
        Err(ground) => format!(in heap; "refused {}", ground.number()),
    }
}
