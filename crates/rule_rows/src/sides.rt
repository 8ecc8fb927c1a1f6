//! The states of a call's two sides, by their words and what stands behind them.
use crate::bad_line::BadLine;
use crate::fields::cause_of;
use crate::stand::{TALKING, UNANSWERED};
use calls::{ExchangeSide, SipSide, Told};
use messages::Cause;

/// A state that keeps no cause.
fn causeless_side(word: &str) -> Result<ExchangeSide, BadLine> {
    match word {
        "over" => Ok(ExchangeSide::Over),
        "collecting" => Ok(ExchangeSide::Collecting),
        "proceeding" => Ok(ExchangeSide::Proceeding),
        "connect-sent" => Ok(ExchangeSide::ConnectSent),
        "up" => Ok(ExchangeSide::Up),
        "setup-sent" => Ok(ExchangeSide::SetupSent),
        "proceeding-outwards" => Ok(ExchangeSide::ProceedingOutwards),
        "ringing" => Ok(ExchangeSide::Ringing),
        "release-sent" => Ok(released(None, false)),
        "release-sent-twice" => Ok(released(None, true)),
        _ => Err(BadLine::NoExchangeState),
    }
}

fn released(cause: Option<Cause>, repeated: bool) -> ExchangeSide {
    ExchangeSide::ReleaseSent { cause, repeated }
}

/// A state, with the cause that it keeps behind a slash, as `disconnect-sent/28@5`.
pub fn exchange_side_of(word: &str) -> Result<ExchangeSide, BadLine> {
    let Some((name, cause)) = word.split_once('/') else {
        return causeless_side(word);
    };
    let cause = cause_of(cause)?;
    match name {
        "disconnect-sent" => Ok(ExchangeSide::DisconnectSent { cause }),
        "release-sent" => Ok(released(Some(cause), false)),
        "release-sent-twice" => Ok(released(Some(cause), true)),
        _ => Err(BadLine::NoExchangeState),
    }
}

/// What the exchange was told, as `1/8/alerting`.
fn told_of(words: &str) -> Result<Told, BadLine> {
    let mut told = Told::default();
    for word in words.split('/') {
        match word {
            "1" => told.interworking = true,
            "8" => told.inband = true,
            "alerting" => told.alerting = true,
            _ => return Err(BadLine::NoSipState),
        }
    }
    Ok(told)
}

pub fn sip_side_of(word: &str) -> Result<SipSide, BadLine> {
    match word.split_once('/') {
        None => untold_side(word),
        Some(("invite-sent", words)) => Ok(SipSide::InviteSent {
            told: told_of(words)?,
        }),
        Some(_) => Err(BadLine::NoSipState),
    }
}

/// A state in which the exchange was told nothing.
fn untold_side(word: &str) -> Result<SipSide, BadLine> {
    match word {
        "none" => Ok(SipSide::None),
        "invite-sent" => Ok(SipSide::InviteSent {
            told: Told::default(),
        }),
        "invite-unanswered" => Ok(UNANSWERED),
        "up" => Ok(TALKING),
        "cancel-sent" => Ok(SipSide::CancelSent),
        _ => Err(BadLine::NoSipState),
    }
}
