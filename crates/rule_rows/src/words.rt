//! The words of states, messages and timers, as rows and lines have them.
use calls::{ExchangeSide, SipSide, Timer};
use messages::MessageType;

const KINDS: [MessageType; 11] = [
    MessageType::Alerting,
    MessageType::CallProceeding,
    MessageType::Progress,
    MessageType::Setup,
    MessageType::Connect,
    MessageType::SetupAcknowledge,
    MessageType::ConnectAcknowledge,
    MessageType::Disconnect,
    MessageType::Release,
    MessageType::ReleaseComplete,
    MessageType::Information,
];

pub fn exchange_name(side: ExchangeSide) -> &'static str {
    match side {
        ExchangeSide::Over => "over",
        ExchangeSide::Collecting => "collecting",
        ExchangeSide::Proceeding => "proceeding",
        ExchangeSide::ConnectSent => "connect-sent",
        ExchangeSide::Up => "up",
        ExchangeSide::SetupSent => "setup-sent",
        ExchangeSide::ProceedingOutwards => "proceeding-outwards",
        ExchangeSide::Ringing => "ringing",
        ExchangeSide::DisconnectSent { .. } => "disconnect-sent",
        ExchangeSide::ReleaseSent { repeated: true, .. } => "release-sent-twice",
        ExchangeSide::ReleaseSent { .. } => "release-sent",
    }
}

pub fn sip_name(side: SipSide) -> &'static str {
    match side {
        SipSide::None => "none",
        SipSide::InviteSent { .. } => "invite-sent",
        SipSide::InviteUnanswered { .. } => "invite-unanswered",
        SipSide::Up { .. } => "up",
        SipSide::CancelSent => "cancel-sent",
    }
}

/// Stays a match: the type's own `Display` parts its words by spaces, as a line parts its messages.
pub fn kind_name(kind: MessageType) -> &'static str {
    match kind {
        MessageType::Alerting => "ALERTING",
        MessageType::CallProceeding => "CALL-PROCEEDING",
        MessageType::Progress => "PROGRESS",
        MessageType::Setup => "SETUP",
        MessageType::Connect => "CONNECT",
        MessageType::SetupAcknowledge => "SETUP-ACKNOWLEDGE",
        MessageType::ConnectAcknowledge => "CONNECT-ACKNOWLEDGE",
        MessageType::Disconnect => "DISCONNECT",
        MessageType::Release => "RELEASE",
        MessageType::ReleaseComplete => "RELEASE-COMPLETE",
        MessageType::Information => "INFORMATION",
    }
}

pub fn kind_of(word: &str) -> Option<MessageType> {
    KINDS.iter().copied().find(|kind| kind_name(*kind) == word)
}

pub fn timer_of(word: &str) -> Option<Timer> {
    match word {
        "T301" => Some(Timer::T301),
        "T302" => Some(Timer::T302),
        "T303" => Some(Timer::T303),
        "T305" => Some(Timer::T305),
        "T308" => Some(Timer::T308),
        "T310" => Some(Timer::T310),
        "T313" => Some(Timer::T313),
        _ => None,
    }
}
