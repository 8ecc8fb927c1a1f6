use messages::Cause;

/// How far a call has come on the side of the exchange.
#[derive(Clone, Copy, PartialEq, Eq, Debug)]
pub enum ExchangeSide {
    Over,
    /// SETUP came, and digits are awaited.
    Collecting,
    /// The number is complete, and the INVITE goes out.
    Proceeding,
    ConnectSent,
    Up,
    /// The gateway's own SETUP is out.
    SetupSent,
    ProceedingOutwards,
    Ringing,
    DisconnectSent {
        cause: Cause,
    },
    /// RELEASE is out, with a cause or none; sent once or twice.
    ReleaseSent {
        cause: Option<Cause>,
        repeated: bool,
    },
}

/// What the exchange has been told of the called party while the INVITE is out: ALERTING, and PROGRESS with description 1
/// (interworking: the call is not QSIG from end to end) or 8 (tones or speech are to be heard in band).
#[derive(Clone, Copy, PartialEq, Eq, Debug, Default)]
pub struct Told {
    pub alerting: bool,
    pub interworking: bool,
    pub inband: bool,
}

/// What a provisional response makes known: that the called party is alerted, that something is to be heard in band, or that
/// the call is not QSIG from end to end.
#[derive(Clone, Copy, PartialEq, Eq, Debug)]
pub enum News {
    Alerting,
    InBand,
    Interworking,
}

/// How far a call has come on the side of SIP.
#[derive(Clone, Copy, PartialEq, Eq, Debug)]
pub enum SipSide {
    /// Over, or not begun. One of the five states that the rules name: an `Option` round the other four would put two patterns in
    /// the place of one in every rule.
    None,
    InviteSent { told: Told },
    InviteUnanswered { transaction: u64, dialogue: u64 },
    Up { dialogue: u64 },
    CancelSent,
}
