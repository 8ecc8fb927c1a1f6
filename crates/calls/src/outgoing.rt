use crate::record::Digits;

/// What goes out to SIP. A number is the transaction of an INVITE of the gateway's own, a transaction that of an INVITE that came.
#[derive(Clone, Copy, PartialEq, Eq, Debug)]
pub enum SipMessage {
    Invite { number: u64, digits: Digits },
    Cancel { number: u64 },
    Ack { number: u64, dialogue: u64 },
    Bye { dialogue: u64 },
    Response { transaction: u64, status: u16 },
}
