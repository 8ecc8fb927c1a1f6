//! The side of SIP, and the call as a whole.
ghost use Rattle.std.specs.Prelude.{◌≡◌};
ghost use Rattle.calls.specs.Sides.{is_no_sip, awaits_response, is_unanswered, is_held_by, number_of, is_gone};

use crate::exchange::is_over;
use calls::{Call, Origin, SipSide};

/// Over, or not begun.
pub fn is_no_sip(side: SipSide) -> bool
    ensures nothing_on_sip { result ≡ is_no_sip side }
{
    side == SipSide::None
}

/// An INVITE of the gateway's own is out, and no final response came to it.
pub fn awaits_response(side: SipSide) -> bool
    ensures invite_out_or_cancelled { result ≡ awaits_response side }
{
    matches!(side, SipSide::InviteSent { .. } | SipSide::CancelSent)
}

/// Whether the INVITE with this transaction came and has no final response yet.
pub fn is_unanswered(transaction: u64, side: SipSide) -> bool
    ensures that_invite_is_open { result ≡ is_unanswered transaction side }
{
    matches!(side, SipSide::InviteUnanswered { transaction: known, .. } if known == transaction)
}

/// Whether the dialogue is this side's: from the INVITE that came, or from the 200, on.
pub fn is_held_by(dialogue: u64, side: SipSide) -> bool
    ensures that_dialogue_is_held { result ≡ is_held_by dialogue side }
{
    match side {
        SipSide::InviteUnanswered {
            dialogue: known,
            ..
        }
        | SipSide::Up { dialogue: known } => known == dialogue,
        _ => false,
    }
}

/// The number of the INVITE that goes out, of a call that a SETUP made.
pub fn number_of(origin: Origin) -> Option<u64>
    ensures number_of_a_call_from_the_exchange { result ≡ number_of origin }
{
    match origin {
        Origin::Exchange { number } => Some(number),
        Origin::Sip => None,
    }
}

/// Over on both sides.
pub fn is_gone(call: Call) -> bool
    ensures both_sides_over { result ≡ is_gone call }
{
    is_over(call.exchange) && is_no_sip(call.sip)
}
