//! The moves of the SIP side.
ghost use Rattle.std.specs.Prelude.{◌≡◌};
ghost use Rattle.queues.specs.Few.{few_items};
ghost use Rattle.calls.specs.Effects.{becomes, keeps, cancels, clears_from, clears_sip, invites, responds, answers, leaves_sip};
ghost use Rattle.effects.specs.Moves.{sip_move_of};

use crate::effect::SipMove;
use calls::{Call, Digits, Origin, SipMessage, SipSide, Told};
use causes::{OK, REQUEST_TERMINATED};
use queues::few::Few;

/// The side is then in this state, and no timer starts.
pub fn becomes(side: SipSide, sent: Few<SipMessage>) -> SipMove
    ensures state_without_timer { sip_move_of result ≡ becomes side (few_items sent) }
{
    SipMove {
        side,
        cancelling: false,
        sent,
    }
}

/// Nothing happens on SIP.
pub fn keeps(call: Call) -> SipMove
    ensures same_state_nothing_sent { sip_move_of result ≡ keeps call }
{
    becomes(call.sip, Few::Zero)
}

/// CANCEL of the INVITE that is out: a call that a SETUP made has one, with its number.
fn cancels(origin: Origin) -> SipMove
    ensures cancel_with_the_number { sip_move_of result ≡ cancels origin }
{
    match origin {
        Origin::Exchange { number } => SipMove {
            side: SipSide::CancelSent,
            cancelling: true,
            sent: Few::One(SipMessage::Cancel { number }),
        },
        Origin::Sip => becomes(SipSide::None, Few::Zero),
    }
}

fn clears_from(origin: Origin, status: u16, side: SipSide) -> SipMove
    ensures cleared_as_the_state_asks { sip_move_of result ≡ clears_from origin status side }
{
    match side {
        SipSide::InviteSent { .. } => cancels(origin),
        SipSide::InviteUnanswered { transaction, .. } => {
            let response = SipMessage::Response {
                transaction,
                status,
            };
            becomes(SipSide::None, Few::One(response))
        }
        SipSide::Up { dialogue } => becomes(SipSide::None, Few::One(SipMessage::Bye { dialogue })),
        other => becomes(other, Few::Zero),
    }
}

/// SIP is cleared: CANCEL for an INVITE that is out, this status for one that is unanswered, BYE for a call that is up.
pub fn clears_sip(call: Call, status: u16) -> SipMove
    ensures cancel_response_or_bye { sip_move_of result ≡ clears_sip call status }
{
    clears_from(call.origin, status, call.sip)
}

/// An INVITE goes out with the number of the call that a SETUP made; nothing is told to the exchange yet.
pub fn invites(origin: Origin, digits: Digits) -> SipMove
    ensures invite_with_the_number { sip_move_of result ≡ invites origin digits }
{
    match origin {
        Origin::Exchange { number } => {
            let told = Told::default();
            let invite = SipMessage::Invite { number, digits };
            becomes(SipSide::InviteSent { told }, Few::One(invite))
        }
        Origin::Sip => becomes(SipSide::None, Few::Zero),
    }
}

/// A provisional response to the INVITE that is unanswered.
pub fn responds(status: u16, side: SipSide) -> SipMove
    ensures response_where_unanswered { sip_move_of result ≡ responds status side }
{
    match side {
        SipSide::InviteUnanswered { transaction, .. } => {
            let response = SipMessage::Response {
                transaction,
                status,
            };
            becomes(side, Few::One(response))
        }
        other => becomes(other, Few::Zero),
    }
}

/// 200 to the INVITE that is unanswered.
pub fn answers(side: SipSide) -> SipMove
    ensures up_by_the_answer { sip_move_of result ≡ answers side }
{
    match side {
        SipSide::InviteUnanswered {
            transaction,
            dialogue,
        } => {
            becomes(
                SipSide::Up { dialogue },
                Few::One(SipMessage::Response {
                    transaction,
                    status: OK,
                }),
            )
        }
        other => becomes(other, Few::Zero),
    }
}

/// The other end's CANCEL or BYE: 487 to an INVITE that is unanswered.
pub fn leaves_sip(side: SipSide) -> SipMove
    ensures over_or_still_calling { sip_move_of result ≡ leaves_sip side }
{
    match side {
        SipSide::InviteUnanswered { transaction, .. } => {
            let terminated = SipMessage::Response {
                transaction,
                status: REQUEST_TERMINATED,
            };
            becomes(SipSide::None, Few::One(terminated))
        }
        SipSide::Up { .. } => becomes(SipSide::None, Few::Zero),
        other => becomes(other, Few::Zero),
    }
}
