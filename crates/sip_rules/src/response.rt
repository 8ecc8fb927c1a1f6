//! Final responses to the INVITE of a call.
ghost use Rattle.std.specs.Prelude.{◌≡◌, [], nat_le};
ghost use Rattle.queues.specs.Few.{few_items};
ghost use Rattle.calls.specs.Effects.{fails, ack_and_bye, accepts, moved, stays, becomes, untold};
ghost use Rattle.causes.specs.Names.{first_failure};
ghost use Rattle.calls.specs.Rules.{on_other};
ghost use Rattle.effects.specs.Moves.{effect_of};

use crate::ringing::provisional;
use calls::{Call, ExchangeSide, Response, SipMessage, SipSide};
use causes::FIRST_FAILURE;
use effects::{Effect, becomes, cause_for, clears_exchange, enters, moved, stays, tell};
use messages::{Cause, MessageType};
use queues::few::Few;

/// A final response that refuses: the SIP side is over, and the exchange is cleared unless CANCEL was sent.
fn fails(call: Call, cause: Cause) -> Effect
    ensures cleared_unless_cancelled { effect_of result ≡ fails call cause }
{
    let exchange = match call.sip {
        SipSide::InviteSent { .. } => clears_exchange(call, cause),
        _ => stays(call, Few::Zero),
    };
    moved(call, exchange, becomes(SipSide::None, Few::Zero))
}

/// The ACK of a response from 200 to 299.
pub fn ack(response: Response) -> SipMessage
    ensures by_number_and_dialogue { result ≡ SipMessage.Ack response.number response.dialogue }
{
    SipMessage::Ack {
        number: response.number,
        dialogue: response.dialogue,
    }
}

/// A 200 that is not wanted is acknowledged and ended.
pub fn ack_and_bye(response: Response) -> Few<SipMessage>
    ensures acknowledged_and_ended { few_items result ≡ ack_and_bye response.number response.dialogue }
{
    let bye = SipMessage::Bye {
        dialogue: response.dialogue,
    };
    Few::Two(ack(response), bye)
}

/// The INVITE is answered: CONNECT to the exchange, ACK to SIP.
fn connects(call: Call, response: Response) -> Effect
    ensures connect_and_ack { effect_of result ≡ accepts call response.number response.dialogue (SipSide.InviteSent untold) }
{
    let connect = tell(MessageType::Connect, call);
    let up = SipSide::Up {
        dialogue: response.dialogue,
    };
    moved(
        call,
        enters(call, ExchangeSide::ConnectSent, Few::One(connect)),
        becomes(up, Few::One(ack(response))),
    )
}

/// A 200 that changes the SIP side to this, or leaves it so.
fn acknowledges(call: Call, side: SipSide, sent: Few<SipMessage>) -> Effect
    ensures exchange_side_untouched { effect_of result ≡ moved call (stays call []) (becomes side (few_items sent)) }
{
    moved(call, stays(call, Few::Zero), becomes(side, sent))
}

/// A 200 on a dialogue: the call's own INVITE is answered; or it is the 200 that the call is up by, once more; or it is not
/// wanted, since CANCEL went out or the call is up by another.
pub fn accepts(call: Call, response: Response) -> Effect
    ensures answered_or_ended { effect_of result ≡ accepts call response.number response.dialogue call.sip }
{
    match call.sip {
        SipSide::InviteSent { .. } => connects(call, response),
        SipSide::Up { dialogue } if dialogue == response.dialogue => {
            acknowledges(call, call.sip, Few::One(ack(response)))
        }
        SipSide::CancelSent => acknowledges(call, SipSide::None, ack_and_bye(response)),
        _ => acknowledges(call, call.sip, ack_and_bye(response)),
    }
}

/// Whether a status is that of a final response that refuses.
fn is_refusal(status: u16) -> bool
    ensures from_300_on { result ≡ nat_le first_failure status }
{
    status >= FIRST_FAILURE
}

/// A provisional response, or a final one that refuses.
pub fn on_other(response: Response, call: Call) -> Effect
    ensures ringing_or_refused { effect_of result ≡ on_other response.status response.media call }
{
    if is_refusal(response.status) {
        fails(call, cause_for(response.status))
    } else {
        provisional(call, response)
    }
}
