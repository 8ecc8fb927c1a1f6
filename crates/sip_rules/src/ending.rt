//! The ends of a call on the side of SIP.
ghost use Rattle.std.specs.Prelude.{◌≡◌};
ghost use Rattle.calls.specs.Effects.{leaves, on_cancel_expiry};
ghost use Rattle.effects.specs.Moves.{effect_of, decision_of};

use calls::{Call, SipSide};
use causes::NORMAL_CLEARING;
use effects::{Effect, becomes, clears_exchange, leaves_sip, moved, own_cause, stays};
use queues::few::Few;
use refusals::Ground;

/// The other end's CANCEL or BYE: the exchange is cleared.
pub fn leaves(call: Call) -> Effect
    ensures both_sides_cleared { effect_of result ≡ leaves call }
{
    moved(
        call,
        clears_exchange(call, own_cause(NORMAL_CLEARING)),
        leaves_sip(call.sip),
    )
}

/// No response came to a CANCEL: the SIP side is over.
pub fn on_cancel_expiry(call: Call) -> Result<Effect, Ground>
    ensures over_where_cancelled { decision_of result ≡ on_cancel_expiry call }
{
    if call.sip == SipSide::CancelSent {
        Ok(moved(
            call,
            stays(call, Few::Zero),
            becomes(SipSide::None, Few::Zero),
        ))
    } else {
        Err(Ground::TimerNotRunning)
    }
}
