//! When a message is in its time.
ghost use Rattle.std.specs.Prelude.{◌≡◌};
ghost use Rattle.calls.specs.Sides.{from_to};
ghost use Rattle.calls.specs.Effects.{only};
ghost use Rattle.effects.specs.Moves.{effect_of, decision_of};

use calls::ExchangeSide;
use effects::Effect;
use refusals::Ground;

/// In its time the effect; else it is not the time for it.
pub fn only(in_time: bool, effect: Effect) -> Result<Effect, Ground>
    ensures effect_in_its_time { decision_of result ≡ only in_time (effect_of effect) }
{
    in_time.then_some(effect).ok_or(Ground::NotNow)
}

/// The gateway's SETUP is out, and the called party is not alerted yet.
pub fn is_unalerted(side: ExchangeSide) -> bool
    ensures setup_sent_or_proceeding { result ≡ from_to ExchangeSide.SetupSent ExchangeSide.ProceedingOutwards side }
{
    matches!(
        side,
        ExchangeSide::SetupSent | ExchangeSide::ProceedingOutwards
    )
}

/// The gateway's SETUP is out, and the called party did not answer yet.
pub fn is_unconnected(side: ExchangeSide) -> bool
    ensures setup_sent_to_ringing { result ≡ from_to ExchangeSide.SetupSent ExchangeSide.Ringing side }
{
    is_unalerted(side) || side == ExchangeSide::Ringing
}
