//! The side of the exchange.
ghost use Rattle.std.specs.Prelude.{◌≡◌};
ghost use Rattle.calls.specs.Sides.{is_over, is_uncleared, is_unreleased, timer_of, is_running, sent_cause, is_repeated};

use calls::{ExchangeSide, Timer};
use messages::Cause;

/// Nothing goes on at the exchange, and no channel is held.
pub fn is_over(side: ExchangeSide) -> bool
    ensures over_alone { result ≡ is_over side }
{
    side == ExchangeSide::Over
}

/// Neither end clears yet, so that DISCONNECT can be sent.
pub fn is_uncleared(side: ExchangeSide) -> bool
    ensures neither_over_nor_clearing { result ≡ is_uncleared side }
{
    !matches!(
        side,
        ExchangeSide::Over | ExchangeSide::DisconnectSent { .. } | ExchangeSide::ReleaseSent { .. }
    )
}

/// The side is not over, and no RELEASE went out.
pub fn is_unreleased(side: ExchangeSide) -> bool
    ensures neither_over_nor_releasing { result ≡ is_unreleased side }
{
    is_uncleared(side) || matches!(side, ExchangeSide::DisconnectSent { .. })
}

/// The timer that runs in a state.
pub fn timer_of(side: ExchangeSide) -> Option<Timer>
    ensures timer_of_the_state { result ≡ timer_of side }
{
    match side {
        ExchangeSide::Over | ExchangeSide::Proceeding | ExchangeSide::Up => None,
        ExchangeSide::Collecting => Some(Timer::T302),
        ExchangeSide::ConnectSent => Some(Timer::T313),
        ExchangeSide::SetupSent => Some(Timer::T303),
        ExchangeSide::ProceedingOutwards => Some(Timer::T310),
        ExchangeSide::Ringing => Some(Timer::T301),
        ExchangeSide::DisconnectSent { .. } => Some(Timer::T305),
        ExchangeSide::ReleaseSent { .. } => Some(Timer::T308),
    }
}

/// Whether this timer runs now.
pub fn is_running(timer: Timer, side: ExchangeSide) -> bool
    ensures the_timer_of_the_state { result ≡ is_running timer side }
{
    timer_of(side) == Some(timer)
}

/// The cause that went out with the DISCONNECT or the RELEASE.
pub fn sent_cause(side: ExchangeSide) -> Option<Cause>
    ensures cause_of_the_clearing { result ≡ sent_cause side }
{
    match side {
        ExchangeSide::DisconnectSent { cause } => Some(cause),
        ExchangeSide::ReleaseSent { cause, .. } => cause,
        _ => None,
    }
}

/// Whether the RELEASE went out twice.
pub fn is_repeated(side: ExchangeSide) -> bool
    ensures release_sent_twice { result ≡ is_repeated side }
{
    matches!(side, ExchangeSide::ReleaseSent { repeated: true, .. })
}
