//! The expiry of a timer of the exchange side.
ghost use Rattle.std.specs.Prelude.{◌≡◌};
ghost use Rattle.calls.specs.Effects.{gives_up, on_timer, on_expiry};
ghost use Rattle.effects.specs.Moves.{effect_of, decision_of};

use crate::dialled::{proceeds, spurns};
use call_states::{is_repeated, is_running};
use calls::{Call, Timer};
use causes::{RECOVERY_ON_TIMER_EXPIRY, REQUEST_TIMEOUT, TEMPORARILY_UNAVAILABLE};
use digits::is_nothing;
use effects::{Effect, clears_exchange, clears_sip, ends, keeps, moved, own_cause, releases};
use queues::few::Few;
use refusals::Ground;

/// Nothing came in time: both sides are cleared.
fn gives_up(call: Call, status: u16) -> Effect
    ensures both_sides_cleared { effect_of result ≡ gives_up call status }
{
    moved(
        call,
        clears_exchange(call, own_cause(RECOVERY_ON_TIMER_EXPIRY)),
        clears_sip(call, status),
    )
}

/// No more digits came: those that are there are taken for a whole number.
fn no_more_digits(call: Call) -> Effect
    ensures dialled_unless_nothing { effect_of result ≡ on_timer call Timer.T302 }
{
    if is_nothing(call.digits) {
        spurns(call, call.digits)
    } else {
        proceeds(call, call.digits)
    }
}

/// No end came to a RELEASE: it goes out once more, and after that the side is over.
fn repeats(call: Call) -> Effect
    ensures repeated_once { effect_of result ≡ on_timer call Timer.T308 }
{
    if is_repeated(call.exchange) {
        moved(call, ends(call, Few::Zero), keeps(call))
    } else {
        moved(call, releases(call, true), keeps(call))
    }
}

fn on_timer(call: Call, timer: Timer) -> Effect
    ensures by_timer { effect_of result ≡ on_timer call timer }
{
    match timer {
        Timer::T301 => gives_up(call, TEMPORARILY_UNAVAILABLE),
        Timer::T302 => no_more_digits(call),
        Timer::T303 | Timer::T310 | Timer::T313 => gives_up(call, REQUEST_TIMEOUT),
        Timer::T305 => moved(call, releases(call, false), keeps(call)),
        Timer::T308 => repeats(call),
    }
}

/// The expiry of a timer that runs; of another it is refused.
pub fn on_expiry(timer: Timer, call: Call) -> Result<Effect, Ground>
    ensures of_the_running_timer { decision_of result ≡ on_expiry timer call }
{
    is_running(timer, call.exchange)
        .then(|| on_timer(call, timer))
        .ok_or(Ground::TimerNotRunning)
}
