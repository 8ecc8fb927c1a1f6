//! The names of timers.
ghost use Rattle.std.specs.Prelude.{◌≡◌};
ghost use Rattle.script_commands.specs.Timers.{timer_name, timer_of};

use calls::Timer;
use script_words::BadLine;

/// The name by which scripts know a timer.
pub fn timer_name(timer: Timer) -> &'static str
    ensures name_of_the_timer { result.now ≡ timer_name timer }
{
    match timer {
        Timer::T301 => "T301",
        Timer::T302 => "T302",
        Timer::T303 => "T303",
        Timer::T305 => "T305",
        Timer::T308 => "T308",
        Timer::T310 => "T310",
        Timer::T313 => "T313",
    }
}

/// The timer with this name. Refused: anything else, with `NoTimer`.
pub fn timer_of(word: &str) -> Result<Timer, BadLine>
    ensures timer_with_the_name { result ≡ timer_of word.now }
{
    match word {
        "T301" => Ok(Timer::T301),
        "T302" => Ok(Timer::T302),
        "T303" => Ok(Timer::T303),
        "T305" => Ok(Timer::T305),
        "T308" => Ok(Timer::T308),
        "T310" => Ok(Timer::T310),
        "T313" => Ok(Timer::T313),
        _ => Err(BadLine::NoTimer),
    }
}
