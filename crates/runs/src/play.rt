ghost use Rattle.std.specs.Prelude.{◌≡◌, map, MatchResult, OnErr};
ghost use Rattle.events.specs.Events.{event_of};
ghost use Rattle.gateway.specs.Stands.{InRange, NothingWaits};
ghost use Rattle.runs.specs.Plays.{Played, WhyNotPlayed};
ghost use Rattle.runs.specs.declared.play.NotPlayed.{NotPlayed};

use crate::drive::run;
use calls::Answer;
use events::Event;
use gateway::{Gateway, Outgoing};
use pools::Pool;
use refusals::Ground;
use std::alloc::{AllocError, Global};
use std::error::Error;
use std::fmt;

/// Why no event was played.
#[derive(Clone, Copy, PartialEq, Eq, Debug)]
pub enum NotPlayed {
    /// The settings are out of their range.
    Refused(Ground),
    /// Messages wait in the queues already.
    QueuesInUse,
    /// There is no memory for the answers.
    NoMemory,
}

impl fmt::Display for NotPlayed {
    ghost use Rattle.std.specs.Prelude.{Some};
    ghost use Rattle.runs.specs.Shown.{not_played_text};

    ghost output = { λ e. Some (not_played_text e) };

    fn fmt<W: fmt::Write>(&self, f: &mut fmt::Formatter<W>) -> fmt::Result {
        match self {
            NotPlayed::Refused(ground) => { write!(f, "refused {}: {ground}", ground.number()) }
            NotPlayed::QueuesInUse => f.write_str("messages wait in the queues already"),
            NotPlayed::NoMemory => f.write_str("no memory for the answers"),
        }
    }
}

impl Error for NotPlayed {}

impl From<Ground> for NotPlayed {
    ghost from_gives = { λ why e. e ≡ NotPlayed.Refused why };

    fn from(ground: Ground) -> Self {
        Self::Refused(ground)
    }
}

impl From<AllocError> for NotPlayed {
    ghost from_gives = { λ _ e. e ≡ NotPlayed.NoMemory };

    fn from(_error: AllocError) -> Self {
        Self::NoMemory
    }
}

/// Nothing is played where messages wait in the queues already: a history begins with empty ones.
fn need_empty(queues: &Outgoing<'_>) -> Result<(), NotPlayed>
    ensures in_use_exactly_if_something_waits { MatchResult result (λ _. NothingWaits queues.now) (λ why. (NothingWaits queues.now → ⊥) × (why ≡ NotPlayed.QueuesInUse)) }
{
    if queues.is_empty() {
        Ok(())
    } else {
        Err(NotPlayed::QueuesInUse)
    }
}

/// A gateway is opened over a pool and run on the events, with queues in which nothing waits yet. What still waits at the end
/// waits in them. Where nothing is played, they are the very same.
pub fn open_and_run<P: Pool + Drop>(
    full: usize,
    first: u64,
    pool: P,
    heap: Global,
    events: &[Event],
    queues: &mut Outgoing<'_>,
) -> Result<(Gateway<P>, Vec<Answer>), NotPlayed>
    ensures laws_from_the_opening_on { MatchResult result
        (λ v. Played (P.Pool.state pool) full first queues.old (map event_of events.now) v.1.items v.0.table.places (P.Pool.state v.0.trunk.pool) v.0.next v.0.full queues.new)
        (λ _. Unit {0}) }
    ensures not_played_for_a_setting_or_queues_or_memory { MatchResult result
        (λ _. InRange full first × NothingWaits queues.old)
        (λ why. WhyNotPlayed full first queues.old why) }
    ensures what_is_not_played_leaves_the_queues { OnErr result (queues.new ≡ queues.old) }
{
    let mut gateway = Gateway::open(full, first, pool)?;
    need_empty(queues)?;
    let answers = run(&mut gateway, heap, events, queues)?;
    Ok((gateway, answers))
}
