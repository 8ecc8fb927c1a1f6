ghost use Rattle.std.specs.Prelude.{◌≡◌, ◌+◌, ◌≤◌, [], ◌∷◌, map, length, vec_len, vec_capacity, MatchResult};
ghost use Rattle.calls.specs.Rules.{Stepped, Stepping};
ghost use Rattle.calls.specs.Laws.{RunsOn};
ghost use Rattle.events.specs.Events.{event_of};
ghost use Rattle.gateway.specs.PoolMoves.{MovesPool};
ghost use Rattle.gateway.specs.Stands.{state_of};
ghost use Rattle.runs.specs.Plays.{OnRefused};

use calls::{Answer, Invite};
use events::Event;
use gateway::{Gateway, Outgoing};
use pools::Pool;
use std::alloc::{AllocError, Global};

/// One event, which is lent: no memory is asked for, so that every event has its answer. A refusal leaves gateway and queues
/// the very same.
pub fn step<P: Pool>(gateway: &mut Gateway<P>, event: &Event, queues: &mut Outgoing<'_>) -> Answer
    ensures refusal_leaves_all { OnRefused result ((gateway.new ≡ gateway.old) × (queues.new ≡ queues.old)) }
    ensures steps_by_the_rules { Stepped (state_of P.Pool.state gateway.old queues.old) (event_of event.now) result (state_of P.Pool.state gateway.new queues.new) }
    ensures moves_the_pool_as_reported { MovesPool P.Pool gateway.old (event_of event.now) result gateway.new }
    ensures every_history_goes_on_and_the_laws_hold { RunsOn (state_of P.Pool.state gateway.old queues.old) (event_of event.now ∷ []) (result ∷ []) (state_of P.Pool.state gateway.new queues.new) }
{
    step_of(gateway, event, queues)
}

/// The call of the gateway that is for this kind of event.
fn step_of<P: Pool>(gateway: &mut Gateway<P>, event: &Event, queues: &mut Outgoing<'_>) -> Answer
    ensures refusal_leaves_all { OnRefused result ((gateway.new ≡ gateway.old) × (queues.new ≡ queues.old)) }
    ensures steps_by_the_rules { Stepped (state_of P.Pool.state gateway.old queues.old) (event_of event.now) result (state_of P.Pool.state gateway.new queues.new) }
    ensures moves_the_pool_as_reported { MovesPool P.Pool gateway.old (event_of event.now) result gateway.new }
{
    match event {
        Event::Exchange { octets } => { Answer::Step(gateway.message(octets.as_slice(), queues)) }
        Event::Invite {
            transaction,
            dialogue,
            digits,
        } => {
            let invite = Invite {
                transaction: *transaction,
                dialogue: *dialogue,
                digits: digits.as_slice(),
            };
            Answer::Step(gateway.invite(invite, queues))
        }
        Event::Cancel { transaction } => Answer::Step(gateway.cancel(*transaction, queues)),
        Event::Bye { dialogue } => Answer::Step(gateway.bye(*dialogue, queues)),
        Event::Response(response) => Answer::Step(gateway.response(*response, queues)),
        Event::Expiry { timer, reference } => {
            Answer::Step(gateway.expiry(*timer, *reference, queues))
        }
        Event::CancelExpiry { number } => { Answer::Step(gateway.cancel_expiry(*number, queues)) }
        Event::TakeExchange => Answer::Exchange(gateway.take_exchange(queues)),
        Event::TakeSip => Answer::Sip(gateway.take_sip(queues)),
    }
}

/// The events in their order; what came of each is noted, in places that are there already.
fn run_each<P: Pool>(
    gateway: &mut Gateway<P>,
    events: &[Event],
    answers: &mut Vec<Answer>,
    queues: &mut Outgoing<'_>,
)
    requires none_noted_yet { answers.old.items ≡ [] }
    requires places_for_all { vec_len answers.old + length events.now ≤ vec_capacity answers.old }
    ensures every_history_goes_on_and_the_laws_hold { RunsOn (state_of P.Pool.state gateway.old queues.old) (map event_of events.now) answers.new.items (state_of P.Pool.state gateway.new queues.new) }
    ensures steps_by_the_rules { Stepping (state_of P.Pool.state gateway.old queues.old) (map event_of events.now) answers.new.items (state_of P.Pool.state gateway.new queues.new) }
{
    for event in events {
        let answer = step(gateway, event, queues);
        answers.push_reserved(answer);
    }
}

/// The events in their order, and what came of each. Want of memory for the answers is the only other outcome, before the first
/// event.
pub fn run<P: Pool>(
    gateway: &mut Gateway<P>,
    heap: Global,
    events: &[Event],
    queues: &mut Outgoing<'_>,
) -> Result<Vec<Answer>, AllocError>
    ensures every_history_goes_on_and_the_laws_hold { MatchResult result
        (λ answers. RunsOn (state_of P.Pool.state gateway.old queues.old) (map event_of events.now) answers.items (state_of P.Pool.state gateway.new queues.new))
        (λ _. (gateway.new ≡ gateway.old) × (queues.new ≡ queues.old)) }
    ensures steps_by_the_rules { MatchResult result
        (λ answers. Stepping (state_of P.Pool.state gateway.old queues.old) (map event_of events.now) answers.items (state_of P.Pool.state gateway.new queues.new))
        (λ _. Unit {0}) }
{
    let mut answers = Vec::with_capacity(heap, events.len())?;
    run_each(gateway, events, &mut answers, queues);
    Ok(answers)
}
