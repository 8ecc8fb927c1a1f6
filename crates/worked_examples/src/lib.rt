//! The worked examples in one statement: messages octet by octet, causes and statuses, and the collisions by the rules; and a gateway
//! over channels that take turns, which is driven through the last of these, so that its pool and not the example picks the channel.
#![tactic(auto)]

ghost use Rattle.std.specs.Prelude.{◌≡◌, [], ◌∷◌};
ghost use Rattle.calls.specs.Examples.{Examples, another_answers};
ghost use Rattle.turn_pool.specs.Turns.{idle_order, seized_ones};
ghost use Rattle.worked_examples.specs.Turns.{Reached, AlwaysOnNine};

use calls::{Answer, Invite};
use gateway::{Gateway, Outgoing};
use turn_pool::TurnPool;

/// 417, as the SIP layer gives it.
const DIGITS: [u8; 3] = [b'4', b'1', b'7'];

/// RELEASE COMPLETE with cause 44 to the SETUP on channel 7.
const UNAVAILABLE: [u8; 9] = [0x08, 0x02, 0x80, 0x07, 0x5a, 0x08, 0x02, 0x80, 0xac];

/// What the gateway answered to each event, and the gateway then.
#[derive(Drop)]
pub struct Tried {
    pub answers: [Answer; 6],
    pub gateway: Gateway<TurnPool>,
}

/// All examples, and the gateway that was opened over the channels 7 and 9 and stepped through the exchange's refusal of a channel.
/// The call begins on the channel that waited longest; when the exchange has no use for that one, the call moves to the other and
/// the first waits for the next call. Neither the answers nor the pool could have come out otherwise.
pub fn joint_examples() -> Tried
    ensures octets_causes_and_collisions { Examples }
    ensures answers_and_messages { result.answers ≡ another_answers }
    ensures seven_is_idle { idle_order result.gateway.trunk.pool ≡ 7 ∷ [] }
    ensures nine_is_seized { seized_ones result.gateway.trunk.pool ≡ 9 ∷ [] }
    ensures steps_from_the_opening_lead_to_this_gateway { Reached result.answers result.gateway }
    ensures every_run_over_such_a_pool_ends_on_nine { AlwaysOnNine }
{
    let pool = TurnPool::new(&[7, 9]).unwrap();
    let mut gateway = Gateway::open(20, 1, pool).unwrap();
    let mut exchange = [None; 8];
    let mut sip = [None; 8];
    let mut queues = Outgoing::new(&mut exchange, &mut sip);
    let digits: &[u8] = &DIGITS;
    let invite = Invite {
        transaction: 30,
        dialogue: 70,
        digits,
    };
    let answers = [
        Answer::Step(gateway.invite(invite, &mut queues)),
        Answer::Step(gateway.message(&UNAVAILABLE, &mut queues)),
        Answer::Exchange(gateway.take_exchange(&mut queues)),
        Answer::Exchange(gateway.take_exchange(&mut queues)),
        Answer::Exchange(gateway.take_exchange(&mut queues)),
        Answer::Sip(gateway.take_sip(&mut queues)),
    ];
    Tried { answers, gateway }
}
