ghost use Rattle.std.specs.Prelude.{◌≡◌};

use calls::{Digits, Found, SipMessage};
use effects::Effect;
use messages::Message;
use queues::few::Few;

/// What an event that seizes no channel brings, where it is not refused.
#[derive(Clone, Copy, PartialEq, Eq, Debug)]
pub enum Outcome {
    /// An answer that touches no call.
    Reply {
        exchange: Few<Message<Digits>>,
        sip: Few<SipMessage>,
    },
    /// An effect at one place of the table.
    Change {
        place: usize,
        effect: Effect,
    },
}

impl Outcome {
    ghost use Rattle.decisions.specs.declared.outcome.Outcome.{Outcome};

    /// The effect at the place of the call that was found.
    pub(crate) fn at(found: Found, effect: Effect) -> Outcome
        ensures that_effect_there { result ≡ Outcome.Change found.place effect }
    {
        Outcome::Change {
            place: found.place,
            effect,
        }
    }
}
