//! The two outgoing queues, which always go together, and answers that touch no call.
ghost use Rattle.std.specs.Prelude.{◌≡◌, ◌≤◌, [], ◌∷◌, ◌++◌, length, true, false, MatchBool, MatchResult};
ghost use Rattle.queues.specs.Few.{few_items};
ghost use Rattle.queues.specs.Waiting.{waiting, room, free};
ghost use Rattle.calls.specs.declared.outgoing.SipMessage.{SipMessage};
ghost use Rattle.refusals.specs.declared.Ground.TheVariants.{QueueFull};
ghost use Rattle.calls.specs.Refusing.{placeless};
ghost use Rattle.calls.specs.Rules.{quiet};
ghost use Rattle.calls.specs.Effects.{rejection};
ghost use Rattle.gateway.specs.Stands.{has_two_places, NothingWaits};

use calls::{Digits, Refused, Report, SipMessage};
use effects::rejection;
use messages::{CallReference, Message};
use queues::few::Few;
use queues::queue::Queue;
use refusals::Ground;

/// What waits for the exchange and what waits for SIP, each in places that the caller lends.
#[derive(Drop)]
pub struct Outgoing<'a> {
    pub exchange: Queue<'a, Message<Digits>>,
    pub sip: Queue<'a, SipMessage>,
}

impl<'a> Outgoing<'a> {
    /// Nothing waits, whatever the places held.
    pub fn new(
        exchange_places: &'a mut [Option<Message<Digits>>],
        sip_places: &'a mut [Option<SipMessage>],
    ) -> Outgoing<'a>
        ensures nothing_waits { (waiting result.exchange ≡ []) × (waiting result.sip ≡ []) }
        ensures with_the_places { (room result.exchange ≡ length exchange_places.old) × (room result.sip ≡ length sip_places.old) }
    {
        Outgoing {
            exchange: Queue::new(exchange_places),
            sip: Queue::new(sip_places),
        }
    }

    /// Whether nothing waits, for the exchange or for SIP.
    pub fn is_empty(&self) -> bool
        ensures yes_exactly_if_nothing_waits { MatchBool result (NothingWaits self.now) (NothingWaits self.now → ⊥) }
    {
        self.exchange.is_empty() && self.sip.is_empty()
    }

    /// Lets these messages wait behind the others, in their order.
    pub(crate) fn send(&mut self, exchange: Few<Message<Digits>>, sip: Few<SipMessage>)
        requires room { has_two_places self.old ≡ true }
        ensures rooms_stay { (room self.new.exchange ≡ room self.old.exchange) × (room self.new.sip ≡ room self.old.sip) }
        ensures wait_last { (waiting self.new.exchange ≡ waiting self.old.exchange ++ few_items exchange) × (waiting self.new.sip ≡ waiting self.old.sip ++ few_items sip) }
    {
        // Neither comes back: there is room.
        let _ = self.exchange.put_few(exchange);
        let _ = self.sip.put_few(sip);
    }

    // That there is room stays a condition of what follows: as a fact of a struct round the queues the check asks for it once more
    // after messages were put in, when it need not hold.
    /// Refused unless two messages find a place in either queue: no step sends more.
    pub(crate) fn need_room(&self) -> Result<(), Refused>
        ensures two_places_in_either { MatchResult result (λ _. has_two_places self.now ≡ true) (λ e. (has_two_places self.now ≡ false) × (e ≡ placeless QueueFull)) }
    {
        if self.exchange.has_room(2) && self.sip.has_room(2) {
            Ok(())
        } else {
            Err(Refused::from(Ground::QueueFull))
        }
    }
}

/// RELEASE COMPLETE to a SETUP that makes no call.
pub(crate) fn reject(
    exchange: &mut Queue<'_, Message<Digits>>,
    reference: CallReference,
    value: u8,
) -> Report
    requires room { 2 ≤ free exchange.old }
    ensures report { result ≡ quiet }
    ensures size { room exchange.new ≡ room exchange.old }
    ensures list { waiting exchange.new ≡ waiting exchange.old ++ rejection reference value ∷ [] }
{
    let _ = exchange.put(rejection(reference, value));
    Report::default()
}

/// The final response to an INVITE that makes no call.
pub(crate) fn respond(sip: &mut Queue<'_, SipMessage>, transaction: u64, status: u16) -> Report
    requires room { 2 ≤ free sip.old }
    ensures report { result ≡ quiet }
    ensures size { room sip.new ≡ room sip.old }
    ensures list { waiting sip.new ≡ waiting sip.old ++ SipMessage.Response transaction status ∷ [] }
{
    let _ = sip.put(SipMessage::Response {
        transaction,
        status,
    });
    Report::default()
}
