//! One call for each kind of event, and two that take a message.
ghost use Rattle.std.specs.Prelude.{◌≡◌, Option, true, false, OnErr};
ghost use Rattle.calls.specs.declared.answers.Answer.{Answer};
ghost use Rattle.calls.specs.Sides.{is_over};
ghost use Rattle.calls.specs.Effects.{on_type};
ghost use Rattle.calls.specs.Rules.{Did, Stepped, Event, Choice, outcome, at, seek, by_reference, on_message, uncalled, roomed, is_roomy, answer_of, settled};
ghost use Rattle.calls.specs.Rules as rules;
ghost use Rattle.messages.specs.declared.record.Channel.{Channel};
ghost use Rattle.call_table.specs.Keys.{Within};
ghost use Rattle.reader.specs.Seen.{seen_record};
ghost use Rattle.decisions.specs.Outcomes.{outcome_of};
ghost use Rattle.gateway.specs.PoolMoves.{MovesPool, PoolMoved, wish_in};
ghost use Rattle.gateway.specs.Stands.{state_of, Possible};

use crate::gateway::Gateway;
use crate::outgoing::{Outgoing, respond};
use call_table::Key;
use calls::{Digits, Found, Invite, Refused, Report, Response, SipMessage, Timer};
use decisions::{
    Outcome, at_its_call, is_status, on_bye, on_cancel, on_expiry_of, on_expiry_of_cancel,
    on_response, screen, turned_away, wants_another,
};
use messages::{CallReference, Message, Part};
use pools::Pool;
use reader::read;
use refusals::Ground;
use sip_rules::dialled;

impl<P: Pool> Gateway<P> {
    /// What was decided happens; there is room for it.
    fn settle(
        &mut self,
        decision: Result<Outcome, Ground>,
        queues: &mut Outgoing<'_>,
    ) -> Result<Report, Refused>
        requires possible { Possible self.old.table.places (outcome_of decision) }
        requires roomy { is_roomy (state_of P.Pool.state self.old queues.old) ≡ true }
        ensures refusal_leaves_all { OnErr result ((self.new ≡ self.old) × (queues.new ≡ queues.old)) }
        ensures answer_of_the_outcome { Answer.Step result ≡ answer_of (state_of P.Pool.state self.old queues.old) (outcome_of decision) }
        ensures pool_gives_back_what_is_named { (wish : Option Channel) → PoolMoved P.Pool wish (Answer.Step result) self.old.trunk.pool self.new.trunk.pool }
        ensures outcome_settled { state_of P.Pool.state self.new queues.new ≡ settled (state_of P.Pool.state self.old queues.old) (outcome_of decision) }
    {
        // One match, and no `?` before it: that would copy the effect once more.
        match decision {
            Err(ground) => Err(Refused::from(ground)),
            Ok(Outcome::Reply { exchange, sip }) => {
                queues.send(exchange, sip);
                Ok(Report::default())
            }
            Ok(Outcome::Change { place, effect }) => Ok(self.apply(queues, place, effect, None)),
        }
    }

    /// What was decided happens if there is room.
    fn carry_out(
        &mut self,
        decision: Result<Outcome, Ground>,
        queues: &mut Outgoing<'_>,
    ) -> Result<Report, Refused>
        requires possible_with_room { is_roomy (state_of P.Pool.state self.old queues.old) ≡ true → Possible self.old.table.places (outcome_of decision) }
        ensures refusal_leaves_all { OnErr result ((self.new ≡ self.old) × (queues.new ≡ queues.old)) }
        ensures pool_gives_back_what_is_named { (wish : Option Channel) → PoolMoved P.Pool wish (Answer.Step result) self.old.trunk.pool self.new.trunk.pool }
        ensures a_step_of_each_event_that_comes_to_it { (event : Event) (outcome_is : rules.Outcome) → outcome_of decision ≡ outcome_is → ((ch : Choice) → outcome (state_of P.Pool.state self.old queues.old) ch event ≡ roomed (state_of P.Pool.state self.old queues.old) outcome_is) → Stepped (state_of P.Pool.state self.old queues.old) event (Answer.Step result) (state_of P.Pool.state self.new queues.new) }
    {
        queues.need_room()?;
        self.settle(decision, queues)
    }

    /// CANCEL of an INVITE that came.
    pub fn cancel(&mut self, transaction: u64, queues: &mut Outgoing<'_>) -> Result<Report, Refused>
        ensures refusal_leaves_all { OnErr result ((self.new ≡ self.old) × (queues.new ≡ queues.old)) }
        ensures steps_by_the_rules { Stepped (state_of P.Pool.state self.old queues.old) (Event.Cancel transaction) (Answer.Step result) (state_of P.Pool.state self.new queues.new) }
        ensures moves_the_pool_as_reported { MovesPool P.Pool self.old (Event.Cancel transaction) (Answer.Step result) self.new }
    {
        let decision = on_cancel(&self.table, transaction);
        self.carry_out(decision, queues)
    }

    /// BYE on a dialogue.
    pub fn bye(&mut self, dialogue: u64, queues: &mut Outgoing<'_>) -> Result<Report, Refused>
        ensures refusal_leaves_all { OnErr result ((self.new ≡ self.old) × (queues.new ≡ queues.old)) }
        ensures steps_by_the_rules { Stepped (state_of P.Pool.state self.old queues.old) (Event.Bye dialogue) (Answer.Step result) (state_of P.Pool.state self.new queues.new) }
        ensures moves_the_pool_as_reported { MovesPool P.Pool self.old (Event.Bye dialogue) (Answer.Step result) self.new }
    {
        let decision = on_bye(&self.table, dialogue);
        self.carry_out(decision, queues)
    }

    /// A response to an INVITE of the gateway's own.
    pub fn response(
        &mut self,
        response: Response,
        queues: &mut Outgoing<'_>,
    ) -> Result<Report, Refused>
        ensures refusal_leaves_all { OnErr result ((self.new ≡ self.old) × (queues.new ≡ queues.old)) }
        ensures steps_by_the_rules { Stepped (state_of P.Pool.state self.old queues.old) (Event.Response response.number response.status response.dialogue response.media) (Answer.Step result) (state_of P.Pool.state self.new queues.new) }
        ensures moves_the_pool_as_reported { MovesPool P.Pool self.old (Event.Response response.number response.status response.dialogue response.media) (Answer.Step result) self.new }
    {
        if !is_status(response.status) {
            return Err(Refused::from(Ground::StatusOutOfRange));
        }
        let decision = on_response(&self.table, response);
        self.carry_out(decision, queues)
    }

    /// The expiry of a timer of the exchange side, by the reference as the exchange sends it.
    pub fn expiry(
        &mut self,
        timer: Timer,
        reference: CallReference,
        queues: &mut Outgoing<'_>,
    ) -> Result<Report, Refused>
        ensures refusal_leaves_all { OnErr result ((self.new ≡ self.old) × (queues.new ≡ queues.old)) }
        ensures steps_by_the_rules { Stepped (state_of P.Pool.state self.old queues.old) (Event.Expiry timer reference) (Answer.Step result) (state_of P.Pool.state self.new queues.new) }
        ensures moves_the_pool_as_reported { MovesPool P.Pool self.old (Event.Expiry timer reference) (Answer.Step result) self.new }
    {
        let decision = on_expiry_of(&self.table, timer, reference);
        self.carry_out(decision, queues)
    }

    /// The expiry of the timer of a CANCEL.
    pub fn cancel_expiry(
        &mut self,
        number: u64,
        queues: &mut Outgoing<'_>,
    ) -> Result<Report, Refused>
        ensures refusal_leaves_all { OnErr result ((self.new ≡ self.old) × (queues.new ≡ queues.old)) }
        ensures steps_by_the_rules { Stepped (state_of P.Pool.state self.old queues.old) (Event.CancelExpiry number) (Answer.Step result) (state_of P.Pool.state self.new queues.new) }
        ensures moves_the_pool_as_reported { MovesPool P.Pool self.old (Event.CancelExpiry number) (Answer.Step result) self.new }
    {
        let decision = on_expiry_of_cancel(&self.table, number);
        self.carry_out(decision, queues)
    }

    /// A message at the call that it found.
    fn at_call(
        &mut self,
        message: Message<Part<'_>>,
        found: Found,
        queues: &mut Outgoing<'_>,
    ) -> Result<Report, Refused>
        requires found { Within (Some found) self.old.table.places }
        requires live { is_over found.call.exchange ≡ false }
        requires roomy { is_roomy (state_of P.Pool.state self.old queues.old) ≡ true }
        ensures refusal_leaves_all { OnErr result ((self.new ≡ self.old) × (queues.new ≡ queues.old)) }
        ensures moves_the_pool_as_reported { PoolMoved P.Pool (wish_in (seen_record message.entry)) (Answer.Step result) self.old.trunk.pool self.new.trunk.pool }
        ensures by_type_and_state { Did (state_of P.Pool.state self.old queues.old) (λ ch. at found.place (on_type self.old.full ch.pick (seen_record message.entry) found.call message.entry.kind)) (Answer.Step result) (state_of P.Pool.state self.new queues.new) }
    {
        if wants_another(message, found.call) {
            Ok(self.retry(found, queues))
        } else {
            let decision = at_its_call(self.full, message, found);
            self.settle(decision, queues)
        }
    }

    /// A message that found no call.
    fn without_call(
        &mut self,
        message: Message<Part<'_>>,
        queues: &mut Outgoing<'_>,
    ) -> Result<Report, Refused>
        requires roomy { is_roomy (state_of P.Pool.state self.old queues.old) ≡ true }
        ensures refusal_leaves_all { OnErr result ((self.new ≡ self.old) × (queues.new ≡ queues.old)) }
        ensures moves_the_pool_as_reported { PoolMoved P.Pool (wish_in (seen_record message.entry)) (Answer.Step result) self.old.trunk.pool self.new.trunk.pool }
        ensures begun_or_turned_away { Did (state_of P.Pool.state self.old queues.old) (λ ch. uncalled (state_of P.Pool.state self.old queues.old) ch (seen_record message.entry) message.entry.kind) (Answer.Step result) (state_of P.Pool.state self.new queues.new) }
    {
        if message.kind.is_setup() {
            Ok(self.on_setup(message, queues))
        } else {
            self.settle(turned_away(message), queues)
        }
    }

    /// A message that was read.
    fn on_message(
        &mut self,
        message: Message<Part<'_>>,
        queues: &mut Outgoing<'_>,
    ) -> Result<Report, Refused>
        ensures refusal_leaves_all { OnErr result ((self.new ≡ self.old) × (queues.new ≡ queues.old)) }
        ensures moves_the_pool_as_reported { PoolMoved P.Pool (wish_in (seen_record message.entry)) (Answer.Step result) self.old.trunk.pool self.new.trunk.pool }
        ensures by_the_rules { Did (state_of P.Pool.state self.old queues.old) (λ ch. roomed (state_of P.Pool.state self.old queues.old) (on_message (state_of P.Pool.state self.old queues.old) ch (seen_record message.entry) (seek (by_reference message.entry.reference) self.old.table.places))) (Answer.Step result) (state_of P.Pool.state self.new queues.new) }
    {
        queues.need_room()?;
        match self.table.find(Key::Reference(message.reference)) {
            Some(found) => self.at_call(message, found, queues),
            None => self.without_call(message, queues),
        }
    }

    /// Octets from the exchange.
    pub fn message(&mut self, octets: &[u8], queues: &mut Outgoing<'_>) -> Result<Report, Refused>
        ensures refusal_leaves_all { OnErr result ((self.new ≡ self.old) × (queues.new ≡ queues.old)) }
        ensures steps_by_the_rules { Stepped (state_of P.Pool.state self.old queues.old) (Event.Exchange octets.now) (Answer.Step result) (state_of P.Pool.state self.new queues.new) }
        ensures moves_the_pool_as_reported { MovesPool P.Pool self.old (Event.Exchange octets.now) (Answer.Step result) self.new }
    {
        let message = read(octets)?;
        self.on_message(message, queues)
    }

    /// INVITE.
    pub fn invite(
        &mut self,
        invite: Invite<&[u8]>,
        queues: &mut Outgoing<'_>,
    ) -> Result<Report, Refused>
        ensures refusal_leaves_all { OnErr result ((self.new ≡ self.old) × (queues.new ≡ queues.old)) }
        ensures steps_by_the_rules { Stepped (state_of P.Pool.state self.old queues.old) (Event.Invite invite.entry.transaction invite.entry.dialogue invite.entry.digits.now) (Answer.Step result) (state_of P.Pool.state self.new queues.new) }
        ensures moves_the_pool_as_reported { MovesPool P.Pool self.old (Event.Invite invite.entry.transaction invite.entry.dialogue invite.entry.digits.now) (Answer.Step result) self.new }
    {
        queues.need_room()?;
        screen(&self.table, invite)?;
        match dialled(invite) {
            Ok(invite) => Ok(self.call_out(invite, queues)),
            Err(status) => Ok(respond(&mut queues.sip, invite.transaction, status)),
        }
    }

    // These stay two: each promises what becomes of the other queue, and its answer is of its own kind.
    /// The oldest message for the exchange is taken.
    pub fn take_exchange(&self, queues: &mut Outgoing<'_>) -> Option<Message<Digits>>
        ensures steps_by_the_rules { Stepped (state_of P.Pool.state self.now queues.old) Event.TakeExchange (Answer.Exchange result) (state_of P.Pool.state self.now queues.new) }
        ensures leaves_the_other_queue { queues.new.sip ≡ queues.old.sip }
    {
        queues.exchange.take()
    }

    /// The oldest message for SIP is taken.
    pub fn take_sip(&self, queues: &mut Outgoing<'_>) -> Option<SipMessage>
        ensures steps_by_the_rules { Stepped (state_of P.Pool.state self.now queues.old) Event.TakeSip (Answer.Sip result) (state_of P.Pool.state self.now queues.new) }
        ensures leaves_the_other_queue { queues.new.exchange ≡ queues.old.exchange }
    {
        queues.sip.take()
    }
}
