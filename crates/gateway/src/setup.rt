//! A SETUP that finds no call, read in one place in the order of its rule.
ghost use Rattle.std.specs.Prelude.{◌≡◌, ℕ, true, Some, Ok, MatchResult};
ghost use Rattle.pools.specs.States.{after_any};
ghost use Rattle.calls.specs.declared.answers.Answer.{Answer};
ghost use Rattle.calls.specs.Rules.{Did, on_setup, is_roomy};
ghost use Rattle.call_table.specs.Moves.{Took};
ghost use Rattle.call_table.specs.Tokens.{token_channel};
ghost use Rattle.reader.specs.Seen.{seen_record};
ghost use Rattle.gateway.specs.declared.outgoing.Outgoing.{Outgoing};
ghost use Rattle.gateway.specs.PoolMoves.{PoolMoved};
ghost use Rattle.gateway.specs.Stands.{state_of, Granted, Rejected, Admitted};

use crate::gateway::Gateway;
use crate::outgoing::{Outgoing, reject};
use call_table::{Token, Trunk};
use calls::Report;
use causes::{INVALID_NUMBER_FORMAT, SWITCHING_EQUIPMENT_CONGESTION};
use decisions::busy_cause;
use effects::Effect;
use exchange_rules::{DialledSetup, begins};
use messages::{Channel, Message, Part};
use pools::Pool;

/// A call that a SETUP makes: its place, what its first step does, and the token of its channel.
pub(crate) struct NewCall {
    pub(crate) place: usize,
    pub(crate) effect: Effect,
    pub(crate) token: Token,
}

/// The token that a wish for this channel gets.
fn seize_as_wished<P: Pool>(trunk: &mut Trunk<P>, wish: Channel) -> Option<Token>
    ensures moves_the_pool { Took P.Pool.Seizes P.Pool.SeizesAny (Some wish) trunk.old.pool (token_channel result) trunk.new.pool }
    ensures the_wished_or_any_or_none { Granted (P.Pool.state trunk.old.pool) (Some wish) (token_channel result) }
    ensures seizes_it_alone { (k : ℕ) → P.Pool.state trunk.new.pool k ≡ after_any (token_channel result) (P.Pool.state trunk.old.pool) k }
{
    trunk.seize_wished(wish)
}

/// The token that a SETUP gets by its wish for a channel, or without one.
fn seize_for<P: Pool>(trunk: &mut Trunk<P>, wish: Option<Channel>) -> Option<Token>
    ensures moves_the_pool { Took P.Pool.Seizes P.Pool.SeizesAny wish trunk.old.pool (token_channel result) trunk.new.pool }
    ensures the_wished_or_any_or_none { Granted (P.Pool.state trunk.old.pool) wish (token_channel result) }
    ensures seizes_it_alone { (k : ℕ) → P.Pool.state trunk.new.pool k ≡ after_any (token_channel result) (P.Pool.state trunk.old.pool) k }
{
    match wish {
        Some(wish) => seize_as_wished(trunk, wish),
        None => trunk.seize_any(),
    }
}

impl<P: Pool> Gateway<P> {
    /// The call that a SETUP makes, its channel seized, or the cause with which it is rejected: its digits cannot be a number, no
    /// place or no number is left, its wish gets no channel.
    fn admit(&mut self, message: Message<Part<'_>>) -> Result<NewCall, u8>
        ensures by_the_order_of_the_rule { (queues : Outgoing) → MatchResult result
            (λ new. Admitted (state_of P.Pool.state self.old queues) (seen_record message.entry) (P.Pool.state self.new.trunk.pool) new)
            (λ cause. Rejected (state_of P.Pool.state self.old queues) (seen_record message.entry) (P.Pool.state self.new.trunk.pool) cause) }
        ensures pool_takes_the_channel_of_the_call { MatchResult result
            (λ new. Took P.Pool.Seizes P.Pool.SeizesAny message.entry.elements.channel self.old.trunk.pool (Some new.token.channel) self.new.trunk.pool)
            (λ _. self.new.trunk.pool ≡ self.old.trunk.pool) }
        ensures leaves_the_rest { (self.new.table ≡ self.old.table) × (self.new.next ≡ self.old.next) × (self.new.full ≡ self.old.full) }
    {
        let Some(setup) = DialledSetup::new(message) else {
            return Err(INVALID_NUMBER_FORMAT);
        };
        let Some(place) = self.table.free() else {
            return Err(SWITCHING_EQUIPMENT_CONGESTION);
        };
        let Some(number) = self.next else {
            return Err(SWITCHING_EQUIPMENT_CONGESTION);
        };
        let wish = message.elements.channel;
        let Some(token) = seize_for(&mut self.trunk, wish) else {
            return Err(busy_cause(wish));
        };
        let effect = begins(self.full, setup, number, token.channel());
        Ok(NewCall {
            place,
            effect,
            token,
        })
    }

    /// A SETUP that found no call.
    pub(crate) fn on_setup(
        &mut self,
        message: Message<Part<'_>>,
        queues: &mut Outgoing<'_>,
    ) -> Report
        requires roomy { is_roomy (state_of P.Pool.state self.old queues.old) ≡ true }
        ensures moves_the_pool_as_reported { PoolMoved P.Pool message.entry.elements.channel (Answer.Step (Ok result)) self.old.trunk.pool self.new.trunk.pool }
        ensures a_call_or_rejected { Did (state_of P.Pool.state self.old queues.old) (λ ch. on_setup (state_of P.Pool.state self.old queues.old) ch (seen_record message.entry)) (Answer.Step (Ok result)) (state_of P.Pool.state self.new queues.new) }
    {
        match self.admit(message) {
            Ok(
                NewCall {
                    place,
                    effect,
                    token,
                },
            ) => self.apply(queues, place, effect, Some(token)),
            Err(cause) => reject(&mut queues.exchange, message.reference, cause),
        }
    }
}
