//! Steps that seize a channel. What is seized travels as a token until it is entered with a call.
ghost use Rattle.std.specs.Prelude.{◌≡◌, true, None, Ok};
ghost use Rattle.calls.specs.declared.answers.Answer.{Answer};
ghost use Rattle.calls.specs.declared.sides.ExchangeSide.{ExchangeSide};
ghost use Rattle.calls.specs.Sides.{is_in};
ghost use Rattle.calls.specs.Effects.{tries_again};
ghost use Rattle.calls.specs.Rules.{Did, Change, calls_out, is_roomy};
ghost use Rattle.call_table.specs.Keys.{Within};
ghost use Rattle.call_table.specs.Tokens.{token_channel};
ghost use Rattle.gateway.specs.PoolMoves.{PoolMoved};
ghost use Rattle.gateway.specs.Stands.{state_of};

use crate::gateway::Gateway;
use crate::outgoing::{Outgoing, respond};
use call_table::Token;
use calls::{Found, Invite, Report};
use causes::SERVICE_UNAVAILABLE;
use digits::Dialled;
use exchange_rules::tries_again;
use pools::Pool;
use sip_rules::invited;

/// The channel of a token, if there is one.
fn token_channel(token: &Option<Token>) -> Option<u8>
    ensures answers_its_channel { result ≡ token_channel token.now }
{
    token.as_ref().map(Token::channel)
}

impl<P: Pool> Gateway<P> {
    /// The exchange has no use for the channel of our SETUP: another is seized before the old one is released, or SIP is cleared.
    pub(crate) fn retry(&mut self, found: Found, queues: &mut Outgoing<'_>) -> Report
        requires found { Within (Some found) self.old.table.places }
        requires waits { is_in ExchangeSide.SetupSent found.call.exchange ≡ true }
        requires roomy { is_roomy (state_of P.Pool.state self.old queues.old) ≡ true }
        ensures moves_the_pool_as_reported { PoolMoved P.Pool None (Answer.Step (Ok result)) self.old.trunk.pool self.new.trunk.pool }
        ensures another_channel_or_none { Did (state_of P.Pool.state self.old queues.old) (λ ch. Change found.place (tries_again ch.pick found.call)) (Answer.Step (Ok result)) (state_of P.Pool.state self.new queues.new) }
    {
        let token = self.trunk.seize_any();
        let effect = tries_again(token_channel(&token), found.call);
        self.apply(queues, found.place, effect, token)
    }

    /// An INVITE with at most 20 digits: a call on any channel, or 503.
    pub(crate) fn call_out(
        &mut self,
        invite: Invite<Dialled<'_>>,
        queues: &mut Outgoing<'_>,
    ) -> Report
        requires roomy { is_roomy (state_of P.Pool.state self.old queues.old) ≡ true }
        ensures moves_the_pool_as_reported { PoolMoved P.Pool None (Answer.Step (Ok result)) self.old.trunk.pool self.new.trunk.pool }
        ensures a_call_or_503 { Did (state_of P.Pool.state self.old queues.old) (λ ch. calls_out invite.entry.transaction invite.entry.dialogue invite.entry.digits.octets.now ch.place ch.pick) (Answer.Step (Ok result)) (state_of P.Pool.state self.new queues.new) }
    {
        let Some(place) = self.table.free() else {
            return respond(&mut queues.sip, invite.transaction, SERVICE_UNAVAILABLE);
        };
        match self.trunk.seize_any() {
            None => respond(&mut queues.sip, invite.transaction, SERVICE_UNAVAILABLE),
            Some(token) => {
                let effect = invited(invite, token.channel());
                self.apply(queues, place, effect, Some(token))
            }
        }
    }
}
