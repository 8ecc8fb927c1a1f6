//! The one place where effects are applied.
ghost use Rattle.std.specs.Prelude.{◌≡◌, ℕ, true, None, slice_index_or, slice_set};
ghost use Rattle.calls.specs.Rules.{is_roomy, reported, freed, applied};
ghost use Rattle.call_table.specs.Moves.{GaveBack};
ghost use Rattle.call_table.specs.Records.{MayChange, left};
ghost use Rattle.call_table.specs.Tokens.{token_channel};
ghost use Rattle.effects.specs.Moves.{effect_of};
ghost use Rattle.gateway.specs.Stands.{state_of, Ready};

use crate::gateway::Gateway;
use crate::number::following;
use crate::outgoing::Outgoing;
use call_table::{Table, Token, Trunk};
use calls::{Call, Report};
use effects::Effect;
use pools::Pool;

/// A change of one record, which is not refused; the token of a channel that the place no longer holds comes out.
fn change(
    table: &mut Table,
    place: usize,
    after: Option<Call>,
    token: Option<Token>,
) -> Option<Token>
    requires allowed { MayChange table.old.places place after token }
    ensures changes_that_place_alone { table.new.places ≡ slice_set table.old.places place after }
    ensures gives_out_the_channel_left { result ≡ left (slice_index_or table.old.places place None) after token }
{
    match table.change(place, after, token) {
        Ok(left) => left,
        Err(token) => token,
    }
}

/// The channel that a place no longer holds is released.
fn give_back<P: Pool>(trunk: &mut Trunk<P>, left: Option<Token>)
    ensures moves_the_pool { GaveBack P.Pool.state P.Pool.Releases trunk.old.pool (token_channel left) trunk.new.pool }
    ensures released_if_there_is_one { (k : ℕ) → P.Pool.state trunk.new.pool k ≡ freed (token_channel left) (P.Pool.state trunk.old.pool) k }
{
    if let Some(token) = left {
        let _ = trunk.release(token);
    }
}

impl<P: Pool> Gateway<P> {
    /// What a step does, its channel seized already.
    pub(crate) fn apply(
        &mut self,
        queues: &mut Outgoing<'_>,
        place: usize,
        effect: Effect,
        token: Option<Token>,
    ) -> Report
        requires ready { Ready self.old.table.places place effect.after effect.report.released token }
        requires roomy { is_roomy (state_of P.Pool.state self.old queues.old) ≡ true }
        ensures report_of_the_effect { result ≡ reported (effect_of effect) }
        ensures pool_gives_back_what_is_released { GaveBack P.Pool.state P.Pool.Releases self.old.trunk.pool effect.report.released self.new.trunk.pool }
        ensures effect_applied { state_of P.Pool.state self.new queues.new ≡ applied (state_of P.Pool.state self.old queues.old) place (effect_of effect) }
    {
        queues.send(effect.exchange, effect.sip);
        self.next = following(effect.numbered, self.next);
        let left = change(&mut self.table, place, effect.after, token);
        give_back(&mut self.trunk, left);
        effect.report
    }
}
