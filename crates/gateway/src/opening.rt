//! Opening a gateway, and what is asked of it.
ghost use Rattle.std.specs.Prelude.{◌≡◌, true, false, replicate, IfOk, Some, None, MatchResult, slice_index_or};
ghost use Rattle.refusals.specs.declared.Ground.TheVariants.{SettingOutOfRange};
ghost use Rattle.gateway.specs.Stands.{InRange, Begins};

use crate::gateway::Gateway;
use call_table::{Table, Trunk};
use calls::Call;
use pools::Pool;
use refusals::Ground;

impl<P: Pool> Gateway<P> {
    /// A gateway without calls over a pool, or ground 11.
    pub fn open(full: usize, first: u64, pool: P) -> Result<Gateway<P>, Ground>
    where
        P: Drop,
        ensures granted_exactly_in_range { MatchResult result (λ _. InRange full first) (λ e. (InRange full first → ⊥) × (e ≡ SettingOutOfRange)) }
        ensures opens_without_calls { IfOk result (λ g. g.table.places ≡ replicate 64 None) }
        ensures over_that_pool { IfOk result (λ g. g.trunk.pool ≡ pool) }
        ensures with_the_settings { IfOk result (λ g. (g.next ≡ Some first) × (g.full ≡ full)) }
        ensures history_begins_empty { IfOk result (λ g. Begins P.Pool.state g) }
    {
        if !(1..=20).contains(&full) || first < 1 {
            return Err(Ground::SettingOutOfRange);
        }
        Ok(Gateway {
            full,
            next: Some(first),
            table: Table::new(),
            trunk: Trunk::new(pool),
        })
    }

    /// The largest channel number of the pool's kind.
    pub fn largest_channel(&self) -> u8
        ensures answers_the_largest_of_the_kind { result ≡ P.Pool.LARGEST }
    {
        self.trunk.largest()
    }

    /// The call at a place of the table; a place from 64 on has none.
    pub fn call_at(&self, place: usize) -> Option<Call>
        ensures answers_the_call_there { result ≡ slice_index_or self.now.table.places place None }
    {
        self.table.call_at(place)
    }
}
