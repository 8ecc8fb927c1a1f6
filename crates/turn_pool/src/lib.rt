//! The pool of a listed set of channels that take turns: it takes the channel that is idle longest.
#![tactic(auto)]

mod listing;
mod moves;
mod turns;

ghost use Rattle.std.specs.Prelude.{◌≡◌, [], IfOk, MatchResult};
ghost use Rattle.refusals.specs.declared.Ground.TheVariants.{SettingOutOfRange};
ghost use Rattle.turn_pool.specs.Listing.{Fits};
ghost use Rattle.turn_pool.specs.Turns.{idle_order, seized_ones, states, Seizes, SeizesAny, Releases};
ghost use Rattle.std.proofs.Common.{rules, arith};

use crate::listing::is_turn_list;
use crate::moves::{move_first, place_of};
use arrayvec::ArrayVec;
use pools::Pool;
use refusals::Ground;
pub use turns::TurnPool;

impl TurnPool {
    /// The pool of the channels of a list, all idle and waiting in list order.
    pub fn new(list: &[u8]) -> Result<TurnPool, Ground>
        ensures granted_exactly_if_the_list_fits { MatchResult result (λ _. Fits list.now) (λ e. (Fits list.now → ⊥) × (e ≡ SettingOutOfRange)) }
        ensures begins_idle_in_list_order { IfOk result (λ p. (idle_order p ≡ list.now) × (seized_ones p ≡ [])) }
    {
        if is_turn_list(list) {
            Ok(TurnPool {
                // There is room: a list that passes has at most 64 channels.
                idle: ArrayVec::try_from(list).unwrap(),
                seized: ArrayVec::new(),
            })
        } else {
            Err(Ground::SettingOutOfRange)
        }
    }
}

impl Pool for TurnPool {
    const LARGEST: u8 = 127;

    ghost LARGEST = { 127 };

    ghost state = { states };

    ghost Seizes = { Seizes };

    ghost SeizesAny = { SeizesAny };

    ghost Releases = { Releases };

    ghost zero_unknown = { Prim.search rules };

    ghost known_within_largest = { Prim.search rules };

    ghost largest_within_127 = { Prim.search rules };

    #[tactic(auto, using(crate::proofs::Counts::times_any))]
    fn is_idle(&self, c: u8) -> bool {
        self.idle.contains(&c)
    }

    fn seize(&mut self, c: u8) -> bool {
        let Some(place) = place_of(&self.idle, c) else {
            return false;
        };
        move_first(&mut self.idle, &mut self.seized, place, c);
        true
    }

    fn seize_any(&mut self) -> Option<u8> {
        let c = *self.idle.first()?;
        self.seize(c);
        Some(c)
    }

    fn release(&mut self, c: u8) -> bool {
        let Some(place) = place_of(&self.seized, c) else {
            return false;
        };
        move_first(&mut self.seized, &mut self.idle, place, c);
        true
    }
}
