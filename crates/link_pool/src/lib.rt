//! The pool of a link: the 30 channels up to 31 but for 16. It takes the highest idle channel.
#![tactic(auto)]

ghost use Rattle.std.specs.Prelude.{◌≡◌, ℕ, true, MatchBool};
ghost use Rattle.pools.specs.States.{known, idle, seized};
ghost use Rattle.pools.specs.declared.channel.ChannelState.TheVariants.{Idle, Seized};
ghost use Rattle.link_pool.specs.Links.{largest, at, same, LinkChannels, all_idle, HighestIdle, Turns, TakesHighest, changed};
ghost use Rattle.std.proofs.Common.{rules, arith};

use pools::{ChannelState, Pool};
use std::array;

#[derive(Drop)]
pub struct LinkPool {
    // by channel number; an array, since the numbers of a link are fixed and a step uses no heap
    channels: [ChannelState; 32],
    ghost link_channels: { LinkChannels channels },
}

// How a channel number of a link begins.
fn first_state(c: usize) -> ChannelState
    ensures idle_exactly_on_the_link { result ≡ all_idle c }
{
    match c {
        1..=15 | 17..=31 => ChannelState::Idle,
        _ => ChannelState::Unknown,
    }
}

// The table of a link with every channel idle.
fn idle_link() -> [ChannelState; 32]
    ensures all_idle { (k : ℕ) → at result k ≡ all_idle k }
{
    array::from_fn(first_state)
}

impl LinkPool {
    /// A link with every channel idle.
    pub fn new() -> LinkPool
        ensures begins_all_idle { (k : ℕ) → at result.channels k ≡ all_idle k }
    {
        LinkPool {
            channels: idle_link(),
        }
    }

    // The state of channel `c`: what lies past the table is unknown.
    fn state_of(&self, c: u8) -> ChannelState
        ensures that_of_the_table { result ≡ at self.now.channels c }
    {
        self.channels
            .get(usize::from(c))
            .copied()
            .unwrap_or(ChannelState::Unknown)
    }

    // The highest idle channel, if one is idle.
    fn highest_idle(&self) -> Option<u8>
        ensures idle_and_none_above { HighestIdle result (at self.now.channels) }
    {
        // half-open: from the back, an inclusive range makes three tests at each number where this makes one
        (1..32).rev().find(|c| self.state_of(*c).is_idle())
    }

    // Turns channel `c` from one known state to another, if it is in the first.
    fn turn(&mut self, c: u8, from: ChannelState, to: ChannelState) -> bool
        requires from_a_known_one { known from ≡ true }
        requires to_a_known_one { known to ≡ true }
        ensures turned_exactly_if_so { result ≡ same from (at self.old.channels c) }
        ensures turns_it_alone { self.new.channels ≡ changed result self.old.channels c to }
        ensures refusal_leaves_it { MatchBool result (Unit {0}) (self.new ≡ self.old) }
    {
        if self.state_of(c) != from {
            return false;
        }
        self.channels[usize::from(c)] = to;
        true
    }
}

impl Pool for LinkPool {
    const LARGEST: u8 = 31;

    ghost LARGEST = { largest };

    ghost state = { λ p. at p.channels };

    ghost Seizes = { λ p c granted q. Turns idle Seized p.channels c granted q.channels };

    ghost SeizesAny = { λ p taken q. TakesHighest p.channels taken q.channels };

    ghost Releases = { λ p c granted q. Turns seized Idle p.channels c granted q.channels };

    ghost zero_unknown = { Prim.search rules };

    ghost known_within_largest = { Prim.search rules };

    ghost largest_within_127 = { Prim.search rules };

    fn is_idle(&self, c: u8) -> bool {
        self.state_of(c).is_idle()
    }

    fn seize(&mut self, c: u8) -> bool {
        self.turn(c, ChannelState::Idle, ChannelState::Seized)
    }

    fn seize_any(&mut self) -> Option<u8> {
        let c = self.highest_idle()?;
        self.channels[usize::from(c)] = ChannelState::Seized;
        Some(c)
    }

    fn release(&mut self, c: u8) -> bool {
        self.turn(c, ChannelState::Seized, ChannelState::Idle)
    }
}
