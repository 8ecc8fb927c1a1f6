//! What a queue does, by the list of the messages that wait.
ghost use Rattle.std.specs.Prelude.{◌≡◌, ◌<◌, ◌≤◌, [], ◌∷◌, ◌++◌, length, MatchBool, MatchOption, MatchResult, nat_le};
ghost use Rattle.queues.specs.Few.{few_items};
ghost use Rattle.queues.specs.Waiting.{waiting, room, free, Accepted, HandedBack, FewAccepted, FewHandedBack, OldestLeft, NothingTaken};

use super::places::{place_after, place_behind};
use super::{Lane, Queue, Refused};
use crate::few::Few;
use refusals::Ground;

impl<'a, M: Drop> Queue<'a, M> {
    /// A queue in which nothing waits, whatever the places held.
    pub fn new(places: &'a mut [Option<M>]) -> Queue<'a, M>
        ensures nothing_waits { waiting result ≡ [] }
        ensures room_of_the_places { room result ≡ length places.old }
    {
        let lane = Lane { places };
        Queue {
            lane,
            first: 0,
            len: 0,
        }
    }

    /// How many more messages find a place.
    pub fn free_places(&self) -> usize
        ensures places_not_taken { result ≡ free self.now }
    {
        self.lane.count() - self.len
    }

    /// Whether nothing waits.
    pub fn is_empty(&self) -> bool
        ensures yes_exactly_if_nothing_waits { MatchBool result (waiting self.now ≡ []) (waiting self.now ≡ [] → ⊥) }
    {
        self.len == 0
    }

    /// Whether `n` more messages find a place.
    pub fn has_room(&self, n: usize) -> bool
        ensures enough_places { result ≡ nat_le n (free self.now) }
    {
        n <= self.free_places()
    }

    /// Lets `message` wait behind the others, or hands it back where all places are taken.
    pub fn put(&mut self, message: M) -> Result<(), Refused<M>>
        ensures room_stays { room self.new ≡ room self.old }
        ensures waits_last_or_comes_back { MatchResult result (λ _. Accepted self.old self.new message) (λ back. HandedBack self.old self.new message back) }
    {
        if self.free_places() == 0 {
            return Err(Refused {
                ground: Ground::QueueFull,
                message,
            });
        }
        self.add(message);
        Ok(())
    }

    /// Lets a few messages wait behind the others, in their order, or hands all of them back where not all find a place.
    pub fn put_few(&mut self, few: Few<M>) -> Result<(), Refused<Few<M>>>
        ensures room_stays { room self.new ≡ room self.old }
        ensures wait_last_or_come_back { MatchResult result (λ _. FewAccepted self.old self.new few) (λ back. FewHandedBack self.old self.new few back) }
    {
        if !self.has_room(few.count()) {
            return Err(Refused {
                ground: Ground::QueueFull,
                message: few,
            });
        }
        self.add_few(few);
        Ok(())
    }

    // Lets `message` wait behind the others, where a place is free.
    #[tactic(auto, using(crate::proofs::Rings::waits_last))]
    fn add(&mut self, message: M)
        requires { 0 < free self.old }
        ensures room_stays { room self.new ≡ room self.old }
        ensures waits_last { waiting self.new ≡ waiting self.old ++ message ∷ [] }
    {
        let at = place_behind(self.first, self.len, self.lane.count());
        self.lane.put_at(at, message);
        self.len += 1;
    }

    // Lets a few messages wait behind the others, in their order, where as many places are free.
    fn add_few(&mut self, few: Few<M>)
        requires { length (few_items few) ≤ free self.old }
        ensures room_stays { room self.new ≡ room self.old }
        ensures wait_last { waiting self.new ≡ waiting self.old ++ few_items few }
    {
        match few {
            Few::Zero => {}
            Few::One(a) => self.add(a),
            Few::Two(a, b) => {
                self.add(a);
                self.add(b);
            }
        }
    }

    /// Takes the oldest message out, or answers none where nothing waits.
    pub fn take(&mut self) -> Option<M>
        ensures room_stays { room self.new ≡ room self.old }
        ensures oldest_leaves { MatchOption result (NothingTaken self.old self.new) (λ m. OldestLeft self.old self.new m) }
    {
        if self.is_empty() {
            None
        } else {
            self.take_oldest()
        }
    }

    #[tactic(auto, using(crate::proofs::Rings::oldest_leaves))]
    fn take_oldest(&mut self) -> Option<M>
        requires { 0 < length (waiting self.old) }
        ensures room_stays { room self.new ≡ room self.old }
        ensures oldest_leaves { MatchOption result ⊥ (λ m. OldestLeft self.old self.new m) }
    {
        let at = self.first;
        let message = self.lane.take_at(at);
        self.first = place_after(at, self.lane.count());
        self.len -= 1;
        message
    }
}
