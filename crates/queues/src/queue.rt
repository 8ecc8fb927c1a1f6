//! A queue over places that the caller lends, and no vector: a step has fixed memory and no heap. What it does is in `methods`.
ghost use Rattle.std.specs.Prelude.{◌≡◌, ◌-◌, ◌<◌, ◌≤◌, length, Some, None, slice_index_or, slice_set};
ghost use Rattle.queues.specs.Ring.{in_ring};

use refusals::Ground;
use std::error::Error;
use std::fmt;

pub mod methods;
mod places;

/// The lent places. Stays apart from the queue's numbers: a struct with an invariant cannot lend a part of itself.
#[derive(Drop)]
pub struct Lane<'a, M> {
    places: &'a mut [Option<M>],
}

impl<'a, M> Lane<'a, M> {
    fn count(&self) -> usize
        ensures number_of_places { result ≡ length self.now.places.now }
    {
        self.places.len()
    }

    // Empties a place.
    fn take_at(&mut self, i: usize) -> Option<M>
        requires { i < length self.old.places.now }
        ensures value { result ≡ slice_index_or self.old.places.now i None }
        ensures after { self.new.places.now ≡ slice_set self.old.places.now i None }
    {
        self.places[i].take()
    }

    // Fills a place.
    fn put_at(&mut self, i: usize, m: M)
    where
        M: Drop,
        requires { i < length self.old.places.now }
        ensures after { self.new.places.now ≡ slice_set self.old.places.now i (Some m) }
    {
        self.places[i] = Some(m);
    }
}

/// Messages in the order in which they came. `len` of them wait, from place `first` on and round the end of the places.
#[derive(Drop)]
pub struct Queue<'a, M> {
    lane: Lane<'a, M>,
    first: usize,
    len: usize,
    ghost few: { len ≤ length lane.places.now },
    ghost inside: { first ≤ length lane.places.now - 1 },
    ghost counted: { length (in_ring lane.places.now first len) ≡ len },
}

/// A message that found no place, handed back with the ground.
#[derive(Clone, Copy, PartialEq, Eq, Debug, Drop)]
pub struct Refused<M> {
    pub ground: Ground,
    pub message: M,
}

// The ground alone: a message need not be printable.
impl<M> fmt::Display for Refused<M> {
    ghost use Rattle.refusals.specs.Grounds.{words_of};

    ghost output = { λ refused. Some (words_of refused.ground) };

    fn fmt<W: fmt::Write>(&self, f: &mut fmt::Formatter<W>) -> fmt::Result {
        write!(f, "{}", self.ground)
    }
}

impl<M: fmt::Debug + Drop> Error for Refused<M> {}
