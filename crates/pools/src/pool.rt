ghost use Rattle.std.specs.Prelude.{◌≡◌, ℕ, ◌≤◌, Bool, true, false, Option, MatchBool, MatchOption};
ghost use Rattle.pools.specs.States.{States, known, idle, seized, after_seize, after_release, after_any, AnyWasIdle};

/// A pool of channels. Its meaning is the state of each channel number. Each kind of pool chooses for itself which idle
/// channel `seize_any` takes, and has its own moves, which say what of the pool that choice goes by and what becomes of it.
pub trait Pool {
    /// The largest channel number of this kind of pool: at most 127, and no channel above it is known.
    const LARGEST: u8;

    // that number, for clauses
    ghost LARGEST: { ℕ };

    // the state of each number in a pool
    ghost state: { Self → States };

    // the moves of this kind: a pool before, the order and what it granted, the pool after
    ghost Seizes: { Self → ℕ → Bool → Self → Type 0 };

    ghost SeizesAny: { Self → Option ℕ → Self → Type 0 };

    ghost Releases: { Self → ℕ → Bool → Self → Type 0 };

    /// Is channel `c` known and idle?
    fn is_idle(&self, c: u8) -> bool
        ensures yes_exactly_if_idle { result ≡ idle (state self.now c) };

    /// Seizes channel `c`, if it is idle.
    fn seize(&mut self, c: u8) -> bool
        ensures granted_exactly_if_idle { result ≡ idle (state self.old c) }
        ensures grant_seizes_it_alone { (k : ℕ) → state self.new k ≡ after_seize result c (state self.old) k }
        ensures moves_as_its_kind { Seizes self.old c result self.new }
        ensures refusal_leaves_it { MatchBool result (Unit {0}) (self.new ≡ self.old) };

    /// Seizes an idle channel of the pool's own choice, if one is idle.
    fn seize_any(&mut self) -> Option<u8>
        ensures granted_exactly_if_one_is_idle { AnyWasIdle result (state self.old) }
        ensures grant_seizes_it_alone { (k : ℕ) → state self.new k ≡ after_any result (state self.old) k }
        ensures moves_as_its_kind { SeizesAny self.old result self.new }
        ensures refusal_leaves_it { MatchOption result (self.new ≡ self.old) (λ _. Unit {0}) };

    /// Releases channel `c`, if it is seized.
    fn release(&mut self, c: u8) -> bool
        ensures granted_exactly_if_seized { result ≡ seized (state self.old c) }
        ensures grant_frees_it_alone { (k : ℕ) → state self.new k ≡ after_release result c (state self.old) k }
        ensures moves_as_its_kind { Releases self.old c result self.new }
        ensures refusal_leaves_it { MatchBool result (Unit {0}) (self.new ≡ self.old) };

    ghost zero_unknown: { (p : Self) → known (state p 0) ≡ false };

    ghost known_within_largest: { (p : Self) (k : ℕ) → known (state p k) ≡ true → k ≤ LARGEST };

    ghost largest_within_127: { LARGEST ≤ 127 };
}
