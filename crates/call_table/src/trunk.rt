ghost use Rattle.std.specs.Prelude.{◌≡◌, ℕ, Some, None, MatchBool, MatchOption};
ghost use Rattle.pools.specs.States.{idle, seized, after_any, after_release, AnyWasIdle};
ghost use Rattle.call_table.specs.Tokens.{token_channel, granted_channel};
ghost use Rattle.call_table.specs.Wishes.{WishGets, WasIdle};
ghost use Rattle.call_table.specs.Moves.{Took, GaveBack};

use crate::token::Token;
use messages::Channel;
use pools::Pool;

/// A pool whose seizures are tokens.
#[derive(Drop)]
pub struct Trunk<P: Pool> {
    pool: P,
}

impl<P: Pool> Trunk<P> {
    /// A trunk over a pool.
    pub fn new(pool: P) -> Trunk<P>
        ensures holds_the_pool { result.pool ≡ pool }
    {
        Trunk { pool }
    }

    /// The largest channel number of the pool's kind.
    pub fn largest(&self) -> u8
        ensures answers_that_of_the_kind { result ≡ P.Pool.LARGEST }
    {
        P::LARGEST
    }

    /// Is channel `c` known and idle?
    pub fn is_idle(&self, c: u8) -> bool
        ensures yes_exactly_if_idle { result ≡ idle (P.Pool.state self.now.pool c) }
    {
        self.pool.is_idle(c)
    }

    /// A token of channel `c`, if it is idle.
    pub fn seize(&mut self, c: u8) -> Option<Token>
        ensures granted_exactly_if_idle { token_channel result ≡ granted_channel (idle (P.Pool.state self.old.pool c)) c }
        ensures grant_seizes_it_alone { (k : ℕ) → P.Pool.state self.new.pool k ≡ after_any (token_channel result) (P.Pool.state self.old.pool) k }
        ensures moves_the_pool { P.Pool.Seizes self.old.pool c (idle (P.Pool.state self.old.pool c)) self.new.pool }
        ensures refusal_leaves_the_pool { MatchOption result (self.new.pool ≡ self.old.pool) (λ _. Unit {0}) }
    {
        self.pool.seize(c).then(|| Token { channel: c })
    }

    /// A token of an idle channel of the pool's choice, if one is idle.
    pub fn seize_any(&mut self) -> Option<Token>
        ensures granted_exactly_if_one_is_idle { AnyWasIdle (token_channel result) (P.Pool.state self.old.pool) }
        ensures grant_seizes_it_alone { (k : ℕ) → P.Pool.state self.new.pool k ≡ after_any (token_channel result) (P.Pool.state self.old.pool) k }
        ensures moves_the_pool { Took P.Pool.Seizes P.Pool.SeizesAny None self.old.pool (token_channel result) self.new.pool }
    {
        self.pool.seize_any().map(|channel| Token { channel })
    }

    /// A token of the wished channel if it is idle; else, where it is only preferred, of any idle one.
    pub fn seize_wished(&mut self, wish: Channel) -> Option<Token>
        ensures the_wished_or_any_or_none { WishGets (idle (P.Pool.state self.old.pool wish.number)) wish.exclusive wish.number (P.Pool.state self.old.pool) (token_channel result) }
        ensures what_is_granted_was_idle { WasIdle (token_channel result) (P.Pool.state self.old.pool) }
        ensures grant_seizes_it_alone { (k : ℕ) → P.Pool.state self.new.pool k ≡ after_any (token_channel result) (P.Pool.state self.old.pool) k }
        ensures moves_the_pool { Took P.Pool.Seizes P.Pool.SeizesAny (Some wish) self.old.pool (token_channel result) self.new.pool }
    {
        if wish.exclusive || self.is_idle(wish.number) {
            self.seize(wish.number)
        } else {
            self.seize_any()
        }
    }

    /// Takes a token back; its channel is idle again. Says whether the pool had it as seized, as it has the channel of
    /// every token of its own.
    pub fn release(&mut self, token: Token) -> bool
        ensures granted_exactly_if_seized { result ≡ seized (P.Pool.state self.old.pool token.channel) }
        ensures grant_frees_it_alone { (k : ℕ) → P.Pool.state self.new.pool k ≡ after_release (seized (P.Pool.state self.old.pool token.channel)) token.channel (P.Pool.state self.old.pool) k }
        ensures moves_the_pool { GaveBack P.Pool.state P.Pool.Releases self.old.pool (Some token.channel) self.new.pool }
        ensures refusal_leaves_the_pool { MatchBool result (Unit {0}) (self.new.pool ≡ self.old.pool) }
    {
        let Token { channel } = token;
        self.pool.release(channel)
    }
}
