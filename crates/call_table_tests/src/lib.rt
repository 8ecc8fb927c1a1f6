//! How a token goes from a trunk into a call of the table and back, over any kind of pool; and examples of it, run as tests.
// Trunk and table, and the two parts of a wish, stay parameters: a struct round them would be one that only these tests know.
#![tactic(auto)]

ghost use Rattle.std.specs.Prelude.{◌≡◌, ℕ, Some, None, slice_set};
ghost use Rattle.pools.specs.States.{idle, after_any};
ghost use Rattle.calls.specs.Rules.{seek};
ghost use Rattle.call_table.specs.Keys.{keyed};
ghost use Rattle.call_table.specs.Records.{held, is_free};
ghost use Rattle.call_table.specs.Moves.{GaveBack};
ghost use Rattle.call_table_tests.specs.Stays.{call_on, wish_of, Occupies, TookAndKept, after_occupying, after_vacating, channel_found, after_ending};

use call_table::{Key, Table, Token, Trunk};
use calls::{Call, Digits, ExchangeSide, Origin, SipSide};
use messages::{CallReference, Channel};
use pools::Pool;

#[cfg(test)]
mod tests;

/// A call from the exchange on a channel; its digits are awaited.
pub fn call_on(channel: u8) -> Call
    ensures collects_on_that_channel { result ≡ call_on channel }
{
    Call {
        reference: CallReference {
            flag: false,
            number: 1,
        },
        channel,
        origin: Origin::Exchange { number: 1 },
        digits: Digits {
            octets: [0; 20],
            count: 0,
        },
        exchange: ExchangeSide::Collecting,
        sip: SipSide::None,
    }
}

/// Seizes by a wish and enters a call on that channel at a place; where the place is not free, the channel is released again.
pub fn occupy<P: Pool>(
    trunk: &mut Trunk<P>,
    table: &mut Table,
    place: usize,
    wished: u8,
    exclusive: bool,
) -> Option<u8>
    ensures by_the_wish_if_the_place_is_free { Occupies (is_free table.old.places place) (idle (P.Pool.state trunk.old.pool wished)) exclusive wished (P.Pool.state trunk.old.pool) result }
    ensures enters_it_there_alone { table.new.places ≡ after_occupying result table.old.places place }
    ensures seizes_it_alone { (k : ℕ) → P.Pool.state trunk.new.pool k ≡ after_any result (P.Pool.state trunk.old.pool) k }
    ensures moves_the_pool { TookAndKept P.Pool.state P.Pool.Seizes P.Pool.SeizesAny P.Pool.Releases (is_free table.old.places place) (wish_of wished exclusive) trunk.old.pool result trunk.new.pool }
{
    let wish = Channel {
        number: wished,
        exclusive,
    };
    let token = trunk.seize_wished(wish)?;
    let channel = token.channel();
    match table.enter(place, call_on(channel), token) {
        Ok(()) => Some(channel),
        Err(token) => {
            let _ = trunk.release(token);
            None
        }
    }
}

/// Releases the channel of a token, and answers its number.
fn released<P: Pool>(trunk: &mut Trunk<P>, token: Token) -> u8
    ensures answers_its_channel { result ≡ token.channel }
    ensures releases_it_alone { (k : ℕ) → P.Pool.state trunk.new.pool k ≡ after_vacating (Some token.channel) (P.Pool.state trunk.old.pool) k }
    ensures moves_the_pool { GaveBack P.Pool.state P.Pool.Releases trunk.old.pool (Some token.channel) trunk.new.pool }
{
    let channel = token.channel();
    let _ = trunk.release(token);
    channel
}

/// Removes the call at a place and releases the channel that it holds.
pub fn vacate<P: Pool>(trunk: &mut Trunk<P>, table: &mut Table, place: usize) -> Option<u8>
    ensures answers_the_channel_held { result ≡ held table.old.places place }
    ensures frees_that_place_alone { table.new.places ≡ slice_set table.old.places place None }
    ensures releases_it_alone { (k : ℕ) → P.Pool.state trunk.new.pool k ≡ after_vacating result (P.Pool.state trunk.old.pool) k }
    ensures moves_the_pool { GaveBack P.Pool.state P.Pool.Releases trunk.old.pool result trunk.new.pool }
{
    let token = table.remove(place)?;
    Some(released(trunk, token))
}

/// Ends the exchange side of the call that a key finds, which stays in the table, and releases the channel that it held.
pub fn end_exchange_side<P: Pool>(trunk: &mut Trunk<P>, table: &mut Table, key: Key) -> Option<u8>
    ensures answers_the_channel_it_held { result ≡ channel_found (seek (keyed key) table.old.places) }
    ensures changes_that_call_alone { table.new.places ≡ after_ending (seek (keyed key) table.old.places) table.old.places }
    ensures releases_it_alone { (k : ℕ) → P.Pool.state trunk.new.pool k ≡ after_vacating result (P.Pool.state trunk.old.pool) k }
    ensures moves_the_pool { GaveBack P.Pool.state P.Pool.Releases trunk.old.pool result trunk.new.pool }
{
    let found = table.find(key)?;
    let ended = Call {
        exchange: ExchangeSide::Over,
        ..found.call
    };
    // A side that is over holds no channel, so no token is missing: the change is taken.
    let (Ok(left) | Err(left)) = table.change(found.place, Some(ended), None);
    Some(released(trunk, left?))
}
