//! What a table and its trunk are tried by: steps, played one after the other.
use crate::{call_on, end_exchange_side, occupy, vacate};
use call_table::{Key, Table, Trunk};
use calls::{Call, ExchangeSide, Origin, SipSide};
use messages::CallReference;
use pools::Pool;

/// A telephone call that is entered on a channel of the trunk's choice, with the number of its reference; one from the exchange
/// with its own number behind that.
#[derive(Clone, Copy)]
pub enum Entry {
    FromExchange(u16, u64, ExchangeSide, SipSide),
    ToExchange(u16, ExchangeSide, SipSide),
}

/// One question to the table or the trunk, with what it has to answer. The places come first, and what is answered last.
#[derive(Clone, Copy)]
pub enum Step {
    Largest(u8),
    Idle(u8, bool),
    Free(Option<usize>),
    Holds(usize, Option<u8>),
    Finds(Key, Option<usize>),
    /// Enters a call at the place, on exactly this channel.
    Exactly(usize, u8, Option<u8>),
    /// Enters a call at the place, on this channel or else another.
    Rather(usize, u8, Option<u8>),
    Enter(usize, Entry, bool),
    Vacate(usize, Option<u8>),
    EndExchangeSide(Key, Option<u8>),
}

/// The call of an entry, on that channel.
fn entered_on(channel: u8, entry: Entry) -> Call {
    let (flag, number, origin, exchange, sip) = match entry {
        Entry::FromExchange(reference, number, exchange, sip) => {
            (false, reference, Origin::Exchange { number }, exchange, sip)
        }
        Entry::ToExchange(reference, exchange, sip) => {
            (true, reference, Origin::Sip, exchange, sip)
        }
    };
    Call {
        reference: CallReference { flag, number },
        origin,
        exchange,
        sip,
        ..call_on(channel)
    }
}

/// Enters a call on a channel of the trunk's choice, which is released again where the table does not take the call.
fn enter<P: Pool>(trunk: &mut Trunk<P>, table: &mut Table, place: usize, entry: Entry) -> bool {
    let Some(token) = trunk.seize_any() else {
        return false;
    };
    let call = entered_on(token.channel(), entry);
    match table.enter(place, call, token) {
        Ok(()) => true,
        Err(token) => {
            let _ = trunk.release(token);
            false
        }
    }
}

fn place_of(table: &Table, key: Key) -> Option<usize> {
    Some(table.find(key)?.place)
}

fn goes_as_said<P: Pool>(trunk: &mut Trunk<P>, table: &mut Table, step: Step) -> bool {
    match step {
        Step::Largest(said) => trunk.largest() == said,
        Step::Idle(channel, said) => trunk.is_idle(channel) == said,
        Step::Free(said) => table.free() == said,
        Step::Holds(place, said) => table.holds(place) == said,
        Step::Finds(key, said) => place_of(table, key) == said,
        Step::Exactly(place, wished, said) => occupy(trunk, table, place, wished, true) == said,
        Step::Rather(place, wished, said) => occupy(trunk, table, place, wished, false) == said,
        Step::Enter(place, entry, said) => enter(trunk, table, place, entry) == said,
        Step::Vacate(place, said) => vacate(trunk, table, place) == said,
        Step::EndExchangeSide(key, said) => end_exchange_side(trunk, table, key) == said,
    }
}

/// Plays the steps up to the first that goes otherwise than it says, and answers which of them that is.
pub fn goes_otherwise<P: Pool>(
    trunk: &mut Trunk<P>,
    table: &mut Table,
    steps: &[Step],
) -> Option<usize> {
    for (at, step) in steps.iter().enumerate() {
        if !goes_as_said(trunk, table, *step) {
            return Some(at);
        }
    }
    None
}
