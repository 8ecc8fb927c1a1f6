ghost use Rattle.std.specs.Prelude.{◌≡◌};
ghost use Rattle.call_table.specs.Keys.{keyed};

use call_states::{awaits_response, is_held_by, is_no_sip, is_over, is_unanswered, number_of};
use calls::Call;
use messages::CallReference;

/// What a call is looked for by.
// Stays an enum: with a closure in its place `find` would promise only over every test that agrees with the closure.
#[derive(Clone, Copy, PartialEq, Eq, Debug)]
pub enum Key {
    /// The reference with its flag, as the exchange sends it; a call that is over at the exchange has none that counts.
    Reference(CallReference),
    /// The transaction that an INVITE came with, as long as the gateway owes its final response.
    Transaction(u64),
    /// The dialogue that a call holds.
    Dialogue(u64),
    /// The call's own number, in any state.
    Number(u64),
    /// The call's own number while its SIP side is not over.
    LiveNumber(u64),
    /// The call's own number while it awaits a final response.
    AwaitedNumber(u64),
}

/// Is the call one of those that the key looks for?
pub(crate) fn is_keyed(key: Key, call: Call) -> bool
    ensures yes_exactly_if_it_matches { result ≡ keyed key call }
{
    match key {
        Key::Reference(reference) => !is_over(call.exchange) && call.reference == reference,
        Key::Transaction(transaction) => is_unanswered(transaction, call.sip),
        Key::Dialogue(dialogue) => is_held_by(dialogue, call.sip),
        Key::Number(number) => number_of(call.origin) == Some(number),
        Key::LiveNumber(number) => number_of(call.origin) == Some(number) && !is_no_sip(call.sip),
        Key::AwaitedNumber(number) => number_of(call.origin) == Some(number)
            && awaits_response(call.sip),
    }
}
