//! Messages and timers of the exchange.
ghost use Rattle.std.specs.Prelude.{◌≡◌, None};
ghost use Rattle.calls.specs.Effects.{on_type, on_expiry};
ghost use Rattle.calls.specs.Rules.{seek, by_reference, at, at_call, turned_away, busy_cause};
ghost use Rattle.reader.specs.Seen.{seen_record};
ghost use Rattle.decisions.specs.Outcomes.{outcome_of, wants_another};

use crate::outcome::Outcome;
use call_table::{Key, Table};
use calls::{Call, Found, Timer};
use causes::{CHANNEL_UNAVAILABLE, INVALID_CALL_REFERENCE, NO_CHANNEL_AVAILABLE};
use effects::rejection;
use exchange_rules::{asks_for_another, on_expiry, on_type};
use messages::{CallReference, Channel, Message, MessageType, Part};
use queues::few::Few;
use refusals::Ground;

/// A message at the call that it found, where it asks for no other channel.
pub fn at_its_call(full: usize, message: Message<Part<'_>>, found: Found) -> Result<Outcome, Ground>
    ensures by_type_and_state { outcome_of result ≡ at found.place (on_type full None (seen_record message.entry) found.call message.entry.kind) }
{
    let effect = on_type(full, None, message, found.call)?;
    Ok(Outcome::at(found, effect))
}

/// Whether a message asks for another channel for the gateway's own SETUP.
pub fn wants_another(message: Message<Part<'_>>, call: Call) -> bool
    ensures setup_refused_for_its_channel { result ≡ wants_another (seen_record message.entry) call }
{
    message.kind == MessageType::ReleaseComplete
        && asks_for_another(call.exchange, message.elements.cause)
}

/// A message other than SETUP that found no call.
pub fn turned_away(message: Message<Part<'_>>) -> Result<Outcome, Ground>
    ensures answered_unless_release_complete { outcome_of result ≡ turned_away (seen_record message.entry) message.entry.kind }
{
    if message.kind == MessageType::ReleaseComplete {
        return Err(Ground::NoSuchCall);
    }
    Ok(Outcome::Reply {
        exchange: Few::One(rejection(message.reference, INVALID_CALL_REFERENCE)),
        sip: Few::Zero,
    })
}

/// The cause where the wish for a channel gets none.
pub fn busy_cause(wish: Option<Channel>) -> u8
    ensures by_the_wish { result ≡ busy_cause wish }
{
    match wish {
        Some(wish) if wish.exclusive => CHANNEL_UNAVAILABLE,
        _ => NO_CHANNEL_AVAILABLE,
    }
}

/// The expiry of a timer of the exchange side, by the reference as the exchange sends it.
pub fn on_expiry_of(
    table: &Table,
    timer: Timer,
    reference: CallReference,
) -> Result<Outcome, Ground>
    ensures at_the_call_that_the_exchange_means { outcome_of result ≡ at_call (on_expiry timer) (seek (by_reference reference) table.now.places) }
{
    let found = table
        .find(Key::Reference(reference))
        .ok_or(Ground::NoSuchCall)?;
    let effect = on_expiry(timer, found.call)?;
    Ok(Outcome::at(found, effect))
}
