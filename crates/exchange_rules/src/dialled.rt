//! The digits of a call that a SETUP made. The call and its new digits stay two parameters, as the rules name them apart: a step
//! moves the call as it stood.
ghost use Rattle.std.specs.Prelude.{◌≡◌, ◌++◌};
ghost use Rattle.calls.specs.Effects.{proceeds, spurns, awaits, dials, collects, record_of, meant, called_digits};
ghost use Rattle.reader.specs.Seen.{seen_record};
ghost use Rattle.effects.specs.Moves.{effect_of};

use calls::{Call, Digits, ExchangeSide};
use causes::INVALID_NUMBER_FORMAT;
use digits::joined;
use effects::{Effect, clears_exchange, enters, invites, keeps, own_cause, redialled, tell};
use messages::{Message, MessageType, Part};
use queues::few::Few;

/// The number is whole: CALL PROCEEDING to the exchange, INVITE to SIP.
pub fn proceeds(call: Call, digits: Digits) -> Effect
    ensures proceeding_and_invite { effect_of result ≡ proceeds call digits }
{
    let told = tell(MessageType::CallProceeding, call);
    redialled(
        call,
        digits,
        enters(call, ExchangeSide::Proceeding, Few::One(told)),
        invites(call.origin, digits),
    )
}

/// The digits cannot be a number: the exchange is cleared.
pub fn spurns(call: Call, digits: Digits) -> Effect
    ensures exchange_cleared { effect_of result ≡ spurns call digits }
{
    redialled(
        call,
        digits,
        clears_exchange(call, own_cause(INVALID_NUMBER_FORMAT)),
        keeps(call),
    )
}

/// More digits are awaited, and the timer starts again.
fn awaits(call: Call, digits: Digits) -> Effect
    ensures timer_again { effect_of result ≡ awaits call digits }
{
    redialled(
        call,
        digits,
        enters(call, ExchangeSide::Collecting, Few::Zero),
        keeps(call),
    )
}

/// The digits so far, not too many: none though the number is whole, a whole number, or more to come.
fn dials(full: usize, complete: bool, call: Call, digits: Digits) -> Effect
    ensures spurned_whole_or_awaited { effect_of result ≡ dials full complete call digits }
{
    if complete && digits.count == 0 {
        spurns(call, digits)
    } else if complete || digits.count >= full {
        proceeds(call, digits)
    } else {
        awaits(call, digits)
    }
}

/// The digits of a message; one without a called number has none.
pub fn called_digits<'a>(message: Message<Part<'a>>) -> &'a [u8]
    ensures digits_of_the_message { result.now ≡ called_digits (seen_record message.entry) }
{
    message.elements.digits.map_or(&[], |part| part.octets)
}

/// INFORMATION: its digits join those of the call.
pub fn collects(full: usize, message: Message<Part<'_>>, call: Call) -> Effect
    ensures digits_joined { effect_of result ≡ collects full message.entry.elements.complete call (record_of (meant call.digits ++ called_digits (seen_record message.entry))) }
{
    match joined(call.digits, called_digits(message)) {
        Some(digits) => dials(full, message.elements.complete, call, digits),
        None => spurns(call, call.digits),
    }
}
