//! The two halves of a step, and both together.
ghost use Rattle.std.specs.Prelude.{◌≡◌};
ghost use Rattle.calls.specs.Effects.{unless_gone, redialled, moved, made};
ghost use Rattle.queues.specs.Few.{few_items};
ghost use Rattle.effects.specs.Moves.{effect_of, exchange_move_of, sip_move_of};

use call_states::{is_gone, timer_of};
use calls::{Call, Digits, ExchangeSide, Report, SipMessage, SipSide, Timer};
use messages::{CallReference, Message};
use queues::few::Few;

/// The exchange side's part of a step.
#[derive(Clone, Copy, PartialEq, Eq, Debug)]
pub struct ExchangeMove {
    pub side: ExchangeSide,
    pub reference: CallReference,
    pub channel: u8,
    pub seized: Option<u8>,
    pub released: Option<u8>,
    pub timer: Option<Timer>,
    pub sent: Few<Message<Digits>>,
}

/// The SIP side's part of a step; `cancelling` says that the timer of a CANCEL starts.
#[derive(Clone, Copy, PartialEq, Eq, Debug)]
pub struct SipMove {
    pub side: SipSide,
    pub cancelling: bool,
    pub sent: Few<SipMessage>,
}

/// What a step does to one call, what it reports and sends, and whether it uses up a number.
#[derive(Clone, Copy, PartialEq, Eq, Debug)]
pub struct Effect {
    pub after: Option<Call>,
    pub report: Report,
    pub exchange: Few<Message<Digits>>,
    pub sip: Few<SipMessage>,
    pub numbered: bool,
}

/// A call that is over on both sides is none.
fn unless_gone(call: Call) -> Option<Call>
    ensures none_where_both_sides_are_over { result ≡ unless_gone call }
{
    (!is_gone(call)).then_some(call)
}

/// Both sides of a call move, and its digits become these.
pub fn redialled(call: Call, digits: Digits, a: ExchangeMove, b: SipMove) -> Effect
    ensures both_moves_and_the_digits { effect_of result ≡ redialled call digits (exchange_move_of a) (sip_move_of b) }
{
    Effect {
        after: unless_gone(Call {
            reference: a.reference,
            channel: a.channel,
            origin: call.origin,
            digits,
            exchange: a.side,
            sip: b.side,
        }),
        report: Report {
            seized: a.seized,
            released: a.released,
            timer: a.timer,
            cancelling: b.cancelling,
        },
        exchange: a.sent,
        sip: b.sent,
        numbered: false,
    }
}

/// Both sides of a call move.
pub fn moved(call: Call, a: ExchangeMove, b: SipMove) -> Effect
    ensures both_moves { effect_of result ≡ moved call (exchange_move_of a) (sip_move_of b) }
{
    redialled(call, call.digits, a, b)
}

/// A new call begins: its channel is seized, and its first message goes to the exchange.
pub fn made(call: Call, first: Message<Digits>, sip: Few<SipMessage>, numbered: bool) -> Effect
    ensures new_call_on_its_channel { effect_of result ≡ made call first (few_items sip) numbered }
{
    Effect {
        after: Some(call),
        report: Report {
            seized: Some(call.channel),
            released: None,
            timer: timer_of(call.exchange),
            cancelling: false,
        },
        exchange: Few::One(first),
        sip,
        numbered,
    }
}
