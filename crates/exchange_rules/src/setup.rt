//! The call that a SETUP makes.
ghost use Rattle.std.specs.Prelude.{◌≡◌, length};
ghost use Rattle.calls.specs.Effects.{called_digits, setup_call, is_whole, begins_proceeding, begins_collecting, begins};
ghost use Rattle.reader.specs.Seen.{seen_record};
ghost use Rattle.effects.specs.Moves.{effect_of};

use crate::dialled::called_digits;
use calls::{Call, ExchangeSide, Origin, SipMessage, SipSide, Told};
use digits::{Dialled, recorded};
use effects::{Effect, answer_to_setup, made};
use messages::{Message, MessageType, Part};
use queues::few::Few;

/// A SETUP with at most 20 digits.
#[derive(Clone, Copy)]
pub struct DialledSetup<'a> {
    pub message: Message<Part<'a>>,
    pub digits: Dialled<'a>,
    ghost as_called: { digits.octets.now ≡ called_digits (seen_record message) },
}

impl<'a> DialledSetup<'a> {
    ghost use Rattle.exchange_rules.specs.Dialling.{Dials};

    /// This SETUP, unless it has too many digits; a whole number without digits is turned away too.
    pub fn new(message: Message<Part<'a>>) -> Option<DialledSetup<'a>>
        ensures as_it_came_unless_misdialled { Dials message.entry result }
    {
        let digits = Dialled::new(called_digits(message))?;
        if message.elements.complete && digits.octets.is_empty() {
            return None;
        }
        Some(DialledSetup { message, digits })
    }

    /// Whether the number is whole: the sender says so, or there are as many digits as a full number has.
    fn is_whole(self, full: usize) -> bool
        ensures said_or_counted { result ≡ is_whole full self.entry.message.elements.complete (length (called_digits (seen_record self.entry.message))) }
    {
        self.message.elements.complete || full <= self.digits.octets.len()
    }
}

/// The call that a SETUP makes: with the next number, on a channel that was seized for it.
#[derive(Clone, Copy)]
struct NewCall<'a> {
    setup: DialledSetup<'a>,
    number: u64,
    channel: u8,
}

impl NewCall<'_> {
    /// The call where its sides stand so.
    fn standing(self, exchange: ExchangeSide, sip: SipSide) -> Call
        ensures with_the_digits_of_the_setup { result ≡ setup_call (seen_record self.entry.setup.message) self.entry.number self.entry.channel exchange sip }
    {
        Call {
            reference: self.setup.message.reference,
            channel: self.channel,
            origin: Origin::Exchange {
                number: self.number,
            },
            digits: recorded(self.setup.digits),
            exchange,
            sip,
        }
    }

    /// The number is whole: CALL PROCEEDING to the exchange, INVITE to SIP.
    fn proceeds(self) -> Effect
        ensures proceeding_and_invite { effect_of result ≡ begins_proceeding (seen_record self.entry.setup.message) self.entry.number self.entry.channel }
    {
        let told = Told::default();
        let call = self.standing(ExchangeSide::Proceeding, SipSide::InviteSent { told });
        let answer = answer_to_setup(MessageType::CallProceeding, call.reference, call.channel);
        let invite = SipMessage::Invite {
            number: self.number,
            digits: call.digits,
        };
        made(call, answer, Few::One(invite), true)
    }

    /// More digits are awaited: SETUP ACKNOWLEDGE to the exchange.
    fn collects(self) -> Effect
        ensures acknowledged { effect_of result ≡ begins_collecting (seen_record self.entry.setup.message) self.entry.number self.entry.channel }
    {
        let call = self.standing(ExchangeSide::Collecting, SipSide::None);
        let answer = answer_to_setup(MessageType::SetupAcknowledge, call.reference, call.channel);
        made(call, answer, Few::Zero, true)
    }
}

/// A new call from the exchange, with the next number, on a channel that was seized for it.
pub fn begins(full: usize, setup: DialledSetup<'_>, number: u64, channel: u8) -> Effect
    ensures proceeding_or_collecting { effect_of result ≡ begins full (seen_record setup.entry.message) number channel }
{
    let call = NewCall {
        setup,
        number,
        channel,
    };
    if setup.is_whole(full) {
        call.proceeds()
    } else {
        call.collects()
    }
}
