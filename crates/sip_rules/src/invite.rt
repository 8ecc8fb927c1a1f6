//! The call that an INVITE makes.
ghost use Rattle.std.specs.Prelude.{◌≡◌, IfOk};
ghost use Rattle.std.specs.Result.{result_err};
ghost use Rattle.calls.specs.Effects.{invited, invite_call};
ghost use Rattle.calls.specs.Rules.{dialling_status};
ghost use Rattle.effects.specs.Moves.{effect_of};
ghost use Rattle.sip_rules.specs.Dialled.{IsAsItCame};

use calls::{Call, ExchangeSide, Invite, Origin, SipSide};
use causes::{ADDRESS_INCOMPLETE, NOT_FOUND};
use digits::{Dialled, recorded};
use effects::{Effect, made, setup_on};
use messages::{CallReference, all_digits};
use queues::few::Few;

/// An INVITE whose digits make a call, that is one to 20 digits, or the status that answers it.
pub fn dialled(invite: Invite<&[u8]>) -> Result<Invite<Dialled<'_>>, u16>
    ensures none_or_not_a_number { result_err result ≡ dialling_status invite.entry.digits.now }
    ensures as_it_came { IfOk result (λ tested. IsAsItCame invite.entry tested) }
{
    if invite.digits.is_empty() {
        return Err(ADDRESS_INCOMPLETE);
    }
    let digits = Dialled::new(invite.digits)
        .filter(|kept| all_digits(kept.octets))
        .ok_or(NOT_FOUND)?;
    Ok(Invite {
        transaction: invite.transaction,
        dialogue: invite.dialogue,
        digits,
    })
}

fn invite_call(invite: Invite<Dialled<'_>>, channel: u8) -> Call
    ensures unanswered_on_its_channel { result ≡ invite_call invite.entry.transaction invite.entry.dialogue invite.entry.digits.octets.now channel }
{
    Call {
        reference: CallReference {
            flag: true,
            number: u16::from(channel),
        },
        channel,
        origin: Origin::Sip,
        digits: recorded(invite.digits),
        exchange: ExchangeSide::SetupSent,
        sip: SipSide::InviteUnanswered {
            transaction: invite.transaction,
            dialogue: invite.dialogue,
        },
    }
}

/// A new call from SIP: SETUP goes to the exchange on this channel.
pub fn invited(invite: Invite<Dialled<'_>>, channel: u8) -> Effect
    ensures setup_on_the_channel { effect_of result ≡ invited invite.entry.transaction invite.entry.dialogue invite.entry.digits.octets.now channel }
{
    let call = invite_call(invite, channel);
    made(call, setup_on(channel, call.digits), Few::Zero, false)
}
