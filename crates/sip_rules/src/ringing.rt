//! Provisional responses: what the exchange is told of the called party.
ghost use Rattle.std.specs.Prelude.{◌≡◌};
ghost use Rattle.calls.specs.Effects.{rests, announces, tells, provisional};
ghost use Rattle.effects.specs.Moves.{effect_of};

use crate::news::news_of;
use calls::{Call, Digits, News, Response, SipSide, Told};
use effects::{Effect, becomes, keeps, moved, stays, tell_progress};
use messages::{Message, MessageType};
use queues::few::Few;

/// The call is not QSIG from end to end.
const INTERWORKING: u8 = 1;

/// Tones or speech are to be heard in band.
const IN_BAND: u8 = 8;

/// Nothing is sent, and nothing changes.
fn rests(call: Call) -> Effect
    ensures unchanged { effect_of result ≡ rests call }
{
    moved(call, stays(call, Few::Zero), keeps(call))
}

/// Something is told to the exchange, and kept in mind.
fn announces(call: Call, message: Message<Digits>, told: Told) -> Effect
    ensures told_and_kept_in_mind { effect_of result ≡ announces call message told }
{
    moved(
        call,
        stays(call, Few::One(message)),
        becomes(SipSide::InviteSent { told }, Few::Zero),
    )
}

/// The news of a provisional response goes to the exchange, and is kept in mind.
fn tells(call: Call, media: bool, told: Told, news: Option<News>) -> Effect
    ensures told_and_kept_in_mind { effect_of result ≡ tells call media told news }
{
    match news {
        None => rests(call),
        Some(News::Alerting) => announces(
            call,
            tell_progress(MessageType::Alerting, call, media.then_some(IN_BAND)),
            Told {
                alerting: true,
                ..told
            },
        ),
        Some(News::InBand) => announces(
            call,
            tell_progress(MessageType::Progress, call, Some(IN_BAND)),
            Told {
                inband: true,
                ..told
            },
        ),
        Some(News::Interworking) => announces(
            call,
            tell_progress(MessageType::Progress, call, Some(INTERWORKING)),
            Told {
                interworking: true,
                ..told
            },
        ),
    }
}

/// A provisional response; while CANCEL is out it is taken, and nothing is sent.
pub fn provisional(call: Call, response: Response) -> Effect
    ensures told_while_the_invite_is_out { effect_of result ≡ provisional call response.status response.media call.sip }
{
    match call.sip {
        SipSide::InviteSent { told } => tells(call, response.media, told, news_of(response, told)),
        _ => rests(call),
    }
}
