//! A message from the exchange that finds its call.
ghost use Rattle.std.specs.Prelude.{◌≡◌};
ghost use Rattle.calls.specs.Effects.{alerted, advanced, progressed, connected, tries_again, disconnected, ended, released, asks_for_another, completed, on_type};
ghost use Rattle.reader.specs.Seen.{seen_record};
ghost use Rattle.effects.specs.Moves.{effect_of, decision_of};

use crate::dialled::collects;
use crate::moment::{is_unalerted, is_unconnected, only};
use call_states::is_unreleased;
use calls::{Call, ExchangeSide};
use causes::{RINGING, SERVICE_UNAVAILABLE, SESSION_PROGRESS};
use effects::{
    Effect, answers, clears_sip, ends, enters, is_unavailable, keeps, moved, responds, retries,
    status_for, stays, tell,
};
use messages::{Cause, Message, MessageType, Part};
use queues::few::Few;
use refusals::Ground;

/// ALERTING: the called party is alerted.
fn alerted(call: Call) -> Effect
    ensures ringing_on_both_sides { effect_of result ≡ alerted call }
{
    moved(
        call,
        enters(call, ExchangeSide::Ringing, Few::Zero),
        responds(RINGING, call.sip),
    )
}

/// CALL PROCEEDING or CONNECT ACKNOWLEDGE: a state is entered, and nothing is sent.
fn advanced(call: Call, side: ExchangeSide) -> Effect
    ensures nothing_sent { effect_of result ≡ advanced call side }
{
    moved(call, enters(call, side, Few::Zero), keeps(call))
}

/// PROGRESS: the state stays.
fn progressed(call: Call) -> Effect
    ensures session_progress { effect_of result ≡ progressed call }
{
    moved(
        call,
        stays(call, Few::Zero),
        responds(SESSION_PROGRESS, call.sip),
    )
}

/// CONNECT: the called party answered.
fn connected(call: Call) -> Effect
    ensures up_on_both_sides { effect_of result ≡ connected call }
{
    let acknowledge = tell(MessageType::ConnectAcknowledge, call);
    moved(
        call,
        enters(call, ExchangeSide::Up, Few::One(acknowledge)),
        answers(call.sip),
    )
}

/// DISCONNECT: RELEASE goes out, and the channel is held until its end.
fn disconnected(call: Call, status: u16) -> Effect
    ensures release_and_channel_held { effect_of result ≡ disconnected call status }
{
    let release = tell(MessageType::Release, call);
    let releasing = ExchangeSide::ReleaseSent {
        cause: None,
        repeated: false,
    };
    moved(
        call,
        enters(call, releasing, Few::One(release)),
        clears_sip(call, status),
    )
}

/// RELEASE: the exchange side is over. Where the gateway's own RELEASE is out too, nothing is sent.
fn released(call: Call, status: u16) -> Effect
    ensures over_with_the_channel_released { effect_of result ≡ released call status }
{
    if is_unreleased(call.exchange) {
        let complete = tell(MessageType::ReleaseComplete, call);
        moved(
            call,
            ends(call, Few::One(complete)),
            clears_sip(call, status),
        )
    } else {
        moved(call, ends(call, Few::Zero), keeps(call))
    }
}

/// The exchange side is over, and SIP is cleared with this status.
fn ended(call: Call, status: u16) -> Effect
    ensures over_and_sip_cleared { effect_of result ≡ ended call status }
{
    moved(call, ends(call, Few::Zero), clears_sip(call, status))
}

/// The channel is not available: another is tried, if one was idle.
pub fn tries_again(pick: Option<u8>, call: Call) -> Effect
    ensures another_channel_or_none { effect_of result ≡ tries_again pick call }
{
    match pick {
        Some(channel) => moved(call, retries(call, channel), keeps(call)),
        None => ended(call, SERVICE_UNAVAILABLE),
    }
}

/// Whether a RELEASE COMPLETE with this cause asks for another channel.
pub fn asks_for_another(side: ExchangeSide, cause: Option<Cause>) -> bool
    ensures setup_refused_for_its_channel { result ≡ asks_for_another side cause }
{
    side == ExchangeSide::SetupSent && is_unavailable(cause)
}

/// RELEASE COMPLETE: the exchange side is over, unless another channel is tried.
fn completed(pick: Option<u8>, cause: Option<Cause>, call: Call) -> Effect
    ensures over_or_tried_again { effect_of result ≡ completed pick cause call }
{
    if asks_for_another(call.exchange, cause) {
        tries_again(pick, call)
    } else {
        ended(call, status_for(cause))
    }
}

/// A message of each type; `full` is the length of a full number, `pick` an idle channel if there is one.
pub fn on_type(
    full: usize,
    pick: Option<u8>,
    message: Message<Part<'_>>,
    call: Call,
) -> Result<Effect, Ground>
    ensures by_type_and_state { decision_of result ≡ on_type full pick (seen_record message.entry) call message.entry.kind }
{
    let side = call.exchange;
    let cause = message.elements.cause;
    match message.kind {
        MessageType::Alerting => only(is_unalerted(side), alerted(call)),
        MessageType::CallProceeding => {
            let next = ExchangeSide::ProceedingOutwards;
            only(side == ExchangeSide::SetupSent, advanced(call, next))
        }
        MessageType::Progress => only(side == ExchangeSide::ProceedingOutwards, progressed(call)),
        MessageType::Setup => Err(Ground::ReferenceInUse),
        MessageType::Connect => only(is_unconnected(side), connected(call)),
        MessageType::SetupAcknowledge => Err(Ground::NotNow),
        MessageType::ConnectAcknowledge => {
            let next = ExchangeSide::Up;
            only(side == ExchangeSide::ConnectSent, advanced(call, next))
        }
        MessageType::Disconnect => only(is_unreleased(side), disconnected(call, status_for(cause))),
        MessageType::Release => Ok(released(call, status_for(cause))),
        MessageType::ReleaseComplete => Ok(completed(pick, cause, call)),
        MessageType::Information => {
            let effect = collects(full, message, call);
            only(side == ExchangeSide::Collecting, effect)
        }
    }
}
