//! Events from SIP.
ghost use Rattle.std.specs.Prelude.{◌≡◌, true, Ok};
ghost use Rattle.std.specs.Result.{result_err};
ghost use Rattle.calls.specs.Sides.{holds_dialogue};
ghost use Rattle.calls.specs.Effects.{on_cancel_expiry};
ghost use Rattle.calls.specs.Rules.{seek, by_transaction, by_number, by_live_number, at_call, invite_refusal, on_leave, another, accepted, on_ok, on_other, on_response, is_status};
ghost use Rattle.decisions.specs.Outcomes.{outcome_of};

use crate::outcome::Outcome;
use call_table::{Key, Table};
use calls::{Found, Invite, Response};
use causes::{FIRST_STATUS, LAST_STATUS, OK};
use queues::few::Few;
use refusals::Ground;
use sip_rules::{accepts, ack, ack_and_bye, leaves, on_cancel_expiry, on_other};

/// Whether a status is that of a response.
pub fn is_status(status: u16) -> bool
    ensures from_100_to_699 { result ≡ is_status status }
{
    (FIRST_STATUS..=LAST_STATUS).contains(&status)
}

/// Refuses an INVITE whose transaction or dialogue a call has.
pub fn screen(table: &Table, invite: Invite<&[u8]>) -> Result<(), Ground>
    ensures transaction_then_dialogue { result_err result ≡ invite_refusal (seek (by_transaction invite.entry.transaction) table.now.places) (seek (holds_dialogue invite.entry.dialogue) table.now.places) }
{
    if table.find(Key::Transaction(invite.transaction)).is_some() {
        return Err(Ground::TransactionInUse);
    }
    if table.find(Key::Dialogue(invite.dialogue)).is_some() {
        return Err(Ground::DialogueInUse);
    }
    Ok(())
}

/// The other end's CANCEL or BYE, at the call that it found.
fn left_by(found: Option<Found>) -> Result<Outcome, Ground>
    ensures the_call_is_left { outcome_of result ≡ on_leave found }
{
    let found = found.ok_or(Ground::NoSuchCall)?;
    Ok(Outcome::at(found, leaves(found.call)))
}

// Two public questions over one answer: a CANCEL names a transaction, a BYE a dialogue.
/// CANCEL of an INVITE that came.
pub fn on_cancel(table: &Table, transaction: u64) -> Result<Outcome, Ground>
    ensures the_unanswered_call_is_left { outcome_of result ≡ on_leave (seek (by_transaction transaction) table.now.places) }
{
    left_by(table.find(Key::Transaction(transaction)))
}

/// BYE on a dialogue.
pub fn on_bye(table: &Table, dialogue: u64) -> Result<Outcome, Ground>
    ensures the_call_that_holds_it_is_left { outcome_of result ≡ on_leave (seek (holds_dialogue dialogue) table.now.places) }
{
    left_by(table.find(Key::Dialogue(dialogue)))
}

/// Whether the dialogue is held by another call than the response's own.
fn is_another(holder: Option<Found>, mine: Option<Found>) -> bool
    ensures held_elsewhere { result ≡ another holder mine }
{
    holder.is_some_and(|holder| mine.is_none_or(|mine| holder.place != mine.place))
}

/// A 200 at the call of its number; without one it is acknowledged and ended.
fn ok_at_its_call(response: Response, mine: Option<Found>) -> Outcome
    ensures at_its_call_or_ended { outcome_of (Ok result) ≡ on_ok response.number response.dialogue mine }
{
    match mine {
        None => Outcome::Reply {
            exchange: Few::Zero,
            sip: ack_and_bye(response),
        },
        Some(mine) => Outcome::at(mine, accepts(mine.call, response)),
    }
}

/// A 200.
fn on_ok(table: &Table, response: Response) -> Result<Outcome, Ground>
    ensures a_200 { outcome_of result ≡ accepted response.number response.dialogue (seek (holds_dialogue response.dialogue) table.now.places) (seek (by_live_number response.number) table.now.places) }
{
    let mine = table.find(Key::LiveNumber(response.number));
    if is_another(table.find(Key::Dialogue(response.dialogue)), mine) {
        return Err(Ground::DialogueInUse);
    }
    Ok(ok_at_its_call(response, mine))
}

/// A provisional response, or a final one that refuses, at the call that awaits it.
fn awaited(response: Response, found: Option<Found>) -> Result<Outcome, Ground>
    ensures at_the_call_that_awaits_it { outcome_of result ≡ at_call (λ call. Ok (on_other response.status response.media call)) found }
{
    let found = found.ok_or(Ground::NoSuchCall)?;
    Ok(Outcome::at(found, on_other(response, found.call)))
}

/// A response with a status from 100 to 699.
pub fn on_response(table: &Table, response: Response) -> Result<Outcome, Ground>
    ensures by_the_status { outcome_of result ≡ on_response table.now.places response.number response.status response.dialogue response.media }
{
    match response.status {
        OK => on_ok(table, response),
        201..=299 => Ok(Outcome::Reply {
            exchange: Few::Zero,
            sip: Few::One(ack(response)),
        }),
        _ => awaited(response, table.find(Key::AwaitedNumber(response.number))),
    }
}

/// No final response came in time to the CANCEL with this number.
pub fn on_expiry_of_cancel(table: &Table, number: u64) -> Result<Outcome, Ground>
    ensures at_the_call_with_the_number { outcome_of result ≡ at_call on_cancel_expiry (seek (by_number number) table.now.places) }
{
    let found = table.find(Key::Number(number)).ok_or(Ground::NoSuchCall)?;
    let effect = on_cancel_expiry(found.call)?;
    Ok(Outcome::at(found, effect))
}
