ghost use Rattle.std.specs.Prelude.{◌≡◌, ℕ, ◌==◌, ◌||◌, true, [], Some, Ok, Err, OnOk, OnErr, map};
ghost use Rattle.std.specs.Option.{unwrap_or};
ghost use Rattle.std.specs.Ordering.{nat_cmp};
ghost use Rattle.std.specs.BTreeMap.{get};
ghost use Rattle.refusals.specs.Grounds.{number_of};
ghost use Rattle.calls.specs.declared.answers.Answer.{Answer as Answered};
ghost use Rattle.calls.specs.Rules.{Event as Happens};
ghost use Rattle.calls.specs.Sides.{one_if, named, held_channel, holds, owes, final};
ghost use Rattle.calls.specs.Laws.{brought_by, invite_count};
ghost use Rattle.events.specs.Events.{event_of};
ghost use Rattle.ledger.specs.Numbers.{grown};
ghost use Rattle.ledger.specs.Accounts.{Grow};
ghost use Rattle.ledger.specs.Counts.{Counted, number, counts_call, counts_calls, counted, Grows, Noted, is_new_named, is_new_invite, is_new_final, is_new_ground, names_new, some_names_new, owed_transaction, call_names_new, some_call_names_new};
ghost use Rattle.ledger.specs.Known.{StaysKnown, GroundsStayKnown, KeepsKnown};
ghost use Rattle.ledger.specs.Histories.{Holds, HoldsOn};

use crate::account::more_if;
use crate::accounts::Accounts;
use crate::marks::{brings_bye, brings_ok, brings_setup, is_bye, is_connect, is_ok};
use calls::{Answer, Call, Digits, ExchangeSide, Refused, Report, SipMessage, SipSide};
use events::Event;
use messages::Message;
use std::alloc::{AllocError, Global};
use std::collections::BTreeMap;

const FIRST_FINAL: u16 = 200;

const LAST_STATUS: u16 = 699;

/// The counts of one gateway's play.
#[derive(Drop)]
pub struct Ledger {
    pub(crate) channels: Accounts,
    pub(crate) transactions: Accounts,
    pub(crate) oks: u64,
    pub(crate) byes: u64,
    pub(crate) connects: u64,
    pub(crate) setups: u64,
    pub(crate) events: u64,
    pub(crate) refused: u64,
    pub(crate) grounds: BTreeMap<u8, u64>,
}

/// The channels that a report names.
fn note_report(channels: &mut Accounts, report: &Report) -> Result<(), AllocError>
    ensures seized_and_released { OnOk result (Grow channels.old.entries channels.new.entries (λ c. named c report.now.seized) (λ c. named c report.now.released) (λ c. 0)) }
    ensures known_stays_known { OnOk result (StaysKnown channels.old.entries channels.new.entries) }
    ensures only_a_new_channel_wants_memory { OnErr result ((is_new_named channels.old.entries report.now.seized || is_new_named channels.old.entries report.now.released) ≡ true) }
{
    if let Some(channel) = report.seized {
        channels.begin(u64::from(channel))?;
    }
    if let Some(channel) = report.released {
        channels.end(u64::from(channel))?;
    }
    Ok(())
}

/// An INVITE that was not refused.
fn note_invite(transactions: &mut Accounts, event: &Event) -> Result<(), AllocError>
    ensures of_its_transaction { OnOk result (Grow transactions.old.entries transactions.new.entries (λ t. invite_count t (brought_by (event_of event.now))) (λ t. 0) (λ t. 0)) }
    ensures known_stays_known { OnOk result (StaysKnown transactions.old.entries transactions.new.entries) }
    ensures only_a_new_transaction_wants_memory { OnErr result (is_new_invite transactions.old.entries (brought_by (event_of event.now)) ≡ true) }
{
    match event {
        Event::Invite { transaction, .. } => transactions.begin(*transaction),
        _ => Ok(()),
    }
}

/// A final response that goes out.
fn note_final(transactions: &mut Accounts, message: &SipMessage) -> Result<(), AllocError>
    ensures of_its_transaction { OnOk result (Grow transactions.old.entries transactions.new.entries (λ t. 0) (λ t. final t message.now) (λ t. 0)) }
    ensures known_stays_known { OnOk result (StaysKnown transactions.old.entries transactions.new.entries) }
    ensures only_a_new_transaction_wants_memory { OnErr result (is_new_final transactions.old.entries message.now ≡ true) }
{
    match message {
        SipMessage::Response {
            transaction,
            status,
        } if (FIRST_FINAL..=LAST_STATUS).contains(status) => transactions.end(*transaction),
        _ => Ok(()),
    }
}

fn note_ground(grounds: &mut BTreeMap<u8, u64>, ground: u8) -> Result<(), AllocError>
    ensures once_more { OnOk result ((g : ℕ) → unwrap_or (get nat_cmp grounds.new g) 0 ≡ grown (unwrap_or (get nat_cmp grounds.old g) 0) (one_if (ground == g))) }
    ensures known_stays_known { OnOk result (GroundsStayKnown grounds.old grounds.new) }
    ensures only_a_new_ground_wants_memory { OnErr result (is_new_ground grounds.old ground ≡ true) }
{
    let count = grounds.get(&ground).copied().unwrap_or(0);
    grounds.insert(ground, more_if(count, true))?;
    Ok(())
}

/// The channel that a call holds.
fn note_held(channels: &mut Accounts, call: &Call) -> Result<(), AllocError>
    ensures of_its_channel { OnOk result (Grow channels.old.entries channels.new.entries (λ c. 0) (λ c. 0) (λ c. holds c call.now)) }
    ensures known_stays_known { OnOk result (StaysKnown channels.old.entries channels.new.entries) }
    ensures only_a_new_channel_wants_memory { OnErr result (is_new_named channels.old.entries (held_channel call.now) ≡ true) }
{
    match call.exchange {
        ExchangeSide::Over => Ok(()),
        _ => channels.stand(u64::from(call.channel)),
    }
}

/// The transaction that a call owes a final response.
fn note_owed(transactions: &mut Accounts, call: &Call) -> Result<(), AllocError>
    ensures of_its_transaction { OnOk result (Grow transactions.old.entries transactions.new.entries (λ t. 0) (λ t. 0) (λ t. owes t call.now)) }
    ensures known_stays_known { OnOk result (StaysKnown transactions.old.entries transactions.new.entries) }
    ensures only_a_new_transaction_wants_memory { OnErr result (is_new_named transactions.old.entries (owed_transaction call.now.sip) ≡ true) }
{
    match call.sip {
        SipSide::InviteUnanswered { transaction, .. } => transactions.stand(transaction),
        _ => Ok(()),
    }
}

impl Ledger {
    /// A ledger in which nothing is noted.
    pub fn new(heap: Global) -> Ledger
        ensures every_number_is_zero { (k : Counted) → number result k ≡ 0 }
        ensures the_ledger_of_no_history { Holds result [] }
    {
        Ledger {
            channels: Accounts::new(heap),
            transactions: Accounts::new(heap),
            oks: 0,
            byes: 0,
            connects: 0,
            setups: 0,
            events: 0,
            refused: 0,
            grounds: BTreeMap::new(heap),
        }
    }

    /// An event that was not refused.
    fn note_step(&mut self, event: &Event, report: &Report) -> Result<(), AllocError>
        ensures noted { OnOk result (Noted self.old self.new (event_of event.now) (Answered.Step (Ok report.now))) }
        ensures known_stays_known { OnOk result (KeepsKnown self.old self.new) }
        ensures only_what_is_new_wants_memory { OnErr result (names_new self.old (event_of event.now) (Answered.Step (Ok report.now)) ≡ true) }
    {
        self.events = more_if(self.events, true);
        self.setups = more_if(self.setups, brings_setup(event));
        self.oks = more_if(self.oks, brings_ok(event));
        self.byes = more_if(self.byes, brings_bye(event));
        note_report(&mut self.channels, report)?;
        note_invite(&mut self.transactions, event)
    }

    /// An event that was refused.
    fn note_refused(&mut self, refused: &Refused) -> Result<(), AllocError>
        ensures noted { OnOk result ((e : Happens) → Noted self.old self.new e (Answered.Step (Err refused.now))) }
        ensures known_stays_known { OnOk result (KeepsKnown self.old self.new) }
        ensures only_what_is_new_wants_memory { OnErr result (is_new_ground self.old.grounds (number_of refused.now.ground) ≡ true) }
    {
        self.events = more_if(self.events, true);
        self.refused = more_if(self.refused, true);
        note_ground(&mut self.grounds, refused.ground.number())
    }

    /// A message that was taken from the exchange queue.
    fn note_exchange(&mut self, message: &Message<Digits>)
        ensures noted { (e : Happens) → Noted self.old self.new e (Answered.Exchange (Some message.now)) }
        ensures known_stays_known { KeepsKnown self.old self.new }
    {
        self.connects = more_if(self.connects, is_connect(message));
    }

    /// A message that was taken from the SIP queue.
    fn note_sip(&mut self, message: &SipMessage) -> Result<(), AllocError>
        ensures noted { OnOk result ((e : Happens) → Noted self.old self.new e (Answered.Sip (Some message.now))) }
        ensures known_stays_known { OnOk result (KeepsKnown self.old self.new) }
        ensures only_what_is_new_wants_memory { OnErr result (is_new_final self.old.transactions.entries message.now ≡ true) }
    {
        self.oks = more_if(self.oks, is_ok(message));
        self.byes = more_if(self.byes, is_bye(message));
        note_final(&mut self.transactions, message)
    }

    /// An event with what came of it.
    pub fn note(&mut self, event: &Event, answer: &Answer) -> Result<(), AllocError>
        ensures each_number_by_the_laws { OnOk result (Noted self.old self.new (event_of event.now) answer.now) }
        ensures known_stays_known { OnOk result (KeepsKnown self.old self.new) }
        ensures only_what_is_new_wants_memory { OnErr result (names_new self.old (event_of event.now) answer.now ≡ true) }
    {
        match answer {
            Answer::Step(Ok(report)) => self.note_step(event, report),
            Answer::Step(Err(refused)) => self.note_refused(refused),
            Answer::Exchange(Some(message)) => {
                self.note_exchange(message);
                Ok(())
            }
            Answer::Sip(Some(message)) => self.note_sip(message),
            Answer::Exchange(None) | Answer::Sip(None) => Ok(()),
        }
    }

    /// Events in their order, each with what came of it; what one list has more is left out.
    pub fn note_all(&mut self, events: &[Event], answers: &[Answer]) -> Result<(), AllocError>
        ensures each_number_by_the_laws { OnOk result (Grows self.old self.new (λ k. counted k (map event_of events.now) answers.now)) }
        ensures every_history_goes_on { OnOk result (HoldsOn self.old (map event_of events.now) answers.now self.new) }
        ensures only_what_is_new_wants_memory { OnErr result (some_names_new self.old (map event_of events.now) answers.now ≡ true) }
    {
        for (event, answer) in events.iter().zip(answers) {
            self.note(event, answer)?;
        }
        Ok(())
    }

    /// A call that stands at the end of the play: the channel that it holds and the final response that it owes.
    pub fn note_call(&mut self, call: &Call) -> Result<(), AllocError>
        ensures held_and_owed { OnOk result (Grows self.old self.new (λ k. counts_call k call.now)) }
        ensures known_stays_known { OnOk result (KeepsKnown self.old self.new) }
        ensures only_what_is_new_wants_memory { OnErr result (call_names_new self.old call.now ≡ true) }
    {
        note_held(&mut self.channels, call)?;
        note_owed(&mut self.transactions, call)
    }

    /// The calls that stand at the end of the play.
    pub fn note_calls(&mut self, calls: &[Call]) -> Result<(), AllocError>
        ensures held_and_owed { OnOk result (Grows self.old self.new (λ k. counts_calls k calls.now)) }
        ensures only_what_is_new_wants_memory { OnErr result (some_call_names_new self.old calls.now ≡ true) }
    {
        for call in calls {
            self.note_call(call)?;
        }
        Ok(())
    }
}
