//! The play of one opened gateway.
ghost use Rattle.std.specs.Prelude.{◌≡◌, ◌-◌, map, IfOk};
ghost use Rattle.queues.specs.Waiting.{room, free};
ghost use Rattle.calls.specs.Rules.{Stepping};
ghost use Rattle.calls.specs.Laws.{RunsOn};
ghost use Rattle.events.specs.Events.{event_of};
ghost use Rattle.gateway.specs.Stands.{state_of, Begins, NothingWaits};
ghost use Rattle.scripts.specs.Kept.{AllIdle, Kept};
ghost use Rattle.scripts.specs.Ending.{taking, calls_of, GoesOn, Ends};

use calls::{Answer, Call};
use events::Event;
use gateway::{Gateway, Outgoing};
use ledger::Ledger;
use pools::Pool;
use runs::run;
use script_lines::{Command, Line, print_answers, print_calls, print_drained};
use std::alloc::{AllocError, Global};
use std::{io, slice};

/// As many calls as a gateway has at most.
const MOST_CALLS: usize = 64;

/// A gateway with its queues, and what has been counted of it so far. By its type a history from an opening led to where it
/// stands, and its ledger counts that history. So it goes from step to step by value: a step that cannot be counted ends it.
#[derive(Drop)]
pub(crate) struct Play<'a, P: Pool + Drop> {
    gateway: Gateway<P>,
    queues: Outgoing<'a>,
    // All the places of either queue: a queue itself tells only how many are free.
    exchange_places: usize,
    sip_places: usize,
    ledger: Ledger,
    ghost all_the_places: { (exchange_places ≡ room queues.exchange) × (sip_places ≡ room queues.sip) },
    ghost under_the_law: { ∥ Kept (state_of P.Pool.state gateway queues) ledger ∥₁ },
}

impl<'a, P: Pool + Drop> Play<'a, P> {
    /// A play that begins.
    pub(crate) fn new(heap: Global, gateway: Gateway<P>, queues: Outgoing<'a>) -> Play<'a, P>
        requires at_its_opening { Begins P.Pool.state gateway }
        requires nothing_waits { NothingWaits queues }
        requires all_channels_are_idle { AllIdle (P.Pool.state gateway.trunk.pool) }
        ensures of_that_gateway { (result.gateway ≡ gateway) × (result.queues ≡ queues.entry) }
    {
        let exchange_places = queues.exchange.free_places();
        let sip_places = queues.sip.free_places();
        Play {
            gateway,
            queues,
            exchange_places,
            sip_places,
            ledger: Ledger::new(heap),
        }
    }

    /// Runs the events and notes what comes of them.
    fn run(self, heap: Global, events: &[Event]) -> Result<(Play<'a, P>, Vec<Answer>), AllocError>
        ensures every_history_goes_on_and_the_laws_hold { IfOk result (λ v. RunsOn (state_of P.Pool.state self.entry.gateway self.entry.queues) (map event_of events.now) v.1.items (state_of P.Pool.state v.0.gateway v.0.queues)) }
        ensures steps_by_the_rules { IfOk result (λ v. Stepping (state_of P.Pool.state self.entry.gateway self.entry.queues) (map event_of events.now) v.1.items (state_of P.Pool.state v.0.gateway v.0.queues)) }
        ensures the_ledger_goes_on { IfOk result (λ v. GoesOn (state_of P.Pool.state self.entry.gateway self.entry.queues) self.entry.ledger (state_of P.Pool.state v.0.gateway v.0.queues) v.0.ledger) }
    {
        let Play {
            mut gateway,
            mut queues,
            exchange_places,
            sip_places,
            mut ledger,
        } = self;
        let answers = run(&mut gateway, heap, events, &mut queues)?;
        ledger.note_all(events, answers.as_slice())?;
        let play = Play {
            gateway,
            queues,
            exchange_places,
            sip_places,
            ledger,
        };
        Ok((play, answers))
    }

    /// Events that take all the messages that wait, those for the exchange first.
    fn events_that_take_all(&self, heap: Global) -> Result<Vec<Event>, AllocError>
        ensures as_many_as_wait { IfOk result (λ v. v.items ≡ taking (self.now.exchange_places - free self.now.queues.exchange) (self.now.sip_places - free self.now.queues.sip)) }
    {
        let exchange = self
            .exchange_places
            .saturating_sub(self.queues.exchange.free_places());
        let sip = self
            .sip_places
            .saturating_sub(self.queues.sip.free_places());
        let for_exchange = (0..exchange).map(|_| Event::TakeExchange);
        let for_sip = (0..sip).map(|_| Event::TakeSip);
        for_exchange.chain(for_sip).collect(heap)
    }

    /// Takes all that waits.
    fn drain(self, heap: Global) -> Result<(Play<'a, P>, Vec<Answer>), AllocError>
        ensures nothing_waits { IfOk result (λ v. NothingWaits v.0.queues) }
        ensures the_ledger_goes_on { IfOk result (λ v. GoesOn (state_of P.Pool.state self.entry.gateway self.entry.queues) self.entry.ledger (state_of P.Pool.state v.0.gateway v.0.queues) v.0.ledger) }
    {
        let events = self.events_that_take_all(heap)?;
        self.run(heap, events.as_slice())
    }

    /// The calls in the order of their places.
    fn calls(&self, heap: Global) -> Result<Vec<Call>, AllocError>
        ensures those_of_the_table { IfOk result (λ v. v.items ≡ calls_of self.now.gateway.table.places) }
    {
        (0..MOST_CALLS)
            .filter_map(|place| self.gateway.call_at(place))
            .collect(heap)
    }

    fn obey(self, rt: &(impl Print + AllocGlobal), command: &Command) -> io::Result<Play<'a, P>> {
        match command {
            Command::Event(event) => {
                let (play, answers) = self.run(rt.alloc(), slice::from_ref(event))?;
                print_answers(rt, answers.as_slice())?;
                Ok(play)
            }
            Command::Drain => {
                let (play, answers) = self.drain(rt.alloc())?;
                print_drained(rt, answers.as_slice())?;
                Ok(play)
            }
            Command::Calls => {
                let calls = self.calls(rt.alloc())?;
                print_calls(rt, calls.as_slice())?;
                Ok(self)
            }
            // The lines up to the next opening are one play: none comes here.
            Command::Open(_) => Ok(self),
        }
    }

    /// Plays the lines that stand below the opening.
    pub(crate) fn play(
        self,
        rt: &(impl Print + AllocGlobal),
        lines: &[Line<'_>],
    ) -> io::Result<Play<'a, P>> {
        let mut play = self;
        for line in lines {
            line.echo(rt)?;
            if let Some(command) = line.command(rt)? {
                play = play.obey(rt, command)?;
            }
        }
        Ok(play)
    }

    /// The ledger, with the calls that stand at the end. What still waits was put into its queue, so it counts.
    fn closed(self, heap: Global) -> Result<Ledger, AllocError>
        ensures of_the_whole_history_and_its_books_balance { IfOk result (λ l. Ends (state_of P.Pool.state self.entry.gateway self.entry.queues) self.entry.ledger l) }
    {
        let (play, _) = self.drain(heap)?;
        let calls = play.calls(heap)?;
        let Play { mut ledger, .. } = play;
        ledger.note_calls(calls.as_slice())?;
        Ok(ledger)
    }

    /// Prints the ledger, which ends the play.
    pub(crate) fn close(self, rt: &(impl Print + AllocGlobal)) -> io::Result<()> {
        let ledger = self.closed(rt.alloc())?;
        println!(rt; "{ledger}")
    }
}
