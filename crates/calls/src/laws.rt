//! Laws of runs, and collisions step by step. Each function's contract is the law; the body does nothing.
ghost use Rattle.calls.specs.Laws.{RunLaw, RunsCompose};
ghost use Rattle.calls.specs.Examples.{Collisions, Examples};

/// What every run keeps, at its opening and after each of its events.
pub fn run_law_stands()
    ensures laws_at_every_cut { RunLaw }
    ensures steps_make_longer_runs { RunsCompose }
{}

/// A 200 after CANCEL, two 200s, and a SETUP whose channel the exchange does not take, with and without another channel.
pub fn collisions_stand()
    ensures events_and_answers { Collisions }
{}

/// Messages octet by octet, causes and statuses, and the collisions, in one statement.
pub fn examples_stand()
    ensures octets_causes_and_collisions { Examples }
{}
