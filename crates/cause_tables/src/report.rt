// What the program prints.
use crate::list::List;
use cause_expectations::{cause_agrees, status_agrees};
use causes::{REMOTE_PRIVATE_NETWORK, USER, cause_of, status_of};
use messages::Cause;
use std::{fmt, io};

// Causes have seven bits.
const LAST_CAUSE: u8 = 127;

// SIP statuses.
const FIRST_STATUS: u16 = 100;

const LAST_STATUS: u16 = 699;

// What a mapping is asked.
#[derive(Clone, Copy)]
enum Question {
    StatusFor(Cause),
    CauseFor(u16),
}

impl Question {
    // Whether the mapping answers what the list says.
    fn agrees(self, list: &List) -> bool {
        match self {
            Question::StatusFor(cause) => status_agrees(&list.causes, cause),
            Question::CauseFor(status) => cause_agrees(&list.statuses, status),
        }
    }
}

// The question, and what the mapping answers.
impl fmt::Display for Question {
    fn fmt<W: fmt::Write>(&self, f: &mut fmt::Formatter<W>) -> fmt::Result {
        match *self {
            Question::StatusFor(cause) => {
                let Cause { value, location } = cause;
                write!(f, "cause {value} at {location}: {}", status_of(cause))
            }
            Question::CauseFor(status) => {
                let Cause { value, location } = cause_of(status);
                write!(f, "status {status}: {value} at {location}")
            }
        }
    }
}

// What the mapping answers for each entry of the list. An entry for several numbers is shown at its last,
// which no other entry names, and one for any location at the remote network.
pub fn rows(rt: &HostRuntime, list: &List) -> io::Result<()> {
    for entry in &list.causes {
        let shown = Cause {
            value: entry.last,
            location: entry.location.unwrap_or(REMOTE_PRIVATE_NETWORK),
        };
        println!(rt; "{}", Question::StatusFor(shown))?;
    }
    for entry in &list.statuses {
        println!(rt; "{}", Question::CauseFor(entry.last))?;
    }
    Ok(())
}

// How many answers were compared, and how many of them differ from the list.
#[derive(Default, Drop)]
struct Tally {
    compared: u32,
    different: u32,
}

impl Tally {
    fn compare(&mut self, rt: &HostRuntime, list: &List, question: Question) -> io::Result<()> {
        self.compared = self.compared.saturating_add(1);
        if !question.agrees(list) {
            self.different = self.different.saturating_add(1);
            println!(rt; "differs: {question}")?;
        }
        Ok(())
    }
}

// Every answer of both mappings beside the list's, each cause at both locations.
pub fn comparison(rt: &HostRuntime, list: &List) -> io::Result<()> {
    let mut tally = Tally::default();
    for value in 0..=LAST_CAUSE {
        for location in [USER, REMOTE_PRIVATE_NETWORK] {
            tally.compare(rt, list, Question::StatusFor(Cause { value, location }))?;
        }
    }
    for status in FIRST_STATUS..=LAST_STATUS {
        tally.compare(rt, list, Question::CauseFor(status))?;
    }
    println!(rt; "{} answers compared", tally.compared)?;
    match tally.different {
        0 => println!(rt; "all agree"),
        different => println!(rt; "{different} differ"),
    }
}
