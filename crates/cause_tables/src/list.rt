// The text of the list of expected answers.
use cause_expectations::entry::{CauseEntry, StatusEntry};
use messages::Cause;
use std::alloc::Global;
use std::num::ParseIntError;
use std::str::FromStr;
use thiserror::Error;

#[derive(Drop)]
pub struct List {
    pub causes: Vec<CauseEntry>,
    pub statuses: Vec<StatusEntry>,
}

#[derive(Debug, Drop, Error)]
#[error("a line of the list is no entry")]
pub struct NotAnEntry;

impl From<ParseIntError> for NotAnEntry {
    fn from(_: ParseIntError) -> Self {
        NotAnEntry
    }
}

// One number, or the first and the last of several as in `100-599`.
fn numbers<T: FromStr<Err = ParseIntError> + Drop>(word: &str) -> Result<(T, T), ParseIntError> {
    let (first, last) = word.split_once('-').unwrap_or((word, word));
    Ok((first.parse()?, last.parse()?))
}

// What stands behind `cause`: `17 at any gives 486`, `21 at 0 gives 603`.
fn cause_entry(words: &[&str]) -> Result<CauseEntry, NotAnEntry> {
    let [causes, "at", place, "gives", status] = words else {
        return Err(NotAnEntry);
    };
    let (first, last) = numbers(causes)?;
    let location = match *place {
        "any" => None,
        number => Some(number.parse()?),
    };
    Ok(CauseEntry {
        first,
        last,
        location,
        status: status.parse()?,
    })
}

// What stands behind `status`: `486 gives 17 at 5`.
fn status_entry(words: &[&str]) -> Result<StatusEntry, NotAnEntry> {
    let [statuses, "gives", value, "at", location] = words else {
        return Err(NotAnEntry);
    };
    let (first, last) = numbers(statuses)?;
    Ok(StatusEntry {
        first,
        last,
        cause: Cause {
            value: value.parse()?,
            location: location.parse()?,
        },
    })
}

impl List {
    // A line is empty, a comment behind `#`, or an entry.
    fn take(&mut self, line: &[&str]) -> anyhow::Result<()> {
        match line {
            [] | ["#", ..] => {}
            ["cause", rest @ ..] => self.causes.push(cause_entry(rest)?)?,
            ["status", rest @ ..] => self.statuses.push(status_entry(rest)?)?,
            _ => return Err(NotAnEntry.into()),
        }
        Ok(())
    }
}

pub fn read(heap: Global, text: &str) -> anyhow::Result<List> {
    let mut list = List {
        causes: Vec::new(heap),
        statuses: Vec::new(heap),
    };
    for line in text.lines() {
        let words: Vec<&str> = line.split_ascii_whitespace().collect(heap)?;
        list.take(&words)?;
    }
    Ok(list)
}
