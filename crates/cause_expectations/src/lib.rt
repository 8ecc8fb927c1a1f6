// A list of expected answers of the two mappings between causes and statuses, and whether they agree with it.
#![tactic(auto)]

ghost use Rattle.std.specs.Prelude.{◌≡◌, option_map};
ghost use Rattle.causes.specs.Mapping.{status_of, cause_of};
ghost use Rattle.cause_expectations.specs.Expected.{expected_status, expected_cause, same_status, same_cause};

use causes::{cause_of, status_of};
use entry::{CauseEntry, StatusEntry};
use messages::Cause;

pub mod entry;

// The status that the first fitting entry gives for a cause.
fn expected_status(entries: &[CauseEntry], cause: Cause) -> Option<u16>
    ensures first_that_fits { result ≡ expected_status entries.now cause.value cause.location }
{
    entries
        .iter()
        .find(|entry| entry.covers(cause))
        .map(|entry| entry.status)
}

// The cause that the first fitting entry gives for a status.
fn expected_cause(entries: &[StatusEntry], status: u16) -> Option<Cause>
    ensures first_that_fits { option_map (λ c. (c.value, c.location)) result ≡ expected_cause entries.now status }
{
    entries
        .iter()
        .find(|entry| entry.covers(status))
        .map(|entry| entry.cause)
}

// Whether the mapping answers for a cause what the list says.
pub fn status_agrees(entries: &[CauseEntry], cause: Cause) -> bool
    ensures agrees_with_the_list { result ≡ same_status (expected_status entries.now cause.value cause.location) (status_of cause.value cause.location) }
{
    expected_status(entries, cause) == Some(status_of(cause))
}

// Whether the mapping answers for a status what the list says.
pub fn cause_agrees(entries: &[StatusEntry], status: u16) -> bool
    ensures agrees_with_the_list { result ≡ same_cause (expected_cause entries.now status) (cause_of status) }
{
    expected_cause(entries, status) == Some(cause_of(status))
}
