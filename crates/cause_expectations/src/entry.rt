// One line of the list: which numbers it is for, and what they should give.
ghost use Rattle.std.specs.Prelude.{◌≡◌};
ghost use Rattle.cause_expectations.specs.Covering.{cause_covers, status_covers};

use messages::Cause;

// Two ends and no `RangeInclusive`: the definitions of what an entry covers and the program's report name the ends.

// Causes `first` to `last`, at one location or at any, give `status`.
#[derive(Clone, Copy)]
pub struct CauseEntry {
    pub first: u8,
    pub last: u8,
    pub location: Option<u8>,
    pub status: u16,
}

// Statuses `first` to `last` give `cause`.
#[derive(Clone, Copy)]
pub struct StatusEntry {
    pub first: u16,
    pub last: u16,
    pub cause: Cause,
}

impl CauseEntry {
    pub(crate) fn covers(&self, cause: Cause) -> bool
        ensures inside { result ≡ cause_covers self.now cause.value cause.location }
    {
        (self.first..=self.last).contains(&cause.value)
            && self.location.is_none_or(|at| at == cause.location)
    }
}

impl StatusEntry {
    pub(crate) fn covers(&self, status: u16) -> bool
        ensures inside { result ≡ status_covers self.now status }
    {
        (self.first..=self.last).contains(&status)
    }
}
