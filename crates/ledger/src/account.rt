ghost use Rattle.std.specs.Prelude.{◌≡◌};
ghost use Rattle.calls.specs.Sides.{one_if};
ghost use Rattle.ledger.specs.Numbers.{grown};
ghost use Rattle.ledger.specs.Accounts.{is_balanced};

/// What began and what ended under one number, and what stands there at the end: numbers of times, from 0 on.
#[derive(Clone, Copy, Drop)]
pub(crate) struct Account {
    pub(crate) begun: u64,
    pub(crate) ended: u64,
    pub(crate) standing: u64,
}

/// The account of a number of which nothing is noted.
pub(crate) const EMPTY: Account = Account {
    begun: 0,
    ended: 0,
    standing: 0,
};

impl Account {
    /// Whether all that began ended, but for what stands.
    pub(crate) fn is_balanced(self) -> bool
        ensures as_defined { result ≡ is_balanced self }
    {
        self.ended <= self.begun && self.begun - self.ended == self.standing
    }
}

/// A number of times, once more where something is so.
pub(crate) fn more_if(count: u64, is_so: bool) -> u64
    ensures once_more_where_it_is { result ≡ grown count (one_if is_so) }
{
    if is_so {
        count.saturating_add(1)
    } else {
        count
    }
}
