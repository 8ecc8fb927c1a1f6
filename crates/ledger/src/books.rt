ghost use Rattle.std.specs.Prelude.{◌≡◌, Some};
ghost use Rattle.ledger.specs.Books.{Verdict, first_unbalanced};
ghost use Rattle.ledger.specs.Texts.{unbalanced_text};

use crate::ledger::Ledger;
use std::fmt;

/// What does not balance.
#[derive(Clone, Copy, PartialEq, Eq, Debug)]
pub enum Unbalanced {
    /// The channel was not released as often as it was seized, but for the calls that hold it.
    Channel(u64),
    /// The transaction has not as many final responses as INVITEs, but for those that are owed.
    Transaction(u64),
    /// More CONNECTs went out than SETUPs came.
    Connects,
}

impl fmt::Display for Unbalanced {
    ghost output = { λ which. Some (unbalanced_text which) };

    fn fmt<W: fmt::Write>(&self, f: &mut fmt::Formatter<W>) -> fmt::Result {
        match self {
            Unbalanced::Channel(channel) => write!(f, "channel {channel}"),
            Unbalanced::Transaction(transaction) => write!(f, "transaction {transaction}"),
            Unbalanced::Connects => f.write_str("CONNECTs"),
        }
    }
}

impl Ledger {
    /// Nothing where the books balance, else the first that does not: the least channel, then the least transaction, then the
    /// CONNECTs.
    pub fn books(&self) -> Option<Unbalanced>
        ensures along_the_accounts { result ≡ first_unbalanced self.now }
        ensures none_exactly_where_all_balances { Verdict self.now result }
    {
        if let Some(channel) = self.channels.first_off() {
            return Some(Unbalanced::Channel(channel));
        }
        if let Some(transaction) = self.transactions.first_off() {
            return Some(Unbalanced::Transaction(transaction));
        }
        if self.connects > self.setups {
            return Some(Unbalanced::Connects);
        }
        None
    }
}
