ghost use Rattle.std.specs.Prelude.{◌≡◌, ℕ, ◌==◌, true, false, OnOk, OnErr, if◌then◌else◌};
ghost use Rattle.calls.specs.Sides.{one_if};
ghost use Rattle.ledger.specs.Accounts.{empty, account_at, is_new, is_balanced, first_off, Grow, FirstOff};

use crate::account::{Account, EMPTY, more_if};
use std::alloc::{AllocError, Global};
use std::collections::BTreeMap;

/// Accounts under numbers, those of channels or of transactions.
#[derive(Drop)]
pub(crate) struct Accounts {
    pub(crate) entries: BTreeMap<u64, Account>,
}

impl Accounts {
    pub(crate) fn new(heap: Global) -> Accounts
        ensures nothing_noted { (n : ℕ) → account_at result.entries n ≡ empty }
    {
        Accounts {
            entries: BTreeMap::new(heap),
        }
    }

    fn at(&self, number: u64) -> Account
        ensures of_that_number { result ≡ account_at self.now.entries number }
    {
        self.entries.get(&number).copied().unwrap_or(EMPTY)
    }

    fn put(&mut self, number: u64, account: Account) -> Result<(), AllocError>
        ensures there_alone { OnOk result ((n : ℕ) → account_at self.new.entries n ≡ (if number == n then account else account_at self.old.entries n)) }
        ensures known_from_then_on { OnOk result ((n : ℕ) → is_new self.new.entries n ≡ (if number == n then false else is_new self.old.entries n)) }
        ensures only_a_new_number_wants_memory { OnErr result (is_new self.old.entries number ≡ true) }
    {
        self.entries.insert(number, account)?;
        Ok(())
    }

    /// Something begins under the number.
    pub(crate) fn begin(&mut self, number: u64) -> Result<(), AllocError>
        ensures begun_once_more { OnOk result (Grow self.old.entries self.new.entries (λ n. one_if (number == n)) (λ n. 0) (λ n. 0)) }
        ensures known_from_then_on { OnOk result ((n : ℕ) → is_new self.new.entries n ≡ (if number == n then false else is_new self.old.entries n)) }
        ensures only_a_new_number_wants_memory { OnErr result (is_new self.old.entries number ≡ true) }
    {
        let account = self.at(number);
        let begun = more_if(account.begun, true);
        self.put(number, Account { begun, ..account })
    }

    /// Something ends under the number.
    pub(crate) fn end(&mut self, number: u64) -> Result<(), AllocError>
        ensures ended_once_more { OnOk result (Grow self.old.entries self.new.entries (λ n. 0) (λ n. one_if (number == n)) (λ n. 0)) }
        ensures known_from_then_on { OnOk result ((n : ℕ) → is_new self.new.entries n ≡ (if number == n then false else is_new self.old.entries n)) }
        ensures only_a_new_number_wants_memory { OnErr result (is_new self.old.entries number ≡ true) }
    {
        let account = self.at(number);
        let ended = more_if(account.ended, true);
        self.put(number, Account { ended, ..account })
    }

    /// Something stands under the number at the end.
    pub(crate) fn stand(&mut self, number: u64) -> Result<(), AllocError>
        ensures standing_once_more { OnOk result (Grow self.old.entries self.new.entries (λ n. 0) (λ n. 0) (λ n. one_if (number == n))) }
        ensures known_from_then_on { OnOk result ((n : ℕ) → is_new self.new.entries n ≡ (if number == n then false else is_new self.old.entries n)) }
        ensures only_a_new_number_wants_memory { OnErr result (is_new self.old.entries number ≡ true) }
    {
        let account = self.at(number);
        let standing = more_if(account.standing, true);
        self.put(
            number,
            Account {
                standing,
                ..account
            },
        )
    }

    /// The least number whose account does not balance.
    pub(crate) fn first_off(&self) -> Option<u64>
        ensures along_the_accounts { result ≡ first_off self.now.entries.entries }
        ensures the_least_that_does_not_balance { FirstOff (λ n. is_balanced (account_at self.now.entries n)) result }
    {
        for (number, account) in &self.entries {
            if !account.is_balanced() {
                return Some(*number);
            }
        }
        None
    }
}
