//! How a ledger reads.
ghost use Rattle.std.specs.Prelude.{Some};
ghost use Rattle.ledger.specs.Texts.{channel_text, transaction_text, channel_lines, transaction_lines, messages_line, events_line, refusals_lines, books_text, ledger_text};

use crate::account::Account;
use crate::books::Unbalanced;
use crate::ledger::Ledger;
use std::fmt;

/// The account of a channel.
#[derive(Drop)]
struct OfChannel(Account);

/// The account of a transaction.
#[derive(Drop)]
struct OfTransaction(Account);

/// Whether the books balance.
#[derive(Drop)]
struct Books(Option<Unbalanced>);

/// A line for each channel.
#[derive(Drop)]
struct Channels<'a>(&'a Ledger);

/// A line for each transaction.
#[derive(Drop)]
struct Transactions<'a>(&'a Ledger);

/// The line of the messages.
#[derive(Drop)]
struct Messages<'a>(&'a Ledger);

/// The line of the events.
#[derive(Drop)]
struct Events<'a>(&'a Ledger);

/// A line for each ground.
#[derive(Drop)]
struct Refusals<'a>(&'a Ledger);

impl fmt::Display for OfChannel {
    ghost output = { λ t. Some (channel_text t.0) };

    fn fmt<W: fmt::Write>(&self, f: &mut fmt::Formatter<W>) -> fmt::Result {
        let Account {
            begun,
            ended,
            standing,
        } = self.0;
        let end = if standing == 0 { "free" } else { "held" };
        write!(f, "seized {begun}, released {ended}, {end}")
    }
}

impl fmt::Display for OfTransaction {
    ghost output = { λ t. Some (transaction_text t.0) };

    fn fmt<W: fmt::Write>(&self, f: &mut fmt::Formatter<W>) -> fmt::Result {
        let Account {
            begun,
            ended,
            standing,
        } = self.0;
        let end = if standing == 0 { "answered" } else { "owing" };
        write!(f, "INVITEs {begun}, finals {ended}, {end}")
    }
}

impl fmt::Display for Books {
    ghost output = { λ t. Some (books_text t.0) };

    fn fmt<W: fmt::Write>(&self, f: &mut fmt::Formatter<W>) -> fmt::Result {
        match self.0 {
            None => f.write_str("books balance"),
            Some(which) => write!(f, "books do not balance: {which}"),
        }
    }
}

impl fmt::Display for Channels<'_> {
    ghost output = { λ t. Some (channel_lines t.0.now) };

    fn fmt<W: fmt::Write>(&self, f: &mut fmt::Formatter<W>) -> fmt::Result {
        for (channel, account) in &self.0.channels.entries {
            write!(f, "\n  channel {channel}: {}", OfChannel(*account))?;
        }
        Ok(())
    }
}

impl fmt::Display for Transactions<'_> {
    ghost output = { λ t. Some (transaction_lines t.0.now) };

    fn fmt<W: fmt::Write>(&self, f: &mut fmt::Formatter<W>) -> fmt::Result {
        for (transaction, account) in &self.0.transactions.entries {
            write!(
                f,
                "\n  transaction {transaction}: {}",
                OfTransaction(*account)
            )?;
        }
        Ok(())
    }
}

impl fmt::Display for Messages<'_> {
    ghost output = { λ t. Some (messages_line t.0.now) };

    fn fmt<W: fmt::Write>(&self, f: &mut fmt::Formatter<W>) -> fmt::Result {
        let Ledger {
            oks,
            byes,
            connects,
            setups,
            ..
        } = self.0;
        write!(
            f,
            "\n  200s {oks}, BYEs {byes}, CONNECTs {connects}, SETUPs {setups}"
        )
    }
}

impl fmt::Display for Events<'_> {
    ghost output = { λ t. Some (events_line t.0.now) };

    fn fmt<W: fmt::Write>(&self, f: &mut fmt::Formatter<W>) -> fmt::Result {
        let Ledger {
            events,
            refused,
            ..
        } = self.0;
        write!(f, "\n  events {events}, refused {refused}")
    }
}

impl fmt::Display for Refusals<'_> {
    ghost output = { λ t. Some (refusals_lines t.0.now) };

    fn fmt<W: fmt::Write>(&self, f: &mut fmt::Formatter<W>) -> fmt::Result {
        for (ground, count) in &self.0.grounds {
            write!(f, "\n  ground {ground}: {count}")?;
        }
        Ok(())
    }
}

/// A line for each count, and one that says whether the books balance, without the last line's end.
impl fmt::Display for Ledger {
    ghost output = { λ ledger. Some (ledger_text ledger) };

    fn fmt<W: fmt::Write>(&self, f: &mut fmt::Formatter<W>) -> fmt::Result {
        write!(f, "ledger{}{}", Channels(self), Transactions(self))?;
        write!(f, "{}{}{}", Messages(self), Events(self), Refusals(self))?;
        write!(f, "\n  {}", Books(self.books()))
    }
}
