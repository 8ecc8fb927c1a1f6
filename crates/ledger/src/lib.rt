//! What is counted of a play: what its laws speak of, and its refusals; and whether the books balance.
#![tactic(auto)]

mod account;
mod accounts;
mod books;
mod laws;
mod ledger;
mod marks;
mod shown;

pub use books::Unbalanced;
pub use laws::lawful_books_balance;
pub use ledger::Ledger;
