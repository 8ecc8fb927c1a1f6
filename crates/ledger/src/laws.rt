//! Why the books balance. The function's contract is the law; the body does nothing.
ghost use Rattle.ledger.specs.Lawful.{LawfulBooks, RunBooks};

/// Of a play that is over, by the law of runs.
pub fn lawful_books_balance()
    ensures by_the_laws { LawfulBooks }
    ensures of_every_run { RunBooks }
{}
