//! The digits of a called number as a record of at most 20.
#![tactic(auto)]

mod dialled;

ghost use Rattle.std.specs.Prelude.{◌≡◌, ◌+◌, ◌≤◌, false, not, ◌++◌, length, replicate, take, drop};
ghost use Rattle.calls.specs.Effects.{recorded, record_of, meant, is_nothing};
ghost use Rattle.digits.specs.Keeping.{Keeps};

use calls::Digits;
pub use dialled::Dialled;

/// As many digits as a record holds.
const MOST_DIGITS: usize = 20;

impl<'a> Dialled<'a> {
    /// These digits, unless they are more than 20.
    pub fn new(octets: &'a [u8]) -> Option<Dialled<'a>>
        ensures these_unless_too_many { Keeps octets.now result }
    {
        if octets.len() <= MOST_DIGITS {
            Some(Dialled { octets })
        } else {
            None
        }
    }
}

/// Digits over others, from a place on.
fn lay(octets: &mut [u8], at: usize, digits: &[u8])
    requires within { at + length digits.now ≤ length octets.old }
    ensures laid_there_alone { octets.new ≡ (take at octets.old ++ digits.now) ++ drop (at + length digits.now) octets.old }
{
    octets[at..at + digits.len()].copy_from_slice(digits);
}

/// The octets of a record that has no digits.
fn noughts() -> [u8; MOST_DIGITS]
    ensures as_many_as_a_record_holds { result ≡ replicate 20 0 }
{
    [0u8; MOST_DIGITS]
}

/// The record of some digits with more behind them, at most 20 together, and noughts after them.
fn extended(known: &[u8], more: &[u8]) -> Digits
    requires few { length known.now + length more.now ≤ 20 }
    ensures one_behind_the_other { result ≡ recorded (known.now ++ more.now) }
{
    let mut octets = noughts();
    lay(&mut octets, 0, known);
    lay(&mut octets, known.len(), more);
    Digits {
        octets,
        count: known.len() + more.len(),
    }
}

/// The record of some digits.
pub fn recorded(digits: Dialled<'_>) -> Digits
    ensures these_digits { result ≡ recorded digits.entry.octets.now }
{
    extended(digits.octets, &[])
}

/// The digits of a record: its first octets, as many as it counts and at most 20.
pub fn meant(digits: &Digits) -> &[u8]
    ensures at_most_20 { result.now ≡ meant digits.now }
{
    &digits.octets[..digits.count.min(MOST_DIGITS)]
}

/// The digits of a record with more behind them, or nothing where these are more than 20 together.
pub fn joined(known: Digits, more: &[u8]) -> Option<Digits>
    ensures joined_unless_too_many { result ≡ record_of (meant known ++ more.now) }
{
    let held = meant(&known);
    if held.len() + more.len() <= MOST_DIGITS {
        Some(extended(held, more))
    } else {
        None
    }
}

/// Whether a record has no digit.
pub fn is_nothing(digits: Digits) -> bool
    ensures no_digit { result ≡ is_nothing (meant digits) }
{
    meant(&digits).is_empty()
}
