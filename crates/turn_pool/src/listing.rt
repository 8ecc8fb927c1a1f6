//! Which lists make a pool.
ghost use Rattle.std.specs.Prelude.{◌≡◌, false, if◌then◌else◌, MatchBool, nat_lt};
ghost use Rattle.turn_pool.specs.Lists.{times};
ghost use Rattle.turn_pool.specs.Listing.{counted, number, Different, Fits};

// From 1 to 64 channels.
fn is_channel_count(n: usize) -> bool
    ensures exactly_from_1_to_64 { result ≡ counted n }
{
    (1..=64).contains(&n)
}

// From 1 to 127.
fn is_channel_number(c: u8) -> bool
    ensures exactly_from_1_to_127 { result ≡ number c }
{
    (1..=127).contains(&c)
}

// A channel number that does not stand among those before it.
#[tactic(auto, using(crate::proofs::Counts::times_any))]
fn is_new(before: &[u8], c: u8) -> bool
    ensures exactly_a_number_not_before { result ≡ (if nat_lt 0 (times c before.now) then false else number c) }
{
    is_channel_number(c) && !before.contains(&c)
}

// Channel numbers, and none twice.
fn are_different(list: &[u8]) -> bool
    ensures exactly_different_numbers { MatchBool result (Different list.now) (Different list.now → ⊥) }
{
    list.iter().enumerate().all(|(i, c)| is_new(&list[..i], *c))
}

/// Is this a list of 1 to 64 different channel numbers?
pub(crate) fn is_turn_list(list: &[u8]) -> bool
    ensures exactly_where_it_fits { MatchBool result (Fits list.now) (Fits list.now → ⊥) }
{
    is_channel_count(list.len()) && are_different(list)
}
