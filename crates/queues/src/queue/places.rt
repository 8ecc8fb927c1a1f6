//! Which place of a ring is next.
ghost use Rattle.std.specs.Prelude.{◌≡◌, ◌<◌, ◌≤◌};
ghost use Rattle.queues.specs.Ring.{behind, place_after};

// The place behind `len` used ones that begin at `first`, where one of `count` is free.
pub(super) fn place_behind(first: usize, len: usize, count: usize) -> usize
    requires inside { first ≤ count }
    requires free { len < count }
    ensures next_free_place { result ≡ behind first len count }
    ensures within { result < count }
{
    let up_to_the_end = count - first;
    if len < up_to_the_end {
        first + len
    } else {
        len - up_to_the_end
    }
}

// The place after `at`, which after the last is the first.
pub(super) fn place_after(at: usize, count: usize) -> usize
    requires within { at < count }
    ensures next_place { result ≡ place_after at count }
    ensures inside { result < count }
{
    if at + 1 == count { 0 } else { at + 1 }
}
