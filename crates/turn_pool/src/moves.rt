ghost use Rattle.std.specs.Prelude.{◌≡◌, ◌+◌, ◌≤◌, true, [], ◌∷◌, ◌++◌, length, Some};
ghost use Rattle.turn_pool.specs.Lists.{without, FirstAt};
ghost use Rattle.turn_pool.specs.Moves.{ActsAsSeizure, ActsAsRelease};

use arrayvec::ArrayVec;

/// Takes a channel out of one list, at its first place there, and puts it at the end of the other.
pub(crate) fn move_first(
    from: &mut ArrayVec<u8, 64>,
    to: &mut ArrayVec<u8, 64>,
    place: usize,
    c: u8,
)
    requires room { length from.old.items + length to.old.items ≤ 64 }
    requires stands_there_first { FirstAt (Some place) c from.old.items }
    ensures the_others_stay_in_order { from.new.items ≡ without c from.old.items }
    ensures it_comes_last { to.new.items ≡ to.old.items ++ c ∷ [] }
    ensures none_is_lost { length from.new.items + length to.new.items ≡ length from.old.items + length to.old.items }
    ensures seizes_from_idle_to_seized { ActsAsSeizure true c from.old.items to.old.items from.new.items to.new.items }
    ensures releases_from_seized_to_idle { ActsAsRelease true c from.old.items to.old.items from.new.items to.new.items }
{
    from.remove(place);
    to.push(c);
}

// The first place of a channel among others, if it stands there.
pub(crate) fn place_of(channels: &[u8], c: u8) -> Option<usize>
    ensures first_place { FirstAt result c channels.now }
{
    channels.iter().position(|channel| *channel == c)
}
