ghost use Rattle.std.specs.Prelude.{◌+◌, ◌≤◌, length};
ghost use Rattle.turn_pool.specs.Listing.{Apart};

use arrayvec::ArrayVec;

/// The listed channels: those that are idle, the longest idle first, and those that are seized.
#[derive(Drop)]
pub struct TurnPool {
    pub(crate) idle: ArrayVec<u8, 64>,
    pub(crate) seized: ArrayVec<u8, 64>,
    ghost room: { length idle.items + length seized.items ≤ 64 },
    ghost apart: { Apart idle.items seized.items },
}
