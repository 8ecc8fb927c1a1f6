//! Calls that are entered by a wish for a channel.
use super::play::Step::{self, *};
use super::play::goes_otherwise;
use call_table::{Table, Trunk};
use link_pool::LinkPool;
use std::test::Fail;
use turn_pool::TurnPool;

const OVER_A_LINK: [Step; 11] = [
    Largest(31),
    Exactly(0, 7, Some(7)), // idle
    Exactly(1, 7, None), // not idle
    Rather(1, 8, Some(8)), // idle
    Rather(2, 7, Some(31)), // not idle
    Exactly(3, 16, None), // unknown
    Rather(3, 16, Some(30)), // unknown
    Vacate(0, Some(7)),
    Idle(7, true),
    Holds(0, None),
    Holds(3, Some(30)),
];

/// From the channels 9, 16 and 2.
const OVER_CHANNELS_THAT_TAKE_TURNS: [Step; 9] = [
    Largest(127),
    Exactly(0, 16, Some(16)), // idle
    Exactly(1, 16, None), // not idle
    Rather(1, 16, Some(9)), // not idle
    Rather(2, 3, Some(2)), // unknown
    Rather(3, 2, None), // none is idle
    Vacate(2, Some(2)),
    Vacate(0, Some(16)),
    Rather(0, 9, Some(2)), // the longest idle
];

#[test]
fn a_wish_over_a_link(rt: HostRuntime) {
    let mut trunk = Trunk::new(LinkPool::new());
    let otherwise = goes_otherwise(&mut trunk, &mut Table::new(), &OVER_A_LINK);
    assert_eq!(rt; otherwise, None);
}

#[test]
fn a_wish_over_channels_that_take_turns(rt: HostRuntime) -> Result<(), Fail> {
    let mut trunk = Trunk::new(TurnPool::new(&[9, 16, 2])?);
    let otherwise = goes_otherwise(
        &mut trunk,
        &mut Table::new(),
        &OVER_CHANNELS_THAT_TAKE_TURNS,
    );
    assert_eq!(rt; otherwise, None);
    Ok(())
}
