//! Places that take no call, and a table whose places are all taken.
use super::play::Step::{self, *};
use super::play::{Entry, goes_otherwise};
use crate::call_on;
use call_table::{Key, Table, Trunk};
use calls::{ExchangeSide, SipSide};
use link_pool::LinkPool;
use messages::CallReference;

const OVER: Entry = Entry::FromExchange(1, 1, ExchangeSide::Over, SipSide::CancelSent);

/// The reference of the calls that are entered by a wish.
const REFERENCE: Key = Key::Reference(CallReference {
    flag: false,
    number: 1,
});

/// What a table refuses from the start.
const PLAYS: [(&str, &[Step]); 2] = [
    (
        "places that are not free",
        &[
            Exactly(63, 1, Some(1)), // the last place
            Exactly(63, 2, None),
            Idle(2, true), // released again
            Holds(63, Some(1)),
            Exactly(64, 2, None), // no such place
            Idle(2, true),
            Holds(64, None),
            Vacate(64, None),
            Vacate(5, None), // a free place
        ],
    ),
    (
        "a call whose exchange side is over holds no channel",
        &[Enter(0, OVER, false), Idle(31, true), Free(Some(0))],
    ),
];

#[test]
fn what_a_table_refuses(rt: HostRuntime) {
    for (what, steps) in PLAYS {
        let mut trunk = Trunk::new(LinkPool::new());
        let otherwise = goes_otherwise(&mut trunk, &mut Table::new(), steps);
        assert_eq!(rt; otherwise, None, "{what}");
    }
}

#[test]
fn a_call_on_another_channel_than_its_token(rt: HostRuntime) {
    let mut trunk = Trunk::new(LinkPool::new());
    let token = trunk.seize(4).expect(&rt, "channel 4 is idle");
    let token = Table::new()
        .enter(0, call_on(5), token)
        .expect_err(&rt, "on another channel");
    assert!(rt; trunk.release(token));
}

#[test]
fn a_full_table(rt: HostRuntime) {
    let mut trunk = Trunk::new(LinkPool::new());
    let mut table = Table::new();
    for place in 0..64 {
        let stays = [
            Exactly(place, 1, Some(1)),
            EndExchangeSide(REFERENCE, Some(1)),
        ];
        let otherwise = goes_otherwise(&mut trunk, &mut table, &stays);
        assert_eq!(rt; otherwise, None, "at {place}");
    }
    let freed = [Free(None), Vacate(20, None), Free(Some(20))];
    assert_eq!(rt; goes_otherwise(&mut trunk, &mut table, &freed), None);
}
