use crate::play::Step::{self, *};
use crate::play::goes_otherwise;
use link_pool::LinkPool;

const ASCENDING: [u8; 30] = [
    1, 2, 3, 4, 5, 6, 7, 8, 9, 10, 11, 12, 13, 14, 15, 17, 18, 19, 20, 21, 22, 23, 24, 25, 26, 27,
    28, 29, 30, 31,
];

const DESCENDING: [u8; 30] = [
    31, 30, 29, 28, 27, 26, 25, 24, 23, 22, 21, 20, 19, 18, 17, 15, 14, 13, 12, 11, 10, 9, 8, 7, 6,
    5, 4, 3, 2, 1,
];

/// What a link does from the start.
const PLAYS: [(&str, &[Step]); 5] = [
    (
        "knows every number up to 31 but 0 and 16",
        &[
            AllIdle(&ASCENDING),
            Idle(0, false),
            Idle(16, false),
            Idle(32, false),
            Idle(255, false),
            Largest(31),
        ],
    ),
    (
        "an unknown number is neither seized nor released",
        &[
            Seize(0, false),
            Seize(16, false),
            Seize(32, false),
            Release(16, false),
            Release(200, false),
        ],
    ),
    (
        "a channel is seized once and released once, and the others stay idle",
        &[
            Release(5, false),
            Seize(5, true),
            Idle(5, false),
            Seize(5, false),
            Idle(4, true),
            Idle(6, true),
            Release(5, true),
            Idle(5, true),
            Release(5, false),
        ],
    ),
    (
        "takes the highest idle channel to exhaustion, and again",
        &[
            SeizeInTurn(&DESCENDING),
            SeizeAny(None),
            Release(4, true),
            Release(20, true),
            Release(9, true),
            SeizeInTurn(&[20, 9, 4]),
            SeizeAny(None),
        ],
    ),
    (
        "all come back",
        &[
            SeizeInTurn(&DESCENDING),
            ReleaseAll(&ASCENDING),
            SeizeAny(Some(31)),
        ],
    ),
];

#[test]
fn plays_of_a_link(rt: HostRuntime) {
    for (what, steps) in PLAYS {
        assert_eq!(rt; goes_otherwise(&mut LinkPool::new(), steps), None, "{what}");
    }
}
