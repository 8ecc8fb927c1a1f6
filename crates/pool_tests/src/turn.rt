use crate::play::Step::{self, *};
use crate::play::goes_otherwise;
use turn_pool::TurnPool;

const FROM_1_TO_65: [u8; 65] = [
    1, 2, 3, 4, 5, 6, 7, 8, 9, 10, 11, 12, 13, 14, 15, 16, 17, 18, 19, 20, 21, 22, 23, 24, 25, 26,
    27, 28, 29, 30, 31, 32, 33, 34, 35, 36, 37, 38, 39, 40, 41, 42, 43, 44, 45, 46, 47, 48, 49, 50,
    51, 52, 53, 54, 55, 56, 57, 58, 59, 60, 61, 62, 63, 64, 65,
];

const FROM_64_TO_127: [u8; 64] = [
    64, 65, 66, 67, 68, 69, 70, 71, 72, 73, 74, 75, 76, 77, 78, 79, 80, 81, 82, 83, 84, 85, 86, 87,
    88, 89, 90, 91, 92, 93, 94, 95, 96, 97, 98, 99, 100, 101, 102, 103, 104, 105, 106, 107, 108,
    109, 110, 111, 112, 113, 114, 115, 116, 117, 118, 119, 120, 121, 122, 123, 124, 125, 126, 127,
];

const FROM_31_TO_94: [u8; 64] = [
    31, 32, 33, 34, 35, 36, 37, 38, 39, 40, 41, 42, 43, 44, 45, 46, 47, 48, 49, 50, 51, 52, 53, 54,
    55, 56, 57, 58, 59, 60, 61, 62, 63, 64, 65, 66, 67, 68, 69, 70, 71, 72, 73, 74, 75, 76, 77, 78,
    79, 80, 81, 82, 83, 84, 85, 86, 87, 88, 89, 90, 91, 92, 93, 94,
];

const FROM_94_TO_31: [u8; 64] = [
    94, 93, 92, 91, 90, 89, 88, 87, 86, 85, 84, 83, 82, 81, 80, 79, 78, 77, 76, 75, 74, 73, 72, 71,
    70, 69, 68, 67, 66, 65, 64, 63, 62, 61, 60, 59, 58, 57, 56, 55, 54, 53, 52, 51, 50, 49, 48, 47,
    46, 45, 44, 43, 42, 41, 40, 39, 38, 37, 36, 35, 34, 33, 32, 31,
];

/// Lists of channels that make no pool, on ground 11.
const REFUSED: [(&str, &[u8]); 6] = [
    ("empty", &[]),
    ("65 numbers", &FROM_1_TO_65),
    ("0", &[1, 2, 0]),
    ("128", &[128, 1, 2]),
    ("255", &[255]),
    ("7 twice", &[7, 8, 9, 7]),
];

/// Lists of channels that make a pool, and what it does from the start.
const PLAYS: [(&str, &[u8], &[Step]); 6] = [
    ("the lowest alone", &[1], &[]),
    ("the highest and the lowest", &[127, 1], &[]),
    (
        "knows the listed channels",
        &[40, 16, 127],
        &[
            AllIdle(&[40, 16, 127]),
            Idle(0, false),
            Idle(41, false),
            Idle(128, false),
            Seize(41, false),
            Release(41, false),
            Release(40, false),
            Largest(127),
        ],
    ),
    (
        "takes the channel that is idle for the longest time",
        &[5, 3, 127, 1],
        &[
            SeizeAny(Some(5)), // at first in list order
            Seize(127, true),
            Seize(127, false),
            SeizeAny(Some(3)), // 127 was taken out of the order
            Release(127, true),
            Release(5, true),
            Release(5, false),
            SeizeAny(Some(1)), // idle from the start
            SeizeAny(Some(127)), // released before 5
            SeizeAny(Some(5)),
            SeizeAny(None),
        ],
    ),
    ("64 numbers", &FROM_64_TO_127, &[]),
    (
        "to exhaustion, and again in the order of release",
        &FROM_31_TO_94,
        &[
            SeizeInTurn(&FROM_31_TO_94),
            SeizeAny(None),
            ReleaseAll(&FROM_94_TO_31),
            SeizeInTurn(&FROM_94_TO_31),
            SeizeAny(None),
        ],
    ),
];

/// Plays the steps over the channels of a list, or answers the number of the ground on which the list is refused.
fn played(list: &[u8], steps: &[Step]) -> Result<Option<usize>, u8> {
    match TurnPool::new(list) {
        Ok(mut pool) => Ok(goes_otherwise(&mut pool, steps)),
        Err(ground) => Err(ground.number()),
    }
}

#[test]
fn lists_that_make_no_pool(rt: HostRuntime) {
    for (what, list) in REFUSED {
        assert_eq!(rt; played(list, &[]), Err(11), "{what}");
    }
}

#[test]
fn plays_over_channels_that_take_turns(rt: HostRuntime) {
    for (what, list, steps) in PLAYS {
        assert_eq!(rt; played(list, steps), Ok(None), "{what}");
    }
}
