// Q.850 causes of QSIG clearing and SIP statuses, each turned into the other by a constant table.
#![tactic(auto)]

ghost use Rattle.std.specs.Prelude.{◌≡◌, ◌≤◌, true};
ghost use Rattle.causes.specs.Mapping.{status_rows, second_of, Between, status_of, location_of, cause_of, counted_cause};
ghost use Rattle.causes.specs.Names.{normal_unspecified};
ghost use Rattle.causes.specs.Examples.{CauseExamples};

use messages::Cause;

mod names;

pub use names::{
    ADDRESS_INCOMPLETE, CALL_REJECTED, CHANNEL_UNAVAILABLE, DECLINE, FIRST_FAILURE, FIRST_STATUS,
    INVALID_CALL_REFERENCE, INVALID_NUMBER_FORMAT, LAST_STATUS, NO_CHANNEL_AVAILABLE,
    NORMAL_CLEARING, NORMAL_UNSPECIFIED, NOT_FOUND, OK, RECOVERY_ON_TIMER_EXPIRY,
    REMOTE_PRIVATE_NETWORK, REQUEST_TERMINATED, REQUEST_TIMEOUT, RINGING, SERVER_INTERNAL_ERROR,
    SERVICE_UNAVAILABLE, SESSION_PROGRESS, SWITCHING_EQUIPMENT_CONGESTION, TEMPORARILY_UNAVAILABLE,
    USER, USER_BUSY,
};

// A cause value and the status that answers an INVITE whose call was cleared with it.
// Numbers of one type in both tables: over type parameters the promise of `beside` would speak of each type's own equality in place of numbers.
const CAUSE_TO_STATUS: [(u16, u16); 30] = [
    (1, 404),
    (2, 404),
    (3, 404),
    (16, 500),
    (17, 486),
    (18, 408),
    (19, 480),
    (20, 480),
    (21, 403),
    (22, 410),
    (23, 410),
    (27, 502),
    (28, 484),
    (29, 501),
    (31, 480),
    (34, 503),
    (38, 503),
    (41, 503),
    (42, 503),
    (47, 503),
    (55, 403),
    (57, 403),
    (58, 503),
    (65, 488),
    (69, 501),
    (70, 488),
    (79, 501),
    (87, 403),
    (88, 503),
    (102, 504),
];

// A status that refuses an INVITE and the cause value with which its call is cleared.
const STATUS_TO_CAUSE: [(u16, u16); 37] = [
    (400, 41),
    (401, 21),
    (402, 21),
    (403, 21),
    (404, 1),
    (405, 63),
    (406, 79),
    (407, 21),
    (408, 102),
    (410, 22),
    (413, 127),
    (414, 127),
    (415, 79),
    (416, 127),
    (420, 127),
    (421, 127),
    (423, 127),
    (480, 18),
    (481, 41),
    (482, 25),
    (483, 25),
    (484, 28),
    (485, 1),
    (486, 17),
    (487, 31),
    (488, 31),
    (500, 41),
    (501, 79),
    (502, 38),
    (503, 41),
    (504, 102),
    (505, 127),
    (513, 127),
    (600, 17),
    (603, 21),
    (604, 1),
    (606, 31),
];

// What stands beside `key` in the first row that begins with it, or `other` where no row does.
fn beside(rows: &[(u16, u16)], key: u16, other: u16) -> u16
    ensures value { result ≡ second_of rows.now key other }
    ensures between { Between rows.now other result }
{
    rows.iter()
        .find(|(known, _)| *known == key)
        .map_or(other, |(_, answer)| *answer)
}

// The status of the final response to an INVITE whose call was cleared with this cause.
pub fn status_of(cause: Cause) -> u16
    ensures status_of_the_cause { result ≡ status_of cause.value cause.location }
    ensures final_failure { (300 ≤ result) × (result ≤ 699) }
{
    if cause.value == CALL_REJECTED && cause.location == USER {
        DECLINE
    } else {
        beside(
            &CAUSE_TO_STATUS,
            u16::from(cause.value),
            SERVER_INTERNAL_ERROR,
        )
    }
}

// The cause value that counts for a clearing message, which need not carry one.
pub fn counted_cause(cause: Option<u8>) -> u8
    ensures absent_counts_as_unspecified { result ≡ counted_cause cause }
{
    cause.unwrap_or(NORMAL_UNSPECIFIED)
}

// The cause value for a final response with this status, as its element can hold it.
fn listed_cause(status: u16) -> u16
    ensures cause_of_the_status { result ≡ second_of status_rows status normal_unspecified }
    ensures seven_bits { (0 ≤ result) × (result ≤ 127) }
{
    beside(&STATUS_TO_CAUSE, status, u16::from(NORMAL_UNSPECIFIED))
}

// Where the cause for a status comes from: 6xx responses speak for the user.
fn location_of(status: u16) -> u8
    ensures location_of_the_status { result ≡ location_of status }
{
    match status {
        600..=699 => USER,
        _ => REMOTE_PRIVATE_NETWORK,
    }
}

// The cause with which a final response of this status clears the call.
pub fn cause_of(status: u16) -> Cause
    ensures cause_and_location_of_the_status { (result.value, result.location) ≡ cause_of status }
    ensures fits_the_element { (result.value ≤ 127) × (result.location ≤ 15) }
{
    Cause {
        value: listed_cause(status) as u8,
        location: location_of(status),
    }
}

// Single answers that both tables have to give; true, as the calls do give them.
pub fn cause_examples_stand() -> bool
    ensures examples { CauseExamples }
    ensures so_answered { result ≡ true }
{
    let busy_here = Cause {
        value: USER_BUSY,
        location: REMOTE_PRIVATE_NETWORK,
    };
    let busy_everywhere = Cause {
        location: USER,
        ..busy_here
    };
    let rejected_elsewhere = Cause {
        value: CALL_REJECTED,
        ..busy_here
    };
    let rejected_by_user = Cause {
        value: CALL_REJECTED,
        ..busy_everywhere
    };
    cause_of(486) == busy_here
        && cause_of(600) == busy_everywhere
        && status_of(rejected_by_user) == 603
        && status_of(rejected_elsewhere) == 403
}
