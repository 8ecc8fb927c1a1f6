//! Calls that a key finds.
use super::play::Entry::*;
use super::play::Step::{self, *};
use super::play::goes_otherwise;
use call_table::{Key, Table, Trunk};
use calls::{ExchangeSide, SipSide, Told};
use link_pool::LinkPool;
use messages::{CallReference, Cause};

const INVITED: SipSide = SipSide::InviteSent {
    told: Told {
        alerting: false,
        interworking: false,
        inband: false,
    },
};

const UNANSWERED: SipSide = SipSide::InviteUnanswered {
    transaction: 40,
    dialogue: 50,
};

const CLEARED: ExchangeSide = ExchangeSide::DisconnectSent {
    cause: Cause {
        value: 16,
        location: 4,
    },
};

const UP: SipSide = SipSide::Up { dialogue: 51 };

const ANOTHER_UP: SipSide = SipSide::Up { dialogue: 52 };

/// Calls in every state that a key asks for.
const ENTRIES: [Step; 6] = [
    Enter(
        3,
        FromExchange(5, 5, ExchangeSide::Collecting, SipSide::None),
        true,
    ),
    Enter(
        4,
        FromExchange(6, 6, ExchangeSide::Proceeding, INVITED),
        true,
    ),
    Enter(5, FromExchange(7, 7, CLEARED, SipSide::CancelSent), true),
    Enter(6, ToExchange(5, ExchangeSide::SetupSent, UNANSWERED), true),
    Enter(62, FromExchange(9, 1, ExchangeSide::Up, ANOTHER_UP), true),
    Enter(63, ToExchange(8, ExchangeSide::Up, UP), true),
];

/// Keys, and the places of the calls that they find among the entries.
const FINDINGS: [(&str, Key, Option<usize>); 18] = [
    (
        "reference",
        Key::Reference(CallReference {
            flag: false,
            number: 5,
        }),
        Some(3),
    ),
    (
        "reference with the other flag",
        Key::Reference(CallReference {
            flag: true,
            number: 5,
        }),
        Some(6),
    ),
    (
        "no such reference with this flag",
        Key::Reference(CallReference {
            flag: false,
            number: 8,
        }),
        None,
    ),
    ("transaction", Key::Transaction(40), Some(6)),
    ("no such transaction", Key::Transaction(50), None),
    (
        "dialogue of an unanswered INVITE",
        Key::Dialogue(50),
        Some(6),
    ),
    ("dialogue of a call that is up", Key::Dialogue(51), Some(63)),
    ("no such dialogue", Key::Dialogue(40), None),
    ("number, SIP side not begun", Key::Number(5), Some(3)),
    ("no such number", Key::Number(8), None),
    ("number beside another reference", Key::Number(1), Some(62)),
    ("a reference is no number", Key::Number(9), None),
    ("live number, SIP side not begun", Key::LiveNumber(5), None),
    ("live number, INVITE out", Key::LiveNumber(6), Some(4)),
    ("live number, CANCEL out", Key::LiveNumber(7), Some(5)),
    (
        "awaited number, SIP side not begun",
        Key::AwaitedNumber(5),
        None,
    ),
    ("awaited number, INVITE out", Key::AwaitedNumber(6), Some(4)),
    ("awaited number, CANCEL out", Key::AwaitedNumber(7), Some(5)),
];

/// The reference of the call that is entered below.
const REFERENCE: Key = Key::Reference(CallReference {
    flag: false,
    number: 7,
});

/// The same number as the other end would have given it out.
const OTHER_FLAG: Key = Key::Reference(CallReference {
    flag: true,
    number: 7,
});

/// The exchange side of a call ends, and the call stays without its channel.
const STAYS: [Step; 12] = [
    Enter(
        0,
        FromExchange(7, 7, ExchangeSide::Up, SipSide::CancelSent),
        true,
    ),
    Holds(0, Some(31)),
    Free(Some(1)),
    EndExchangeSide(OTHER_FLAG, None), // no such call
    EndExchangeSide(REFERENCE, Some(31)),
    Idle(31, true),
    Holds(0, None),
    Free(Some(1)), // its place is not free
    Finds(REFERENCE, None), // its reference means no call
    Finds(Key::Number(7), Some(0)), // its number still does
    Vacate(0, None), // no token comes out
    Free(Some(0)),
];

#[test]
fn every_way_of_finding(rt: HostRuntime) {
    let mut trunk = Trunk::new(LinkPool::new());
    let mut table = Table::new();
    for (what, key, _) in FINDINGS {
        let otherwise = goes_otherwise(&mut trunk, &mut table, &[Finds(key, None)]);
        assert_eq!(rt; otherwise, None, "{what}");
    }
    assert_eq!(rt; goes_otherwise(&mut trunk, &mut table, &ENTRIES), None);
    for (what, key, place) in FINDINGS {
        let otherwise = goes_otherwise(&mut trunk, &mut table, &[Finds(key, place)]);
        assert_eq!(rt; otherwise, None, "{what}");
    }
}

#[test]
fn a_call_that_stays_without_its_channel(rt: HostRuntime) {
    let mut trunk = Trunk::new(LinkPool::new());
    let otherwise = goes_otherwise(&mut trunk, &mut Table::new(), &STAYS);
    assert_eq!(rt; otherwise, None);
}
