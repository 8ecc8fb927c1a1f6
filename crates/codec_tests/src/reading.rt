use message_text::{Answer, answer_to};
use std::alloc::Global;
use std::process::Abort;
use std::test::Fail;

/// The shortest message of each type, elements alone and together, skipped and repeated ones, up to 254 digits.
const READ: [(&str, &str); 29] = [
    (
        "0802000101",
        "= exchange ALERTING flag=0 reference=1 octets=0802000101",
    ),
    (
        "0802000102",
        "= exchange CALL PROCEEDING flag=0 reference=1 octets=0802000102",
    ),
    (
        "0802000103",
        "= exchange PROGRESS flag=0 reference=1 octets=0802000103",
    ),
    (
        "0802000107",
        "= exchange CONNECT flag=0 reference=1 octets=0802000107",
    ),
    (
        "080200010D",
        "= exchange SETUP ACKNOWLEDGE flag=0 reference=1 octets=080200010D",
    ),
    (
        "080200010F",
        "= exchange CONNECT ACKNOWLEDGE flag=0 reference=1 octets=080200010F",
    ),
    (
        "0802000145",
        "= exchange DISCONNECT flag=0 reference=1 octets=0802000145",
    ),
    (
        "080200014D",
        "= exchange RELEASE flag=0 reference=1 octets=080200014D",
    ),
    (
        "080200015A",
        "= exchange RELEASE COMPLETE flag=0 reference=1 octets=080200015A",
    ),
    (
        "080200017B",
        "= exchange INFORMATION flag=0 reference=1 octets=080200017B",
    ),
    (
        "0802FFFF07",
        "= exchange CONNECT flag=1 reference=32767 octets=0802FFFF07",
    ),
    (
        "08020001051803A98381700180",
        "= exchange SETUP flag=0 reference=1 channel=1/exclusive digits=- octets=080200010504038090A31803A98381700180",
    ),
    (
        "08020001051803A183FF70028031",
        "= exchange SETUP flag=0 reference=1 channel=127/preferred digits=1 octets=080200010504038090A31803A183FF70028031",
    ),
    (
        "080200010570028031A11803A98387",
        "= exchange SETUP flag=0 reference=1 complete channel=7/exclusive digits=1 octets=0802000105A104038090A31803A9838770028031",
    ),
    (
        "08020001 05 A1 04038090A3 08028FFF 1803A98387 1E0281FF 700D80 303132333435363738392A23",
        "= exchange SETUP flag=0 reference=1 complete cause=127 location=15 channel=7/exclusive progress=127 digits=0123456789*# octets=0802000105A104038090A308028FFF1803A983871E0281FF700D80303132333435363738392A23",
    ),
    (
        "0802000145 80 8F A0 FF 08028590",
        "= exchange DISCONNECT flag=0 reference=1 cause=16 location=5 octets=080200014508028590",
    ),
    (
        "0802000145 2A00 08028590 7E03010203",
        "= exchange DISCONNECT flag=0 reference=1 cause=16 location=5 octets=080200014508028590",
    ),
    (
        "0802000145 6C0281 31 08028590",
        "= exchange DISCONNECT flag=0 reference=1 cause=16 location=5 octets=080200014508028590",
    ),
    (
        "0802000145 7EFF90909090909090909090909090909090909090909090909090909090909090909090909090909090909090909090909090909090909090909090909090909090909090909090909090909090909090909090909090909090909090909090909090909090909090909090909090909090909090909090909090909090909090909090909090909090909090909090909090909090909090909090909090909090909090909090909090909090909090909090909090909090909090909090909090909090909090909090909090909090909090909090909090909090909090909090909090909090909090909090909090909090909090909090909090909008028590",
        "= exchange DISCONNECT flag=0 reference=1 cause=16 location=5 octets=080200014508028590",
    ),
    (
        "0802000145 0803859041",
        "= exchange DISCONNECT flag=0 reference=1 cause=16 location=5 octets=080200014508028590",
    ),
    (
        "0802000145 08028590 08028091",
        "= exchange DISCONNECT flag=0 reference=1 cause=16 location=5 octets=080200014508028590",
    ),
    (
        "0802000145 08028590 0800",
        "= exchange DISCONNECT flag=0 reference=1 cause=16 location=5 octets=080200014508028590",
    ),
    (
        "0802000105 1803A98387 1803A98300 70028031 7000",
        "= exchange SETUP flag=0 reference=1 channel=7/exclusive digits=1 octets=080200010504038090A31803A9838770028031",
    ),
    (
        "0802000103 1E028188 1E0181",
        "= exchange PROGRESS flag=0 reference=1 progress=8 octets=08020001031E028188",
    ),
    (
        "080200017B A1A1 700280317003803261",
        "= exchange INFORMATION flag=0 reference=1 complete digits=1 octets=080200017BA170028031",
    ),
    (
        "0802000145 0802E590",
        "= exchange DISCONNECT flag=0 reference=1 cause=16 location=5 octets=080200014508028590",
    ),
    (
        "080200017B7015 803132333435363738393031323334353637383930",
        "= exchange INFORMATION flag=0 reference=1 digits=12345678901234567890 octets=080200017B7015803132333435363738393031323334353637383930",
    ),
    (
        "080200017B7016 80313233343536373839303132333435363738393031",
        "= exchange INFORMATION flag=0 reference=1 digits=123456789012345678901 unwritable 10",
    ),
    (
        "080200017B70FF 803939393939393939393939393939393939393939393939393939393939393939393939393939393939393939393939393939393939393939393939393939393939393939393939393939393939393939393939393939393939393939393939393939393939393939393939393939393939393939393939393939393939393939393939393939393939393939393939393939393939393939393939393939393939393939393939393939393939393939393939393939393939393939393939393939393939393939393939393939393939393939393939393939393939393939393939393939393939393939393939393939393939393939393939393939",
        "= exchange INFORMATION flag=0 reference=1 digits=99999999999999999999999999999999999999999999999999999999999999999999999999999999999999999999999999999999999999999999999999999999999999999999999999999999999999999999999999999999999999999999999999999999999999999999999999999999999999999999999999999999999999 unwritable 10",
    ),
];

/// One octet string for each check and for each place that it can name, and for each order of two checks.
const REFUSED: [(&str, &str); 45] = [
    ("08", "= refused 1 at 1: fewer than five octets"),
    ("08020005", "= refused 1 at 4: fewer than five octets"),
    ("09", "= refused 1 at 1: fewer than five octets"),
    (
        "0902000545",
        "= refused 2 at 0: octets 0 and 1 are not 08 02",
    ),
    (
        "0803000545",
        "= refused 2 at 1: octets 0 and 1 are not 08 02",
    ),
    (
        "0902800005",
        "= refused 2 at 0: octets 0 and 1 are not 08 02",
    ),
    (
        "0902000000",
        "= refused 2 at 0: octets 0 and 1 are not 08 02",
    ),
    (
        "0802000006",
        "= refused 3 at 4: the message type is unknown",
    ),
    (
        "0802000500",
        "= refused 3 at 4: the message type is unknown",
    ),
    (
        "08020005FF",
        "= refused 3 at 4: the message type is unknown",
    ),
    (
        "0802000045",
        "= refused 7 at 2: call reference 0, or SETUP with flag 1",
    ),
    (
        "0802800045",
        "= refused 7 at 2: call reference 0, or SETUP with flag 1",
    ),
    (
        "0802800505",
        "= refused 7 at 2: call reference 0, or SETUP with flag 1",
    ),
    (
        "08028001059F",
        "= refused 7 at 2: call reference 0, or SETUP with flag 1",
    ),
    (
        "080200014508",
        "= refused 4 at 5: an element runs past the end",
    ),
    (
        "08020001450801",
        "= refused 4 at 5: an element runs past the end",
    ),
    (
        "0802000145080290",
        "= refused 4 at 5: an element runs past the end",
    ),
    (
        "080200014508028590 7004 803132",
        "= refused 4 at 9: an element runs past the end",
    ),
    (
        "08020001457EFF0000000000000000000000000000000000000000000000000000000000000000000000000000000000000000000000000000000000000000000000000000000000000000000000000000000000000000000000000000000000000000000000000000000000000000000000000000000000000000000000000000000000000000000000000000000000000000000000000000000000000000000000000000000000000000000000000000000000000000000000000000000000000000000000000000000000000000000000000000000000000000000000000000000000000000000000000000000000000000000000000000000000000000000000000000",
        "= refused 4 at 5: an element runs past the end",
    ),
    (
        "0802000145 0802 85",
        "= refused 4 at 5: an element runs past the end",
    ),
    (
        "0802000105 9F 7005",
        "= refused 5 at 5: an element breaks its layout",
    ),
    (
        "0802000145 90",
        "= refused 5 at 5: an element breaks its layout",
    ),
    (
        "0802000145 9F",
        "= refused 5 at 5: an element breaks its layout",
    ),
    (
        "0802000145 2A00 95",
        "= refused 5 at 7: an element breaks its layout",
    ),
    (
        "0802000145 0800",
        "= refused 5 at 5: an element breaks its layout",
    ),
    (
        "0802000145 080190",
        "= refused 5 at 5: an element breaks its layout",
    ),
    (
        "0802000145 08020590",
        "= refused 5 at 5: an element breaks its layout",
    ),
    (
        "0802000145 08028510",
        "= refused 5 at 5: an element breaks its layout",
    ),
    (
        "0802000105 1802A983 700180",
        "= refused 5 at 5: an element breaks its layout",
    ),
    (
        "0802000105 1804A9838700 700180",
        "= refused 5 at 5: an element breaks its layout",
    ),
    (
        "0802000105 1803A88387 700180",
        "= refused 5 at 5: an element breaks its layout",
    ),
    (
        "0802000105 1803A98287 700180",
        "= refused 5 at 5: an element breaks its layout",
    ),
    (
        "0802000105 1803A98380 700180",
        "= refused 5 at 5: an element breaks its layout",
    ),
    (
        "0802000105 1803A98307 700180",
        "= refused 5 at 5: an element breaks its layout",
    ),
    (
        "0802000103 1E0181",
        "= refused 5 at 5: an element breaks its layout",
    ),
    (
        "0802000103 1E03818880",
        "= refused 5 at 5: an element breaks its layout",
    ),
    (
        "0802000103 1E020188",
        "= refused 5 at 5: an element breaks its layout",
    ),
    (
        "0802000103 1E028108",
        "= refused 5 at 5: an element breaks its layout",
    ),
    (
        "080200017B 7000",
        "= refused 5 at 5: an element breaks its layout",
    ),
    (
        "080200017B 70020031",
        "= refused 5 at 5: an element breaks its layout",
    ),
    (
        "080200017B 70028041",
        "= refused 5 at 5: an element breaks its layout",
    ),
    (
        "080200017B A1 700380312B",
        "= refused 5 at 6: an element breaks its layout",
    ),
    (
        "0802000105",
        "= refused 6 at 5: SETUP without channel or called number",
    ),
    (
        "0802000105 1803A98387",
        "= refused 6 at 10: SETUP without channel or called number",
    ),
    (
        "0802000105A1 70028031",
        "= refused 6 at 10: SETUP without channel or called number",
    ),
];

fn holds(rt: &impl Abort, heap: Global, cases: &[(&str, &str)]) -> Result<(), Fail> {
    for (octets, told) in cases {
        let line = match answer_to(heap, octets.as_bytes())? {
            Answer::Message(line) | Answer::Refused(line) => line,
            Answer::NotHex => return Err(Fail::new("not hex")),
        };
        assert_eq!(rt; line.as_str(), *told, "{octets}");
    }
    Ok(())
}

#[test]
fn messages_are_read(rt: HostRuntime) -> Result<(), Fail> {
    holds(&rt, rt.alloc(), &READ)
}

#[test]
fn damage_is_refused(rt: HostRuntime) -> Result<(), Fail> {
    holds(&rt, rt.alloc(), &REFUSED)
}
