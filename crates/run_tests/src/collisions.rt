use calls::{Answer, SipMessage};
use gateway::{Gateway, Outgoing};
use messages::MessageType;
use runs::{Event, NotPlayed, open_and_run};
use std::alloc::{AllocError, Global};
use std::test::Fail;
use turn_pool::TurnPool;
use worked_examples::joint_examples;

/// RELEASE COMPLETE with cause 44 to the SETUP on channel 7.
const UNAVAILABLE: [u8; 9] = [0x08, 0x02, 0x80, 0x07, 0x5a, 0x08, 0x02, 0x80, 0xac];

/// An INVITE to 417, the exchange's refusal of the channel, and an event for each message that is then taken.
fn refused_channel(heap: Global) -> Result<Vec<Event>, AllocError> {
    let digits = vec![in heap; b'4', b'1', b'7']?;
    let octets = UNAVAILABLE.as_slice().to_vec(heap)?;
    let mut events = Vec::new(heap);
    events.push(Event::Invite {
        transaction: 30,
        dialogue: 70,
        digits,
    })?;
    events.push(Event::Exchange { octets })?;
    events.push(Event::TakeExchange)?;
    events.push(Event::TakeExchange)?;
    events.push(Event::TakeExchange)?;
    events.push(Event::TakeSip)?;
    Ok(events)
}

/// What a step reports as seized and released, or that it was refused.
fn channels(answer: Answer) -> Option<(Option<u8>, Option<u8>)> {
    match answer {
        Answer::Step(Ok(report)) => Some((report.seized, report.released)),
        _ => None,
    }
}

/// The type of the exchange message that was taken, and its channel.
fn taken(answer: Answer) -> Option<(MessageType, Option<u8>)> {
    match answer {
        Answer::Exchange(Some(message)) => Some((
            message.kind,
            message.elements.channel.map(|c| c.number),
        )),
        _ => None,
    }
}

/// How many calls stand on a channel.
fn calls_on(gateway: &Gateway<TurnPool>, channel: u8) -> usize {
    (0..64)
        .filter_map(|place| gateway.call_at(place))
        .filter(|call| call.channel == channel)
        .count()
}

#[test]
fn a_refused_channel_brings_setup_on_another(rt: HostRuntime) -> Result<(), Fail> {
    let heap = rt.alloc();
    let events = refused_channel(heap)?;
    let mut exchange = [None; 4];
    let mut sip = [None; 4];
    let pool = TurnPool::new(&[7, 9])?;
    let mut queues = Outgoing::new(&mut exchange, &mut sip);
    let (gateway, answers) = open_and_run(3, 1, pool, heap, events.as_slice(), &mut queues)?;
    assert_eq!(rt; answers.len(), 6);
    assert!(rt;
        channels(answers[0]) == Some((Some(7), None)),
        "the longest idle channel"
    );
    assert!(rt;
        channels(answers[1]) == Some((Some(9), Some(7))),
        "another in its place"
    );
    assert!(rt; taken(answers[2]) == Some((MessageType::Setup, Some(7))));
    assert!(rt; taken(answers[3]) == Some((MessageType::Setup, Some(9))));
    assert!(rt; taken(answers[4]) == None, "nothing else was sent");
    assert!(rt;
        answers[5] == Answer::Sip(None),
        "no final response while the call goes on"
    );
    assert_eq!(rt; calls_on(&gateway, 9), 1);
    assert_eq!(rt; calls_on(&gateway, 7), 0);
    Ok(())
}

#[test]
fn the_worked_example_is_played(rt: HostRuntime) {
    let tried = joint_examples();
    assert!(rt; channels(tried.answers[0]) == Some((Some(7), None)));
    assert!(rt; channels(tried.answers[1]) == Some((Some(9), Some(7))));
    assert!(rt; taken(tried.answers[3]) == Some((MessageType::Setup, Some(9))));
    assert_eq!(rt; calls_on(&tried.gateway, 9), 1);
    assert_eq!(rt; calls_on(&tried.gateway, 7), 0);
}

#[test]
fn settings_out_of_range_open_nothing(rt: HostRuntime) -> Result<(), Fail> {
    let heap = rt.alloc();
    let mut exchange = [None; 2];
    let mut sip = [None; 2];
    for (full, first) in [(0, 1), (21, 1), (3, 0)] {
        let pool = TurnPool::new(&[7])?;
        let mut queues = Outgoing::new(&mut exchange, &mut sip);
        match open_and_run(full, first, pool, heap, &[], &mut queues) {
            Err(NotPlayed::Refused(ground)) => assert_eq!(rt; ground.number(), 11),
            _ => return Err(Fail::new("opened")),
        }
    }
    Ok(())
}

#[test]
fn queues_in_use_are_not_played(rt: HostRuntime) -> Result<(), Fail> {
    let heap = rt.alloc();
    let mut exchange = [None; 2];
    let mut sip = [None; 2];
    let mut queues = Outgoing::new(&mut exchange, &mut sip);
    let waits = SipMessage::Bye { dialogue: 1 };
    let _ = queues.sip.put(waits);
    let pool = TurnPool::new(&[7])?;
    let played = open_and_run(3, 1, pool, heap, &[], &mut queues);
    assert!(rt; played.is_err_and(|why| why == NotPlayed::QueuesInUse));
    assert!(rt; queues.sip.take() == Some(waits), "it waits on");
    Ok(())
}
