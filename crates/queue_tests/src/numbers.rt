use Step::*;
use queues::few::Few;
use queues::queue::Queue;

/// One call to a queue of numbers, with what it has to answer.
#[derive(Clone, Copy)]
enum Step {
    HasRoom(usize, bool),
    FreePlaces(usize),
    /// Whether the number found a place.
    Put(u8, bool),
    /// Whether all of these found a place.
    PutFew(Few<u8>, bool),
    Take(Option<u8>),
}

fn goes_as_said(queue: &mut Queue<'_, u8>, step: Step) -> bool {
    match step {
        HasRoom(count, said) => queue.has_room(count) == said,
        FreePlaces(said) => queue.free_places() == said,
        Put(number, said) => queue.put(number).is_ok() == said,
        PutFew(few, said) => queue.put_few(few).is_ok() == said,
        Take(said) => queue.take() == said,
    }
}

/// Plays the steps up to the first that goes otherwise than it says, and answers which of them that is.
fn goes_otherwise(queue: &mut Queue<'_, u8>, steps: &[Step]) -> Option<usize> {
    for (at, step) in steps.iter().enumerate() {
        if !goes_as_said(queue, *step) {
            return Some(at);
        }
    }
    None
}

/// Two at a time until fewer than two of three places are left.
const EXHAUSTION: [Step; 7] = [
    HasRoom(3, true),
    PutFew(Few::Two(1, 2), true),
    HasRoom(2, false),
    FreePlaces(1),
    Take(Some(1)),
    Take(Some(2)),
    Take(None),
];

// Numbers leave in the order in which they came while the ring goes round its three places.
#[test]
fn wraps_around(rt: HostRuntime) {
    let mut places = [None; 3];
    let mut queue = Queue::new(&mut places);
    assert_eq!(rt; goes_otherwise(&mut queue, &[Put(0, true)]), None);
    for oldest in 0..7u8 {
        let round = [Put(oldest + 1, true), FreePlaces(1), Take(Some(oldest))];
        assert_eq!(rt; goes_otherwise(&mut queue, &round), None, "at {oldest}");
    }
    assert_eq!(rt;
        goes_otherwise(&mut queue, &[Take(Some(7)), Take(None)]),
        None
    );
}

#[test]
fn exhaustion(rt: HostRuntime) {
    let mut places = [Some(9); 3];
    assert_eq!(rt;
        goes_otherwise(&mut Queue::new(&mut places), &EXHAUSTION),
        None
    );
}

// A queue with no place at all is always full.
#[test]
fn no_place(rt: HostRuntime) {
    assert_eq!(rt;
        goes_otherwise(&mut Queue::new(&mut []), &[Put(1, false)]),
        None
    );
}
