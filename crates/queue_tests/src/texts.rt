use queues::queue::{Queue, Refused};
use std::alloc::{AllocError, Global};
use std::test::Fail;

/// Makes a text and puts it into the queue; answers what came back, if the queue was full.
fn put(
    queue: &mut Queue<'_, String>,
    heap: Global,
    text: &str,
) -> Result<Option<Refused<String>>, AllocError> {
    Ok(queue.put(String::from_str(heap, text)?).err())
}

/// Whether the text that waits first is this one, or none waits where none is said.
fn takes(queue: &mut Queue<'_, String>, said: Option<&str>) -> bool {
    match (queue.take(), said) {
        (Some(text), Some(said)) => text.as_str() == said,
        (None, None) => true,
        _ => false,
    }
}

/// Whether this text came back because the queue was full.
fn came_back(heap: Global, back: Option<Refused<String>>, text: &str) -> Result<bool, AllocError> {
    let Some(refused) = back else {
        return Ok(false);
    };
    let printed = format!(in heap; "{refused}")?;
    Ok(
        refused.ground.number() == 23
            && refused.message.as_str() == text
            && printed.as_str() == "not enough free places in an outgoing queue",
    )
}

// A full queue hands the text back with its ground, and keeps what waits.
#[test]
fn one_place(rt: HostRuntime) -> Result<(), Fail> {
    let heap = rt.alloc();
    let mut places = [None];
    let mut queue = Queue::new(&mut places);
    assert!(rt; put(&mut queue, heap, "SETUP")?.is_none());
    let back = put(&mut queue, heap, "RELEASE")?;
    assert!(rt; came_back(heap, back, "RELEASE")?);
    assert!(rt; takes(&mut queue, Some("SETUP")));
    assert!(rt; takes(&mut queue, None));
    Ok(())
}
