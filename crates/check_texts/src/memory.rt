//! A trace is read while memory runs out, because a heap is full for a while, and once more with memory.
use kpn_history::Event;
use kpn_trace::{TraceFault, read_trace};
use linked_list_allocator::LocalHeap;
use std::test::Fail;

const TEXT: &[u8] = b"kpn-trace 1\nfeed 0 5\nclose 0\nget 0 0 5\n";

const EVENTS: [Event; 3] = [Event::Feed(0, 5), Event::Close(0), Event::Get(0, 0, 5)];

// Whether reading the text fails because memory runs out.
fn is_refused(heap: &LocalHeap) -> bool {
    matches!(read_trace(heap, TEXT), Err(TraceFault::NoMemory))
}

fn is_read(heap: &LocalHeap) -> bool {
    match read_trace(heap, TEXT) {
        Ok(trace) => trace.events.as_slice() == EVENTS.as_slice(),
        Err(_) => false,
    }
}

#[test]
fn trace_is_read_again_after_a_refusal(rt: HostRuntime) -> Result<(), Fail> {
    let heap = LocalHeap::new(rt.alloc(), 256)?;
    let filling = Vec::<u8, &LocalHeap>::with_capacity(&heap, 256)?;
    assert!(rt; is_refused(&heap));
    filling.destroy_empty();
    assert!(rt; is_read(&heap));
    Ok(())
}
