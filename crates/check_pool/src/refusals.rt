//! Calls on a heap that is full for a while. Those that want memory are refused it: all is as before, and the repeated
//! call succeeds. The others succeed at once.
ghost use Rattle.std.specs.Prelude.{◌≡◌};
ghost use Rattle.kpn_history.specs.declared.keeping.Keeping.TheVariants.{All};

use crate::always::Always;
use crate::endings::is_ready;
use crate::networks::{copying, pouring};
use crate::outside::shows;
use kpn_net::Network;
use kpn_pool::{Opened, Shared, close, feed, feed_when_room, gather, leave, snapshot, take, work};
use kpn_pool_desk::{Go, Job, Refused, SinkSeat, SnapFault, SourceSeat, Why};
use linked_list_allocator::LocalHeap;
use std::alloc::{AllocError, Global};
use std::marker::Brand;
use std::sync::Wait;
use std::sync::ledger::Blank;
use std::test::Fail;
use std::time::Clock;
use test_support::heaps::fill;

/// How many bytes the heap of a test has.
const HEAP: usize = 16_384;

/// Whether a run is opened.
fn opens<'a, J: Job>(heap: &'a LocalHeap, blank: Blank, network: &Network) -> bool
    requires ledger { (blank.name ≡ J.name) × (blank.parts ≡ J.parts) }
    requires network { network.now ≡ J.network }
    requires kept { J.keeping ≡ All }
    requires one { J.parts ≡ 1 }
{
    let opened: Result<Opened<'_, J, &'a LocalHeap>, AllocError> = Shared::new(
        heap, blank, network, 1, 9,
    );
    opened.is_ok()
}

/// Whether each call that wants memory is refused it and leaves the run empty, in which there is nothing to take.
fn all_refused<'a, J: Job, R: Wait>(
    rt: &R,
    alloc: Global,
    heap: &'a LocalHeap,
    shared: &Shared<'_, J, &'a LocalHeap>,
    source: &mut SourceSeat<&'a LocalHeap>,
    sink: &mut SinkSeat<&'a LocalHeap>,
) -> bool {
    feed(rt, shared, source, 5, 9) == Err(Refused::NoMemory)
        && close(rt, shared, source) == Err(Refused::NoMemory)
        && leave(rt, shared, sink) == Err(Refused::NoMemory)
        && snapshot(rt, heap, shared, source).err() == Some(SnapFault::NoMemory)
        && shared.try_snapshot(heap).is_err()
        && refutes_take_invents_an_item(rt, shared, sink)
        && source.fed().is_empty()
        && shows(&snapshot(rt, alloc, shared, source), &[], &[])
}

/// Whether nothing is taken from a sink on which nothing was put.
fn refutes_take_invents_an_item<'a, J: Job, R: Wait>(
    rt: &R,
    shared: &Shared<'_, J, &'a LocalHeap>,
    sink: &mut SinkSeat<&'a LocalHeap>,
) -> bool {
    take(rt, shared, sink) == Ok(None) && sink.taken().is_empty()
}

/// Feeds by three items at a time until memory is refused for one, and then one item. Returns whether the seat and the
/// run then have what was fed before.
fn refutes_feed_drops_its_item<'a, J: Job, R: Wait + Clock>(
    rt: &R,
    alloc: Global,
    shared: &Shared<'_, J, &'a LocalHeap>,
    source: &mut SourceSeat<&'a LocalHeap>,
) -> bool {
    for item in 0..1_000i64 {
        let before = source.fed().len();
        match feed_when_room(rt, shared, source, &[item, item, item], 1_000) {
            Ok(3) => {}
            Ok(_) => return false,
            Err(refused) => {
                return refused == Refused::NoMemory
                    && source.fed().len() > before
                    && is_refused_one(rt, alloc, shared, source);
            }
        }
    }
    false
}

/// Whether one item more is refused, and the seat and the run have what was fed before.
fn is_refused_one<'a, J: Job, R: Wait>(
    rt: &R,
    alloc: Global,
    shared: &Shared<'_, J, &'a LocalHeap>,
    source: &mut SourceSeat<&'a LocalHeap>,
) -> bool {
    let before = source.fed().len();
    feed(rt, shared, source, 0, 1_000) == Err(Refused::NoMemory)
        && source.fed().len() == before
        && shows(&snapshot(rt, alloc, shared, source), source.fed(), &[])
}

/// A run that is fed. Returns whether all is answered as it has to be, while the heap is full and then.
fn is_fed<'a, J: Job, R: Wait + Clock>(
    rt: &R,
    alloc: Global,
    heap: &'a LocalHeap,
    blank: Blank,
    network: &Network,
) -> Result<bool, AllocError>
    requires ledger { (blank.name ≡ J.name) × (blank.parts ≡ J.parts) }
    requires network { network.now ≡ J.network }
    requires kept { J.keeping ≡ All }
    requires one { J.parts ≡ 1 }
{
    let opened: Opened<'_, J, &'a LocalHeap> = Shared::new(heap, blank, network, 1, 9)?;
    let Opened {
        shared,
        workers: _,
        mut sources,
        mut sinks,
    } = opened;
    let (Some(mut source), Some(mut sink)) = (sources.pop(), sinks.pop()) else {
        return Ok(false);
    };
    let Some(filling) = fill(heap) else {
        return Ok(false);
    };
    let are_refused = all_refused(rt, alloc, heap, &shared, &mut source, &mut sink);
    filling.destroy_empty();
    let is_shown = shows(&snapshot(rt, heap, &shared, &source), &[], &[]);
    let are_fed = refutes_feed_drops_its_item(rt, alloc, &shared, &mut source);
    Ok(are_refused && is_shown && are_fed)
}

/// Feeds an item, closes the source and leaves the sink. Returns whether all succeeds.
fn is_ended<'a, J: Job, R: Wait>(
    rt: &R,
    shared: &Shared<'_, J, &'a LocalHeap>,
    source: &mut SourceSeat<&'a LocalHeap>,
    sink: &SinkSeat<&'a LocalHeap>,
) -> bool {
    feed(rt, shared, source, 5, 9).is_ok()
        && close(rt, shared, source).is_ok()
        && leave(rt, shared, sink).is_ok()
}

/// A run that is ended by the outside. Returns whether the calls that want no memory succeed while the heap is full:
/// the source is closed and the sink left a second time, the seats are read, the run is halted and its book gathered.
fn is_gathered<'a, J: Job, R: Wait>(
    rt: &R,
    heap: &'a LocalHeap,
    blank: Blank,
    network: &Network,
) -> Result<bool, AllocError>
    requires ledger { (blank.name ≡ J.name) × (blank.parts ≡ J.parts) }
    requires network { network.now ≡ J.network }
    requires kept { J.keeping ≡ All }
    requires one { J.parts ≡ 1 }
{
    let opened: Opened<'_, J, &'a LocalHeap> = Shared::new(heap, blank, network, 1, 9)?;
    let Opened {
        shared,
        workers,
        mut sources,
        mut sinks,
    } = opened;
    let (Some(mut source), Some(sink)) = (sources.pop(), sinks.pop()) else {
        return Ok(false);
    };
    let has_ended = is_ended(rt, &shared, &mut source, &sink);
    let Some(filling) = fill(heap) else {
        return Ok(false);
    };
    let has_ended_again = close(rt, &shared, &source).is_ok() && leave(rt, &shared, &sink).is_ok();
    let are_kept = source.fed() == [5].as_slice() && sink.taken().is_empty();
    let is_new = workers
        .first()
        .is_some_and(|seat| seat.why().is_none() && seat.commits() == 0);
    shared.halt(rt);
    let book = gather(shared, workers);
    filling.destroy_empty();
    Ok(has_ended && has_ended_again && are_kept && is_new && book.history().len() == 3)
}

/// Takes until memory is refused. Returns whether the seat then has what was taken before.
fn takes_until_refused<'a, J: Job, R: Wait>(
    rt: &R,
    shared: &Shared<'_, J, &'a LocalHeap>,
    sink: &mut SinkSeat<&'a LocalHeap>,
) -> bool {
    for _ in 0..1_000 {
        let before = sink.taken().len();
        match take(rt, shared, sink) {
            Ok(Some(_)) => {}
            Ok(None) => return false,
            Err(refused) => {
                return refused == Refused::NoMemory && sink.taken().len() == before;
            }
        }
    }
    false
}

/// A run whose worker writes until the heap is full. Returns whether all is answered as it has to be.
fn is_poured<'a, J: Job, R: Wait + Clock>(
    rt: &R,
    alloc: Global,
    heap: &'a LocalHeap,
    blank: Blank,
    network: &Network,
) -> Result<bool, AllocError>
    requires ledger { (blank.name ≡ J.name) × (blank.parts ≡ J.parts) }
    requires network { network.now ≡ J.network }
    requires kept { J.keeping ≡ All }
    requires one { J.parts ≡ 1 }
{
    let opened: Opened<'_, J, &'a LocalHeap> = Shared::new(heap, blank, network, 1, 10_000)?;
    let Opened {
        shared,
        mut workers,
        sources: _,
        mut sinks,
    } = opened;
    let (Some(seat), Some(mut sink)) = (workers.pop(), sinks.pop()) else {
        return Ok(false);
    };
    let filling = Vec::<u8, &'a LocalHeap>::with_capacity(heap, HEAP / 2)?;
    let gate = Always(Go::On);
    let seat = work(rt, &shared, &gate, seat, 1_000);
    let has_ended = seat.why() == Some(Why::NoMemory);
    let is_put_back = is_ready(&shared.try_snapshot(alloc)?);
    let seat = work(rt, &shared, &gate, seat, 1_000);
    let is_halted = seat.why() == Some(Why::Halted);
    let are_refused = takes_until_refused(rt, &shared, &mut sink);
    filling.destroy_empty();
    let is_taken = take(rt, &shared, &mut sink) == Ok(Some(7));
    Ok(has_ended && is_put_back && is_halted && are_refused && is_taken)
}

#[test]
fn refused_calls_change_nothing(rt: HostRuntime) -> Result<(), Fail> {
    let alloc = rt.alloc();
    let copying = copying(alloc, 1)?;
    let pouring = pouring(alloc)?;
    let heap = LocalHeap::new(alloc, HEAP)?;
    let used = heap.used();
    let filling = fill(&heap).expect(&rt, "a block is left");
    assert!(rt; !opens::<Brand>(&heap, Blank::new(1), &copying));
    filling.destroy_empty();
    assert_eq!(rt; heap.used(), used);
    assert!(rt; opens::<Brand>(&heap, Blank::new(1), &copying));
    let fed = is_fed::<Brand, HostRuntime>(&rt, alloc, &heap, Blank::new(1), &copying)?;
    assert!(rt; fed);
    let gathered = is_gathered::<Brand, HostRuntime>(&rt, &heap, Blank::new(1), &copying)?;
    assert!(rt; gathered);
    let poured = is_poured::<Brand, HostRuntime>(&rt, alloc, &heap, Blank::new(1), &pouring)?;
    assert!(rt; poured);
    Ok(())
}
