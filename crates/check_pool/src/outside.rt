//! The seats of the outside: what is fed is copied by a worker and taken, and a seat of another run is known as such.
ghost use Rattle.std.specs.Prelude.{◌≡◌};
ghost use Rattle.kpn_history.specs.declared.keeping.Keeping.TheVariants.{All};

use crate::always::Always;
use crate::batching::has_written;
use crate::networks::copying;
use crate::turns::MOST_TURNS;
use kpn_net::Network;
use kpn_pool::{Opened, Shared, close, feed, leave, snapshot, take, work};
use kpn_pool_desk::{Go, Job, Refused, SinkSeat, SnapFault, SourceSeat, View, Why, WorkerSeat};
use kpn_text::read_network;
use std::alloc::{AllocError, Allocator, Global};
use std::marker::Brand;
use std::sync::Wait;
use std::sync::ledger::Blank;
use std::test::Fail;
use std::thread;
use std::thread::Threads;
use std::time::Clock;
use test_support::texts::TWO;

/// Whether the journals of the two channels are these.
pub fn shows<A: Allocator>(
    view: &Result<View<A>, SnapFault>,
    source: &[i64],
    sink: &[i64],
) -> bool {
    let Ok(view) = view else {
        return false;
    };
    view.journals.as_slice().len() == 2
        && has_written(view, 0, source)
        && has_written(view, 1, sink)
}

/// Feeds before anybody works, and closes. Returns whether all is answered as it has to be.
fn feeds<J: Job, R: Wait>(
    rt: &R,
    alloc: Global,
    shared: &Shared<'_, J>,
    source: &mut SourceSeat,
) -> bool {
    let two = feed(rt, shared, source, 1, 9).is_ok() && feed(rt, shared, source, 2, 9).is_ok();
    let is_fresh = shows(&snapshot(rt, alloc, shared, source), &[1, 2], &[]);
    let third = feed(rt, shared, source, 3, 9).is_ok();
    let is_full = feed(rt, shared, source, 4, 1) == Err(Refused::Full(4));
    let is_closed = close(rt, shared, source).is_ok()
        && feed(rt, shared, source, 5, 9) == Err(Refused::SourceClosed);
    two && is_fresh && third && is_full && is_closed && source.fed() == [1, 2, 3].as_slice()
}

/// Takes until three items came, and leaves the sink. Returns whether no call is refused before that, and a take is
/// then.
fn takes<J: Job, R: Wait>(rt: &R, shared: &Shared<'_, J>, sink: &mut SinkSeat) -> bool {
    let mut is_good = true;
    for _ in 0..MOST_TURNS {
        if sink.taken().len() == 3 {
            break;
        }
        is_good = take(rt, shared, sink).is_ok() && is_good;
        thread::yield_now();
    }
    let has_left = leave(rt, shared, sink).is_ok();
    let is_left = take(rt, shared, sink) == Err(Refused::SinkLeft);
    is_good && has_left && is_left && sink.taken() == [1, 2, 3].as_slice()
}

/// One worker copies while three items are taken. Returns why it ends, and whether they came.
fn copies<J: Job + Send + Sync, R: Threads + Wait + Clock + Sync>(
    rt: &R,
    shared: &Shared<'_, J>,
    seat: WorkerSeat<J>,
    sink: SinkSeat,
) -> (Option<Why>, bool) {
    let gate = &Always(Go::On);
    let (seat, came) = thread::join(
        rt,
        move || work(rt, shared, gate, seat, 1_000),
        move || {
            let mut sink = sink;
            takes(rt, shared, &mut sink)
        },
    );
    (seat.why(), came)
}

/// Whether a snapshot has three items that were fed, and those that were copied.
fn refutes_snapshot_shows_the_opening_state<J: Job, R: Wait>(
    rt: &R,
    alloc: Global,
    shared: &Shared<'_, J>,
    source: &SourceSeat,
) -> bool {
    shows(&snapshot(rt, alloc, shared, source), &[1, 2, 3], &[1, 2, 3])
}

/// A whole run by one worker. Returns the seat of the source, or none if something is not answered as it has to be.
fn copied<J: Job + Send + Sync, R: Threads + Wait + Clock + Sync>(
    rt: &R,
    alloc: Global,
    blank: Blank,
    network: &Network,
) -> Result<Option<SourceSeat>, AllocError>
    requires ledger { (blank.name ≡ J.name) × (blank.parts ≡ J.parts) }
    requires network { network.now ≡ J.network }
    requires kept { J.keeping ≡ All }
    requires one { J.parts ≡ 1 }
{
    let opened: Opened<'_, J> = Shared::new(alloc, blank, network, 1, u64::MAX)?;
    let Opened {
        shared,
        mut workers,
        mut sources,
        mut sinks,
    } = opened;
    let (Some(seat), Some(mut source), Some(sink)) = (workers.pop(), sources.pop(), sinks.pop())
    else {
        return Ok(None);
    };
    let is_fed = feeds(rt, alloc, &shared, &mut source);
    let (why, came) = copies(rt, &shared, seat, sink);
    let is_shown = refutes_snapshot_shows_the_opening_state(rt, alloc, &shared, &source);
    if is_fed && came && why == Some(Why::Settled) && is_shown {
        return Ok(Some(source));
    }
    Ok(None)
}

/// The refusals of a snapshot, a feed and a close.
type Refusals = (Option<SnapFault>, Option<Refused>, Option<Refused>);

/// What a seat of another run is answered.
fn answered<J: Job, R: Wait>(
    rt: &R,
    alloc: Global,
    blank: Blank,
    network: &Network,
    seat: &mut SourceSeat,
) -> Result<Refusals, AllocError>
    requires ledger { (blank.name ≡ J.name) × (blank.parts ≡ J.parts) }
    requires network { network.now ≡ J.network }
    requires kept { J.keeping ≡ All }
    requires one { J.parts ≡ 1 }
{
    let opened: Opened<'_, J> = Shared::new(alloc, blank, network, 1, u64::MAX)?;
    let shared = &opened.shared;
    let fault = snapshot(rt, alloc, shared, seat).err();
    let fed = feed(rt, shared, seat, 4, 9).err();
    Ok((fault, fed, close(rt, shared, seat).err()))
}

/// What is seen is what the whole run did, and what was fed and taken is in the seats and in the run. The seat is then
/// a stranger to another network, and to another run of the same network, which has not been fed. Once it is told to
/// forget, it has only what it feeds from then on, and is given no snapshot.
#[test]
fn snapshot_shows_own_feeds_alone(rt: HostRuntime) -> Result<(), Fail> {
    let alloc = rt.alloc();
    let network = copying(alloc, 1)?;
    let other = read_network(alloc, TWO.as_bytes())?;
    let seat = copied::<Brand, HostRuntime>(&rt, alloc, Blank::new(1), &network)?;
    let mut seat = seat.expect(&rt, "a whole run");
    let no_such_end = Some(Refused::NoSuchEnd);
    for (network, fed) in [(other.network(), no_such_end), (&network, None)] {
        assert!(rt; seat.fed() == [1, 2, 3].as_slice());
        let blank = Blank::new(1);
        let refusals = answered::<Brand, HostRuntime>(&rt, alloc, blank, network, &mut seat)?;
        assert_eq!(rt; refusals, (Some(SnapFault::Foreign), fed, fed));
    }
    seat.forget();
    assert!(rt; seat.fed().is_empty());
    let blank = Blank::new(1);
    let refusals = answered::<Brand, HostRuntime>(&rt, alloc, blank, &network, &mut seat)?;
    assert_eq!(rt; refusals, (Some(SnapFault::Forgotten), None, None));
    assert!(rt; seat.fed() == [4].as_slice());
    Ok(())
}
