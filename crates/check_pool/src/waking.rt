//! A thread that sleeps is woken: a run takes far longer if a thread wakes only by the clock. On a busy machine some
//! runs may.
ghost use Rattle.std.specs.Prelude.{◌≡◌};
ghost use Rattle.kpn_history.specs.declared.keeping.Keeping.TheVariants.{All};

use crate::gates::Pausing;
use crate::networks::{copying, copying_beside, reading};
use crate::working::both_work;
use kpn_net::Network;
use kpn_pool::{Opened, Shared, close, feed, take_when_due};
use kpn_pool_desk::{Job, SinkSeat, SourceSeat, Why};
use std::alloc::{AllocError, Global};
use std::marker::Brand;
use std::sync::Wait;
use std::sync::ledger::Blank;
use std::test::Fail;
use std::thread;
use std::thread::Threads;
use std::time::{Clock, Duration, Instant};

/// How many runs there are of each kind.
const RUNS: u32 = 20;

/// How many items go from hand to hand in a run.
const ITEMS: i64 = 25;

/// For how many microseconds the outside pauses: for longer than anybody looks on before it sleeps.
const PAUSE: u64 = 50;

/// For how many milliseconds it pauses until all workers rest that have just been started: for longer than the one that
/// keeps watch, so that none does.
const START: u64 = 60;

/// A run is late after this many milliseconds: half of the time for which a worker rests that keeps no watch, or for
/// which the outside sleeps for all items while a worker is busy.
const LATE: u64 = 500;

/// What the outside does while two workers are at work.
#[derive(Clone, Copy, Debug)]
enum Task {
    /// It feeds items one by one, each once the one before it has come to the last sink.
    HandsOver,
    /// It closes the source, of which the only process waits for an item.
    Closes,
    /// It feeds the item and closes the source, and makes no call after that.
    FeedsAndCloses,
    /// It makes the workers end.
    Halts,
}

/// The seats of the outside.
#[derive(Drop)]
struct Outside {
    source: SourceSeat,
    sinks: Vec<SinkSeat>,
}

/// Waits until this many items of the last sink were taken, or the run has ended. Returns which.
fn await_items<J: Job, R: Wait + Clock>(
    rt: &R,
    shared: &Shared<'_, J>,
    sinks: &mut [SinkSeat],
    items: usize,
) -> bool {
    for _ in rt.forever() {
        if sinks.last().is_some_and(|seat| seat.taken().len() >= items) {
            return true;
        }
        if take_when_due(rt, shared, sinks) != Ok(true) {
            return false;
        }
    }
    unreachable!()
}

/// Feeds items one by one, and waits for each until it was taken. Returns whether all come.
fn hand_over<J: Job, R: Wait + Clock>(
    rt: &R,
    shared: &Shared<'_, J>,
    outside: &mut Outside,
) -> bool {
    for item in 0..ITEMS {
        thread::sleep(rt, Duration::from_micros(PAUSE));
        let is_fed = feed(rt, shared, &mut outside.source, item, 1).is_ok();
        let items = outside.source.fed().len();
        if !is_fed || !await_items(rt, shared, outside.sinks.as_mut_slice(), items) {
            return false;
        }
    }
    true
}

/// Does the task, and waits until the run has ended if it makes calls then. Returns whether all went well.
fn serve<J: Job, R: Wait + Clock>(
    rt: &R,
    shared: &Shared<'_, J>,
    gate: &Pausing,
    task: Task,
    outside: Outside,
) -> bool {
    let mut outside = outside;
    thread::sleep(rt, Duration::from_millis(START));
    let is_done = match task {
        Task::HandsOver => hand_over(rt, shared, &mut outside),
        Task::Closes => close(rt, shared, &outside.source).is_ok(),
        Task::FeedsAndCloses => {
            return feed(rt, shared, &mut outside.source, 7, 1).is_ok()
                && close(rt, shared, &outside.source).is_ok();
        }
        Task::Halts => true,
    };
    if matches!(task, Task::HandsOver | Task::Halts) {
        gate.let_go();
        shared.halt(rt);
    }
    !await_items(rt, shared, outside.sinks.as_mut_slice(), usize::MAX) && is_done
}

/// A run by two workers while the outside does its task. Returns whether all went well, and why the workers end.
fn work_and_serve<J: Job + Send + Sync, R: Threads + Wait + Clock + Sync>(
    rt: &R,
    opened: Opened<'_, J>,
    gate: &Pausing,
    task: Task,
) -> Option<(bool, Option<Why>, Option<Why>)> {
    let Opened {
        shared,
        mut workers,
        mut sources,
        sinks,
    } = opened;
    let (Some(second), Some(first), Some(source)) = (workers.pop(), workers.pop(), sources.pop())
    else {
        return None;
    };
    let shared = &shared;
    let outside = Outside { source, sinks };
    let (seats, went_well) = thread::join(
        rt,
        move || both_work(rt, shared, gate, first, second),
        move || serve(rt, shared, gate, task, outside),
    );
    Some((went_well, seats.0.why(), seats.1.why()))
}

/// The same, of a run that is opened for it.
fn comes_to<J: Job + Send + Sync, R: Threads + Wait + Clock + Sync>(
    rt: &R,
    alloc: Global,
    blank: Blank,
    network: &Network,
    held: Option<usize>,
    task: Task,
) -> Result<Option<(bool, Option<Why>, Option<Why>)>, AllocError>
    requires ledger { (blank.name ≡ J.name) × (blank.parts ≡ J.parts) }
    requires network { network.now ≡ J.network }
    requires kept { J.keeping ≡ All }
    requires two { J.parts ≡ 2 }
{
    let opened: Opened<'_, J> = Shared::new(alloc, blank, network, 2, u64::MAX)?;
    Ok(work_and_serve(rt, opened, &Pausing::new(held), task))
}

/// How many runs of a network by two workers are late. `None` if one did not go well, or a worker ended otherwise.
fn late_runs<R: Threads + Wait + Clock + Sync>(
    rt: &R,
    alloc: Global,
    network: &Network,
    held: Option<usize>,
    task: Task,
    why: Why,
) -> Result<Option<u32>, Fail> {
    let mut late: u32 = 0;
    for _ in 0..RUNS {
        let begun = Instant::now(rt)?;
        let seen = comes_to::<Brand, R>(rt, alloc, Blank::new(2), network, held, task)?;
        if seen != Some((true, Some(why), Some(why))) {
            return Ok(None);
        }
        if begun.elapsed(rt)? > Duration::from_millis(LATE) {
            late = late.saturating_add(1);
        }
    }
    Ok(Some(late))
}

/// An item is fed once the workers rest, and the thread that serves the sinks sleeps before it comes there: on a
/// sink that is then full, on one that is not half full, and behind a gate that holds the other worker.
#[test]
fn items_go_from_hand_to_hand(rt: HostRuntime) -> Result<(), Fail> {
    let alloc = rt.alloc();
    for (network, held) in [
        (copying(alloc, 1)?, None),
        (copying(alloc, 64)?, None),
        (copying_beside(alloc)?, Some(0)),
    ] {
        let late = late_runs(&rt, alloc, &network, held, Task::HandsOver, Why::Halted)?;
        assert!(rt;
            late.is_some_and(|late| late < RUNS / 2),
            "{held:?}: {late:?} late"
        );
    }
    Ok(())
}

/// All workers end at once, if a call of the outside or a commit settles the run or the outside halts it.
#[test]
fn all_workers_end_at_once(rt: HostRuntime) -> Result<(), Fail> {
    let alloc = rt.alloc();
    let network = reading(alloc)?;
    for (task, why) in [
        (Task::Closes, Why::Settled),
        (Task::FeedsAndCloses, Why::Settled),
        (Task::Halts, Why::Halted),
    ] {
        let late = late_runs(&rt, alloc, &network, None, task, why)?;
        assert!(rt;
            late.is_some_and(|late| late < RUNS / 2),
            "{task:?}: {late:?} late"
        );
    }
    Ok(())
}
