//! A look at the desk under its lock, while workers are at work.
ghost use Rattle.std.specs.Prelude.{◌≡◌};
ghost use Rattle.kpn_history.specs.declared.keeping.Keeping.TheVariants.{All};
ghost use Rattle.kpn_pool_desk.specs.Invariant.{AreBelowLeast, HasNoneLeftToGrow};

use crate::always::Always;
use crate::networks::three_spinning;
use crate::turns::MOST_TURNS;
use crate::working::both_work;
use kpn_net::Network;
use kpn_pool::{Opened, Shared};
use kpn_pool_desk::{Desk, Go, Job, Why, WorkerSeat};
use std::alloc::{AllocError, Global};
use std::marker::Brand;
use std::sync::Wait;
use std::sync::ledger::Blank;
use std::test::Fail;
use std::thread;
use std::thread::Threads;
use std::time::Clock;

/// The workers end after this many commits.
const COMMITS: u64 = 20_000;

/// Whether the counts of a desk are those of three processes. A caller's proof learns what holds of every desk.
fn counts_three<J: Job>(desk: &Desk<'_, J>) -> bool
    ensures below { AreBelowLeast desk.now.book }
    ensures none_left { HasNoneLeftToGrow desk.now.book }
{
    desk.known();
    let counts = desk.counts();
    let waiting = counts.empty.saturating_add(counts.full);
    let others = counts
        .ready
        .saturating_add(counts.held)
        .saturating_add(counts.ended);
    waiting.saturating_add(others) == 3
}

/// Looks until the commits have reached their number. Returns whether each look finds three processes.
fn looks<J: Job, R: Wait>(rt: &R, shared: &Shared<'_, J>) -> bool {
    for _ in 0..MOST_TURNS {
        let look = shared.look(rt);
        if !counts_three(look.desk()) {
            return false;
        }
        if look.desk().reason_to_end(COMMITS) == Some(Why::Limit) {
            return true;
        }
        drop(look);
        thread::yield_now();
    }
    false
}

/// Two workers at once while the calling thread looks. Returns why they end, and whether the looks find what they have
/// to.
fn work_and_look<J: Job + Send + Sync, R: Threads + Wait + Clock + Sync>(
    rt: &R,
    shared: &Shared<'_, J>,
    first: WorkerSeat<J>,
    second: WorkerSeat<J>,
) -> (Option<Why>, Option<Why>, bool) {
    let gate = &Always(Go::On);
    let (seats, found) = thread::join(
        rt,
        move || both_work(rt, shared, gate, first, second),
        move || looks(rt, shared),
    );
    let (first, second) = seats;
    (first.why(), second.why(), found)
}

/// The same, of a run that is opened for it.
fn seen_while_working<J: Job + Send + Sync, R: Threads + Wait + Clock + Sync>(
    rt: &R,
    alloc: Global,
    blank: Blank,
    network: &Network,
) -> Result<(Option<Why>, Option<Why>, bool), AllocError>
    requires ledger { (blank.name ≡ J.name) × (blank.parts ≡ J.parts) }
    requires network { network.now ≡ J.network }
    requires kept { J.keeping ≡ All }
    requires two { J.parts ≡ 2 }
{
    let opened: Opened<'_, J> = Shared::new(alloc, blank, network, 2, COMMITS)?;
    let Opened {
        shared,
        mut workers,
        sources: _,
        sinks: _,
    } = opened;
    let (Some(second), Some(first)) = (workers.pop(), workers.pop()) else {
        return Ok((None, None, false));
    };
    Ok(work_and_look(rt, &shared, first, second))
}

#[test]
fn a_look_while_two_workers_run(rt: HostRuntime) -> Result<(), Fail> {
    let network = three_spinning(rt.alloc())?;
    let seen = seen_while_working::<Brand, HostRuntime>(&rt, rt.alloc(), Blank::new(2), &network)?;
    assert_eq!(rt; seen, (Some(Why::Limit), Some(Why::Limit), true));
    Ok(())
}
