//! Runs beside a client that takes, and feeds if nobody else does.
use crate::abandoning::TestGate;
use kpn_book::{Keeping, Limits};
use kpn_net::Network;
use kpn_pool::{
    Client, EndedRun, Feeder, Outside, Shared, WorkPlan, close, feed_when_room, run_beside,
    take_when_there,
};
use kpn_pool_desk::{Awaited, Job, Refused, SinkSeat, SourceSeat, Why};
use kpn_text::read_network;
use std::alloc::{AllocError, Global};
use std::sync::Wait;
use std::test::Fail;
use std::thread::Threads;
use std::time::Clock;
use test_support::texts::COPY;

/// The items are the numbers from 1 to this one: so many that workers run regions.
const LAST: i64 = 3_000;

/// Their sum.
const SUM: i64 = 4_501_500;

/// A run until a verdict.
const ALL: Limits = Limits {
    commits: 1_000_000,
    take: None,
    quota: 1_000,
};

/// Feeds the items one by one, each once there is room under this bound.
#[derive(Drop)]
struct Feeds {
    bound: usize,
}

impl Feeder for Feeds {
    fn feed<J: Job, R: Wait + Clock>(&self, rt: &R, shared: &Shared<'_, J>, source: SourceSeat) {
        let mut source = source;
        let _ = feed_each(rt, shared, &mut source, self.bound);
    }
}

/// Feeds the items and closes the source. An item that does not go is left out.
fn feed_each<J: Job, R: Wait + Clock>(
    rt: &R,
    shared: &Shared<'_, J>,
    source: &mut SourceSeat,
    bound: usize,
) -> Result<(), Refused> {
    for item in 1..=LAST {
        feed_when_room(rt, shared, source, &[item], bound)?;
    }
    close(rt, shared, source)
}

/// Takes what comes, and before that feeds the items if no feeder does.
#[derive(Drop)]
struct Takes {
    sum: i64,
}

impl Client for Takes {
    fn serve<J: Job, R: Wait + Clock>(&mut self, rt: &R, outside: Outside<'_, '_, J>) {
        let Outside { shared, mut ends } = outside;
        if let Some(mut source) = ends.take_source(0) {
            let _ = feed_each(rt, shared, &mut source, usize::MAX);
        }
        if let Some(mut sink) = ends.take_sink(1) {
            let _ = take_all_of(rt, shared, &mut sink);
            self.sum = sink
                .taken()
                .iter()
                .fold(0, |sum, item| i64::wrapping_add(sum, *item));
        }
    }
}

/// Takes until all workers have ended.
fn take_all_of<J: Job, R: Wait + Clock>(
    rt: &R,
    shared: &Shared<'_, J>,
    sink: &mut SinkSeat,
) -> Result<(), Refused> {
    for _ in rt.forever() {
        if take_when_there(rt, shared, sink)? == Awaited::Ended {
            return Ok(());
        }
    }
    unreachable!()
}

/// Whether a run of two workers that copies what these feeders feed settles, and all items come.
fn copies<R: Threads + Wait + Clock + Sync>(
    rt: &R,
    alloc: Global,
    feeders: &[Feeds],
) -> Result<bool, Fail> {
    let document = read_network(alloc, COPY.as_bytes())?;
    let is_copied = is_copied(rt, alloc, document.network(), feeders);
    drop(document);
    Ok(is_copied?)
}

/// The same of the network that copies.
fn is_copied<R: Threads + Wait + Clock + Sync>(
    rt: &R,
    alloc: Global,
    network: &Network,
    feeders: &[Feeds],
) -> Result<bool, AllocError> {
    let client = Takes { sum: 0 };
    let plan = WorkPlan {
        workers: 2,
        gate: &TestGate::open(true),
        limits: ALL,
        keeping: Keeping::All,
    };
    match run_beside(rt, alloc, network, &plan, client, feeders) {
        Ok(ran) => Ok(has_copied(&ran)),
        Err(fault) => Err(fault),
    }
}

/// Whether all workers find the run settled, and all items came.
fn has_copied(ran: &EndedRun<'_, Takes>) -> bool {
    let have_settled = ran
        .workers
        .iter()
        .all(|worked| worked.why == Some(Why::Settled));
    have_settled && ran.fault.is_none() && ran.client.sum == SUM
}

#[test]
fn workers_beside_feeding_and_taking(rt: HostRuntime) -> Result<(), Fail> {
    assert!(rt; copies(&rt, rt.alloc(), &[])?);
    Ok(())
}

#[test]
fn a_feeder_that_waits_for_room(rt: HostRuntime) -> Result<(), Fail> {
    assert!(rt; copies(&rt, rt.alloc(), &[Feeds { bound: 1 }])?);
    Ok(())
}
