//! A service: workers step a network, while two threads feed it and a client takes from it and looks at it. It ends
//! once its sources are closed. What it prints is the same under every schedule.
#![tactic(auto)]

use anyhow::{Result, ensure};
use kpn_book::{Keeping, Limits, Refused};
use kpn_net::Network;
use kpn_pool::{
    Awaited, Client, CommitsAll, EndedRun, Feeder, Job, Outside, Shared, SinkSeat, SourceSeat, Why,
    WorkPlan, close, feed_when_room, run_beside, take_when_there,
};
use kpn_text::read_network;
use std::alloc::Global;
use std::sync::Wait;
use std::thread::Threads;
use std::time::Clock;

/// Two processes double what comes. A third passes it on, one item of each in turn.
const DOUBLER: &str = "
process double(in numbers; out doubles) {
  while 1 { read numbers x; write doubles (2 * x); }
}
process by_turns(in a, b; out both) {
  while 1 { read a x; write both x; read b y; write both y; }
}
network {
  source left; source right;
  channel from_left cap 1; channel from_right cap 1;
  sink both cap 8;

  double_left = double(left; from_left);
  double_right = double(right; from_right);
  by_turns = by_turns(from_left, from_right; both);
}
";

/// The number of the sink, which is the last of the five channels.
const SINK: usize = 4;

const WORKERS: usize = 3;

/// A feeder feeds the numbers from 1 to this one.
const LAST: i64 = 1_000;

/// The client looks once for this many items.
const FOR_A_LOOK: usize = 200;

/// A run that ends once nothing more can happen.
const LIMITS: Limits = Limits {
    commits: u64::MAX,
    take: None,
    quota: 1_000,
};

/// Feeds numbers, each once there is room under this bound, and then closes the source.
#[derive(Clone, Copy)]
struct Counting {
    bound: usize,
}

impl Feeder for Counting {
    /// If a call is refused, the workers have to end.
    fn feed<J: Job, R: Wait + Clock>(&self, rt: &R, shared: &Shared<'_, J>, source: SourceSeat) {
        let mut source = source;
        if feed_each(rt, shared, &mut source, self.bound).is_err() {
            shared.halt(rt);
        }
    }
}

fn feed_each<J: Job, R: Wait + Clock>(
    rt: &R,
    shared: &Shared<'_, J>,
    source: &mut SourceSeat,
    bound: usize,
) -> Result<(), Refused> {
    for number in 1..=LAST {
        feed_when_room(rt, shared, source, &[number], bound)?;
    }
    close(rt, shared, source)
}

/// Takes all that comes, and looks at the run now and then.
#[derive(Drop)]
struct Taking {
    alloc: Global,
    items: usize,
    sum: i64,
    /// How many snapshots showed what was taken before.
    looks: usize,
}

impl Client for Taking {
    /// If a call is refused, no looks are counted.
    fn serve<J: Job, R: Wait + Clock>(&mut self, rt: &R, outside: Outside<'_, '_, J>) {
        let Outside { shared, mut ends } = outside;
        if let Some(mut sink) = ends.take_sink(SINK) {
            self.looks = take_and_look(rt, self.alloc, shared, &mut sink).unwrap_or(0);
            let taken = sink.taken();
            self.items = taken.len();
            self.sum = taken
                .iter()
                .fold(0, |sum, item| i64::wrapping_add(sum, *item));
        }
    }
}

/// Takes until all workers have ended. Returns how many looks showed what was taken before.
fn take_and_look<J: Job, R: Wait + Clock>(
    rt: &R,
    alloc: Global,
    shared: &Shared<'_, J>,
    sink: &mut SinkSeat,
) -> Result<usize, Refused> {
    let mut looks = 0usize;
    let mut before = 0;
    for _ in rt.forever() {
        let awaited = take_when_there(rt, shared, sink)?;
        let taken = sink.taken().len();
        for _ in before / FOR_A_LOOK..taken / FOR_A_LOOK {
            if shows(rt, alloc, shared, taken) {
                looks = looks.saturating_add(1);
            }
        }
        if awaited == Awaited::Ended {
            return Ok(looks);
        }
        before = taken;
    }
    unreachable!()
}

/// Whether a snapshot of the run shows at least this many items at the sink.
fn shows<J: Job, R: Wait>(rt: &R, alloc: Global, shared: &Shared<'_, J>, items: usize) -> bool {
    let look = shared.look(rt);
    let desk = look.desk();
    let Ok(view) = desk.snapshot(alloc) else {
        return false;
    };
    view.journal(SINK)
        .is_some_and(|journal| journal.len() >= items)
}

/// What a run came to in which each worker ended because nothing more could happen.
fn told_of(alloc: Global, ran: &EndedRun<'_, Taking>) -> Result<String> {
    let have_settled = ran
        .workers
        .iter()
        .all(|worked| worked.why == Some(Why::Settled));
    ensure!(
        have_settled && ran.fault.is_none(),
        "a worker has ended too early"
    );
    let Taking {
        items,
        sum,
        looks,
        ..
    } = &ran.client;
    Ok(format!(in alloc; "{items} items, {sum} in all, {looks} looks")?)
}

/// Runs a network by workers, beside two feeders and a client.
fn serve_network<R: Threads + Wait + Clock + Sync>(
    rt: &R,
    alloc: Global,
    network: &Network,
) -> Result<String> {
    let client = Taking {
        alloc,
        items: 0,
        sum: 0,
        looks: 0,
    };
    let feeders = [Counting { bound: 1 }, Counting { bound: 16 }];
    let plan = WorkPlan {
        workers: WORKERS,
        gate: &CommitsAll,
        limits: LIMITS,
        keeping: Keeping::All,
    };
    let ran = run_beside(rt, alloc, network, &plan, client, &feeders)?;
    told_of(alloc, &ran)
}

fn serve<R: Threads + Wait + Clock + Sync>(rt: &R, alloc: Global) -> Result<String> {
    let document = read_network(alloc, DOUBLER.as_bytes())?;
    serve_network(rt, alloc, document.network())
}

fn main(rt: HostRuntime) -> Result<()> {
    let told = serve(&rt, rt.alloc())?;
    println!(rt; "{told}")?;
    Ok(())
}
