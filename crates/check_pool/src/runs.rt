//! Runs of described networks.
ghost use Rattle.std.specs.Prelude.{◌≡◌, ◌<◌, ◌≤◌, length};
ghost use Rattle.kpn_net.specs.Iteration.{sources};

use crate::abandoning::TestGate;
use crate::holding::Held;
use kpn_book::{Limits, Outcome, Report, run_here};
use kpn_history::{Event, History};
use kpn_lang::Sequence;
use kpn_limits::MAX_WORKERS;
use kpn_net::Network;
use kpn_pool::{RunFault, run};
use kpn_text::read_network;
use std::alloc::{AllocError, Global};
use std::sync::Wait;
use std::test::Fail;
use std::thread::Threads;
use std::time::Clock;
use test_support::texts::{COPY, TWO};

const EMPTY: &str = "network { }";

/// Processes 0 and 1 write 7 once, each to a sink of its own.
const SEVENS: &str = "process one(out z) { write z 7; }
network { sink a cap 1; sink b cap 1; p = one(; a); q = one(; b); }
";

/// A process that steps for ever.
const SPINNER: &str = "process spin() { while 1 { } }
network { s = spin(;); }
";

/// A process that writes an item to a sink, beside one that steps for ever.
const SPIN: &str = "process w(out z) { write z 312; }
process spin() { while 1 { } }
network { sink z cap 1; w = w(; z); s = spin(;); }
";

/// The first growth is owed once the outside has taken the first item and closed the source. Then the items of `a` find
/// room one after the other.
const UNCLOGGED: &str =
    "process p(out z, a) { write z 1; write a 1; write a 2; write a 3; write z 2; }
process q(in s, a) { read s x; read a y; }
network {
  limit 3; policy all;
  source s; sink z cap 1; channel a cap 1;
  p = p(; z, a); q = q(s, a;);
}
";

/// Two sources, whose items the network reads and drops.
const DROPPED: &str = "process drop(in i) { while 1 { read i x; } }
network { source r; source s; d = drop(r;); e = drop(s;); }
";

/// Two sources: the network drops the items of the first, and copies those of the second to a sink.
const HALF: &str = "process drop(in i) { while 1 { read i x; } }
process copy(in i; out o) { while 1 { read i x; write o x; } }
network { source r; source s; sink z cap 1; d = drop(r;); c = copy(s; z); }
";

/// Numbers through two copies to a sink: so many that workers whose gate lets everything through cut the network.
const LONG: &str = "process count(out o) { k = 0; while (k < 9000) { write o k; k = (k + 1); } }
process copy(in i; out o) { while 1 { read i x; write o x; } }
network {
  channel a cap 1000; channel b cap 1000; sink z cap 2;
  count = count(; a); first = copy(a; b); second = copy(b; z);
}
";

/// Two processes that each wait for room at the other, so that a growth is owed. Then many items come to the sink.
const LONG_CYCLE: &str = "process p(in b; out a) {
  k = 0;
  while (k < 6000) { write a k; write a k; write a k; read b x; read b x; k = (k + 1); }
}
process q(in a; out b, c) {
  while 1 { read a x; write b x; write b x; read a x; read a x; write c x; }
}
process copy(in i; out o) { while 1 { read i x; write o x; } }
network {
  channel a cap 1; channel b cap 1; channel c cap 1000; sink z cap 2;
  p = p(b; a); q = q(a; b, c); copy = copy(c; z);
}
";

/// A run until a verdict.
pub const ALL: Limits = Limits {
    commits: 1_000_000,
    take: None,
    quota: 1_000,
};

/// A run that takes one item of each sink.
const ONE: Limits = Limits {
    commits: 1_000_000,
    take: Some(1),
    quota: 1_000,
};

/// A run of at most a hundred commits.
const FEW: Limits = Limits {
    commits: 100,
    take: None,
    quota: 1_000,
};

/// Turns without a step, which count as turns of one step.
const STILL: Limits = Limits {
    commits: 1_000_000,
    take: None,
    quota: 0,
};

/// What a report says, but for its items.
#[derive(Clone, Copy)]
struct Told {
    outcome: Outcome,
    commits: u64,
    /// How many events feed an item to a source or close one.
    feeds: usize,
    first: Option<Event>,
}

/// How many events feed an item to a source or close one.
fn feeds(history: &History) -> usize {
    (0..history.len())
        .filter(|k| matches!(history.at(*k), Some(Event::Feed(..) | Event::Close(_))))
        .count()
}

fn told_of(report: &Report) -> Told {
    Told {
        outcome: report.outcome,
        commits: report.commits,
        feeds: feeds(&report.history),
        first: report.history.at(0),
    }
}

/// What a run by workers comes to, beside one on one thread.
#[derive(Clone, Copy)]
pub struct Beside {
    workers: Result<Told, RunFault>,
    here: Told,
    /// Both took the same items of the sinks. Where only a number of them is wanted, the workers may take some more.
    has_its_items: bool,
}

/// Whether a run took the items of another one, or, where only a number of them is wanted, these at least.
fn has_items_of(report: &Report, here: &Report, limits: &Limits) -> bool {
    if limits.take.is_none() {
        return report.taken == here.taken;
    }
    for (taken, first) in report.taken.as_slice().iter().zip(here.taken.as_slice()) {
        if !taken.as_slice().starts_with(first.as_slice()) {
            return false;
        }
    }
    report.taken.as_slice().len() == here.taken.as_slice().len()
}

impl Beside {
    /// Whether the outcome and the items are the same, and so is the number of commits if their limit stopped the run.
    /// A run of several processes may pass the limit.
    pub fn is_same(&self, limits: &Limits) -> bool {
        let Ok(told) = self.workers else {
            return false;
        };
        let has_stopped_in_time = told.outcome != Outcome::Stopped
            || told.commits == limits.commits;
        told.outcome == self.here.outcome && self.has_its_items && has_stopped_in_time
    }

    /// Whether the outcome is the same, and as many items were fed.
    fn is_fed_the_same(&self) -> bool {
        let Ok(told) = self.workers else {
            return false;
        };
        told.outcome == self.here.outcome && told.feeds == self.here.feeds
    }

    /// The outcome of the run by workers.
    fn outcome(&self) -> Result<Outcome, RunFault> {
        match self.workers {
            Ok(told) => Ok(told.outcome),
            Err(fault) => Err(fault),
        }
    }
}

/// A run by workers, beside this one on one thread.
fn ran_beside<R: Threads + Wait + Clock + Sync>(
    rt: &R,
    alloc: Global,
    network: &Network,
    lists: &[Sequence<i64>],
    workers: usize,
    gate: &TestGate,
    limits: &Limits,
    here: &Report,
) -> Beside
    requires lists { length lists.now ≡ sources network.now }
    requires workers { (0 < workers) × (workers ≤ MAX_WORKERS) }
{
    match run(rt, alloc, network, lists, workers, gate, limits) {
        Ok(report) => Beside {
            workers: Ok(told_of(&report)),
            here: told_of(here),
            has_its_items: has_items_of(&report, here, limits),
        },
        Err(fault) => Beside {
            workers: Err(fault),
            here: told_of(here),
            has_its_items: false,
        },
    }
}

/// A run of a network by this many workers, beside one on one thread. `None` if there is no list for each source.
pub fn run_network<R: Threads + Wait + Clock + Sync>(
    rt: &R,
    alloc: Global,
    network: &Network,
    lists: &[Sequence<i64>],
    workers: usize,
    gate: &TestGate,
    limits: &Limits,
) -> Result<Option<Beside>, AllocError> {
    if lists.len() != network.sources() || workers == 0 || workers > MAX_WORKERS {
        return Ok(None);
    }
    match run_here(alloc, network, lists, limits) {
        Ok(here) => Ok(Some(ran_beside(rt, alloc, network, lists, workers, gate, limits, &here))),
        Err(fault) => Err(fault),
    }
}

/// The same of a described network.
fn run_text<R: Threads + Wait + Clock + Sync>(
    rt: &R,
    alloc: Global,
    text: &str,
    lists: &[Sequence<i64>],
    workers: usize,
    gate: &TestGate,
    limits: &Limits,
) -> Result<Option<Beside>, Fail> {
    let document = read_network(alloc, text.as_bytes())?;
    let ran = run_network(rt, alloc, document.network(), lists, workers, gate, limits);
    drop(document);
    Ok(ran?)
}

/// Whether a run by this many workers has the outcome and the items of a run on one thread.
fn runs_as_here<R: Threads + Wait + Clock + Sync>(
    rt: &R,
    alloc: Global,
    text: &str,
    lists: &[Sequence<i64>],
    workers: usize,
    gate: &TestGate,
    limits: &Limits,
) -> Result<bool, Fail> {
    let ran = run_text(rt, alloc, text, lists, workers, gate, limits)?;
    Ok(ran.is_some_and(|ran| ran.is_same(limits)))
}

#[test]
fn refutes_run_always_refuses(rt: HostRuntime) -> Result<(), Fail> {
    let alloc = rt.alloc();
    let items = Sequence::from_vec(vec![in alloc; 1, 2, 3]?);
    let lists = vec![in alloc; items]?;
    let nothing = Sequence::from_vec(Vec::new(alloc));
    let closed = vec![in alloc; nothing]?;
    let none: &[Sequence<i64>] = &[];
    let gate = TestGate::open(false);
    for workers in [1, 2, 16] {
        for (name, text, lists, limits) in [
            ("copy", COPY, lists.as_slice(), ALL),
            ("unclogged", UNCLOGGED, closed.as_slice(), ALL),
            ("two", TWO, none, ALL),
            ("two in turns of one step", TWO, none, STILL),
            ("spin", SPIN, none, ONE),
            ("stops", SPIN, none, FEW),
        ] {
            assert!(rt;
                runs_as_here(&rt, alloc, text, lists, workers, &gate, &limits)?,
                "{name}, {workers}"
            );
        }
    }
    Ok(())
}

/// A run that takes many items of each sink.
const MANY: Limits = Limits {
    commits: 1_000_000,
    take: Some(8_000),
    quota: 1_000,
};

/// Workers that divide a network come to the same.
#[test]
fn a_divided_network_runs_as_on_one_thread(rt: HostRuntime) -> Result<(), Fail> {
    let gate = TestGate::open(true);
    for workers in [1, 2, 16] {
        for (name, text, limits) in [
            ("long", LONG, ALL),
            ("in turns of one step", LONG, STILL),
            ("takes", LONG, MANY),
            ("a cycle", LONG_CYCLE, ALL),
        ] {
            assert!(rt;
                runs_as_here(&rt, rt.alloc(), text, &[], workers, &gate, &limits)?,
                "{name}, {workers}"
            );
        }
    }
    Ok(())
}

/// Whether a run by this many workers feeds and closes the sources as a run on one thread does, and has the same
/// outcome.
fn feeds_as_here<R: Threads + Wait + Clock + Sync>(
    rt: &R,
    alloc: Global,
    text: &str,
    lists: &[Sequence<i64>],
    workers: usize,
    limits: &Limits,
) -> Result<bool, Fail> {
    let ran = run_text(
        rt,
        alloc,
        text,
        lists,
        workers,
        &TestGate::open(false),
        limits,
    )?;
    Ok(ran.is_some_and(|ran| ran.is_fed_the_same()))
}

/// A run feeds each list whole and closes its source, even if it takes fewer items of the sinks or makes fewer commits.
#[test]
fn lists_are_fed_whole(rt: HostRuntime) -> Result<(), Fail> {
    let alloc = rt.alloc();
    let dropped = Sequence::from_vec(vec![in alloc; 7; 600]?);
    let copied = Sequence::from_vec(vec![in alloc; 8; 600]?);
    let lists = vec![in alloc; dropped, copied]?;
    for workers in [1, 2] {
        for (name, text, limits) in [
            ("no sink", DROPPED, ONE),
            ("one sink", HALF, ONE),
            ("stops", DROPPED, FEW),
        ] {
            assert!(rt;
                feeds_as_here(&rt, alloc, text, &lists, workers, &limits)?,
                "{name}, {workers}"
            );
        }
    }
    Ok(())
}

/// The outcome of a run by this many workers through a gate that abandons at these calls.
fn comes_to<R: Threads + Wait + Clock + Sync>(
    rt: &R,
    alloc: Global,
    text: &str,
    workers: usize,
    from: u64,
    until: u64,
    limits: &Limits,
) -> Result<Option<Result<Outcome, RunFault>>, Fail> {
    let gate = TestGate::abandons(from, until);
    let ran = run_text(rt, alloc, text, &[], workers, &gate, limits)?;
    Ok(ran.map(|ran| ran.outcome()))
}

#[test]
fn a_gate_that_always_abandons(rt: HostRuntime) -> Result<(), Fail> {
    for (text, workers, limits, outcome) in [
        (EMPTY, 2, ALL, Ok(Outcome::Ended)),
        (TWO, 2, ALL, Err(RunFault::Abandoned)),
        (SPINNER, 1, FEW, Err(RunFault::Abandoned)),
    ] {
        assert_eq!(rt;
            comes_to(&rt, rt.alloc(), text, workers, 0, u64::MAX, &limits)?,
            Some(outcome)
        );
    }
    Ok(())
}

/// One worker makes the 11 commits of `TWO`, and asks the gate before each.
#[test]
fn a_gate_that_abandons_at_one_call(rt: HostRuntime) -> Result<(), Fail> {
    let alloc = rt.alloc();
    for call in 0..11 {
        assert_eq!(rt;
            comes_to(&rt, alloc, TWO, 1, call, call + 1, &ALL)?,
            Some(Err(RunFault::Abandoned))
        );
    }
    let gate = TestGate::abandons(11, 12);
    assert!(rt; runs_as_here(&rt, alloc, TWO, &[], 1, &gate, &ALL)?);
    Ok(())
}

/// The first event of a run by two workers whose gate holds this call until the other process has come. `None` if it
/// did not come, or if the run has not ended.
fn first_event<R: Threads + Wait + Clock + Sync>(
    rt: &R,
    alloc: Global,
    held: Held,
) -> Result<Option<Event>, Fail> {
    let gate = TestGate::holds(held, false);
    let ran = run_text(rt, alloc, SEVENS, &[], 2, &gate, &ALL)?;
    let Some(
        Beside {
            workers: Ok(told),
            ..
        },
    ) = ran
    else {
        return Ok(None);
    };
    if !gate.have_met() || told.outcome != Outcome::Ended {
        return Ok(None);
    }
    Ok(told.first)
}

/// Whether a run of `TWO` on one thread makes its eleven commits: four puts, three gets, a wait and an end of each
/// process.
fn refutes_stops_at_once<R: Threads + Wait + Clock + Sync>(
    rt: &R,
    alloc: Global,
) -> Result<bool, Fail> {
    let ran = run_text(rt, alloc, TWO, &[], 1, &TestGate::open(false), &ALL)?;
    Ok(ran.is_some_and(|ran| ran.here.commits == 11))
}

/// Both processes are at the gate at once, whichever call the gate holds. The history shows what the workers did: the
/// process that the gate holds puts its item later.
#[test]
fn journals_from_rounds(rt: HostRuntime) -> Result<(), Fail> {
    for process in [None, Some(0), Some(1)] {
        let held = Held { process, until: 1 };
        let first = first_event(&rt, rt.alloc(), held)?;
        assert!(rt; first.is_some(), "{process:?} is held");
    }
    for (process, first) in [(0, Event::Put(1, 1, 7)), (1, Event::Put(0, 0, 7))] {
        let held = Held {
            process: Some(process),
            until: 2,
        };
        assert_eq!(rt; first_event(&rt, rt.alloc(), held)?, Some(first));
    }
    assert!(rt; refutes_stops_at_once(&rt, rt.alloc())?);
    Ok(())
}
