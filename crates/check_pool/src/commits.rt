//! How far the commits of a run by workers pass their limit, and that a gate that holds one of them stops no other.
use crate::abandoning::TestGate;
use crate::holding::Held;
use kpn_book::{Limits, Outcome, Report};
use kpn_limits::MAX_WORKERS;
use kpn_net::Network;
use kpn_pool::{RunFault, run};
use kpn_text::read_network;
use std::alloc::{AllocError, Global};
use std::sync::Wait;
use std::test::Fail;
use std::thread::Threads;
use std::time::Clock;

/// A description of this many processes that step for ever.
fn spinners(alloc: Global, processes: usize) -> Result<String, AllocError> {
    let mut text = String::from_str(alloc, "process spin() { while 1 { } } network {")?;
    for p in 0..processes {
        text.push_str(&format!(in alloc; " s{p} = spin(;);")?)?;
    }
    text.push_str(" }")?;
    Ok(text)
}

/// How many commits a run of a described network makes whose limit stops it.
fn commits_of<R: Threads + Wait + Clock + Sync>(
    rt: &R,
    alloc: Global,
    text: &str,
    workers: usize,
    gate: &TestGate,
    limits: &Limits,
) -> Result<Option<u64>, Fail> {
    let document = read_network(alloc, text.as_bytes())?;
    let commits = commits_in(rt, alloc, document.network(), workers, gate, limits);
    drop(document);
    Ok(commits?)
}

/// The same of a network.
fn commits_in<R: Threads + Wait + Clock + Sync>(
    rt: &R,
    alloc: Global,
    network: &Network,
    workers: usize,
    gate: &TestGate,
    limits: &Limits,
) -> Result<Option<u64>, RunFault> {
    if network.sources() != 0 || workers == 0 || workers > MAX_WORKERS {
        return Ok(None);
    }
    match run(rt, alloc, network, &[], workers, gate, limits) {
        Ok(report) => Ok(stopped_after(&report)),
        Err(fault) => Err(fault),
    }
}

/// After how many commits a run was stopped.
fn stopped_after(report: &Report) -> Option<u64> {
    if report.outcome != Outcome::Stopped {
        return None;
    }
    Some(report.commits)
}

/// 16 workers hold at most 8 processes each, and one of these reaches the limit.
#[test]
fn commits_pass_the_limit_by_at_most_127(rt: HostRuntime) -> Result<(), Fail> {
    let spinning = spinners(rt.alloc(), 256)?;
    let gate = TestGate::open(true);
    for (text, most, quota) in [
        (spinning.as_str(), 1, 1),
        (spinning.as_str(), 100, 1),
        (LONG_AND_SPIN, 26_000, 50),
        (LONG_AND_SPIN, 66_000, 50),
    ] {
        let limits = limits_of(most, quota);
        let commits = commits_of(&rt, rt.alloc(), text, 16, &gate, &limits)?.unwrap_or(0);
        assert!(rt;
            (most..=most + 127).contains(&commits),
            "{commits} for {most}"
        );
    }
    Ok(())
}

fn limits_of(commits: u64, quota: u32) -> Limits {
    Limits {
        commits,
        take: None,
        quota,
    }
}

/// Two processes between which an item goes back and forth, beside two that step for ever. One of two workers claims
/// these two first.
const RING_AND_SPIN: &str = "process spin() { while 1 { } }
process put(in i; out o) { write o 1; while 1 { read i x; write o x; } }
process copy(in i; out o) { while 1 { read i x; write o x; } }
network {
  channel a cap 4; channel b cap 4;
  held = spin(;); spin = spin(;); put = put(b; a); copy = copy(a; b);
}";

/// Numbers through two copies, so many that workers cut the network, beside a process that steps for ever: it alone is
/// left after some 60,000 commits.
const LONG_AND_SPIN: &str = "process spin() { while 1 { } }
process count(out o) { k = 0; while (k < 9000) { write o k; k = (k + 1); } }
process copy(in i; out o) { while 1 { read i x; write o x; } }
process drop(in i) { while 1 { read i x; } }
network {
  channel a cap 1000; channel b cap 1000; channel c cap 1000;
  count = count(; a); first = copy(a; b); second = copy(b; c); drop = drop(c;); spin = spin(;);
}";

/// A process that the gate holds does not stop the others.
#[test]
fn others_go_on_while_one_is_held(rt: HostRuntime) -> Result<(), Fail> {
    let held = Held {
        process: Some(0),
        until: 30,
    };
    let gate = TestGate::holds(held, true);
    let commits = commits_of(
        &rt,
        rt.alloc(),
        RING_AND_SPIN,
        2,
        &gate,
        &limits_of(300_000, 10),
    )?;
    assert!(rt; commits.is_some());
    assert!(rt; gate.have_met());
    Ok(())
}
