//! A filter of a signal. It shows how a program runs a network by workers on lists of its own: it reads no file.
//!
//! The network has two equal stages in a row. Each stage replaces a sample by the mean of it and the one before it. So
//! both together weigh a sample by a quarter, the one before it by a half, and the one before that by a quarter.
#![tactic(auto)]

use anyhow::{Result, ensure};
use kpn_book::{Limits, Report};
use kpn_lang::Sequence;
use kpn_net::Network;
use kpn_pool::{CommitsAll, run};
use kpn_text::read_network;
use std::alloc::Global;
use std::io::Write;
use std::sync::Wait;
use std::thread::Threads;
use std::time::Clock;

/// A stage forks its samples, delays one of the two streams by a sample, and writes the means of both.
const SMOOTHER: &str = "
process fork(in samples; out a, b) { while 1 { read samples x; write a x; write b x; } }
process delay(in samples; out later) { write later 0; while 1 { read samples x; write later x; } }
process mean(in a, b; out means) { while 1 { read a x; read b y; write means ((x + y) / 2); } }
network {
  source signal;
  channel now cap 1; channel to_delay cap 1; channel before cap 1;
  channel halfway cap 1;
  channel now_again cap 1; channel to_delay_again cap 1; channel before_again cap 1;
  sink smooth cap 1;

  fork = fork(signal; now, to_delay);
  delay = delay(to_delay; before);
  mean = mean(now, before; halfway);
  fork_again = fork(halfway; now_again, to_delay_again);
  delay_again = delay(to_delay_again; before_again);
  mean_again = mean(now_again, before_again; smooth);
}
";

const WORKERS: usize = 4;

/// A run that ends once nothing more can happen.
const LIMITS: Limits = Limits {
    commits: 1_000_000,
    take: None,
    quota: 1_000,
};

/// The sample of a square wave at this time: ten samples are low, then ten are high.
fn wave_at(time: i64) -> i64 {
    if time / 10 % 2 == 0 { 0 } else { 8 }
}

/// A list for each source: the samples of 100 times for the only one.
fn lists(alloc: Global) -> Result<Vec<Sequence<i64>>> {
    let samples: Vec<i64> = (0..100).map(wave_at).collect(alloc)?;
    let signal = Sequence::from_vec(samples);
    Ok(vec![in alloc; signal]?)
}

/// Runs a network on these lists, if there is one for each source.
fn run_network<R: Threads + Wait + Clock + Sync>(
    rt: &R,
    alloc: Global,
    network: &Network,
    lists: &[Sequence<i64>],
) -> Result<Report> {
    ensure!(
        lists.len() == network.sources(),
        "there is no list for each source"
    );
    Ok(run(rt, alloc, network, lists, WORKERS, &CommitsAll, &LIMITS)?)
}

/// Filters the lists.
fn filter<R: Threads + Wait + Clock + Sync>(
    rt: &R,
    alloc: Global,
    lists: &[Sequence<i64>],
) -> Result<Report> {
    let document = read_network(alloc, SMOOTHER.as_bytes())?;
    run_network(rt, alloc, document.network(), lists)
}

/// Writes what each sink received, and how the run ended.
fn tell<O: Write>(report: &Report, out: &mut O) -> Result<()> {
    for items in report.taken.as_slice() {
        writeln!(out, "received {:?}", items.as_slice())?;
    }
    writeln!(out, "{:?}", report.outcome)?;
    Ok(())
}

fn main(rt: HostRuntime) -> Result<()> {
    let lists = lists(rt.alloc())?;
    let report = filter(&rt, rt.alloc(), &lists)?;
    tell(&report, &mut rt.stdout())
}
