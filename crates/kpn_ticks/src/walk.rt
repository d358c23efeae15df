//! A walk along a longest chain of gets and puts, and for how many ticks each process binds the run.
ghost use Rattle.std.specs.Prelude.{◌≡◌, ◌+◌, ◌<◌, ◌^◌, ℕ, slice_index_or, slice_set, IfOk};
ghost use Rattle.kpn_audit.specs.Stored.{audited_under, tables_for, history_in};
ghost use Rattle.kpn_ticks.specs.Shown.{shown};
ghost use Rattle.kpn_ticks.specs.Chain.{process_or, writer_or, reader_or, awaited_process, walk_past, walk_then, walk_back, walk_start, shares_of};
ghost use Rattle.kpn_ticks.specs.ChainShown.{walked};

use crate::clocks::{Clocks, zeros};
use crate::moves::{Log, Move, WaitCause};
use kpn_history::{Event, Trace, Version};
use kpn_net::{End, Growth, Network, Policy};
use std::alloc::{AllocError, Global};

/// For how many ticks of a longest chain each process makes the get or put, in the history of a trace under the rules
/// of growth of its version.
pub fn shares_of(alloc: Global, network: &Network, trace: &Trace) -> Result<Vec<usize>, AllocError>
    ensures { IfOk result (λ shares. shares.items
        ≡ shares_of (tables_for network.now trace.now) (history_in network.now trace.now)) }
{
    let events = trace.events.as_slice();
    shares_under(alloc, network, trace.version, events)
}

// The same for these events, under the rules of growth of their version.
fn shares_under(
    alloc: Global,
    network: &Network,
    version: Version,
    events: &[Event],
) -> Result<Vec<usize>, AllocError>
    ensures { IfOk result (λ shares. shares.items
        ≡ shares_of (audited_under version network.now) events.now) }
{
    match version {
        Version::One => {
            let plain = network.under(Policy::Cycles, Growth::One)?;
            shares_among(alloc, &plain, events)
        }
        Version::Two => shares_among(alloc, network, events),
    }
}

fn shares_among(
    alloc: Global,
    network: &Network,
    events: &[Event],
) -> Result<Vec<usize>, AllocError>
    ensures { IfOk result (λ shares. shares.items ≡ shares_of network.now events.now) }
{
    let log = Log::of(alloc, network, events)?;
    let mut walker = Walker::new(alloc, network, &log.clocks)?;
    walker.walk_back(network, &log.moves);
    Ok(walker.shares)
}

/// A walk along the chain from its end: next comes the get or put of this process at this tick.
#[derive(Drop)]
pub(crate) struct Walker {
    process: usize,
    tick: usize,
    shares: Vec<usize>,
}

impl Walker {
    fn new(alloc: Global, network: &Network, clocks: &Clocks) -> Result<Walker, AllocError>
        ensures { IfOk result (λ walker. walked walker ≡ walk_start network.now (shown clocks.now)) }
    {
        let shares = zeros(alloc, network.instances())?;
        Ok(Walker {
            process: clocks.last_process(),
            tick: clocks.last(),
            shares,
        })
    }

    // From the last of these back to the first. No share counts anything yet.
    fn walk_back(&mut self, network: &Network, moves: &[Move])
        requires { (p : ℕ) → slice_index_or self.old.shares.items p 0 ≡ 0 }
        ensures { walked self.new ≡ walk_back network.now (walked self.old) moves.now }
    {
        for i in 0..moves.len() {
            let k = moves.len() - 1 - i;
            self.step(network, moves[k]);
        }
    }

    fn step(&mut self, network: &Network, m: Move)
        requires { (p : ℕ) → slice_index_or self.old.shares.items p 0 + 1 < 2 ^ 64 }
        ensures { walked self.new ≡ walk_then network.now (walked self.old) m }
    {
        if usize::from(m.process) == self.process && m.tick == self.tick {
            self.walk_past(network, m);
        }
    }

    // Walks past a get or put that comes next.
    fn walk_past(&mut self, network: &Network, m: Move)
        requires { (p : ℕ) → slice_index_or self.old.shares.items p 0 + 1 < 2 ^ 64 }
        ensures { walked self.new ≡ walk_past network.now (walked self.old) m }
    {
        let p = usize::from(m.process);
        self.process = awaited(network, p, m.cause);
        self.tick = self.tick.saturating_sub(1);
        count_at(&mut self.shares, p);
    }
}

fn count_at(counts: &mut Vec<usize>, p: usize)
    requires { slice_index_or counts.old.items p 0 + 1 < 2 ^ 64 }
    ensures { counts.new.items
        ≡ slice_set counts.old.items p (slice_index_or counts.old.items p 0 + 1) }
{
    if p < counts.len() {
        counts[p] += 1;
    }
}

// For whom a get or put of process `p` waited.
fn awaited(network: &Network, p: usize, cause: WaitCause) -> usize
    ensures { result ≡ awaited_process network.now p cause }
{
    match cause {
        WaitCause::Own => p,
        WaitCause::Item(c) => writer_or(network, c.into(), p),
        WaitCause::Room(c) => reader_or(network, c.into(), p),
    }
}

fn writer_or(network: &Network, c: usize, p: usize) -> usize
    ensures { result ≡ writer_or network.now c p }
{
    if c < network.channels() {
        process_at(network.writer_of(c), p)
    } else {
        p
    }
}

fn reader_or(network: &Network, c: usize, p: usize) -> usize
    ensures { result ≡ reader_or network.now c p }
{
    if c < network.channels() {
        process_at(network.reader_of(c), p)
    } else {
        p
    }
}

// The process at an end, or else this one.
fn process_at(end: End, p: usize) -> usize
    ensures { result ≡ process_or end p }
{
    match end {
        End::Process(q) => q,
        End::Source | End::Sink => p,
    }
}
