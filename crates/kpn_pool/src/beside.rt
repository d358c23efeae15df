//! A run whose workers have threads of their own, beside what its caller does: feed, take and look.
ghost use Rattle.std.specs.Prelude.{◌≡◌, ◌<◌, ◌≤◌, Bool, [], length, map, IfOk, vec_len, vec_capacity};
ghost use Rattle.std.specs.List.{sum_by};
ghost use Rattle.kpn_book.specs.Kept.{IsBook};
ghost use Rattle.kpn_book.specs.Remembering.{Remembers};
ghost use Rattle.kpn_pool.specs.Causes.{worked_of, is_out_of_memory, is_abandoned, ran_out, all_abandoned, fault_of_run};

use crate::fault::RunFault;
use crate::shared::{Opened, Shared, gather};
use crate::threads::{Ended, Outer, Parties, work_side_by_side};
use kpn_book::{Book, Keeping, Limits};
use kpn_limits::MAX_WORKERS;
use kpn_net::Network;
use kpn_pool_desk::{EndSeats, Gate, Job, SourceSeat, Why, WorkerSeat};
use std::alloc::{AllocError, Global};
use std::marker::Brand;
use std::sync::Wait;
use std::sync::ledger::Blank;
use std::thread::Threads;
use std::time::Clock;

/// The outside of a run while its workers step: the shared desk, on which the calls of the outside work, and the seats
/// of the sinks, and of the sources that no feeder serves.
#[derive(Drop)]
pub struct Outside<'l, 'n, J: Job> {
    pub shared: &'l Shared<'n, J>,
    pub ends: EndSeats,
}

/// Serves the outside of a run on the thread that has started the run.
pub trait Client: Drop {
    /// Feeds, takes and looks as it likes, while the workers step. Once it returns, the workers have to end.
    fn serve<J: Job, R: Wait + Clock>(&mut self, rt: &R, outside: Outside<'_, '_, J>);
}

/// Feeds a source on a thread of its own.
pub trait Feeder: Sync {
    /// Feeds this source, while the workers step. It has to return once all workers have ended, as `feed_when_room`
    /// then does.
    fn feed<J: Job, R: Wait + Clock>(&self, rt: &R, shared: &Shared<'_, J>, source: SourceSeat);
}

/// What a worker did: why it ended, if it did not end before it first worked, and how many commits it made.
#[derive(Clone, Copy, Debug, PartialEq, Eq)]
pub struct Worked {
    pub why: Option<Why>,
    pub commits: u64,
}

/// How a network is run by workers.
#[derive(Drop)]
pub struct WorkPlan<'g, G> {
    /// How many there are, each on a thread of its own.
    pub workers: usize,
    /// Whom they ask before they commit.
    pub gate: &'g G,
    /// A quota of 0 counts as 1.
    pub limits: Limits,
    /// What is kept of what happens.
    pub keeping: Keeping,
}

/// A run whose workers have ended.
#[derive(Drop)]
pub struct EndedRun<'n, C: Drop> {
    /// The book of the run. Its commits are those of the workers.
    pub book: Book<'n>,
    /// The client, which has served the outside.
    pub client: C,
    /// What each worker did, in no certain order.
    pub workers: Vec<Worked>,
    /// The first of these, if there is one: a thread could not be started; memory ran out in a worker; the gate made
    /// every worker end.
    pub fault: Option<RunFault>,
}

/// Runs a network by 1 to `MAX_WORKERS` workers as it is planned, while the client serves the outside on the calling
/// thread. Each feeder feeds a source on a thread of its own, in order of channel number. Feeders for which
/// no source is left do nothing.
///
/// The workers end once nothing more can happen, or the client has returned, or there are as many commits as the limit
/// or up to 127 more. The gate is asked before each commit, unless it lets all through. How many items are wanted of
/// each sink is the matter of the client.
///
/// If a thread cannot be started, the workers have to end. The error is that memory ran out before a thread was
/// started.
pub fn run_beside<'n, R: Threads + Wait + Clock + Sync, G: Gate, C: Client, F: Feeder>(
    rt: &R,
    alloc: Global,
    network: &'n Network,
    plan: &WorkPlan<'_, G>,
    client: C,
    feeders: &[F],
) -> Result<EndedRun<'n, C>, AllocError>
    requires workers { (0 < plan.now.workers) × (plan.now.workers ≤ MAX_WORKERS) }
    ensures network { IfOk result (λ ran. ran.book.tables ≡ network.now) }
    ensures kept { IfOk result (λ ran. Remembers plan.now.keeping ran.book) }
    ensures book { IfOk result (λ ran. IsBook ran.book) }
    ensures count { IfOk result (λ ran. vec_len ran.workers ≡ plan.now.workers) }
    // whether each worker and each feeder had a thread of its own is the only thing left open
    ensures fault { IfOk result (λ ran.
        (had_threads : Bool) × (ran.fault ≡ fault_of_run had_threads ran.workers.items)) }
    ensures commits { IfOk result (λ ran.
        ran.book.commits ≡ sum_by (λ worked. worked.commits) ran.workers.items) }
{
    let blank = Blank::new(plan.workers as u64);
    let outer = Outer { client, feeders };
    run_job::<Brand, R, G, C, F>(rt, alloc, blank, network, plan, outer)
}

/// Runs the network, whose commits are counted in the ledger that the blank makes.
fn run_job<
    'n,
    J: Job + Send + Sync,
    R: Threads + Wait + Clock + Sync,
    G: Gate,
    C: Client,
    F: Feeder,
>(
    rt: &R,
    alloc: Global,
    blank: Blank,
    network: &'n Network,
    plan: &WorkPlan<'_, G>,
    outer: Outer<'_, C, F>,
) -> Result<EndedRun<'n, C>, AllocError>
    requires ledger { (blank.name ≡ J.name) × (blank.parts ≡ J.parts) }
    requires network { network.now ≡ J.network }
    requires kept { plan.now.keeping ≡ J.keeping }
    requires workers { (plan.now.workers ≡ J.parts) × (0 < plan.now.workers)
        × (plan.now.workers ≤ MAX_WORKERS) }
    ensures network { IfOk result (λ ran. ran.book.tables ≡ J.network) }
    ensures kept { IfOk result (λ ran. Remembers J.keeping ran.book) }
    ensures book { IfOk result (λ ran. IsBook ran.book) }
    ensures count { IfOk result (λ ran. vec_len ran.workers ≡ plan.now.workers) }
    ensures fault { IfOk result (λ ran.
        (had_threads : Bool) × (ran.fault ≡ fault_of_run had_threads ran.workers.items)) }
    ensures commits { IfOk result (λ ran.
        ran.book.commits ≡ sum_by (λ worked. worked.commits) ran.workers.items) }
{
    let workers = plan.workers;
    let most = plan.limits.commits;
    let mut records = Vec::with_capacity(alloc, workers)?;
    let Opened {
        shared,
        workers: seats,
        sources,
        sinks,
    } = Shared::<J>::keeping(alloc, blank, network, workers, most, plan.keeping)?;
    let ends = EndSeats { sources, sinks };
    let ended = work_side_by_side(rt, alloc, &shared, plan, Parties { seats, ends, outer })?;
    let Ended {
        seats,
        client,
        had_threads,
    } = ended;
    record_each(seats.as_slice(), &mut records);
    let fault = fault_of(had_threads, records.as_slice());
    let book = gather(shared, seats);
    Ok(EndedRun {
        book,
        client,
        workers: records,
        fault,
    })
}

/// Records what each worker did.
fn record_each<J: Job>(seats: &[WorkerSeat<J>], records: &mut Vec<Worked>)
    requires empty { records.old.items ≡ [] }
    requires room { length seats.now ≤ vec_capacity records.old }
    ensures each { records.new.items ≡ map worked_of seats.now }
    ensures count { vec_len records.new ≡ length seats.now }
    ensures commits { sum_by (λ worked. worked.commits) records.new.items
        ≡ sum_by (λ seat. seat.commits) seats.now }
{
    'seats: for i in 0..seats.len() {
        let seat = &seats[i];
        records.push_reserved(Worked {
            why: seat.why(),
            commits: seat.commits(),
        });
    }
}

/// What kept the workers from their work, if anything did.
fn fault_of(had_threads: bool, workers: &[Worked]) -> Option<RunFault>
    ensures { result ≡ fault_of_run had_threads workers.now }
{
    if !had_threads {
        return Some(RunFault::Threads);
    }
    if has_run_out(workers) {
        return Some(RunFault::NoMemory);
    }
    if have_abandoned(workers) {
        return Some(RunFault::Abandoned);
    }
    None
}

/// Whether memory ran out in a worker.
fn has_run_out(workers: &[Worked]) -> bool
    ensures { result ≡ ran_out workers.now }
{
    workers.iter().any(|worked| is_out_of_memory(worked.why))
}

/// Whether the gate made every worker end.
fn have_abandoned(workers: &[Worked]) -> bool
    ensures { result ≡ all_abandoned workers.now }
{
    workers.iter().all(|worked| is_abandoned(worked.why))
}

/// Whether a worker ended since memory ran out at its commit.
fn is_out_of_memory(why: Option<Why>) -> bool
    ensures { result ≡ is_out_of_memory why }
{
    matches!(why, Some(Why::NoMemory))
}

/// Whether a worker ended since the gate made it.
fn is_abandoned(why: Option<Why>) -> bool
    ensures { result ≡ is_abandoned why }
{
    matches!(why, Some(Why::Abandoned))
}
