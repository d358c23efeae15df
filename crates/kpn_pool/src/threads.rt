//! The threads of a run: one for each worker and each feeder, beside the calling thread, which serves the outside.
ghost use Rattle.std.specs.Prelude.{◌≡◌, ◌+◌, ◌<◌, ◌≤◌, IfOk, vec_len, vec_capacity};

use crate::beside::{Client, Feeder, Outside, WorkPlan};
use crate::shared::Shared;
use crate::working::work;
use kpn_pool_desk::{EndSeats, Gate, Job, SourceSeat, WorkerSeat};
use std::alloc::{AllocError, Global};
use std::sync::Wait;
use std::thread;
use std::thread::{JoinHandle, Scope, Threads};
use std::time::Clock;

/// Who is outside of a run: the client, and those who feed on threads of their own.
#[derive(Drop)]
pub(crate) struct Outer<'f, C: Drop, F> {
    pub client: C,
    pub feeders: &'f [F],
}

/// Who takes part in a run: the seats of its workers, and those outside with theirs.
#[derive(Drop)]
pub(crate) struct Parties<'f, J: Job, C: Drop, F> {
    pub seats: Vec<WorkerSeat<J>>,
    pub ends: EndSeats,
    pub outer: Outer<'f, C, F>,
}

/// What a run has come to once its workers and its feeders have ended.
#[derive(Drop)]
pub(crate) struct Ended<J: Job, C: Drop> {
    /// The seats of all workers.
    pub seats: Vec<WorkerSeat<J>>,
    /// The client, which has served the outside.
    pub client: C,
    /// Whether each worker and each feeder had a thread of its own.
    pub had_threads: bool,
}

/// Steps the processes by a worker for each seat, and feeds sources by the feeders, each on a thread of its own. The
/// client serves the outside meanwhile. The error is that memory ran out before a thread was started.
pub(crate) fn work_side_by_side<
    J: Job + Send + Sync,
    R: Threads + Wait + Clock + Sync,
    G: Gate,
    C: Client,
    F: Feeder,
>(
    rt: &R,
    alloc: Global,
    shared: &Shared<'_, J>,
    plan: &WorkPlan<'_, G>,
    parties: Parties<'_, J, C, F>,
) -> Result<Ended<J, C>, AllocError>
    requires { vec_len parties.seats ≡ J.parts }
    ensures { IfOk result (λ ended. vec_len ended.seats ≡ J.parts) }
{
    thread::scope(
        thread::scope_env(),
        rt,
        |scope| -> Result<Ended<J, C>, AllocError>
            requires { vec_len parties.seats ≡ J.parts }
            ensures { IfOk result (λ ended. vec_len ended.seats ≡ J.parts) }
        { work_in(rt, alloc, scope, shared, plan, parties) },
    )
}

/// The same in a scope of threads. A worker that gets no thread has ended, and a feeder that gets none does nothing.
fn work_in<
    's,
    E,
    J: Job + Send + Sync,
    R: Threads + Wait + Clock + Sync,
    G: Gate,
    C: Client,
    F: Feeder,
>(
    rt: &'s R,
    alloc: Global,
    scope: &Scope<'s, E>,
    shared: &'s Shared<'_, J>,
    plan: &'s WorkPlan<'_, G>,
    parties: Parties<'s, J, C, F>,
) -> Result<Ended<J, C>, AllocError>
    ensures { IfOk result (λ ended. vec_len ended.seats ≡ vec_len parties.entry.seats) }
{
    let Parties {
        seats,
        mut ends,
        outer,
    } = parties;
    let Outer {
        mut client,
        feeders,
    } = outer;
    let gate = plan.gate;
    let quota = plan.limits.quota.max(1);
    // a gate may hold workers for long, which then need no processor
    if gate.lets_all() {
        if let Ok(processors) = thread::available_parallelism(rt) {
            shared.run_on(rt, processors.get());
        }
    }
    let mut threads = Vec::with_capacity(alloc, seats.len())?;
    let mut ended = Vec::with_capacity(alloc, seats.len())?;
    'seats: for seat in seats {
        match start(rt, scope, shared, gate, seat, quota) {
            Ok(thread) => threads.push_reserved(thread),
            Err(seat) => ended.push_reserved(seat),
        }
    }
    let have_feeders = start_feeders(rt, scope, shared, feeders, &mut ends);
    let had_threads = ended.is_empty() && have_feeders;
    client.serve(rt, Outside { shared, ends });
    shared.halt(rt);
    'threads: for thread in threads {
        ended.push_reserved(thread.join(rt));
    }
    Ok(Ended {
        seats: ended,
        client,
        had_threads,
    })
}

/// Starts each feeder for which there is a source on a thread of its own. Returns whether each got one. The end of the
/// scope waits for them.
fn start_feeders<'s, E, J: Job + Send + Sync, R: Wait + Clock + Sync, F: Feeder>(
    rt: &'s R,
    scope: &Scope<'s, E>,
    shared: &'s Shared<'_, J>,
    feeders: &'s [F],
    ends: &mut EndSeats,
) -> bool {
    let mut had_threads = true;
    for feeder in feeders {
        if let Some(source) = first_source(ends) {
            had_threads = start_feeder(rt, scope, shared, feeder, source) && had_threads;
        }
    }
    had_threads
}

/// The seat of the first source, which is taken from these, if there is one.
fn first_source(ends: &mut EndSeats) -> Option<SourceSeat> {
    if ends.sources.is_empty() {
        return None;
    }
    Some(ends.sources.remove(0))
}

/// Starts a worker on a thread of its own. If it cannot be started, all workers have to end, this one too.
fn start<'s, E, J: Job + Send + Sync, R: Wait + Clock + Sync, G: Gate>(
    rt: &'s R,
    scope: &Scope<'s, E>,
    shared: &'s Shared<'_, J>,
    gate: &'s G,
    seat: WorkerSeat<J>,
    quota: u32,
) -> Result<JoinHandle<WorkerSeat<J>>, WorkerSeat<J>>
    requires { 0 < quota }
{
    let job = move || -> WorkerSeat<J>
        requires { 0 < quota }
    { work(rt, shared, gate, seat, quota) };
    match scope.spawn(job) {
        Ok(thread) => Ok(thread),
        Err(refused) => {
            shared.halt(rt);
            Err((refused.value)())
        }
    }
}

/// Starts a feeder on a thread of its own. Returns whether it got one. If not, all workers have to end, and the feeder
/// finds that they have.
fn start_feeder<'s, E, J: Job + Send + Sync, R: Wait + Clock + Sync, F: Feeder>(
    rt: &'s R,
    scope: &Scope<'s, E>,
    shared: &'s Shared<'_, J>,
    feeder: &'s F,
    source: SourceSeat,
) -> bool {
    let job = move || feed_by(rt, shared, source, feeder);
    match scope.spawn(job) {
        Ok(_thread) => true,
        Err(refused) => {
            shared.halt(rt);
            (refused.value)();
            false
        }
    }
}

/// The feeder feeds the source.
fn feed_by<J: Job, R: Wait + Clock, F: Feeder>(
    rt: &R,
    shared: &Shared<'_, J>,
    source: SourceSeat,
    feeder: &F,
) {
    feeder.feed(rt, shared, source);
}
