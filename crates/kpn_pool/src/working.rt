//! What a worker does.
ghost use Rattle.std.specs.Prelude.{◌≡◌, ◌<◌, ◌≤◌, IsSome};

use crate::shared::Shared;
use kpn_pool_desk::{Gate, Job, RegionTurn, Worker, WorkerSeat};
use std::alloc::Allocator;
use std::sync::Wait;
use std::time::Clock;

/// Steps processes and commits their steps until there is a reason to end, which the seat then has.
///
/// Up to eight processes are claimed, no more than a worker's part of those that are ready. One after the other makes
/// at most `quota` steps with the lock free, and the gate is asked; then they are committed in that order. Steps that
/// are refused there as of a process that is not held, or of another one, are dropped, and count as no commit. The last
/// batches may lead past the commits that are allowed: by 127 at most, with 16 workers.
///
/// If the gate lets everything through, the network may be cut into regions once the run has gone on for some time.
/// Then a worker claims a whole region, runs it with the lock free, and commits together what it has done. What no more
/// agrees with the book is dropped in the same way. Regions are claimed only while the commits that are allowed are far:
/// by themselves they lead to no more.
///
/// It returns only once there is such a reason. So a thread that calls this hangs if it also has to take from a sink:
/// once the sink is full, the run waits for a take that does not come. Take on another thread, or call
/// `run_beside`, which gives each worker a thread of its own.
pub fn work<'n, J: Job, A: Allocator + Copy, G: Gate, R: Wait + Clock>(
    rt: &R,
    shared: &Shared<'n, J, A>,
    gate: &G,
    seat: WorkerSeat<J>,
    quota: u32,
) -> WorkerSeat<J>
    requires { 0 < quota }
    ensures number { result.number ≡ seat.number }
    ensures why { IsSome result.why }
    ensures commits { seat.commits ≤ result.commits }
{
    let mut worker = Worker::new(seat, quota);
    let mut region = RegionTurn::new();
    for _ in rt.forever() {
        if !shared.go_on(rt, gate, &mut worker, &mut region) {
            return worker.into_seat();
        }
        worker.step(rt, gate, &mut region);
    }
    unreachable!()
}
