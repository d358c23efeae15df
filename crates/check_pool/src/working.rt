//! Two or three workers at once.
use kpn_pool::{Shared, work};
use kpn_pool_desk::{Gate, Job, WorkerSeat};
use std::sync::Wait;
use std::thread;
use std::thread::Threads;
use std::time::Clock;

/// Two workers are at work at once, on two threads and in turns of ten steps, until both have ended. Gives their seats.
pub fn both_work<J: Job + Send + Sync, G: Gate, R: Threads + Wait + Clock + Sync>(
    rt: &R,
    shared: &Shared<'_, J>,
    gate: &G,
    first: WorkerSeat<J>,
    second: WorkerSeat<J>,
) -> (WorkerSeat<J>, WorkerSeat<J>) {
    thread::join(
        rt,
        move || work(rt, shared, gate, first, 10),
        move || work(rt, shared, gate, second, 10),
    )
}

/// The same of three workers.
pub fn three_work<J: Job + Send + Sync, G: Gate, R: Threads + Wait + Clock + Sync>(
    rt: &R,
    shared: &Shared<'_, J>,
    gate: &G,
    first: WorkerSeat<J>,
    second: WorkerSeat<J>,
    third: WorkerSeat<J>,
) -> (WorkerSeat<J>, (WorkerSeat<J>, WorkerSeat<J>)) {
    thread::join(
        rt,
        move || work(rt, shared, gate, first, 10),
        move || both_work(rt, shared, gate, second, third),
    )
}
