//! A run of a network by several workers at once, which promises the report of a run on one thread; and its parts: the
//! lock round a desk, what a worker does, and the calls of the outside, which wait for the lock. This crate also passes
//! on the desk and the seats, of `kpn_pool_desk`.
#![tactic(auto)]

mod beside;
mod by_workers;
mod ending;
mod fault;
mod fed;
mod outside_calls;
mod serving;
mod shared;
mod threads;
mod working;

pub use beside::{Client, EndedRun, Feeder, Outside, WorkPlan, Worked, run_beside};
pub use by_workers::{run, run_keeping};
pub use fault::RunFault;
pub use kpn_pool_desk::{
    Awaited, CommitsAll, Desk, EndSeats, Gate, Go, Job, SinkSeat, SnapFault, SourceSeat, Why,
    WorkerSeat, end_seats,
};
pub use outside_calls::{
    close, feed, feed_all, feed_when_room, leave, snapshot, take, take_each, take_when_due,
    take_when_there,
};
pub use shared::{DeskLook, Opened, Shared, gather};
pub use working::work;
