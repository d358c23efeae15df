//! What lies under the lock of a run by workers, and the calls that are lent it: the desk, what each worker knows of
//! its work, and the seats of the outside. No call here waits or takes a lock.
#![tactic(auto)]

mod complete;
mod crew;
mod cut;
mod desk;
mod division;
mod gate;
mod held_turns;
mod job;
mod opening;
mod outside_seats;
mod phases;
mod recent;
mod region_turn;
mod regions;
mod seat;
mod taking;
pub mod tuning;
mod turn;
mod watch;
mod worker;

pub use crew::{Awaited, Need};
pub use desk::Desk;
pub use gate::{CommitsAll, Gate, Go};
pub use held_turns::HeldTurns;
pub use job::Job;
pub use kpn_book::{Refused, View};
pub use opening::{EndSeats, end_seats};
pub use outside_seats::{SinkSeat, SnapFault, SourceSeat, take_from_each};
pub use phases::{NextMove, Notices, Stay, Workers};
pub use region_turn::RegionTurn;
pub use seat::{Why, WorkerSeat};
pub use taking::Takers;
pub use worker::Worker;
