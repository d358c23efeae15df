//! Regions: a worker takes a set of processes and what lies unread on their channels, runs them by itself, with no
//! lock, no waits and no wakes, and hands back the events that they made.
#![tactic(auto)]

mod agreeing;
mod batch;
mod joining;
pub mod laws;
mod ready;
mod side;
mod traffic;

pub use batch::Batch;
pub use side::RegionSide;
