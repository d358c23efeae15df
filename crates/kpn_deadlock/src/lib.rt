//! Rings: cycles of processes that each wait on an empty channel for the next. A ring is a deadlock: in no legal
//! history that goes on does one of its members have an event again.
#![tactic(auto)]

mod among;
pub mod laws;
mod search;

pub use among::rings_among;
pub use kpn_cycle::awaited;
pub use search::{cycles, rings};
