//! A book apart from its network.
use crate::schedule::Schedule;
use kpn_history::History;
use kpn_machine::Machine;

/// A book that was detached from its network. It borrows nothing, so one value can own it together with the network.
#[derive(Drop)]
pub struct Detached {
    pub(crate) machine: Machine,
    pub(crate) history: History,
    pub(crate) schedule: Schedule,
    pub(crate) commits: u64,
}
