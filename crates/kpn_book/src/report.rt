//! What the caller of a run gets once it has stopped.
use crate::outcome::Outcome;
use kpn_history::{History, View};
use kpn_lang::Sequence;

/// A run that has stopped, as its caller gets it.
#[derive(Drop)]
pub struct Report {
    pub outcome: Outcome,
    /// The channels and the states of the processes.
    pub view: View,
    /// The items that were read of each sink, in order of channel number.
    pub taken: Sequence<Sequence<i64>>,
    /// How many commits were made.
    pub commits: u64,
    /// All that happened, oldest first.
    pub history: History,
}
