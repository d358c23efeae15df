//! The order of the events of all parts.
use kpn_history::Event;

/// An event of a part, with the part's own numbers of processes and channels.
#[derive(Clone, Copy, Debug, PartialEq, Eq)]
pub struct PartEvent {
    /// The number of the part.
    pub part: usize,
    /// The event.
    pub event: Event,
}
