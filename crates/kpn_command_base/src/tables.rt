//! The tables that `kpn stats` writes.

/// Which tables `kpn stats` writes of a run.
#[derive(Clone, Copy, PartialEq, Eq)]
pub enum StatsTables {
    /// Those for people: of the channels, of the processes, and what they say of the capacities.
    People,
    /// The one of the channels, for other programs.
    Channels,
    /// The one of the processes, for other programs.
    Processes,
}
