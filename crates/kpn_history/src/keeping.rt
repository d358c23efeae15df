//! What is kept of a run.
ghost use Rattle.std.specs.Prelude.{◌≡◌};
ghost use Rattle.kpn_history.specs.Keeping.{keeps_all, keeps_items};

use kpn_net::Network;

/// What is kept of what has happened in a run.
#[derive(Clone, Copy, Debug, PartialEq, Eq)]
pub enum Keeping {
    /// Each event, and all items of each channel.
    All,
    /// All items of the sources and of the sinks: what a report shows, and what it was made from.
    Ends,
    /// All items of the sinks: what a report shows.
    Sinks,
    /// Nothing: only proofs know what has happened.
    Nothing,
}

impl Keeping {
    /// Whether each event is kept.
    pub fn is_all(self) -> bool
        ensures { result ≡ keeps_all self }
    {
        match self {
            Keeping::All => true,
            Keeping::Ends | Keeping::Sinks | Keeping::Nothing => false,
        }
    }

    /// Whether the items of a channel are kept.
    pub fn keeps_items(self, network: &Network, c: usize) -> bool
        ensures { result ≡ keeps_items self network.now c }
    {
        match self {
            Keeping::All => true,
            Keeping::Ends => network.is_source(c) || network.is_sink(c),
            Keeping::Sinks => network.is_sink(c),
            Keeping::Nothing => false,
        }
    }
}
