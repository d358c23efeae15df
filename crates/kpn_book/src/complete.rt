//! Which channels of a run had got all their items when it stopped.
ghost use Rattle.std.specs.Prelude.{◌↔◌, ◌<◌, ℤ, List, length, IsTrue};
ghost use Rattle.kpn_history.specs.Legal.{Legal};
ghost use Rattle.kpn_history.specs.Views.{Agrees};
ghost use Rattle.kpn_history.specs.Complete.{IsComplete};
ghost use Rattle.kpn_book.specs.Reports.{events_of, AreSupplied};

use crate::report::Report;
use kpn_history::State;
use kpn_net::{End, Network};

impl Report {
    /// Whether a channel is complete: its writer is finished, or it is a source, since a run closes its sources. Then
    /// the journal of the channel is the least solution for the lists of the run, whatever the outcome.
    ///
    /// It walks along the waits, from a channel to its writer and on to the channel on which that waits as empty. It
    /// takes no memory, and makes at most as many steps as there are processes.
    pub fn is_complete(&self, network: &Network, c: usize) -> bool
        requires legal { Legal network.now (events_of self.now) }
        requires view { Agrees network.now (events_of self.now) self.now.view }
        requires channel { c < length network.now.channels }
        ensures { (lists : List (List ℤ)) → AreSupplied network.now lists (events_of self.now)
            → (IsTrue result ↔ IsComplete network.now (events_of self.now) c) }
    {
        network.known();
        let mut at = c;
        for _step in 0..network.instances() {
            let End::Process(writer) = network.writer_of(at) else {
                return true;
            };
            let state = self.view.states.as_slice()[writer];
            match state {
                State::WaitsEmpty(next) => at = next,
                State::Ended(_) => return true,
                _ => return false,
            }
        }
        // after this many steps it goes round in a ring of empty waits, or has come to a source
        true
    }
}
