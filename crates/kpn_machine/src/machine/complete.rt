//! Whether anything more can be put on a channel.
ghost use Rattle.std.specs.Prelude.{◌↔◌, ◌<◌, List, length, IsTrue};
ghost use Rattle.kpn_history.specs.declared.event.Event.{Event};
ghost use Rattle.kpn_history.specs.Complete.{IsComplete};
ghost use Rattle.kpn_machine.specs.Machine.{IsMachine};
ghost use Rattle.kpn_machine.specs.Run.{IsRun};

use super::Machine;
use kpn_net::{End, Network, Wait};
use std::alloc::Allocator;

impl<A: Allocator> Machine<A> {
    /// Whether channel `c` is complete: its writer is finished, or it is a closed source. Then nothing more is ever put
    /// there, whatever the capacities.
    ///
    /// It walks along the waits, from a channel to its writer and on to the channel on which that waits as empty. It
    /// takes no memory, and makes at most as many steps as there are processes.
    pub fn is_complete(&self, network: &Network, c: usize) -> bool
        requires shape { IsMachine network.now self.now }
        requires channel { c < length network.now.channels }
        ensures { (H : List Event) → IsRun network.now H self.now
            → (IsTrue result ↔ IsComplete network.now H c) }
    {
        network.known();
        let mut at = c;
        for _step in 0..network.instances() {
            let End::Process(writer) = network.writer_of(at) else {
                return self.is_closed(at);
            };
            if self.end_of(writer).is_some() {
                return true;
            }
            let Wait::Empty(next) = self.wait(writer) else {
                return false;
            };
            at = next;
        }
        // after this many steps it goes round in a ring of empty waits, unless it has come to a source
        if network.is_source(at) {
            self.is_closed(at)
        } else {
            true
        }
    }
}
