//! The events of the caller, which feeds sources and closes them, and takes from sinks and leaves them.
ghost use Rattle.std.specs.Prelude.{◌≡◌, ◌<◌, ℕ, true, false, List, [], ◌∷◌, ◌++◌, length, IsTrue, IsSome, Some};
ghost use Rattle.kpn_net.specs.Tables.{channel_at, is_source, is_sink};
ghost use Rattle.kpn_chan.specs.Channel.{next_item};
ghost use Rattle.kpn_history.specs.declared.event.Event.{Event};
ghost use Rattle.kpn_history.specs.declared.event.Event.TheVariants as event;
ghost use Rattle.kpn_history.specs.Stops.{OwesNothing};
ghost use Rattle.kpn_machine.specs.Machine.{channel_in, closed_in, IsMachine};
ghost use Rattle.kpn_machine.specs.Run.{IsRun};
ghost use Rattle.kpn_machine.specs.Changes.{Changes};
ghost use Rattle.kpn_machine.specs.Woken.{waiting_writer, waiting_reader};

use super::Machine;
use super::processes::Got;
use kpn_net::Network;
use std::alloc::Allocator;

impl<A: Allocator> Machine<A> {
    /// The caller puts an item on a source that is not closed and has room reserved for it. It returns the process
    /// that this wakes, which is the reader of the source, if it waited on it as empty.
    pub fn feed(&mut self, network: &Network, c: usize, item: i64) -> Option<usize>
        requires shape { IsMachine network.now self.old }
        requires channel { c < length network.now.channels }
        requires source { is_source (channel_at network.now c) ≡ true }
        requires open { closed_in self.old c ≡ false }
        requires reserved { IsTrue (channel_in self.old c).is_reserved }
        ensures woken { result ≡ waiting_reader network.now self.old.waits c }
        ensures changes { Changes network.now (event.Feed c item) self.old self.new }
        ensures shape { IsMachine network.now self.new }
        ensures run { (H : List Event) → IsRun network.now H self.old → OwesNothing network.now H
            → IsRun network.now (H ++ event.Feed c item ∷ []) self.new }
    {
        network.known();
        let channel = &mut self.channels[c];
        channel.put(item);
        self.waits.wake_reader(network, c)
    }

    /// The caller closes a source that is not closed.
    pub fn close(&mut self, network: &Network, c: usize)
        requires shape { IsMachine network.now self.old }
        requires channel { c < length network.now.channels }
        requires source { is_source (channel_at network.now c) ≡ true }
        requires open { closed_in self.old c ≡ false }
        ensures changes { Changes network.now (event.Close c) self.old self.new }
        ensures shape { IsMachine network.now self.new }
        ensures run { (H : List Event) → IsRun network.now H self.old → OwesNothing network.now H
            → IsRun network.now (H ++ event.Close c ∷ []) self.new }
    {
        network.known();
        self.closed[c] = true;
    }

    /// The caller takes the next item of a sink. This wakes the writer of the sink, if it waited on it as
    /// full.
    pub fn take(&mut self, network: &Network, c: usize) -> Got
        requires shape { IsMachine network.now self.old }
        requires channel { c < length network.now.channels }
        requires sink { is_sink (channel_at network.now c) ≡ true }
        requires ready { IsSome (next_item (channel_in self.old c)) }
        ensures item { next_item (channel_in self.old c) ≡ Some result.item }
        ensures woken { result.woken ≡ waiting_writer network.now self.old.waits c }
        ensures changes { Changes network.now (event.Take c result.item) self.old self.new }
        ensures shape { IsMachine network.now self.new }
        ensures run { (H : List Event) → IsRun network.now H self.old → OwesNothing network.now H
            → IsRun network.now (H ++ event.Take c result.item ∷ []) self.new }
    {
        network.known();
        let channel = &mut self.channels[c];
        let Some(item) = channel.get() else {
            unreachable!();
        };
        let woken = self.waits.wake_writer(network, c);
        Got { item, woken }
    }

    /// The caller leaves a sink that it has not left. It returns the process that this wakes, which is the writer of
    /// the sink, if it waited on it as full.
    pub fn leave(&mut self, network: &Network, c: usize) -> Option<usize>
        requires shape { IsMachine network.now self.old }
        requires channel { c < length network.now.channels }
        requires sink { is_sink (channel_at network.now c) ≡ true }
        requires there { (channel_in self.old c).is_retired ≡ false }
        ensures woken { result ≡ waiting_writer network.now self.old.waits c }
        ensures changes { Changes network.now (event.Leave c) self.old self.new }
        ensures shape { IsMachine network.now self.new }
        ensures run { (H : List Event) → IsRun network.now H self.old → OwesNothing network.now H
            → IsRun network.now (H ++ event.Leave c ∷ []) self.new }
    {
        network.known();
        let channel = &mut self.channels[c];
        channel.retire();
        self.waits.wake_writer(network, c)
    }
}
