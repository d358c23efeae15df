//! Growth: which channel has to grow once a process has come to wait, and how it grows.
ghost use Rattle.std.specs.Prelude.{◌≡◌, ◌↔◌, ◌<◌, ℕ, List, [], ◌∷◌, ◌++◌, length, IsTrue, IfSome, Some, None};
ghost use Rattle.kpn_history.specs.declared.event.Event.{Event};
ghost use Rattle.kpn_history.specs.declared.event.Event.TheVariants as event;
ghost use Rattle.kpn_history.specs.Channels.{capacity_or_zero};
ghost use Rattle.kpn_history.specs.Legal.{OwesCycleGrowth, OwesStopGrowth, OwesGrowth, waiter};
ghost use Rattle.kpn_history.specs.Stops.{OwesNoCycleGrowth, OwesNoStopGrowth};
ghost use Rattle.kpn_machine.specs.Machine.{IsMachine, capacities, channel_in, with_channel};
ghost use Rattle.kpn_chan.specs.Channel.{MayGrowTo, grown_to};
ghost use Rattle.kpn_machine.specs.Run.{IsRun};
ghost use Rattle.kpn_machine.specs.Changes.{Changes};
ghost use Rattle.kpn_machine.specs.Owed.{IsOwed, IsOwedAtStop, IsAwaitedBelowLimit, channel_to_grow};
ghost use Rattle.kpn_cycle.specs.Scan.{cap_in};
ghost use Rattle.kpn_net.specs.Finding.{Finds};
ghost use Rattle.kpn_net.specs.Waits.{FindsSmallest, awaited_as_full};
ghost use Rattle.kpn_net.specs.Tables.{larger_capacity};
ghost use Rattle.kpn_machine.specs.Woken.{waiting_writer};

use super::Machine;
use kpn_cycle::{Found, cycle_through, smallest_waited};
use kpn_net::{End, Network, Policy};
use std::alloc::Allocator;

/// A growth that is owed: the channel, and a process that waits.
#[derive(Clone, Copy, Debug, PartialEq, Eq)]
pub struct OwedGrowth {
    pub process: usize,
    pub channel: usize,
}

/// The new capacity of a channel, and the process that its growth wakes: the writer, if it waited on the channel as
/// full.
#[derive(Clone, Copy, Debug, PartialEq, Eq)]
pub struct Grown {
    pub capacity: u32,
    pub woken: Option<usize>,
}

impl<A: Allocator> Machine<A> {
    /// The channel whose growth is owed for a cycle once process `p` has come to wait. It is the smallest full channel
    /// of the cycle of waiting processes through `p`, if its capacity is below the limit.
    pub fn owed(&self, network: &Network, p: usize) -> Option<usize>
        requires shape { IsMachine network.now self.now }
        requires process { p < length network.now.instances }
        ensures channel { (d : ℕ) → ((result ≡ Some d) ↔ IsOwed network.now self.now p d) }
        ensures growth { (B : List Event) (event : Event) → waiter event ≡ Some p
            → IsRun network.now (B ++ event ∷ []) self.now
            → (d : ℕ) → ((result ≡ Some d) ↔ OwesCycleGrowth network.now (B ++ event ∷ []) p d) }
        ensures nothing { (B : List Event) (event : Event) → waiter event ≡ Some p
            → IsRun network.now (B ++ event ∷ []) self.now
            → result ≡ None → OwesNoCycleGrowth network.now (B ++ event ∷ []) }
        ensures awaited { IfSome result (IsAwaitedBelowLimit network.now self.now) }
    {
        network.known();
        let found = self.walk(network, p);
        self.channel_to_grow(network.limit(), found)
    }

    /// The growth that is owed for a stop. Under the policy `all`, once the run is settled, it is that of the smallest
    /// channel on which a process waits as full, if its capacity is below the limit.
    pub fn owed_at_stop(&self, network: &Network) -> Option<OwedGrowth>
        requires shape { IsMachine network.now self.now }
        ensures now { IfSome result (λ owed.
            IsOwedAtStop network.now self.now owed.process owed.channel) }
        ensures growth { (H : List Event) → IsRun network.now H self.now
            → OwesNoCycleGrowth network.now H
            → IfSome result (λ owed. OwesStopGrowth network.now H owed.process owed.channel) }
        ensures nothing { (H : List Event) → IsRun network.now H self.now
            → result ≡ None → OwesNoStopGrowth network.now H }
        ensures awaited { IfSome result (λ owed.
            IsAwaitedBelowLimit network.now self.now owed.channel) }
    {
        network.known();
        let Policy::All = network.policy() else {
            return None;
        };
        if !self.is_settled(network) {
            return None;
        }
        let Some(smallest) = self.smallest_waited(network) else {
            return None;
        };
        let Some(channel) = self.channel_to_grow(network.limit(), Found::Full(smallest)) else {
            return None;
        };
        let End::Process(process) = network.writer_of(channel) else {
            return None;
        };
        Some(OwedGrowth { process, channel })
    }

    fn smallest_waited(&self, network: &Network) -> Option<usize>
        requires shape { IsMachine network.now self.now }
        ensures exact { let waited = awaited_as_full network.now self.now.waits in
            FindsSmallest (cap_in (capacities self.now)) waited result }
        ensures channel { IfSome result (λ c. c < length self.now.channels) }
    {
        smallest_waited(network, self.waits.table(), self.capacities.as_slice())
    }

    /// What a walk along the waits from process `p` finds.
    pub(super) fn walk(&self, network: &Network, p: usize) -> Found
        requires shape { IsMachine network.now self.now }
        requires process { p < length network.now.instances }
        ensures exact { Finds network.now self.now.waits (cap_in (capacities self.now)) p result }
        ensures channel { (c : ℕ) → result ≡ Found.Full c → c < length self.now.channels }
    {
        if !self.waits.may_await(network, p) {
            return Found::NoCycle;
        }
        cycle_through(network, self.waits.table(), self.capacities.as_slice(), p)
    }

    /// The channel that a search found, if its capacity is below the limit.
    fn channel_to_grow(&self, limit: u32, found: Found) -> Option<usize>
        requires { (c : ℕ) → found ≡ Found.Full c → c < length self.now.channels }
        ensures { result ≡ channel_to_grow (cap_in (capacities self.now)) limit found }
    {
        match found {
            Found::Full(d) if self.capacities[d] < limit => Some(d),
            _ => None,
        }
    }

    /// Makes the capacity of channel `d`, whose growth is owed for process `p`, larger, as the growth of the network
    /// says. It returns the new capacity, and which process this wakes.
    ///
    /// It takes no memory: the writer of `d` waits on it as full, and reserved an item there before it came to wait.
    pub fn grow(&mut self, network: &Network, p: usize, d: usize) -> Grown
        requires shape { IsMachine network.now self.old }
        requires process { p < length network.now.instances }
        requires awaited { IsAwaitedBelowLimit network.now self.old d }
        ensures capacity { result.capacity
            ≡ larger_capacity network.now (cap_in (capacities self.old) d) }
        ensures told { (H : List Event) → IsRun network.now H self.old
            → result.capacity ≡ larger_capacity network.now (capacity_or_zero network.now H d) }
        ensures woken { result.woken ≡ waiting_writer network.now self.old.waits d }
        ensures changes { Changes network.now (event.Grow p d result.capacity)
            self.old self.new }
        ensures shape { IsMachine network.now self.new }
        ensures run { (H : List Event) → IsRun network.now H self.old → OwesGrowth network.now H p d
            → IsRun network.now (H ++ event.Grow p d result.capacity ∷ []) self.new }
    {
        network.known();
        let capacity = self.larger_capacity(network, d);
        let woken = self.waits.wake_writer(network, d);
        self.enlarge(d, capacity);
        Grown { capacity, woken }
    }

    fn larger_capacity(&self, network: &Network, d: usize) -> u32
        requires channel { d < length self.now.channels }
        requires limit { cap_in (capacities self.now) d < network.now.limit }
        ensures { result ≡ larger_capacity network.now (cap_in (capacities self.now) d) }
    {
        network.larger_capacity(self.capacities[d])
    }

    /// Makes the capacity of a channel larger: it becomes `cap`. It takes no memory, since an item is reserved there.
    fn enlarge(&mut self, d: usize, cap: u32)
        requires channel { d < length self.old.channels }
        requires capacity { MayGrowTo cap (channel_in self.old d) }
        requires reserved { IsTrue (channel_in self.old d).is_reserved }
        ensures after { let reserved = (channel_in self.new d).is_reserved in
            self.new ≡ with_channel d (grown_to cap reserved (channel_in self.old d)) self.old }
        ensures reserved { IsTrue (channel_in self.new d).is_reserved }
    {
        let channel = &mut self.channels[d];
        channel.grow_reserved_to(cap);
        self.capacities[d] = cap;
    }
}
