//! Whether what was claimed of a region agrees with a machine, which may be a later one than that of the claim.
ghost use Rattle.std.specs.Prelude.{◌≡◌, ◌↔◌, ℕ, ◌<◌, length, take, IsTrue};
ghost use Rattle.kpn_net.specs.Tables.{Tables, channel_at, is_sink};
ghost use Rattle.kpn_chan.specs.Channel.{readable};
ghost use Rattle.kpn_machine.specs.Machine.{channel_in, IsMachine};
ghost use Rattle.kpn_region.specs.Local.{side_at};
ghost use Rattle.kpn_region.specs.Joining.{ChannelAgrees, ProcessAgrees, ProcessesAgree, ChannelsAgree, AgreesWith};
ghost use Rattle.kpn_region.specs.Agreeing.{is_within_capacity, keeps_capacity, empties_a_sink, takes_in_order, has_places, rest_agrees};

use crate::batch::Batch;
use crate::side::RegionSide;
use kpn_chan::Channel;
use kpn_machine::Machine;
use kpn_net::Network;
use kpn_step::Frame;
use std::alloc::Allocator;

impl<'n, A: Allocator> Batch<'n, A> {
    /// Whether what was claimed agrees with a machine. If it does, the batch may be joined to it.
    pub fn agrees_with<B: Allocator>(&self, machine: &Machine<B>) -> bool
        requires { IsMachine self.now.tables machine.now }
        ensures { IsTrue result ↔ AgreesWith self.now machine.now }
    {
        if !self.processes_agree(machine) {
            return false;
        }
        self.channels_agree(machine)
    }

    /// Whether no process of the region has ended, and each is where it was claimed.
    fn processes_agree<B: Allocator>(&self, machine: &Machine<B>) -> bool
        requires { IsMachine self.now.tables machine.now }
        ensures { IsTrue result ↔ ProcessesAgree self.now machine.now }
    {
        let network = self.network();
        'processes: for p in 0..network.instances() {
            if !self.process_agrees(p, machine) {
                return false;
            }
        }
        true
    }

    /// Whether process `p` is not in the region, or has not ended and is where it was claimed.
    fn process_agrees<B: Allocator>(&self, p: usize, machine: &Machine<B>) -> bool
        requires shape { IsMachine self.now.tables machine.now }
        requires process { p < length self.now.tables.instances }
        ensures { IsTrue result ↔ ProcessAgrees self.now.first machine.now p }
    {
        self.known();
        if !self.is_within(p) {
            return true;
        }
        if machine.end_of(p).is_some() {
            return false;
        }
        same_frame(machine.frame(p), self.first_frame(p))
    }

    /// Whether what the region sees of each channel agrees with it.
    fn channels_agree<B: Allocator>(&self, machine: &Machine<B>) -> bool
        requires { IsMachine self.now.tables machine.now }
        ensures { IsTrue result ↔ ChannelsAgree self.now machine.now }
    {
        let network = self.network();
        'channels: for c in 0..network.channels() {
            if !self.channel_agrees(network, c, machine) {
                return false;
            }
        }
        true
    }

    /// Whether what the region sees of channel `c` agrees with it.
    fn channel_agrees<B: Allocator>(
        &self,
        network: &Network,
        c: usize,
        machine: &Machine<B>,
    ) -> bool
        requires tables { network.now ≡ self.now.tables }
        requires shape { IsMachine self.now.tables machine.now }
        requires channel { c < length self.now.tables.channels }
        ensures { IsTrue result ↔ ChannelAgrees self.now.tables c
            (side_at self.now.now c) (channel_in machine.now c) }
    {
        let side = self.side(c);
        let channel = machine.channel(c);
        if side.is_unseen() {
            channel.known();
            return true;
        }
        agrees(side, channel, network.is_sink(c))
    }
}

fn same_frame(left: &Frame, right: &Frame) -> bool
    ensures { IsTrue result ↔ (left.now ≡ right.now) }
{
    *left == *right
}

/// Whether what the region sees of a channel agrees with it.
fn agrees<A: Allocator, B: Allocator>(
    side: &RegionSide<A>,
    channel: &Channel<B>,
    sink: bool,
) -> bool
    ensures { (t : Tables) (c : ℕ) → sink ≡ is_sink (channel_at t c)
        → (IsTrue result ↔ ChannelAgrees t c side.now channel.now) }
{
    side.known();
    let items = side.items();
    let claimed = &items[..side.claimed()];
    if !begins_with(channel, claimed) {
        return false;
    }
    rest_agrees(side, channel, sink)
}

/// Whether these are the next items that a reader gets.
fn begins_with<B: Allocator>(channel: &Channel<B>, items: &[i64]) -> bool
    ensures { IsTrue result ↔ (items.now ≡ take (length items.now) (readable channel.now)) }
{
    let (first, rest) = channel.readable();
    if items.len() <= first.len() {
        let head = &first[..items.len()];
        return *items == *head;
    }
    let (front, back) = items.split_at(first.len());
    if back.len() > rest.len() {
        return false;
    }
    let head = &rest[..back.len()];
    *front == *first && *back == *head
}

/// The same apart from the items.
fn rest_agrees<A: Allocator, B: Allocator>(
    side: &RegionSide<A>,
    channel: &Channel<B>,
    sink: bool,
) -> bool
    ensures { result ≡ rest_agrees sink side.now channel.now }
{
    keeps_capacity(side, channel)
        && empties_a_sink(side, channel, sink)
        && takes_in_order(side, channel)
        && has_places(side, channel)
}

/// Whether the room and what is unread are within the capacity and what was claimed, if the reader is there.
fn keeps_capacity<A: Allocator, B: Allocator>(side: &RegionSide<A>, channel: &Channel<B>) -> bool
    ensures { result ≡ keeps_capacity side.now channel.now }
{
    if channel.is_retired() {
        return true;
    }
    let wanted = u128::from(side.room()) + channel.len() as u128;
    is_within_capacity(wanted, side.claimed(), channel.cap())
}

fn is_within_capacity(wanted: u128, claimed: usize, capacity: Option<u32>) -> bool
    ensures { result ≡ is_within_capacity wanted claimed capacity }
{
    match capacity {
        Some(capacity) => wanted <= u128::from(capacity) + claimed as u128,
        None => true,
    }
}

/// Whether the channel is a sink with a reader, of which nothing was claimed, if the region empties it.
fn empties_a_sink<A: Allocator, B: Allocator>(
    side: &RegionSide<A>,
    channel: &Channel<B>,
    sink: bool,
) -> bool
    ensures { result ≡ empties_a_sink sink side.now channel.now }
{
    !side.is_drained() || (sink && !channel.is_retired() && side.claimed() == 0)
}

/// Whether no item was taken that was put after one that was not claimed.
fn takes_in_order<A: Allocator, B: Allocator>(side: &RegionSide<A>, channel: &Channel<B>) -> bool
    ensures { result ≡ takes_in_order side.now channel.now }
{
    side.taken() <= side.claimed() || side.claimed() == channel.len()
}

/// Whether what the region has put can be joined to the channel without memory.
fn has_places<A: Allocator, B: Allocator>(side: &RegionSide<A>, channel: &Channel<B>) -> bool
    ensures { result ≡ has_places side.now channel.now }
{
    side.known();
    channel.has_places_for(side.items().len() - side.claimed())
}
