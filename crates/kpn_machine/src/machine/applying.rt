//! Events as data: whether one is due, and how one that is due is made.
ghost use Rattle.std.specs.Prelude.{◌≡◌, ◌↔◌, ◌<◌, ℕ, ℤ, true, false, length, IsTrue, OnOk, Some};
ghost use Rattle.kpn_net.specs.Tables.{instance_at, channel_at, is_source};
ghost use Rattle.kpn_chan.specs.Channel.{next_item};
ghost use Rattle.kpn_history.specs.Talks.{is_of};
ghost use Rattle.kpn_history.specs.Legal.{HasNumbers};
ghost use Rattle.kpn_machine.specs.Machine.{channel_in, closed_in, IsMachine};
ghost use Rattle.kpn_machine.specs.Changes.{IsChannelAt, Changes};
ghost use Rattle.kpn_machine.specs.Due.{StandsFree, IsDueNow, IsReadAt, IsWriteAt, AsksFor, IsReady};

use super::Machine;
use crate::ends::stop_of;
use kpn_history::Event;
use kpn_net::Network;
use kpn_step::Stop;
use std::alloc::{AllocError, Allocator};

impl<A: Allocator> Machine<A> {
    /// Whether an event is due, if no growth is owed. If it is one of a process, this process stands free at `stop`;
    /// else `stop` does not matter.
    pub fn is_due(&self, network: &Network, event: Event, stop: Stop) -> bool
        requires shape { IsMachine network.now self.now }
        requires numbers { HasNumbers network.now event }
        requires stands { (p : ℕ) → is_of p event ≡ true
            → StandsFree network.now self.now p stop }
        ensures { IsTrue result ↔ IsDueNow network.now self.now event }
    {
        if !asks_for(network, stop, event) {
            return false;
        }
        self.is_ready(network, event)
    }

    /// Whether its channel is ready for an event.
    fn is_ready(&self, network: &Network, event: Event) -> bool
        requires shape { IsMachine network.now self.now }
        requires numbers { HasNumbers network.now event }
        ensures { IsTrue result ↔ IsReady network.now self.now event }
    {
        match event {
            Event::Get(_, c, item) => self.gives(c.into(), item),
            Event::Put(_, c, _) => !self.channel(c.into()).is_full(),
            Event::WaitEmpty(_, c) => self.channel(c.into()).is_empty(),
            Event::WaitFull(_, c) => self.channel(c.into()).is_full(),
            Event::Ended(_, _) => true,
            Event::Feed(c, _) => self.is_open_source(network, c.into()),
            Event::Close(c) => self.is_open_source(network, c.into()),
            Event::Take(c, item) => network.is_sink(c.into()) && self.gives(c.into(), item),
            Event::Leave(c) => network.is_sink(c.into()) && !self.channel(c.into()).is_retired(),
            Event::Grow(_, _, _) => false,
        }
    }

    /// Whether the channel gives this item next.
    fn gives(&self, c: usize, item: i64) -> bool
        requires { c < length self.now.channels }
        ensures { IsTrue result ↔ (next_item (channel_in self.now c) ≡ Some item) }
    {
        self.channel(c).peek() == Some(item)
    }

    /// Whether the channel is a source that is not closed.
    fn is_open_source(&self, network: &Network, c: usize) -> bool
        requires shape { IsMachine network.now self.now }
        requires channel { c < length network.now.channels }
        ensures { IsTrue result ↔ ((is_source (channel_at network.now c) ≡ true)
            × (closed_in self.now c ≡ false)) }
    {
        network.is_source(c) && !self.is_closed(c)
    }
}

impl<A: Allocator + Copy> Machine<A> {
    /// Makes an event that is due. If it is a put, a feed or a wait on a full channel, an item is reserved there first.
    /// The error is that memory ran out for that.
    pub fn apply(&mut self, network: &Network, event: Event) -> Result<(), AllocError>
        requires shape { IsMachine network.now self.old }
        requires numbers { HasNumbers network.now event }
        requires due { IsDueNow network.now self.old event }
        ensures shape { IsMachine network.now self.new }
        ensures changes { OnOk result (Changes network.now event self.old self.new) }
    {
        match event {
            Event::Get(p, c, _) => {
                let program = network.program(p.into());
                self.get(network, program, p.into(), c.into());
                Ok(())
            }
            Event::Put(p, c, item) => {
                self.reserve_one(c.into())?;
                self.put(network, p.into(), c.into(), item);
                Ok(())
            }
            Event::WaitEmpty(p, c) => {
                self.wait_on_empty(network, p.into(), c.into());
                Ok(())
            }
            Event::WaitFull(p, c) => {
                self.reserve_one(c.into())?;
                self.wait_on_full(network, p.into(), c.into());
                Ok(())
            }
            Event::Ended(p, how) => {
                self.end(network, p.into(), how);
                Ok(())
            }
            Event::Feed(c, item) => {
                self.reserve_one(c.into())?;
                self.feed(network, c.into(), item);
                Ok(())
            }
            Event::Close(c) => {
                self.close(network, c.into());
                Ok(())
            }
            Event::Take(c, _) => {
                self.take(network, c.into());
                Ok(())
            }
            Event::Leave(c) => {
                self.leave(network, c.into());
                Ok(())
            }
            Event::Grow(_, _, _) => unreachable!(),
        }
    }
}

/// Whether the stop asks for the event, if it is one of a process.
fn asks_for(network: &Network, stop: Stop, event: Event) -> bool
    requires { HasNumbers network.now event }
    ensures { IsTrue result ↔ AsksFor network.now stop event }
{
    match event {
        Event::Get(p, c, _) => is_read_from(network, p.into(), c.into(), stop),
        Event::Put(p, c, item) => is_write_of(network, p.into(), c.into(), item, stop),
        Event::WaitEmpty(p, c) => is_read_from(network, p.into(), c.into(), stop),
        Event::WaitFull(p, c) => is_write_to(network, p.into(), c.into(), stop),
        Event::Ended(_, how) => stop == stop_of(how),
        _ => true,
    }
}

/// Whether the channel stands at a port among these.
fn is_channel_at(ports: &[usize], port: usize, c: usize) -> bool
    ensures { IsTrue result ↔ IsChannelAt ports.now port c }
{
    port < ports.len() && ports[port] == c
}

/// Whether the stop of process `p` is a read from channel `c`.
fn is_read_from(network: &Network, p: usize, c: usize, stop: Stop) -> bool
    requires { p < length network.now.instances }
    ensures { IsTrue result ↔ IsReadAt (instance_at network.now p).ins c stop }
{
    match stop {
        Stop::WantRead(port) => is_channel_at(network.ins(p), port, c),
        _ => false,
    }
}

/// Whether the stop of process `p` is a write of this item to channel `c`.
fn is_write_of(network: &Network, p: usize, c: usize, item: i64, stop: Stop) -> bool
    requires { p < length network.now.instances }
    ensures { IsTrue result ↔ IsWriteAt (instance_at network.now p).outs c item stop }
{
    match stop {
        Stop::WantWrite(port, written) => {
            written == item && is_channel_at(network.outs(p), port, c)
        }
        _ => false,
    }
}

/// Whether the stop of process `p` is a write to channel `c`.
fn is_write_to(network: &Network, p: usize, c: usize, stop: Stop) -> bool
    requires { p < length network.now.instances }
    ensures { IsTrue result
        ↔ ((item : ℤ) × IsWriteAt (instance_at network.now p).outs c item stop) }
{
    match stop {
        Stop::WantWrite(port, _) => is_channel_at(network.outs(p), port, c),
        _ => false,
    }
}
