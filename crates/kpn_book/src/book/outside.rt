//! The calls of the outside, which feeds sources and closes them, and takes from sinks and leaves them. Sources and
//! sinks go by their channel numbers.
ghost use Rattle.std.specs.Prelude.{◌≡◌, ◌≢◌, ◌↔◌, IsTrue, IfOk, IfErr, OnErr, IfSome, IfNone};
ghost use Rattle.kpn_book.specs.Refusals.{AcceptsItem, IsAtBound, RefusesFeed, RefusesClose, RefusesTake, RefusesLeave, Feeds, Closes, Takes, Leaves};

use super::Book;
use crate::answers::Refused;
use crate::open_book::{number, wake};
use kpn_chan::Channel;
use kpn_history::Event;
use std::alloc::{AllocError, Allocator};

impl<'n, A: Allocator> Book<'n, A> {
    /// Makes room in the history for this many events more: calls that append no more take no memory there. The error is
    /// that memory ran out.
    pub fn reserve(&mut self, events: usize) -> Result<(), AllocError>
        ensures { self.new ≡ self.old }
    {
        self.parts.history.reserve(events)
    }

    /// Why a feed would be refused, whatever memory there is. `None` if only want of memory could refuse it. Use it if
    /// you have no memory of your own for the feed: want of memory is the last cause.
    pub fn feed_fault(&self, source: usize, item: i64, bound: usize) -> Option<Refused>
        ensures cause { IfSome result (λ cause. RefusesFeed source item bound self.now cause) }
        ensures lasts { IfSome result (λ cause. cause ≢ Refused.NoMemory) }
        ensures none { IfNone result (AcceptsItem source bound self.now) }
    {
        let network = self.parts.network;
        network.known();
        if !network.is_source(source) {
            return Some(Refused::NoSuchEnd);
        }
        if self.parts.machine.is_closed(source) {
            return Some(Refused::SourceClosed);
        }
        if is_at_bound(self.parts.machine.channel(source), bound) {
            return Some(Refused::Full(item));
        }
        None
    }

    /// Puts an item on a source that is not closed. Fewer items than the bound must be unread there, unless its reader
    /// has ended.
    pub fn feed(&mut self, source: usize, item: i64, bound: usize) -> Result<(), Refused>
    where
        A: Copy,
        ensures done { IfOk result (λ _. Feeds source item bound self.old self.new) }
        ensures refused { IfErr result (λ cause. RefusesFeed source item bound self.old cause) }
        ensures as_before { OnErr result (self.new ≡ self.old) }
    {
        let network = self.parts.network;
        network.known();
        if let Some(cause) = self.feed_fault(source, item, bound) {
            return Err(cause);
        }
        self.parts.history.reserve(1)?;
        self.parts.machine.reserve_one(source)?;
        let woken = self.parts.machine.feed(network, source, item);
        self.parts.history.push(Event::Feed(number(source), item));
        wake(&mut self.parts.schedule, woken);
        Ok(())
    }

    /// Closes a source. A second call changes nothing and takes no memory.
    pub fn close_source(&mut self, source: usize) -> Result<(), Refused>
        ensures done { IfOk result (λ _. Closes source self.old self.new) }
        ensures refused { IfErr result (λ cause. RefusesClose source self.old cause) }
        ensures as_before { OnErr result (self.new ≡ self.old) }
    {
        let network = self.parts.network;
        network.known();
        if !network.is_source(source) {
            return Err(Refused::NoSuchEnd);
        }
        if self.parts.machine.is_closed(source) {
            return Ok(());
        }
        self.parts.history.reserve(2)?;
        self.parts.close(source);
        let _grown = self.parts.grow_at_stop();
        Ok(())
    }

    /// Takes the next item of a sink that was not left; the item is then read. It returns `None` if nothing is unread,
    /// and then takes no memory and changes nothing.
    pub fn take(&mut self, sink: usize) -> Result<Option<i64>, Refused>
        ensures done { IfOk result (λ item. Takes sink item self.old self.new) }
        ensures refused { IfErr result (λ cause. RefusesTake sink self.old cause) }
        ensures as_before { OnErr result (self.new ≡ self.old) }
    {
        let network = self.parts.network;
        network.known();
        if !network.is_sink(sink) {
            return Err(Refused::NoSuchEnd);
        }
        if self.parts.machine.channel(sink).is_retired() {
            return Err(Refused::SinkLeft);
        }
        if !self.parts.machine.has_item(sink) {
            return Ok(None);
        }
        self.parts.history.reserve(2)?;
        let item = self.parts.take(sink);
        let _grown = self.parts.grow_at_stop();
        Ok(Some(item))
    }

    /// Leaves a sink: the outside takes nothing from it any more, and it is never full. A second call changes nothing
    /// and takes no memory.
    pub fn leave_sink(&mut self, sink: usize) -> Result<(), Refused>
        ensures done { IfOk result (λ _. Leaves sink self.old self.new) }
        ensures refused { IfErr result (λ cause. RefusesLeave sink self.old cause) }
        ensures as_before { OnErr result (self.new ≡ self.old) }
    {
        let network = self.parts.network;
        network.known();
        if !network.is_sink(sink) {
            return Err(Refused::NoSuchEnd);
        }
        if self.parts.machine.channel(sink).is_retired() {
            return Ok(());
        }
        self.parts.history.reserve(2)?;
        self.parts.leave(sink);
        let _grown = self.parts.grow_at_stop();
        Ok(())
    }
}

/// Whether the reader of a channel lives, and at least as many items as the bound are unread.
fn is_at_bound<A: Allocator>(channel: &Channel<A>, bound: usize) -> bool
    ensures { IsTrue result ↔ IsAtBound channel.now bound }
{
    !channel.is_retired() && bound <= channel.len()
}
