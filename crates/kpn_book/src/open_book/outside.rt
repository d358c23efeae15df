//! The events of the outside after which a growth may be owed: it closes a source, takes an item from a sink or leaves
//! a sink.
ghost use Rattle.std.specs.Prelude.{◌≡◌, ◌<◌, ◌≤◌, ◌+◌, true, false, IsSome, Some};
ghost use Rattle.kpn_net.specs.Tables.{channel_at, is_source, is_sink};
ghost use Rattle.kpn_chan.specs.Channel.{next_item};
ghost use Rattle.kpn_history.specs.declared.event.Event.TheVariants as event;
ghost use Rattle.kpn_machine.specs.Machine.{channel_in, closed_in};
ghost use Rattle.kpn_book.specs.Open.{book_of, IsSound, Follows};

use super::{OpenBook, number, wake};
use kpn_history::Event;
use std::alloc::Allocator;

impl<'n, A: Allocator> OpenBook<'n, A> {
    /// Closes a source that is open.
    pub(crate) fn close(&mut self, c: usize)
        requires room { 0 < self.old.history.room }
        requires sound { IsSound (book_of self.old) }
        requires source { is_source (channel_at self.old.network.now c) ≡ true }
        requires not_closed { closed_in self.old.machine c ≡ false }
        ensures follows { Follows (event.Close c) (book_of self.old) (book_of self.new) }
        ensures room { self.old.history.room ≤ self.new.history.room + 1 }
    {
        let network = self.network;
        network.known();
        self.machine.close(network, c);
        self.history.push(Event::Close(number(c)));
    }

    /// Takes the next item of a sink that was not left.
    pub(crate) fn take(&mut self, c: usize) -> i64
        requires room { 0 < self.old.history.room }
        requires sound { IsSound (book_of self.old) }
        requires sink { is_sink (channel_at self.old.network.now c) ≡ true }
        requires item { IsSome (next_item (channel_in self.old.machine c)) }
        ensures item { next_item (channel_in self.old.machine c) ≡ Some result }
        ensures follows { Follows (event.Take c result) (book_of self.old) (book_of self.new) }
        ensures room { self.old.history.room ≤ self.new.history.room + 1 }
    {
        let network = self.network;
        network.known();
        let got = self.machine.take(network, c);
        self.history.push(Event::Take(number(c), got.item));
        wake(&mut self.schedule, got.woken);
        got.item
    }

    /// Leaves a sink that was not left.
    pub(crate) fn leave(&mut self, c: usize)
        requires room { 0 < self.old.history.room }
        requires sound { IsSound (book_of self.old) }
        requires sink { is_sink (channel_at self.old.network.now c) ≡ true }
        requires not_left { (channel_in self.old.machine c).is_retired ≡ false }
        ensures follows { Follows (event.Leave c) (book_of self.old) (book_of self.new) }
        ensures room { self.old.history.room ≤ self.new.history.room + 1 }
    {
        let network = self.network;
        network.known();
        let woken = self.machine.leave(network, c);
        self.history.push(Event::Leave(number(c)));
        wake(&mut self.schedule, woken);
    }
}
