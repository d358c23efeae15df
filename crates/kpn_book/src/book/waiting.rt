//! Who waits at the ends of a channel, and for what; the state of a process, and what a channel has for its reader.
ghost use Rattle.std.specs.Prelude.{◌≡◌, ◌<◌, is_some, length};
ghost use Rattle.kpn_chan.specs.Channel.{next_item, item_after};
ghost use Rattle.kpn_machine.specs.Machine.{channel_in};
ghost use Rattle.kpn_machine.specs.Woken.{waiting_reader};
ghost use Rattle.kpn_book.specs.Schedule.{state_at};

use super::Book;
use kpn_history::State;
use kpn_net::{End, Wait};
use std::alloc::Allocator;

impl<'n, A: Allocator> Book<'n, A> {
    /// Whether a process waits on a channel as empty.
    pub fn is_awaited(&self, c: usize) -> bool
        requires { c < length self.now.tables.channels }
        ensures { let waits = self.now.machine.waits in
            result ≡ is_some (waiting_reader self.now.tables waits c) }
    {
        let network = self.parts.network;
        network.known();
        match network.reader_of(c) {
            End::Process(p) => self.parts.machine.wait(p) == Wait::Empty(c),
            End::Source | End::Sink => false,
        }
    }

    /// Whether the reader of a channel is gone: a process that has ended, or the outside, which has left the sink.
    pub fn is_left(&self, c: usize) -> bool
        requires { c < length self.now.tables.channels }
        ensures { result ≡ (channel_in self.now.machine c).is_retired }
    {
        self.parts.machine.channel(c).is_retired()
    }

    /// The item that a take from this sink, or a get from this channel, would give. It stays unread.
    pub fn next_item(&self, c: usize) -> Option<i64>
        requires { c < length self.now.tables.channels }
        ensures { result ≡ next_item (channel_in self.now.machine c) }
    {
        self.parts.machine.channel(c).peek()
    }

    /// The item that this sink would give to a take, or this channel to a get, after `k` others. It stays unread.
    pub fn next_at(&self, c: usize, k: usize) -> Option<i64>
        requires { c < length self.now.tables.channels }
        ensures { result ≡ item_after k (channel_in self.now.machine c) }
    {
        self.parts.machine.channel(c).peek_at(k)
    }

    /// The state of process `p`.
    pub fn state(&self, p: usize) -> State
        requires { p < length self.now.tables.instances }
        ensures { result ≡ state_at self.now.schedule.states p }
    {
        self.parts.schedule.state(p)
    }
}
