//! What joins a batch of many events at once. No memory is taken then: the channels are made roomy first.
ghost use Rattle.std.specs.Prelude.{◌≡◌, ◌<◌, List, [], length, nat_lt, IsTrue, is_ok, if◌then◌else◌};
ghost use Rattle.kpn_chan.specs.Channel.{roomy, with_reserved, MayJoin, batch_joined};
ghost use Rattle.kpn_net.specs.Tables.{Tables};
ghost use Rattle.kpn_net.specs.Waits.{AreWaits};
ghost use Rattle.kpn_history.specs.declared.event.Event.{Event};
ghost use Rattle.kpn_machine.specs.Machine.{channel_in, frame_in, with_channel, with_waits, with_frame, IsMachine};
ghost use Rattle.kpn_machine.specs.Run.{IsRun};
ghost use Rattle.kpn_machine.specs.Woken.{AreWoken, ends_by_batch};

use super::Machine;
use kpn_net::Network;
use kpn_step::Frame;
use std::alloc::{AllocError, Allocator};

impl<A: Allocator + Copy> Machine<A> {
    /// Makes a channel roomy, so that items can be joined to it without memory. No history records it. The error is
    /// that memory ran out. A reserved item stays reserved.
    pub fn make_roomy(&mut self, c: usize) -> Result<(), AllocError>
        requires { c < length self.old.channels }
        ensures after { let before = channel_in self.old c in
            let reserved = (channel_in self.new c).is_reserved in
            self.new ≡ with_channel c (if is_ok result then roomy reserved before
            else with_reserved reserved before) self.old }
        ensures reserved { IsTrue (channel_in self.old c).is_reserved
            → IsTrue (channel_in self.new c).is_reserved }
        ensures shape { (t : Tables) → IsMachine t self.old → IsMachine t self.new }
        ensures run { (t : Tables) (H : List Event) → IsRun t H self.old → IsRun t H self.new }
    {
        let channel = &mut self.channels[c];
        channel.make_roomy()
    }

    /// Counts `taken` items of a channel more as read, and puts these there, at once, as `Channel::join` does. The
    /// reader of the channel then does not wait on it as empty, if items are put, and its writer not as full, if some
    /// are taken. It takes no memory.
    pub fn join_channel(
        &mut self,
        network: &Network,
        c: usize,
        taken: usize,
        items: &[i64],
        most: usize,
    )
        requires channel { c < length network.now.channels }
        requires channels { length self.old.channels ≡ length network.now.channels }
        requires waits { AreWaits network.now self.old.waits }
        requires joins { MayJoin taken items.now most (channel_in self.old c) }
        ensures after { self.new
            ≡ with_waits self.new.waits (with_channel c (channel_in self.new c) self.old) }
        ensures channel { let now = channel_in self.new c in now
            ≡ batch_joined taken items.now most now.is_reserved now.is_roomy (channel_in self.old c) }
        ensures reserved { items.now ≡ [] → IsTrue (channel_in self.old c).is_reserved
            → IsTrue (channel_in self.new c).is_reserved }
        ensures woken { AreWoken (ends_by_batch c (nat_lt 0 taken) (nat_lt 0 (length items.now)))
            self.old.waits self.new.waits }
        ensures waits { AreWaits network.now self.new.waits }
    {
        let channel = &mut self.channels[c];
        channel.join(taken, items, most);
        self.waits
            .wake_by_batch(network, c, 0 < taken, 0 < items.len());
    }

    /// Takes a process to this frame, which has as many variables and cells as its own.
    pub fn set_frame(&mut self, p: usize, frame: &Frame)
        requires process { p < length self.old.frames }
        requires size { length frame.now.variables
            ≡ length (frame_in self.old p).variables }
        ensures { self.new ≡ with_frame p frame.now self.old }
    {
        let own = &mut self.frames[p];
        own.copy_from(frame);
    }
}
