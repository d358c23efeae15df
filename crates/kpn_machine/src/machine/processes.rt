//! The events of processes. A process makes an event only if it has not ended, waits for nobody and is at that event in
//! its program.
ghost use Rattle.std.specs.List.{Contains, filter_map};
ghost use Rattle.std.specs.Option.{option_to_list};
ghost use Rattle.arrayvec.specs.ArrayVec.{array_vec_len};
ghost use Rattle.std.specs.Prelude.{◌≡◌, ◌+◌, ◌<◌, ◌≤◌, ℕ, ℤ, true, false, List, [], ◌∷◌, ◌++◌, length, IsTrue, IsSome, Some};
ghost use Rattle.kpn_chan.specs.Channel.{unread, is_channel_full, next_item};
ghost use Rattle.kpn_net.specs.Waits.{AreWaits};
ghost use Rattle.kpn_history.specs.declared.event.Event.{Event};
ghost use Rattle.kpn_history.specs.declared.event.Event.TheVariants as event;
ghost use Rattle.kpn_net.specs.Tables.{instance_at, program_of};
ghost use Rattle.kpn_history.specs.Stops.{OwesNothing};
ghost use Rattle.kpn_machine.specs.Machine.{Machine as Seen, channel_in, IsMachine, IsFree};
ghost use Rattle.kpn_machine.specs.Run.{IsRun};
ghost use Rattle.kpn_machine.specs.Changes.{Changes};
ghost use Rattle.kpn_machine.specs.Due.{Stands, ReadsFrom, WritesTo, stop_of};
ghost use Rattle.kpn_machine.specs.Woken.{waiting_writer, waiting_reader};
ghost use Rattle.kpn_machine.specs.EndSoFar.{EndSoFar};

use super::Machine;
use arrayvec::ArrayVec;
use kpn_history::How;
use kpn_lang::Program;
use kpn_limits::MAX_PORTS;
use kpn_net::Network;
use std::alloc::Allocator;

/// What was read from a channel, and the process that this wakes: its writer, if it waited on it as full.
#[derive(Clone, Copy, Debug, PartialEq, Eq)]
pub struct Got {
    pub item: i64,
    pub woken: Option<usize>,
}

impl<A: Allocator> Machine<A> {
    /// Process `p`, which has this program and is at a read from channel `c`, gets the next item of the channel.
    #[inline(always)]
    pub fn get(&mut self, network: &Network, program: &Program, p: usize, c: usize) -> Got
        requires shape { IsMachine network.now self.old }
        requires process { p < length network.now.instances }
        requires program { program.now ≡ program_of network.now p }
        requires free { IsFree self.old p }
        requires reads { ReadsFrom network.now self.old p c }
        requires ready { IsSome (next_item (channel_in self.old c)) }
        ensures item { next_item (channel_in self.old c) ≡ Some result.item }
        ensures woken { result.woken ≡ waiting_writer network.now self.old.waits c }
        ensures changes { Changes network.now (event.Get p c result.item) self.old self.new }
        ensures shape { IsMachine network.now self.new }
        ensures run { (H : List Event) → IsRun network.now H self.old → OwesNothing network.now H
            → IsRun network.now (H ++ event.Get p c result.item ∷ []) self.new }
    {
        network.known();
        // First the item leaves the ring, and then the frame passes its read. The other order takes 5 instructions a
        // commit more.
        let channel = &mut self.channels[c];
        let Some(item) = channel.get() else {
            unreachable!();
        };
        let frame = &mut self.frames[p];
        frame.pass_read(program, item);
        let woken = self.waits.wake_writer(network, c);
        Got { item, woken }
    }

    /// Process `p`, which is at a write of this item to channel `c`, puts it there. The channel is not full and has
    /// room reserved. It returns the process that this wakes, which is the reader of the channel, if it waited on it as
    /// empty.
    pub fn put(&mut self, network: &Network, p: usize, c: usize, item: i64) -> Option<usize>
        requires shape { IsMachine network.now self.old }
        requires process { p < length network.now.instances }
        requires free { IsFree self.old p }
        requires writes { WritesTo network.now self.old p c item }
        requires ready { is_channel_full (channel_in self.old c) ≡ false }
        requires reserved { IsTrue (channel_in self.old c).is_reserved }
        ensures woken { result ≡ waiting_reader network.now self.old.waits c }
        ensures changes { Changes network.now (event.Put p c item) self.old self.new }
        ensures shape { IsMachine network.now self.new }
        ensures run { (H : List Event) → IsRun network.now H self.old → OwesNothing network.now H
            → IsRun network.now (H ++ event.Put p c item ∷ []) self.new }
    {
        network.known();
        let channel = &mut self.channels[c];
        channel.put(item);
        let frame = &mut self.frames[p];
        frame.pass_write(network.program(p));
        self.waits.wake_reader(network, c)
    }

    /// Process `p`, which is at a read from channel `c`, waits on it as empty. Nothing is unread there.
    pub fn wait_on_empty(&mut self, network: &Network, p: usize, c: usize)
        requires shape { IsMachine network.now self.old }
        requires process { p < length network.now.instances }
        requires free { IsFree self.old p }
        requires reads { ReadsFrom network.now self.old p c }
        requires ready { unread (channel_in self.old c) ≡ [] }
        ensures changes { Changes network.now (event.WaitEmpty p c) self.old self.new }
        ensures shape { IsMachine network.now self.new }
        ensures run { (H : List Event) → IsRun network.now H self.old → OwesNothing network.now H
            → IsRun network.now (H ++ event.WaitEmpty p c ∷ []) self.new }
    {
        network.known();
        self.waits.wait_on_empty(p, c);
    }

    /// Process `p`, which is at a write to channel `c`, waits on it as full. The channel is full, and an item is
    /// reserved there. Because of that item the channel can grow without memory while `p` waits.
    pub fn wait_on_full(&mut self, network: &Network, p: usize, c: usize)
        requires shape { IsMachine network.now self.old }
        requires process { p < length network.now.instances }
        requires free { IsFree self.old p }
        requires writes { (v : ℤ) × WritesTo network.now self.old p c v }
        requires ready { is_channel_full (channel_in self.old c) ≡ true }
        requires reserved { IsTrue (channel_in self.old c).is_reserved }
        ensures changes { Changes network.now (event.WaitFull p c) self.old self.new }
        ensures shape { IsMachine network.now self.new }
        ensures run { (H : List Event) → IsRun network.now H self.old → OwesNothing network.now H
            → IsRun network.now (H ++ event.WaitFull p c ∷ []) self.new }
    {
        network.known();
        self.waits.wait_on_full(p, c);
    }

    /// Process `p`, which is at this end, has ended. Each channel that it reads is retired, in order of port. It
    /// returns the processes that this wakes, in the same order: the writers of these channels that waited on them as
    /// full.
    pub fn end(&mut self, network: &Network, p: usize, how: How) -> ArrayVec<usize, MAX_PORTS>
        requires shape { IsMachine network.now self.old }
        requires process { p < length network.now.instances }
        requires free { IsFree self.old p }
        requires stands { Stands network.now self.old p (stop_of how) }
        ensures woken { let t = network.now in
            result.items ≡ filter_map (waiting_writer t self.old.waits) (instance_at t p).ins }
        ensures changes { Changes network.now (event.Ended p how) self.old self.new }
        ensures shape { IsMachine network.now self.new }
        ensures run { (H : List Event) → IsRun network.now H self.old → OwesNothing network.now H
            → IsRun network.now (H ++ event.Ended p how ∷ []) self.new }
    {
        network.known();
        self.ends[p] = Some(how);
        let mut woken = ArrayVec::new();
        let ins = network.ins(p);
        'ports: for port in 0..ins.len() {
            let c = ins[port];
            self.retire_in(network, c, &mut woken);
        }
        woken
    }

    /// Retires a channel. If this wakes its writer, it appends the writer to those that were woken.
    fn retire_in(&mut self, network: &Network, c: usize, woken: &mut ArrayVec<usize, MAX_PORTS>)
        requires channels { length self.old.channels ≡ length network.now.channels }
        requires channel { c < length network.now.channels }
        requires waits { AreWaits network.now self.old.waits }
        requires few { array_vec_len woken.old < MAX_PORTS }
        ensures more { let t = network.now in
            (before : Seen) (ports : List ℕ) → EndSoFar t before self.old ports woken.old.items
            → (Contains ports c → ⊥)
            → EndSoFar t before self.new (ports ++ c ∷ []) woken.new.items }
        ensures len { array_vec_len woken.new ≤ array_vec_len woken.old + 1 }
    {
        let channel = &mut self.channels[c];
        channel.retire();
        let told = self.waits.wake_writer(network, c);
        add(woken, told);
    }
}

/// Appends a process, if there is one.
fn add(processes: &mut ArrayVec<usize, MAX_PORTS>, process: Option<usize>)
    requires { array_vec_len processes.old < MAX_PORTS }
    ensures items { processes.new.items ≡ processes.old.items ++ option_to_list process }
    ensures len { array_vec_len processes.new ≤ array_vec_len processes.old + 1 }
{
    if let Some(q) = process {
        processes.push(q);
    }
}
