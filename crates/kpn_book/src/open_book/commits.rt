//! The commit of a held process at its stop. One function for each kind of stop makes the event that is due there, and
//! after a wait or an end the growth that is owed.
ghost use Rattle.std.specs.Prelude.{◌≡◌, ◌≢◌, ◌<◌, ◌≤◌, ◌+◌, ℕ, ℤ, [], true, false, length, option_to_list, IsSome, IsTrue};
ghost use Rattle.kpn_net.specs.Tables.{program_of};
ghost use Rattle.kpn_step.specs.declared.stop.Stop.{Stop as Place};
ghost use Rattle.kpn_step.specs.declared.stop.Stop.TheVariants.{Paused};
ghost use Rattle.kpn_step.specs.Frame.{Frame};
ghost use Rattle.kpn_step.specs.Stops.{IsAtPort};
ghost use Rattle.kpn_chan.specs.Channel.{is_channel_full, next_item, unread};
ghost use Rattle.kpn_history.specs.Legal.{OwesGrowth, growth_after};
ghost use Rattle.kpn_history.specs.Stops.{OwesNoCycleGrowth};
ghost use Rattle.kpn_history.specs.Views.{is_ready};
ghost use Rattle.kpn_machine.specs.Machine.{channel_in};
ghost use Rattle.kpn_machine.specs.Due.{Stands, ReadsFrom, WritesTo, stop_of};
ghost use Rattle.kpn_machine.specs.Owed.{IsAwaitedBelowLimit};
ghost use Rattle.kpn_book.specs.Schedule.{made_ready, with_state};
ghost use Rattle.kpn_book.specs.declared.answers.Done.TheVariants as done;
ghost use Rattle.kpn_book.specs.Appending.{all_made_ready};
ghost use Rattle.kpn_book.specs.Commits.{IsReadFrom, IsWriteTo};
ghost use Rattle.kpn_book.specs.Kept.{IsInStep};
ghost use Rattle.kpn_book.specs.Open.{book_of, reserves_by, IsSound, IsHeldBy, holding, held_by, MayCommit, IsCommit, LeavesReady, Follows, EndsWithWait, GrowsIfOwed, GrowsAtStop, MayBeReady};

use super::{Hold, OpenBook, number, wake};
use crate::answers::Done;
use crate::schedule::Schedule;
use kpn_history::{Event, How, State};
use kpn_lang::Program;
use kpn_machine::{Got, in_channel, out_channel};
use kpn_step::Stop;
use std::alloc::{AllocError, Allocator};

impl<'n, A: Allocator> OpenBook<'n, A> {
    /// Reserves what process `p` may need at this stop: two events, and for a write an item.
    pub(crate) fn reserve(&mut self, p: usize, stop: Stop) -> Result<(), AllocError>
    where
        A: Copy,
        requires process { p < length self.old.network.now.instances }
        requires step { IsInStep (book_of self.old) }
        requires port { (f : Frame) × IsAtPort (program_of self.old.network.now p) f stop }
        ensures { reserves_by p stop result
            (book_of self.old) self.new.history.room (book_of self.new) }
    {
        let network = self.network;
        network.known();
        match stop {
            Stop::Paused => Ok(()),
            Stop::WantWrite(port, _) => {
                let c = out_channel(network, p, port);
                self.history.reserve(2)?;
                self.machine.reserve_one(c)
            }
            // an arm of its own: if it were one with the ends, the code would test the stop again before the read
            Stop::WantRead(_) => self.history.reserve(2),
            Stop::Done | Stop::Faulted(_) => self.history.reserve(2),
        }
    }

    /// Commits process `p`, which is held, at this stop.
    #[inline(always)]
    pub(crate) fn handle_stop(&mut self, hold: Hold, p: usize, stop: Stop) -> Done
        requires held { IsHeldBy hold p self.old.schedule }
        requires sound { IsSound (held_by hold p (book_of self.old)) }
        requires room { stop ≢ Paused → 2 ≤ self.old.history.room }
        requires stands { Stands self.old.network.now self.old.machine p stop }
        requires port { (f : Frame) × IsAtPort (program_of self.old.network.now p) f stop }
        requires reserved { (c : ℕ) (v : ℤ) → IsWriteTo self.old.network.now p stop c v
            → IsTrue (channel_in self.old.machine c).is_reserved }
        ensures { IsCommit hold p (λ (s : Place). s ≡ stop) result self.old self.new }
    {
        let network = self.network;
        network.known();
        self.handle_stop_of(hold, network.program(p), p, stop)
    }

    /// The same, of process `p`, which has this program.
    #[inline(always)]
    pub(super) fn handle_stop_of(
        &mut self,
        hold: Hold,
        program: &Program,
        p: usize,
        stop: Stop,
    ) -> Done
        requires program { program.now ≡ program_of self.old.network.now p }
        requires held { IsHeldBy hold p self.old.schedule }
        requires sound { IsSound (held_by hold p (book_of self.old)) }
        requires room { stop ≢ Paused → 2 ≤ self.old.history.room }
        requires stands { Stands self.old.network.now self.old.machine p stop }
        requires port { (f : Frame) × IsAtPort (program_of self.old.network.now p) f stop }
        requires reserved { (c : ℕ) (v : ℤ) → IsWriteTo self.old.network.now p stop c v
            → IsTrue (channel_in self.old.machine c).is_reserved }
        ensures { IsCommit hold p (λ (s : Place). s ≡ stop) result self.old self.new }
    {
        let network = self.network;
        network.known();
        match stop {
            Stop::WantRead(port) => {
                let c = in_channel(network, p, port);
                self.read(hold, program, p, c)
            }
            Stop::WantWrite(port, item) => {
                let c = out_channel(network, p, port);
                self.write(hold, p, c, item)
            }
            Stop::Done => self.finish(hold, p, How::Done),
            Stop::Faulted(fault) => self.finish(hold, p, How::from(fault)),
            Stop::Paused => {
                put_back(&mut self.schedule, hold, p);
                Done::Paused
            }
        }
    }

    /// Process `p`, which has this program and is at a read from channel `c`, gets its next item, or waits if there is
    /// none.
    #[inline(always)]
    fn read(&mut self, hold: Hold, program: &Program, p: usize, c: usize) -> Done
        requires program { program.now ≡ program_of self.old.network.now p }
        requires may { MayCommit hold p self.old }
        requires reads { ReadsFrom self.old.network.now self.old.machine p c }
        ensures { let t = self.old.network.now in
            IsCommit hold p (λ s. IsReadFrom t p s c) result self.old self.new }
    {
        let network = self.network;
        network.known();
        if !self.machine.has_item(c) {
            return self.wait_on_empty(hold, p, c);
        }
        let got = self.get_item(hold, program, p, c);
        go_on(&mut self.schedule, hold, p, got.woken);
        Done::Got(got.item)
    }

    /// Process `p`, which has this program, gets the next item of channel `c`, at a read from which it is. The schedule
    /// stays: that `p` and the process that this wakes are ready is left to the caller.
    #[inline(always)]
    pub(super) fn get_item(&mut self, hold: Hold, program: &Program, p: usize, c: usize) -> Got
        requires may { MayCommit hold p self.old }
        requires program { program.now ≡ program_of self.old.network.now p }
        requires reads { ReadsFrom self.old.network.now self.old.machine p c }
        requires item { IsSome (next_item (channel_in self.old.machine c)) }
        ensures { let t = self.old.network.now in
            LeavesReady hold p (λ s. IsReadFrom t p s c) (done.Got result.item) result.woken self.old self.new }
    {
        let network = self.network;
        network.known();
        let got = self.machine.get(network, program, p, c);
        self.history
            .push(Event::Get(number(p), number(c), got.item));
        got
    }

    /// Process `p`, which is at a write of this item to channel `c`, puts it there, or waits if the channel is full.
    #[inline(always)]
    pub(super) fn write(&mut self, hold: Hold, p: usize, c: usize, item: i64) -> Done
        requires may { MayCommit hold p self.old }
        requires writes { WritesTo self.old.network.now self.old.machine p c item }
        requires reserved { IsTrue (channel_in self.old.machine c).is_reserved }
        ensures { let t = self.old.network.now in
            IsCommit hold p (λ s. IsWriteTo t p s c item) result self.old self.new }
    {
        let network = self.network;
        network.known();
        if self.machine.channel(c).is_full() {
            return self.wait_on_full(hold, p, c, item);
        }
        self.put(hold, p, c, item);
        Done::Put
    }

    /// The same if the channel is not full.
    #[inline(always)]
    pub(super) fn put(&mut self, hold: Hold, p: usize, c: usize, item: i64)
        requires may { MayCommit hold p self.old }
        requires writes { WritesTo self.old.network.now self.old.machine p c item }
        requires ready { is_channel_full (channel_in self.old.machine c) ≡ false }
        requires reserved { IsTrue (channel_in self.old.machine c).is_reserved }
        ensures { let t = self.old.network.now in
            IsCommit hold p (λ s. IsWriteTo t p s c item) done.Put self.old self.new }
    {
        let woken = self.put_item(hold, p, c, item);
        go_on(&mut self.schedule, hold, p, woken);
    }

    /// Process `p` puts this item on channel `c`, at a write of it to which it is. The schedule stays: that `p` and the
    /// process that this wakes are ready is left to the caller.
    #[inline(always)]
    pub(super) fn put_item(&mut self, hold: Hold, p: usize, c: usize, item: i64) -> Option<usize>
        requires may { MayCommit hold p self.old }
        requires writes { WritesTo self.old.network.now self.old.machine p c item }
        requires ready { is_channel_full (channel_in self.old.machine c) ≡ false }
        requires reserved { IsTrue (channel_in self.old.machine c).is_reserved }
        ensures { let t = self.old.network.now in
            LeavesReady hold p (λ s. IsWriteTo t p s c item) done.Put result self.old self.new }
    {
        let network = self.network;
        network.known();
        let woken = self.machine.put(network, p, c, item);
        self.history.push(Event::Put(number(p), number(c), item));
        woken
    }

    // The next three are rare. They write the state of the process once: a ready one goes from there to its wait or
    // end.

    #[cold]
    #[inline(never)]
    fn wait_on_empty(&mut self, hold: Hold, p: usize, c: usize) -> Done
        requires may { MayCommit hold p self.old }
        requires reads { ReadsFrom self.old.network.now self.old.machine p c }
        requires ready { unread (channel_in self.old.machine c) ≡ [] }
        ensures { let t = self.old.network.now in
            IsCommit hold p (λ s. IsReadFrom t p s c) result self.old self.new }
    {
        let network = self.network;
        network.known();
        self.machine.wait_on_empty(network, p, c);
        self.history.push(Event::WaitEmpty(number(p), number(c)));
        set_state(&mut self.schedule, hold, p, State::WaitsEmpty(c));
        self.grow_if_owed(p)
    }

    #[cold]
    #[inline(never)]
    fn wait_on_full(&mut self, hold: Hold, p: usize, c: usize, item: i64) -> Done
        requires may { MayCommit hold p self.old }
        requires writes { WritesTo self.old.network.now self.old.machine p c item }
        requires ready { is_channel_full (channel_in self.old.machine c) ≡ true }
        requires reserved { IsTrue (channel_in self.old.machine c).is_reserved }
        ensures { let t = self.old.network.now in
            IsCommit hold p (λ s. IsWriteTo t p s c item) result self.old self.new }
    {
        // Only the contract names the item.
        let _item = item;
        let network = self.network;
        network.known();
        self.machine.wait_on_full(network, p, c);
        self.history.push(Event::WaitFull(number(p), number(c)));
        set_state(&mut self.schedule, hold, p, State::WaitsFull(c));
        self.grow_if_owed(p)
    }

    /// Ends process `p`, which is at this end. The processes that this wakes become ready. Then it makes the growth
    /// that is owed.
    #[cold]
    #[inline(never)]
    fn finish(&mut self, hold: Hold, p: usize, how: How) -> Done
        requires may { MayCommit hold p self.old }
        requires stands { Stands self.old.network.now self.old.machine p (stop_of how) }
        ensures { IsCommit hold p (λ (s : Place). s ≡ stop_of how) result self.old self.new }
    {
        let network = self.network;
        network.known();
        let woken = self.machine.end(network, p, how);
        self.history.push(Event::Ended(number(p), how));
        set_state(&mut self.schedule, hold, p, State::Ended(how));
        wake_all(&mut self.schedule, woken.as_slice());
        let _grown = self.grow_at_stop();
        Done::Ended
    }

    /// Makes the growth that is owed after a wait of process `p`, if one is: for a cycle through `p`, or else for a
    /// stop.
    pub(super) fn grow_if_owed(&mut self, p: usize) -> Done
        requires room { 0 < self.old.history.room }
        requires step { IsInStep (book_of self.old) }
        requires process { p < length self.old.network.now.instances }
        requires waits { EndsWithWait self.old.history.events p }
        ensures grows { GrowsIfOwed p result (book_of self.old) (book_of self.new) }
        ensures room { self.old.history.room ≤ self.new.history.room + 1 }
    {
        let network = self.network;
        network.known();
        // If nobody waits on a full channel, none has to grow, so a search would find nothing.
        let counts = self.schedule.counts();
        if counts.full == 0 {
            return Done::Blocked;
        }
        let Some(d) = self.machine.owed(network, p) else {
            return match self.grow_at_stop() {
                Some(d) => Done::Grew(d),
                None => Done::Blocked,
            };
        };
        self.grow(p, d);
        Done::Grew(d)
    }

    /// Makes the growth that is owed for a stop, if one is. None is owed for a cycle. It returns the channel.
    // It is inlined, since each wait and each end calls it, and hardly ever have all processes stopped.
    #[inline(always)]
    pub(crate) fn grow_at_stop(&mut self) -> Option<usize>
        requires room { 0 < self.old.history.room }
        requires step { IsInStep (book_of self.old) }
        requires no_cycle { OwesNoCycleGrowth self.old.network.now self.old.history.events }
        ensures grows { GrowsAtStop result (book_of self.old) (book_of self.new) }
        ensures room { self.old.history.room ≤ self.new.history.room + 1 }
    {
        self.network.known();
        if !self.schedule.is_idle() {
            return None;
        }
        self.grow_when_stopped()
    }

    /// The same, once each process has ended or waits.
    #[cold]
    #[inline(never)]
    fn grow_when_stopped(&mut self) -> Option<usize>
        requires room { 0 < self.old.history.room }
        requires step { IsInStep (book_of self.old) }
        requires no_cycle { OwesNoCycleGrowth self.old.network.now self.old.history.events }
        ensures grows { GrowsAtStop result (book_of self.old) (book_of self.new) }
        ensures room { self.old.history.room ≤ self.new.history.room + 1 }
    {
        let network = self.network;
        network.known();
        let Some(owed) = self.machine.owed_at_stop(network) else {
            return None;
        };
        self.grow(owed.process, owed.channel);
        Some(owed.channel)
    }

    fn grow(&mut self, p: usize, d: usize)
        requires room { 0 < self.old.history.room }
        requires step { IsInStep (book_of self.old) }
        requires process { p < length self.old.network.now.instances }
        requires awaited { IsAwaitedBelowLimit self.old.network.now self.old.machine d }
        requires owed { OwesGrowth self.old.network.now self.old.history.events p d }
        ensures follows { let t = self.old.network.now in let H = self.old.history.events in
            Follows (growth_after t H p d) (book_of self.old) (book_of self.new) }
        ensures room { self.old.history.room ≤ self.new.history.room + 1 }
    {
        let network = self.network;
        network.known();
        let grown = self.machine.grow(network, p, d);
        self.history
            .push(Event::Grow(number(p), number(d), grown.capacity));
        wake(&mut self.schedule, grown.woken);
    }
}

/// Puts process `p`, which is held, to the tail of the queue, and a process that was woken behind it.
// It tests first whether there is one. So where the channel has no mark, no value says that nobody was woken.
#[inline(always)]
fn go_on<A: Allocator>(schedule: &mut Schedule<A>, hold: Hold, p: usize, woken: Option<usize>)
    requires held { IsHeldBy hold p schedule.old }
    requires woken { MayBeReady (made_ready p (holding hold p schedule.old)) (option_to_list woken) }
    ensures { schedule.new ≡ all_made_ready (option_to_list woken)
        (made_ready p (holding hold p schedule.old)) }
{
    let Some(q) = woken else {
        put_back(schedule, hold, p);
        return;
    };
    put_back(schedule, hold, p);
    schedule.make_ready(q);
}

/// Puts process `p`, which is held, to the tail of the queue.
#[inline(always)]
fn put_back<A: Allocator>(schedule: &mut Schedule<A>, hold: Hold, p: usize)
    requires { IsHeldBy hold p schedule.old }
    ensures { schedule.new ≡ made_ready p (holding hold p schedule.old) }
{
    match hold {
        Hold::First => schedule.rotate(p),
        Hold::Taken => schedule.put_back(p),
    }
}

/// Puts process `p`, which is held, into this state, which is not ready.
#[inline(always)]
fn set_state<A: Allocator>(schedule: &mut Schedule<A>, hold: Hold, p: usize, state: State)
    requires held { IsHeldBy hold p schedule.old }
    requires state { is_ready state ≡ false }
    ensures { schedule.new ≡ with_state p state (holding hold p schedule.old) }
{
    match hold {
        Hold::First => schedule.set_first(p, state),
        Hold::Taken => schedule.set(p, state),
    }
}

fn wake_all<A: Allocator>(schedule: &mut Schedule<A>, woken: &[usize])
    requires { MayBeReady schedule.old woken.now }
    ensures { schedule.new ≡ all_made_ready woken.now schedule.old }
{
    'processes: for i in 0..woken.len() {
        let q = woken[i];
        schedule.make_ready(q);
    }
}
