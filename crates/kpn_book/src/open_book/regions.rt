//! Regions: their processes are held together, put back or woken, and committed at the stops of a batch.
ghost use Rattle.std.specs.Prelude.{◌≡◌, ◌≢◌, ◌↔◌, ℕ, ◌<◌, ◌≤◌, true, length, slice_get, Some, IsTrue, IfOk, IfErr, OnErr};
ghost use Rattle.kpn_net.specs.Tables.{program_of};
ghost use Rattle.kpn_step.specs.Frame.{Frame};
ghost use Rattle.kpn_step.specs.Stops.{IsAtPort};
ghost use Rattle.kpn_history.specs.Views.{is_held};
ghost use Rattle.kpn_machine.specs.Machine.{frame_in};
ghost use Rattle.kpn_machine.specs.Due.{Stands};
ghost use Rattle.kpn_region.specs.Joining.{Joins};
ghost use Rattle.kpn_region.specs.Local.{is_in_region, frame_at};
ghost use Rattle.kpn_book.specs.BatchCommits.{with_batch};
ghost use Rattle.kpn_book.specs.Book.{IsHeld};
ghost use Rattle.kpn_book.specs.Kept.{IsKept};
ghost use Rattle.kpn_book.specs.Open.{book_of};
ghost use Rattle.kpn_book.specs.RegionCalls.{CanCount, CanJoin, CommitsRegion, RefusesRegion};
ghost use Rattle.kpn_book.specs.Regions.{turned_if, region_held, put_back_if, region_put_back, is_woken, woken_if, region_woken, commits_or_not, has_part, Settles, SettleBelow};

use super::{Hold, OpenBook};
use crate::answers::Refused;
use crate::region_laws::a_book_with_a_batch;
use crate::schedule::Schedule;
use kpn_history::State;
use kpn_machine::Machine;
use kpn_net::Wait;
use kpn_region::Batch;
use kpn_step::Stop;
use std::alloc::Allocator;

impl<'n, A: Allocator> OpenBook<'n, A> {
    /// Commits the processes of a batch, as `Book::commit_region` says.
    pub(crate) fn commit_region<B: Allocator>(
        &mut self,
        batch: &Batch<'n, B>,
    ) -> Result<bool, Refused>
    where
        A: Copy,
        requires tables { batch.now.tables ≡ self.old.network.now }
        requires kept { IsKept (book_of self.old) }
        ensures done { IfOk result (λ memory.
            CommitsRegion batch.now memory (book_of self.old) (book_of self.new)) }
        ensures refused { IfErr result (λ cause. RefusesRegion batch.now (book_of self.old) cause) }
        ensures as_before { OnErr result (book_of self.new ≡ book_of self.old) }
        ensures kept { IsKept (book_of self.new) }
    {
        if !self.can_join(batch) {
            return Err(Refused::Stranger);
        }
        self.history.reserve(batch.events().len())?;
        self.join(batch);
        Ok(self.settle_region(batch))
    }

    /// Whether a batch agrees with the book, and its events can be counted.
    fn can_join<B: Allocator>(&self, batch: &Batch<'n, B>) -> bool
        requires tables { batch.now.tables ≡ self.now.network.now }
        requires kept { IsKept (book_of self.now) }
        ensures { IsTrue result ↔ CanJoin batch.now (book_of self.now) }
    {
        if !batch.agrees_with(&self.machine) {
            return false;
        }
        self.can_count(batch.events().len())
    }

    /// Whether this many commits more can be counted, and one for each process.
    pub(crate) fn can_count(&self, more: usize) -> bool
        requires { length self.now.schedule.states ≡ length self.now.network.now.instances }
        ensures { IsTrue result ↔ CanCount more (book_of self.now) }
    {
        let most = u64::MAX - self.schedule.len() as u64;
        if most < self.commits {
            return false;
        }
        more as u64 <= most - self.commits
    }

    /// Appends the events of a batch, and takes over where they have led.
    fn join<B: Allocator>(&mut self, batch: &Batch<'n, B>)
    where
        A: Copy,
        requires tables { batch.now.tables ≡ self.old.network.now }
        requires kept { IsKept (book_of self.old) }
        requires can_join { CanJoin batch.now (book_of self.old) }
        requires room { length batch.now.events ≤ self.old.history.room }
        ensures joins { Joins batch.now self.old.machine self.new.machine }
        ensures book { book_of self.new
            ≡ with_batch batch.now self.new.machine (book_of self.old) }
        ensures network { self.new.network ≡ self.old.network }
        ensures kept { IsKept (book_of self.new) }
        ensures frames { (p : ℕ) → is_in_region batch.now.now p ≡ true
            → frame_in self.new.machine p ≡ frame_at batch.now.now p }
    {
        batch.known();
        self.network.known();
        self.schedule.known();
        a_book_with_a_batch();
        let events = batch.events();
        self.history.append(events);
        batch.join(&mut self.machine);
        wake_region(&mut self.schedule, &self.machine, batch);
        self.commits += batch.made();
    }

    /// What becomes of the processes of a batch once its events are appended: each that is held is committed at the
    /// stop at which it can't go on, or put back if it has none. Returns whether there was memory for all of it; a
    /// process for which there was none is put back.
    pub(crate) fn settle_region<B: Allocator>(&mut self, batch: &Batch<'n, B>) -> bool
    where
        A: Copy,
        requires tables { batch.now.tables ≡ self.old.network.now }
        requires kept { IsKept (book_of self.old) }
        requires frames { (p : ℕ) → is_in_region batch.now.now p ≡ true
            → frame_in self.old.machine p ≡ frame_at batch.now.now p }
        ensures settle { SettleBelow batch.now (book_of self.old)
            (length self.old.network.now.instances) result (book_of self.new) }
        ensures kept { IsKept (book_of self.new) }
    {
        let network = self.network;
        let mut memory = true;
        'processes: for p in 0..network.instances() {
            memory &= self.settle(batch, p);
        }
        memory
    }

    /// What becomes of process `p`.
    fn settle<B: Allocator>(&mut self, batch: &Batch<'n, B>, p: usize) -> bool
    where
        A: Copy,
        requires tables { batch.now.tables ≡ self.old.network.now }
        requires process { p < length self.old.network.now.instances }
        requires kept { IsKept (book_of self.old) }
        requires frame { is_in_region batch.now.now p ≡ true
            → frame_in self.old.machine p ≡ frame_at batch.now.now p }
        ensures settles { Settles result batch.now p (book_of self.old) (book_of self.new) }
        ensures kept { IsKept (book_of self.new) }
    {
        batch.known();
        if !self.has_part(batch, p) {
            return true;
        }
        let Some(stop) = batch.stop(p) else {
            self.schedule.put_back(p);
            return true;
        };
        self.commit_or_put_back(p, stop)
    }

    /// Whether process `p` is of the region of a batch, and held.
    fn has_part<B: Allocator>(&self, batch: &Batch<'n, B>, p: usize) -> bool
        requires region { p < length batch.now.tables.instances }
        requires process { p < length self.now.schedule.states }
        ensures { result ≡ has_part batch.now p (book_of self.now) }
    {
        batch.is_within(p) && is_held(self.schedule.state(p))
    }

    /// Commits process `p`, which is held, at the stop where it stands. Returns whether there was memory for it; if
    /// not, the process is put back.
    fn commit_or_put_back(&mut self, p: usize, stop: Stop) -> bool
    where
        A: Copy,
        requires held { IsHeld (book_of self.old) p }
        requires kept { IsKept (book_of self.old) }
        requires stands { Stands self.old.network.now self.old.machine p stop }
        requires port { (f : Frame) × IsAtPort (program_of self.old.network.now p) f stop }
        ensures commits { commits_or_not result p stop (book_of self.old) (book_of self.new) }
        ensures kept { IsKept (book_of self.new) }
    {
        let network = self.network;
        network.known();
        if let Err(_error) = self.reserve(p, stop) {
            self.schedule.put_back(p);
            return false;
        }
        let _done = self.handle_stop(Hold::Taken, p, stop);
        self.commits += 1;
        true
    }
}

/// The ready processes of a region become held, and leave the queue.
pub(crate) fn hold_region<A: Allocator, B: Allocator>(
    schedule: &mut Schedule<A>,
    batch: &Batch<'_, B>,
)
    requires { length schedule.old.states ≡ length batch.now.tables.instances }
    ensures { schedule.new ≡ region_held (is_in_region batch.now.now) schedule.old }
{
    schedule.known();
    let ready = schedule.counts().ready;
    'turns: for _turn in 0..ready {
        schedule.known();
        let Some(p) = schedule.next() else {
            return;
        };
        let within = batch.is_within(p);
        turn_if(schedule, within, p);
    }
}

/// Process `p`, which is the first of the queue, becomes held if it is of the region; else it goes to the tail.
fn turn_if<A: Allocator>(schedule: &mut Schedule<A>, within: bool, p: usize)
    requires { slice_get schedule.old.queue 0 ≡ Some p }
    ensures { schedule.new ≡ turned_if within p schedule.old }
{
    if within {
        schedule.set_first(p, State::Held);
    } else {
        schedule.rotate(p);
    }
}

/// Puts the held processes of a region to the tail of the queue, in order of number.
pub(crate) fn put_back_region<A: Allocator, B: Allocator>(
    schedule: &mut Schedule<A>,
    batch: &Batch<'_, B>,
)
    requires { length schedule.old.states ≡ length batch.now.tables.instances }
    ensures { schedule.new ≡ region_put_back (is_in_region batch.now.now) schedule.old }
{
    'processes: for p in 0..schedule.len() {
        let within = batch.is_within(p);
        put_back_if(schedule, within, p);
    }
}

/// Puts process `p` to the tail of the queue if it is of the region and held.
fn put_back_if<A: Allocator>(schedule: &mut Schedule<A>, within: bool, p: usize)
    requires { p < length schedule.old.states }
    ensures { schedule.new ≡ put_back_if within p schedule.old }
{
    if within && is_held(schedule.state(p)) {
        schedule.put_back(p);
    }
}

/// Wakes those who wait by their states and no longer by the machine, in order of number. A process of the region
/// becomes held, another ready.
pub(crate) fn wake_region<A: Allocator, B: Allocator>(
    schedule: &mut Schedule<A>,
    machine: &Machine<A>,
    batch: &Batch<'_, B>,
)
    requires processes { length schedule.old.states ≡ length batch.now.tables.instances }
    requires waits { length machine.now.waits ≡ length schedule.old.states }
    ensures { schedule.new
        ≡ region_woken (is_in_region batch.now.now) machine.now.waits schedule.old }
{
    'processes: for p in 0..schedule.len() {
        let within = batch.is_within(p);
        let wait = machine.wait(p);
        wake_if(schedule, within, wait, p);
    }
}

/// Wakes process `p` if it waits by its state and no longer by this wait.
fn wake_if<A: Allocator>(schedule: &mut Schedule<A>, within: bool, wait: Wait, p: usize)
    requires { p < length schedule.old.states }
    ensures { schedule.new ≡ woken_if within wait p schedule.old }
{
    if !is_woken(schedule.state(p), wait) {
        return;
    }
    if within {
        schedule.set(p, State::Held);
    } else {
        schedule.make_ready(p);
    }
}

fn is_woken(state: State, wait: Wait) -> bool
    ensures { result ≡ is_woken state wait }
{
    match state {
        State::WaitsEmpty(_) | State::WaitsFull(_) => match wait {
            Wait::Nobody => true,
            Wait::Empty(_) | Wait::Full(_) => false,
        },
        State::Ready | State::Held | State::Ended(_) => false,
    }
}

fn is_held(state: State) -> bool
    ensures { result ≡ is_held state }
{
    match state {
        State::Held => true,
        State::Ready | State::WaitsEmpty(_) | State::WaitsFull(_) | State::Ended(_) => false,
    }
}
