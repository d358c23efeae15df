//! Turns in a row: the first process of the queue makes steps and is committed, again and again. A process that gets or
//! puts an item stays ready, so its state is not written: the queue is rotated.
ghost use Rattle.std.specs.Prelude.{◌≡◌, ◌≢◌, ◌<◌, ◌≤◌, ◌+◌, ◌*◌, ◌^◌, true, false, length, slice_get, Some, IfOk, OnErr, IsTrue};
ghost use Rattle.kpn_chan.specs.Channel.{is_channel_full};
ghost use Rattle.kpn_net.specs.Tables.{program_of};
ghost use Rattle.kpn_step.specs.Frame.{Frame};
ghost use Rattle.kpn_step.specs.declared.stop.Stop.TheVariants as stops;
ghost use Rattle.kpn_step.specs.Stops.{IsAtPort};
ghost use Rattle.kpn_machine.specs.Machine.{channel_in};
ghost use Rattle.kpn_machine.specs.Due.{Stands, WritesTo};
ghost use Rattle.kpn_book.specs.Schedule.{HoldsFirst, first_held};
ghost use Rattle.kpn_book.specs.declared.open_book.Hold.TheVariants as hold;
ghost use Rattle.kpn_book.specs.Book.{held_count};
ghost use Rattle.kpn_book.specs.Commits.{IsWriteTo};
ghost use Rattle.kpn_book.specs.Kept.{IsKept};
ghost use Rattle.kpn_book.specs.InARow.{RunsInRow, RunsInVain, StepsUncommitted};
ghost use Rattle.kpn_book.specs.Open.{book_of, first_claimed, MayCommit, if_sink, AnsweredFirst, HandlesFirst, IsTurn};

use super::{Hold, OpenBook};
use crate::answers::Done;
use kpn_chan::Channel;
use kpn_lang::Program;
use kpn_machine::out_channel;
use kpn_net::Network;
use kpn_step::Stop;
use std::alloc::{AllocError, Allocator};

impl<'n, A: Allocator> OpenBook<'n, A> {
    /// Makes turns in a row, as `Book::run_on` says.
    // Its caller inlines it. As a function of its own it takes 195 instructions a commit of a pipeline in place of 179,
    // since the compiler then calls the get of the machine.
    pub(crate) fn run_on(&mut self, quota: u32, most: u64) -> Result<Option<usize>, AllocError>
    where
        A: Copy,
        requires kept { IsKept (book_of self.old) }
        requires countable { self.old.commits + held_count (book_of self.old) + most < 2 ^ 64 }
        ensures runs { IfOk result (λ sink.
            RunsInRow quota most sink (book_of self.old) (book_of self.new)) }
        ensures in_vain { OnErr result (RunsInVain quota most (book_of self.old) (book_of self.new)) }
        ensures kept { IsKept (book_of self.new) }
    {
        let mut made = 0;
        'rows: while made < most {
            self.history.reserve(2)?;
            let more = turns_for(self.history.room(), most - made);
            'turns: for _turn in 0..more {
                let Some(p) = self.schedule.next() else {
                    return Ok(None);
                };
                let sink = self.turn(p, quota)?;
                if sink.is_some() {
                    return Ok(sink);
                }
            }
            made += more;
        }
        Ok(None)
    }

    /// Process `p`, which is the first of the queue, makes at most `quota` steps and is committed. Returns the sink on
    /// which it has put an item, if it has. If memory runs out, it stays the first, and has made its steps.
    #[inline(always)]
    fn turn(&mut self, p: usize, quota: u32) -> Result<Option<usize>, AllocError>
    where
        A: Copy,
        requires kept { IsKept (book_of self.old) }
        requires first { slice_get self.old.schedule.queue 0 ≡ Some p }
        requires countable { self.old.commits + held_count (book_of self.old) + 1 < 2 ^ 64 }
        requires room { 2 ≤ self.old.history.room }
        ensures turn { IfOk result (λ sink. IsTurn quota sink (book_of self.old) (book_of self.new)) }
        ensures in_vain { OnErr result (StepsUncommitted quota (book_of self.old) (book_of self.new)) }
        ensures kept { IsKept (book_of self.new) }
        ensures room { self.old.history.room ≤ self.new.history.room + 2 }
    {
        let network = self.network;
        network.known();
        self.schedule.known();
        let program = network.program(p);
        let (_, stop) = self.machine.step(network, program, p, quota);
        let sink = self.handle_first(program, p, stop)?;
        self.commits += 1;
        self.schedule.known();
        Ok(sink)
    }

    /// Commits process `p`, which is the first of the queue and has this program, at this stop. Returns the sink on
    /// which it has put an item, if it has. The error is that memory ran out, and then nothing has changed.
    #[inline(always)]
    pub(super) fn handle_first(
        &mut self,
        program: &Program,
        p: usize,
        stop: Stop,
    ) -> Result<Option<usize>, AllocError>
    where
        A: Copy,
        requires program { program.now ≡ program_of self.old.network.now p }
        requires first { HoldsFirst p self.old.schedule (first_held p self.old.schedule) }
        requires kept { IsKept (first_claimed p (book_of self.old)) }
        requires room { 2 ≤ self.old.history.room }
        requires stands { Stands self.old.network.now self.old.machine p stop }
        requires port { (f : Frame) × IsAtPort (program_of self.old.network.now p) f stop }
        ensures handles { IfOk result (λ sink.
            HandlesFirst p stop sink (first_claimed p (book_of self.old)) (book_of self.new)) }
        ensures wants { OnErr result (stop ≢ stops.Paused) }
        ensures as_before { OnErr result (book_of self.new ≡ book_of self.old) }
        ensures room { self.old.history.room ≤ self.new.history.room + 2 }
    {
        let network = self.network;
        network.known();
        let Stop::WantWrite(port, item) = stop else {
            self.handle_stop_of(Hold::First, program, p, stop);
            return Ok(None);
        };
        let c = out_channel(network, p, port);
        if is_open(self.machine.channel(c)) {
            self.put(Hold::First, p, c, item);
            return Ok(if_sink(network, c));
        }
        self.machine.reserve_one(c)?;
        Ok(self.write_later(p, c, item))
    }

    /// Puts an item as `write` does, and returns the channel if it is a sink that got it.
    #[cold]
    #[inline(never)]
    fn write_later(&mut self, p: usize, c: usize, item: i64) -> Option<usize>
        requires may { MayCommit hold.First p self.old }
        requires writes { WritesTo self.old.network.now self.old.machine p c item }
        requires reserved { IsTrue (channel_in self.old.machine c).is_reserved }
        ensures answered { let t = self.old.network.now in AnsweredFirst p (λ s. IsWriteTo t p s c item)
            result (first_claimed p (book_of self.old)) (book_of self.new) }
        ensures room { self.old.history.room ≤ self.new.history.room + 2 }
    {
        let network = self.network;
        network.known();
        match self.write(Hold::First, p, c, item) {
            Done::Put => if_sink(network, c),
            _ => None,
        }
    }
}

/// How many turns there is room for, of those that are left. A turn makes at most two events.
fn turns_for(room: usize, left: u64) -> u64
    requires room { 2 ≤ room }
    requires left { 0 < left }
    ensures some { 0 < result }
    ensures within { result ≤ left }
    ensures fits { 2 * result ≤ room }
{
    let turns = room as u64 / 2;
    if turns < left { turns } else { left }
}

/// Whether an item can be put on a channel at once: its reader is there, it is not full, and the item is reserved.
// The reader comes first, since the compiler then tests only once whether there is a ring.
#[inline(always)]
pub(super) fn is_open<A: Allocator>(channel: &Channel<A>) -> bool
    ensures { result ≡ true → IsTrue channel.now.is_reserved × (is_channel_full channel.now ≡ false) }
{
    !channel.is_retired() && !channel.is_full() && channel.room()
}

/// The channel, if it is a sink.
pub(super) fn if_sink(network: &Network, c: usize) -> Option<usize>
    requires { c < length network.now.channels }
    ensures { result ≡ if_sink network.now c }
{
    if network.is_sink(c) { Some(c) } else { None }
}
