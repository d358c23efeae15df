//! Turns of which nobody sees the order. A process gets and puts items in place, as long as it can. It stays the first
//! of the queue, and then goes to its tail without an event. Only if it could do nothing, it is committed at its stop.
ghost use Rattle.std.specs.Prelude.{◌≡◌, ◌≢◌, ◌<◌, ◌≤◌, ◌+◌, ◌*◌, ◌^◌, ℤ, true, false, length, slice_get, Some, IfSome, IfNone, IfOk, OnErr};
ghost use Rattle.kpn_net.specs.Tables.{program_of};
ghost use Rattle.kpn_step.specs.Frame.{Frame};
ghost use Rattle.kpn_step.specs.Stops.{IsAtPort};
ghost use Rattle.kpn_step.specs.declared.stop.Stop.TheVariants as stops;
ghost use Rattle.kpn_machine.specs.Changes.{IsChannelAt};
ghost use Rattle.kpn_machine.specs.Due.{Stands, ReadsFrom, WritesTo};
ghost use Rattle.kpn_book.specs.Schedule.{HoldsFirst, first_held};
ghost use Rattle.kpn_book.specs.declared.open_book.ahead.TheConstants.{LONGEST_TURN};
ghost use Rattle.kpn_book.specs.declared.answers.Done.TheVariants as done;
ghost use Rattle.kpn_book.specs.declared.open_book.Hold.TheVariants as hold;
ghost use Rattle.kpn_book.specs.Book.{held_count};
ghost use Rattle.kpn_book.specs.Commits.{IsReadFrom, IsWriteTo};
ghost use Rattle.kpn_book.specs.GoingOn.{RunsInAnyOrder, AnyOrderInVain};
ghost use Rattle.kpn_book.specs.InARow.{StepsUncommitted};
ghost use Rattle.kpn_book.specs.Kept.{IsKept};
ghost use Rattle.kpn_book.specs.Open.{book_of, first_claimed, MayCommit, StaysFirst, HasProgramAndPorts, HandlesAhead, GoesFurther};

use super::turns::{if_sink, is_open};
use super::{Hold, OpenBook, wake};
use kpn_chan::Channel;
use kpn_lang::Program;
use kpn_step::Stop;
use std::alloc::{AllocError, Allocator};

/// How many gets and puts a process makes in its turn at most.
const LONGEST_TURN: u64 = 128;

/// A get or put: on which sink an item was put, if it was, and whether a put has filled its channel.
#[derive(Clone, Copy)]
pub(crate) struct Exchanged {
    sink: Option<usize>,
    fills: bool,
}

impl<'n, A: Allocator> OpenBook<'n, A> {
    /// Makes turns in any order, as `Book::go_on` says.
    #[inline(never)]
    pub(crate) fn go_on(&mut self, quota: u32, most: u64) -> Result<Option<usize>, AllocError>
    where
        A: Copy,
        requires kept { IsKept (book_of self.old) }
        requires countable { self.old.commits + held_count (book_of self.old) + most < 2 ^ 64 }
        ensures goes { IfOk result (λ sink.
            RunsInAnyOrder quota most sink (book_of self.old) (book_of self.new)) }
        ensures in_vain { OnErr result (AnyOrderInVain quota most (book_of self.old) (book_of self.new)) }
        ensures kept { IsKept (book_of self.new) }
    {
        let end = self.commits + most;
        'turns: while self.commits < end {
            let Some(p) = self.schedule.next() else {
                return Ok(None);
            };
            let more = turn_within(end - self.commits);
            self.history.reserve(2 * more as usize)?;
            let sink = self.turn_ahead(p, quota, more)?;
            if sink.is_some() {
                return Ok(sink);
            }
        }
        Ok(None)
    }

    /// The turn of process `p`, which is the first of the queue: it makes at most `most` gets and puts, and goes to the
    /// tail. It ends with the put on a sink, which is returned; then `p` stays the first. If `p` can make none, it is
    /// committed at its stop.
    #[inline(always)]
    fn turn_ahead(&mut self, p: usize, quota: u32, most: u64) -> Result<Option<usize>, AllocError>
    where
        A: Copy,
        requires kept { IsKept (book_of self.old) }
        requires first { slice_get self.old.schedule.queue 0 ≡ Some p }
        requires countable { self.old.commits + held_count (book_of self.old) + most < 2 ^ 64 }
        requires some { 0 < most }
        requires room { 2 * most ≤ self.old.history.room }
        ensures goes { IfOk result (λ sink.
            RunsInAnyOrder quota most sink (book_of self.old) (book_of self.new)) }
        ensures in_vain { OnErr result (AnyOrderInVain quota most (book_of self.old) (book_of self.new)) }
        ensures held { held_count (book_of self.new) ≡ held_count (book_of self.old) }
        ensures kept { IsKept (book_of self.new) }
    {
        let network = self.network;
        network.known();
        self.schedule.known();
        let program = network.program(p);
        let ins = network.ins(p);
        let outs = network.outs(p);
        'events: for made in 0..most {
            let ended = self.event_ahead(program, ins, outs, p, quota, made)?;
            if let Some(sink) = ended {
                return Ok(sink);
            }
        }
        self.schedule.known();
        self.schedule.rotate(p);
        Ok(None)
    }

    /// Process `p`, which is the first of the queue and has this program and these ports, makes at most `quota` steps,
    /// and then a get or put, if it can at once. It stays the first, and its turn goes on. It ends with the put on a
    /// sink, which is returned, or a put that fills its channel. It also ends if `p` can't: if it has `made` none in
    /// this turn or pauses, it is committed. Otherwise it goes to the tail of the queue.
    #[inline(always)]
    fn event_ahead(
        &mut self,
        program: &Program,
        ins: &[usize],
        outs: &[usize],
        p: usize,
        quota: u32,
        made: u64,
    ) -> Result<Option<Option<usize>>, AllocError>
    where
        A: Copy,
        requires kept { IsKept (book_of self.old) }
        requires first { slice_get self.old.schedule.queue 0 ≡ Some p }
        requires own { HasProgramAndPorts self.old.network.now p program.now ins.now outs.now }
        requires countable { self.old.commits + held_count (book_of self.old) + 1 < 2 ^ 64 }
        requires room { 2 ≤ self.old.history.room }
        ensures goes { IfOk result (λ ended.
            GoesFurther quota p made ended (book_of self.old) (book_of self.new)) }
        ensures in_vain { OnErr result (StepsUncommitted quota (book_of self.old) (book_of self.new)) }
        ensures kept { IsKept (book_of self.new) }
        ensures room { self.old.history.room ≤ self.new.history.room + 2 }
    {
        let network = self.network;
        network.known();
        self.schedule.known();
        let (_, stop) = self.machine.step(network, program, p, quota);
        let Some(exchanged) = self.exchange(program, ins, outs, p, stop) else {
            if made == 0 || is_pause(stop) {
                let sink = self.handle_first(program, p, stop)?;
                self.commits += 1;
                self.schedule.known();
                return Ok(Some(sink));
            }
            self.schedule.rotate(p);
            return Ok(Some(None));
        };
        self.commits += 1;
        if exchanged.sink.is_some() {
            return Ok(Some(exchanged.sink));
        }
        if exchanged.fills {
            self.schedule.rotate(p);
            return Ok(Some(None));
        }
        Ok(None)
    }

    /// Process `p`, which is the first of the queue, makes the get or put of this stop, if it can at once. It stays the
    /// first.
    #[inline(always)]
    fn exchange(
        &mut self,
        program: &Program,
        ins: &[usize],
        outs: &[usize],
        p: usize,
        stop: Stop,
    ) -> Option<Exchanged>
        requires own { HasProgramAndPorts self.old.network.now p program.now ins.now outs.now }
        requires first { HoldsFirst p self.old.schedule (first_held p self.old.schedule) }
        requires kept { IsKept (first_claimed p (book_of self.old)) }
        requires room { 2 ≤ self.old.history.room }
        requires stands { Stands self.old.network.now self.old.machine p stop }
        requires port { (f : Frame) × IsAtPort (program_of self.old.network.now p) f stop }
        ensures goes { IfSome result (λ made.
            HandlesAhead p stop made.sink (book_of self.old) (book_of self.new)) }
        ensures stuck { IfNone result (self.new ≡ self.old) }
        ensures room { self.old.history.room ≤ self.new.history.room + 1 }
    {
        let network = self.network;
        network.known();
        match stop {
            Stop::WantRead(port) => {
                let c = port_channel(ins, port);
                if !self.get_ahead(program, p, c) {
                    return None;
                }
                Some(Exchanged {
                    sink: None,
                    fills: false,
                })
            }
            Stop::WantWrite(port, item) => {
                let c = port_channel(outs, port);
                let fills = is_filled_by_one(self.machine.channel(c));
                if !self.put_ahead(p, c, item) {
                    return None;
                }
                let sink = if_sink(network, c);
                Some(Exchanged { sink, fills })
            }
            _ => None,
        }
    }

    /// Process `p`, which is the first of the queue and at a read from channel `c`, gets its next item, if it has one.
    #[inline(always)]
    fn get_ahead(&mut self, program: &Program, p: usize, c: usize) -> bool
        requires program { program.now ≡ program_of self.old.network.now p }
        requires may { MayCommit hold.First p self.old }
        requires reads { ReadsFrom self.old.network.now self.old.machine p c }
        ensures got { let t = self.old.network.now in result ≡ true → (v : ℤ)
            × StaysFirst p (λ s. IsReadFrom t p s c) (done.Got v) self.old self.new }
        ensures as_before { result ≡ false → self.new ≡ self.old }
        ensures room { self.old.history.room ≤ self.new.history.room + 1 }
    {
        self.network.known();
        if !self.machine.has_item(c) {
            return false;
        }
        let got = self.get_item(Hold::First, program, p, c);
        wake(&mut self.schedule, got.woken);
        true
    }

    /// Process `p`, which is the first of the queue and at a write of this item to channel `c`, puts it there, if it
    /// can at once.
    #[inline(always)]
    fn put_ahead(&mut self, p: usize, c: usize, item: i64) -> bool
        requires may { MayCommit hold.First p self.old }
        requires writes { WritesTo self.old.network.now self.old.machine p c item }
        ensures put { let t = self.old.network.now in result ≡ true
            → StaysFirst p (λ s. IsWriteTo t p s c item) done.Put self.old self.new }
        ensures as_before { result ≡ false → self.new ≡ self.old }
        ensures room { self.old.history.room ≤ self.new.history.room + 1 }
    {
        self.network.known();
        if !is_open(self.machine.channel(c)) {
            return false;
        }
        let woken = self.put_item(Hold::First, p, c, item);
        wake(&mut self.schedule, woken);
        true
    }
}

/// The channel at a port.
#[inline(always)]
fn port_channel(ports: &[usize], port: usize) -> usize
    requires { port < length ports.now }
    ensures { IsChannelAt ports.now port result }
{
    ports[port]
}

/// Whether one item more fills a channel.
#[inline(always)]
fn is_filled_by_one<A: Allocator>(channel: &Channel<A>) -> bool {
    match channel.cap() {
        Some(capacity) => capacity as usize <= channel.len().wrapping_add(1),
        None => false,
    }
}

/// How many gets and puts a turn makes at most, of those that are left.
fn turn_within(left: u64) -> u64
    requires { 0 < left }
    ensures some { 0 < result }
    ensures within { result ≤ left }
    ensures few { result ≤ LONGEST_TURN }
{
    if left < LONGEST_TURN {
        left
    } else {
        LONGEST_TURN
    }
}

/// Whether a process stops because its steps are used up.
fn is_pause(stop: Stop) -> bool
    ensures { result ≡ false → stop ≢ stops.Paused }
{
    match stop {
        Stop::Paused => true,
        Stop::WantRead(_) | Stop::WantWrite(_, _) => false,
        Stop::Done | Stop::Faulted(_) => false,
    }
}
