//! A batch of a region.
ghost use Rattle.std.specs.Prelude.{◌≡◌, ℕ, ◌<◌, ◌≤◌, length, take, IsTrue, IfOk, OnErr, Some, None, true, false, is_ok, if◌then◌else◌, replicate, slice_index_or};
ghost use Rattle.kpn_net.specs.Tables.{program_of};
ghost use Rattle.kpn_chan.specs.Channel.{readable};
ghost use Rattle.kpn_step.specs.Frame.{fits};
ghost use Rattle.kpn_history.specs.Talks.{process_events};
ghost use Rattle.kpn_machine.specs.Machine.{no_frame};
ghost use Rattle.kpn_region.specs.Local.{claimed_with, no_side, is_in_region, frame_at, side_at, with_side};
ghost use Rattle.kpn_region.specs.Batch.{stop_in, IsBatch, IsFresh, IsEmpty, with_process, RunsOn};

use crate::ready::Ready;
use crate::side::RegionSide;
use crate::traffic::{Halt, SHORT_TURN, Traffic, turn_with};
use kpn_chan::Channel;
use kpn_history::Event;
use kpn_machine::frames_at_start;
use kpn_net::Network;
use kpn_step::{Frame, Stop};
use std::alloc::{AllocError, Allocator, Global};
use std::marker::Model;

/// A region of a network as it was claimed, the events that it has made since, and what stands in it.
///
/// It has an entry for each process and for each channel of the network, whether it is in the region or not.
#[derive(Debug, Drop)]
pub struct Batch<'n, A: Allocator = Global> {
    network: &'n Network,
    within: Vec<bool, A>,
    // the frames as they were claimed
    first: Vec<Frame, A>,
    frames: Vec<Frame, A>,
    stops: Vec<Option<Stop>, A>,
    traffic: Traffic<A>,
    // how many of the events are of processes
    made: u64,
}

impl<'n, A: Allocator> Model for Batch<'n, A> {
    ghost use Rattle.std.specs.Prelude.{◌≡◌};
    ghost use Rattle.std.specs.Coded.{codes};
    ghost use Rattle.kpn_lang.specs.Codes.{parts_code};
    ghost use Rattle.kpn_step.specs.Frame.{frame_code};
    ghost use Rattle.kpn_history.specs.Talks.{process_events};
    ghost use Rattle.kpn_region.specs.Batch.{Batch as Seen, IsBatch, batch_of};

    ghost Value = { Seen };

    ghost coded = { Prim.hlevel (codes, parts_code, frame_code) };

    ghost view = { λ b. batch_of b.network.now b.within.items b.first.items b.frames.items
        b.traffic.sides.items b.traffic.events.items b.stops.items };

    ghost invariant = { λ b. IsBatch (batch_of b.network.now b.within.items b.first.items
        b.frames.items b.traffic.sides.items b.traffic.events.items b.stops.items)
        × (b.made ≡ process_events b.traffic.events.items) };
}

impl<'n, A: Allocator + Copy> Batch<'n, A> {
    /// A batch of a region without processes. The error is that memory ran out.
    pub fn new(alloc: A, network: &'n Network) -> Result<Self, AllocError>
        ensures tables { IfOk result (λ batch. batch.tables ≡ network.now) }
        ensures fresh { IfOk result IsFresh }
        ensures empty { IfOk result (λ batch. IsEmpty batch.first) }
    {
        network.known();
        let within = nobody(alloc, network)?;
        let first = frames_at_start(alloc, network)?;
        let frames = frames_at_start(alloc, network)?;
        let stops = no_stops(alloc, network)?;
        let sides = no_sides(alloc, network)?;
        let traffic = Traffic {
            sides,
            events: Vec::new(alloc),
            ready: Ready::new(network.instances()),
            most: SHORT_TURN,
        };
        Ok(Batch {
            network,
            within,
            first,
            frames,
            stops,
            traffic,
            made: 0,
        })
    }
}

impl<'n, A: Allocator> Batch<'n, A> {
    /// Forgets the region, and keeps the memory.
    pub fn clear(&mut self)
        ensures tables { self.new.tables ≡ self.old.tables }
        ensures fresh { IsFresh self.new }
        ensures empty { IsEmpty self.new.first }
    {
        clear_processes(
            &mut self.within,
            &self.first,
            &mut self.frames,
            &mut self.stops,
        );
        clear_sides(&mut self.traffic.sides);
        self.traffic.events.clear();
        self.traffic.ready.clear();
        self.traffic.most = SHORT_TURN;
        self.made = 0;
    }

    /// Takes process `p` into the region, where it stands at this frame. It may go on if it is `ready`; else it first
    /// goes on when an item is got from the channel, or put there, because of which it can't.
    pub fn claim_process(&mut self, p: usize, frame: &Frame, ready: bool)
        requires process { p < length self.old.tables.instances }
        requires fits { IsTrue (fits (program_of self.old.tables p) frame.now) }
        requires fresh { IsFresh self.old }
        ensures tables { self.new.tables ≡ self.old.tables }
        ensures claims { self.new.first ≡ with_process p frame.now self.old.first }
        ensures fresh { IsFresh self.new }
    {
        self.within[p] = true;
        self.stops[p] = None;
        let first = &mut self.first[p];
        first.copy_from(frame);
        let now = &mut self.frames[p];
        now.copy_from(frame);
        if ready {
            self.traffic.ready.insert(p);
        }
    }

    /// Takes a channel into the region, with these items of it and this room. If `drains` is true, it is a sink that
    /// the region empties. The error is that memory ran out, and then the region sees nothing of the channel.
    pub fn claim_channel(
        &mut self,
        c: usize,
        items: &[i64],
        room: u64,
        drains: bool,
    ) -> Result<(), AllocError>
        requires channel { c < length self.old.tables.channels }
        requires fresh { IsFresh self.old }
        ensures tables { self.new.tables ≡ self.old.tables }
        ensures claims { self.new.first ≡ with_side c
            (if is_ok result then claimed_with items.now room drains else no_side) self.old.first }
        ensures fresh { IsFresh self.new }
    {
        self.traffic.most = turn_with(self.traffic.most, items.len(), room, drains);
        let side = &mut self.traffic.sides[c];
        side.claim(items, room, drains)
    }

    /// Takes a channel into the region as `claim_channel` does, with the first `n` of its unread items.
    pub fn claim_front<B: Allocator>(
        &mut self,
        c: usize,
        channel: &Channel<B>,
        n: usize,
        room: u64,
        drains: bool,
    ) -> Result<(), AllocError>
        requires channel { c < length self.old.tables.channels }
        requires items { n ≤ length (readable channel.now) }
        requires fresh { IsFresh self.old }
        ensures tables { self.new.tables ≡ self.old.tables }
        ensures claims { self.new.first ≡ with_side c (if is_ok result
            then claimed_with (take n (readable channel.now)) room drains else no_side) self.old.first }
        ensures fresh { IsFresh self.new }
    {
        self.traffic.most = turn_with(self.traffic.most, n, room, drains);
        let side = &mut self.traffic.sides[c];
        side.claim_front(channel, n, room, drains)
    }

    /// Process `p` can't go on because of channel `c`, until an item is got from there or put there.
    pub fn hold(&mut self, p: usize, c: usize)
        requires process { p < length self.old.tables.instances }
        requires channel { c < length self.old.tables.channels }
        ensures { self.new ≡ self.old }
    {
        self.network.known();
        let side = &mut self.traffic.sides[c];
        side.hold(p as u16);
    }

    /// The events that were made since the claim.
    pub fn events(&self) -> &[Event]
        ensures { result.now ≡ self.now.events }
    {
        self.traffic.events.as_slice()
    }

    /// How many of the events are of processes.
    pub fn made(&self) -> u64
        ensures { result ≡ process_events self.now.events }
    {
        self.made
    }

    /// Whether process `p` is in the region.
    pub fn is_within(&self, p: usize) -> bool
        requires { p < length self.now.tables.instances }
        ensures { result ≡ is_in_region self.now.now p }
    {
        self.within[p]
    }

    /// The frame of process `p` as it was claimed.
    pub fn first_frame(&self, p: usize) -> &Frame
        requires { p < length self.now.tables.instances }
        ensures { result.now ≡ frame_at self.now.first p }
    {
        &self.first[p]
    }

    /// The frame of process `p`.
    pub fn frame(&self, p: usize) -> &Frame
        requires { p < length self.now.tables.instances }
        ensures { result.now ≡ frame_at self.now.now p }
    {
        &self.frames[p]
    }

    /// The stop at which process `p` can't go on, if it came to one.
    pub fn stop(&self, p: usize) -> Option<Stop>
        requires { p < length self.now.tables.instances }
        ensures { result ≡ stop_in self.now p }
    {
        self.stops[p]
    }

    /// Channel `c`, as far as the region sees it.
    pub fn side(&self, c: usize) -> &RegionSide<A>
        requires { c < length self.now.tables.channels }
        ensures { result.now ≡ side_at self.now.now c }
    {
        &self.traffic.sides[c]
    }

    /// The network of which it is a region.
    pub fn network(&self) -> &'n Network
        ensures { result.now ≡ self.now.tables }
    {
        self.network
    }

    /// Does nothing. A caller's proof learns from it what holds of every batch.
    pub fn known(&self)
        ensures { IsBatch self.now }
    {
        let _ = &self.within;
    }

    /// Runs the region by itself. Its processes make gets and puts, at most `budget` of them, and what is put on a sink
    /// that the region empties is taken at once. A process makes at most `quota` steps before each, and if that
    /// is not enough, it goes on after a commit. It ends when no process goes on, or when the budget is used, of which a
    /// turn without an event takes 1.
    ///
    /// The error is that memory ran out. What was made before that stands.
    pub fn run(&mut self, quota: u32, budget: u32) -> Result<(), AllocError>
        ensures { RunsOn budget 0 self.old self.new }
    {
        let mut left = budget;
        'turns: while left > 0 {
            let Some(p) = self.traffic.ready.next() else {
                return Ok(());
            };
            left = self.turn(p, quota, left)?;
        }
        Ok(())
    }

    /// Process `p` has its turn, if it is in the region. It returns how much of the budget is left.
    #[inline(always)]
    fn turn(&mut self, p: usize, quota: u32, left: u32) -> Result<u32, AllocError>
        requires { 0 < left }
        ensures runs { IfOk result (λ rest. RunsOn left rest self.old self.new) }
        ensures less { IfOk result (λ rest. rest < left) }
        ensures stands { OnErr result (RunsOn left 0 self.old self.new) }
    {
        let network = self.network;
        network.known();
        if !has(&self.within, p) {
            return Ok(left - 1);
        }
        self.traffic.reserve(left)?;
        let frame = &mut self.frames[p];
        let turned = self.traffic.turn(network, p, quota, left, frame);
        self.made += u64::from(turned.made);
        self.stops[p] = turned.halt.stop();
        let rest = left - turned.made.max(1);
        match turned.halt {
            Halt::Stuck(_) => Ok(rest),
            Halt::Spent => {
                self.traffic.ready.insert(p);
                Ok(rest)
            }
            Halt::NoMemory => Err(AllocError),
        }
    }
}

/// Whether there is such a process, and it is in the region.
#[inline(always)]
fn has(within: &[bool], p: usize) -> bool
    ensures there { result ≡ true → p < length within.now }
    ensures within { result ≡ true → slice_index_or within.now p false ≡ true }
{
    match within.get(p) {
        Some(is_within) => *is_within,
        None => false,
    }
}

/// That no process of a network is in the region.
fn nobody<A: Allocator>(alloc: A, network: &Network) -> Result<Vec<bool, A>, AllocError>
    ensures { IfOk result (λ within.
        within.items ≡ replicate (length network.now.instances) false) }
{
    vec![in alloc; false; network.instances()]
}

/// That no process of a network came to a stop.
fn no_stops<A: Allocator>(alloc: A, network: &Network) -> Result<Vec<Option<Stop>, A>, AllocError>
    ensures { IfOk result (λ stops. stops.items ≡ replicate (length network.now.instances) None) }
{
    vec![in alloc; None; network.instances()]
}

/// For each channel of a network one of which the region sees nothing.
fn no_sides<A: Allocator + Copy>(
    alloc: A,
    network: &Network,
) -> Result<Vec<RegionSide<A>, A>, AllocError>
    ensures { IfOk result (λ sides.
        sides.items ≡ replicate (length network.now.channels) no_side) }
{
    let mut sides = Vec::with_capacity(alloc, network.channels())?;
    for _c in 0..network.channels() {
        sides.push(RegionSide::new(alloc))?;
    }
    Ok(sides)
}

/// Takes all processes out of the region. Their frames become those that were claimed.
fn clear_processes<A: Allocator>(
    within: &mut Vec<bool, A>,
    first: &Vec<Frame, A>,
    frames: &mut Vec<Frame, A>,
    stops: &mut Vec<Option<Stop>, A>,
)
    requires first { length first.now.items ≡ length within.old.items }
    requires frames { length frames.old.items ≡ length within.old.items }
    requires stops { length stops.old.items ≡ length within.old.items }
    requires sizes { (p : ℕ) → p < length within.old.items
        → length (slice_index_or first.now.items p no_frame).variables
        ≡ length (slice_index_or frames.old.items p no_frame).variables }
    requires outside { (p : ℕ) → slice_index_or within.old.items p false ≡ false
        → slice_index_or frames.old.items p no_frame ≡ slice_index_or first.now.items p no_frame }
    ensures within { within.new.items ≡ replicate (length within.old.items) false }
    ensures frames { frames.new.items ≡ first.now.items }
    ensures stops { stops.new.items ≡ replicate (length within.old.items) None }
{
    'processes: for p in 0..within.len() {
        if within[p] {
            let frame = &mut frames[p];
            frame.copy_from(&first[p]);
        }
        within[p] = false;
        stops[p] = None;
    }
}

/// Makes each channel one of which the region sees nothing.
fn clear_sides<A: Allocator>(sides: &mut Vec<RegionSide<A>, A>)
    ensures { sides.new.items ≡ replicate (length sides.old.items) no_side }
{
    'sides: for c in 0..sides.len() {
        let side = &mut sides[c];
        side.clear();
    }
}
