//! What passes in a region: the items on its channels, its events, and who may go on.
ghost use Rattle.std.specs.Prelude.{◌≡◌, ℕ, ◌+◌, ◌*◌, ◌<◌, ◌≤◌, ◌^◌, length, IsTrue, OnOk, IfSome, IfNone, vec_len, vec_capacity};
ghost use Rattle.kpn_net.specs.Tables.{Tables, program_of};
ghost use Rattle.kpn_step.specs.Frame.{Frame, fits};
ghost use Rattle.kpn_step.specs.Stops.{StandsAt, IsAtPort};
ghost use Rattle.kpn_region.specs.Batch.{IsStuckAt};
ghost use Rattle.kpn_region.specs.Turn.{IsGot, puts_by, IsTaken, MakesEvents, passes_by, halts_at};

use crate::ready::Ready;
use crate::side::RegionSide;
use kpn_history::Event;
use kpn_machine::{in_channel, out_channel};
use kpn_net::Network;
use kpn_step::{Frame, Stop};
use std::alloc::{AllocError, Allocator};

/// This many events a process makes at most before the next one has its turn.
const TURN: u32 = 256;

/// This many if no channel of the region is wide. Then the next one can't go on for long, and a try in vain costs as much
/// as an event.
pub(crate) const SHORT_TURN: u32 = 2;

/// A channel with as many places is wide.
const WIDE: u64 = 8;

/// The channels of a region, the events that it has made, and the processes that may go on.
#[derive(Debug, Drop)]
pub(crate) struct Traffic<A: Allocator> {
    pub(crate) sides: Vec<RegionSide<A>, A>,
    pub(crate) events: Vec<Event, A>,
    pub(crate) ready: Ready,
    // this many events a process makes at most before the next one has its turn
    pub(crate) most: u32,
}

/// This many events a process makes at most, once a channel more is in the region: one with these items and this room, and
/// maybe a sink that is emptied.
pub(crate) fn turn_with(most: u32, items: usize, room: u64, drains: bool) -> u32 {
    if !drains && room.saturating_add(items as u64) >= WIDE {
        TURN
    } else {
        most
    }
}

/// What came of a stop.
#[derive(Clone, Copy)]
pub(crate) enum Passed {
    /// The process made its event and is past it.
    On,
    /// It can't go on, or has made as many steps as it was allowed.
    Stuck,
    /// Memory ran out.
    NoMemory,
}

/// How the turn of a process ended.
#[derive(Clone, Copy)]
pub(crate) enum Halt {
    /// It can't go on from this stop, or has made as many steps as it was allowed.
    Stuck(Stop),
    /// It has made as many events as it was allowed.
    Spent,
    /// Memory ran out.
    NoMemory,
}

impl Halt {
    /// The stop from which the process does not go on, if there is one.
    #[inline(always)]
    pub(crate) fn stop(self) -> Option<Stop>
        ensures { (t : Tables) (p : ℕ) (f : Frame) → halts_at self t p f
            → IfSome result (IsStuckAt t p f) }
    {
        match self {
            Halt::Stuck(stop) => Some(stop),
            _ => None,
        }
    }
}

/// How many events of its own a process has made in its turn, and how that ended.
#[derive(Clone, Copy)]
pub(crate) struct Turned {
    pub(crate) made: u32,
    pub(crate) halt: Halt,
}

impl<A: Allocator> Traffic<A> {
    /// Reserves memory for this many gets and puts. A put may bring a take with it.
    #[inline(always)]
    pub(crate) fn reserve(&mut self, n: u32) -> Result<(), AllocError>
        ensures events { self.new.events.items ≡ self.old.events.items }
        ensures sides { self.new.sides.items ≡ self.old.sides.items }
        ensures room { OnOk result
            (vec_len self.new.events + 2 * n ≤ vec_capacity self.new.events) }
    {
        let wanted = 2 * n as usize;
        if wanted <= self.events.capacity() - self.events.len() {
            return Ok(());
        }
        self.events.reserve(wanted)
    }

    /// Process `p` makes steps from this frame on and goes past its reads and writes, until it can't go on, or has made
    /// as many events as it may, or is paused.
    #[inline(always)]
    pub(crate) fn turn(
        &mut self,
        network: &Network,
        p: usize,
        quota: u32,
        left: u32,
        frame: &mut Frame,
    ) -> Turned
        requires process { p < length network.now.instances }
        requires sides { length self.old.sides.items ≡ length network.now.channels }
        requires fits { IsTrue (fits (program_of network.now p) frame.old) }
        requires room { vec_len self.old.events + 2 * left ≤ vec_capacity self.old.events }
        ensures goes { MakesEvents network.now p result.made
            frame.old self.old.sides.items self.old.events.items
            frame.new self.new.sides.items self.new.events.items }
        ensures most { result.made ≤ left }
        ensures halt { halts_at result.halt network.now p frame.new }
        ensures capacity { vec_capacity self.new.events ≡ vec_capacity self.old.events }
    {
        network.known();
        let program = network.program(p);
        let most = left.min(self.most);
        let mut made = 0;
        'events: while made < most {
            let (_, stop) = frame.run(program, quota);
            let halt = match self.pass(network, p, stop, frame) {
                Passed::On => {
                    made += 1;
                    continue 'events;
                }
                Passed::Stuck => Halt::Stuck(stop),
                Passed::NoMemory => Halt::NoMemory,
            };
            return Turned { made, halt };
        }
        Turned {
            made,
            halt: Halt::Spent,
        }
    }

    /// Process `p`, which is at this stop, makes the event for which it asks, if it can.
    #[inline(always)]
    fn pass(&mut self, network: &Network, p: usize, stop: Stop, frame: &mut Frame) -> Passed
        requires process { p < length network.now.instances }
        requires sides { length self.old.sides.items ≡ length network.now.channels }
        requires fits { IsTrue (fits (program_of network.now p) frame.old) }
        requires stands { StandsAt (program_of network.now p).blocks frame.old stop }
        requires port { IsAtPort (program_of network.now p) frame.old stop }
        requires room { vec_len self.old.events + 2 ≤ vec_capacity self.old.events }
        ensures passes { passes_by result network.now p
            frame.old self.old.sides.items self.old.events.items
            frame.new self.new.sides.items self.new.events.items }
        ensures capacity { vec_capacity self.new.events ≡ vec_capacity self.old.events }
    {
        network.known();
        match stop {
            Stop::WantRead(port) => {
                let c = in_channel(network, p, port);
                let Some(item) = self.get(p, c) else {
                    return Passed::Stuck;
                };
                frame.pass_read(network.program(p), item);
                Passed::On
            }
            Stop::WantWrite(port, item) => {
                let c = out_channel(network, p, port);
                match self.put(p, c, item) {
                    Passed::On => {
                        frame.pass_write(network.program(p));
                        Passed::On
                    }
                    Passed::Stuck => Passed::Stuck,
                    Passed::NoMemory => Passed::NoMemory,
                }
            }
            Stop::Done | Stop::Faulted(_) | Stop::Paused => Passed::Stuck,
        }
    }

    /// Process `p` gets the next item of channel `c`. If there is none, it is stuck there.
    #[inline(always)]
    fn get(&mut self, p: usize, c: usize) -> Option<i64>
        requires process { p < 2 ^ 16 }
        requires number { c < 2 ^ 16 }
        requires channel { c < length self.old.sides.items }
        requires room { vec_len self.old.events + 2 ≤ vec_capacity self.old.events }
        ensures got { IfSome result (λ v. IsGot p c v self.old.sides.items self.old.events.items
            self.new.sides.items self.new.events.items) }
        ensures sides { IfNone result (self.new.sides.items ≡ self.old.sides.items) }
        ensures events { IfNone result (self.new.events.items ≡ self.old.events.items) }
        ensures capacity { vec_capacity self.new.events ≡ vec_capacity self.old.events }
    {
        let side = &mut self.sides[c];
        let Some(item) = side.get() else {
            side.hold(p as u16);
            return None;
        };
        let freed = side.release();
        free(&mut self.ready, freed);
        self.events
            .push_reserved(Event::Get(p as u16, c as u16, item));
        Some(item)
    }

    /// Process `p` puts an item on channel `c`. If there is no room, it is stuck there.
    #[inline(always)]
    fn put(&mut self, p: usize, c: usize, item: i64) -> Passed
        requires process { p < 2 ^ 16 }
        requires number { c < 2 ^ 16 }
        requires channel { c < length self.old.sides.items }
        requires room { vec_len self.old.events + 2 ≤ vec_capacity self.old.events }
        ensures puts { puts_by result p c item self.old.sides.items self.old.events.items
            self.new.sides.items self.new.events.items }
        ensures capacity { vec_capacity self.new.events ≡ vec_capacity self.old.events }
    {
        let side = &mut self.sides[c];
        if !side.has_room() {
            side.hold(p as u16);
            return Passed::Stuck;
        }
        if side.put(item).is_err() {
            return Passed::NoMemory;
        }
        let freed = side.release();
        let drained = side.is_drained();
        free(&mut self.ready, freed);
        self.events
            .push_reserved(Event::Put(p as u16, c as u16, item));
        if drained {
            let _taken = self.drain(c);
        }
        Passed::On
    }

    /// Takes the next item of a sink that the region empties, and returns it.
    #[inline(always)]
    fn drain(&mut self, c: usize) -> Option<i64>
        requires number { c < 2 ^ 16 }
        requires channel { c < length self.old.sides.items }
        requires room { vec_len self.old.events < vec_capacity self.old.events }
        ensures taken { IsTaken c result self.old.sides.items self.old.events.items
            self.new.sides.items self.new.events.items }
        ensures capacity { vec_capacity self.new.events ≡ vec_capacity self.old.events }
    {
        let side = &mut self.sides[c];
        let item = side.get()?;
        self.events.push_reserved(Event::Take(c as u16, item));
        Some(item)
    }
}

/// Lets a process go on, if there is one.
#[inline(always)]
fn free(ready: &mut Ready, process: Option<u16>) {
    if let Some(q) = process {
        ready.insert(q.into());
    }
}
