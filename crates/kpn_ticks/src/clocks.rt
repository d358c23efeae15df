//! The ticks of a history. One pass over its events counts them.
ghost use Rattle.std.specs.Prelude.{◌≡◌, ◌+◌, ◌<◌, ◌≤◌, ◌^◌, ◌-◌, ℕ, max, [], length, map, replicate, slice_index_or, slice_set, None, IfOk, OnOk};
ghost use Rattle.kpn_net.specs.Tables.{Tables, channel_at, capacity, reader_of};
ghost use Rattle.kpn_net.specs.Faults.{channel_numbers};
ghost use Rattle.kpn_ticks.specs.Ticks.{item_there, room_there, latest_at, latest_of, written_of, read_of, get_tick, put_tick, with_tick, clocks_with_get, clocks_with_put, larger, grown_from, clocks_with_event, start, clocks_after};
ghost use Rattle.kpn_ticks.specs.Shown.{shown, AreClocks};
ghost use Rattle.kpn_ticks.specs.Chain.{last_process};

use kpn_history::Event;
use kpn_lang::Sequence;
use kpn_net::{End, Network};
use std::alloc::{AllocError, Global};

/// What is known of time after some events of a network.
#[derive(Drop)]
pub struct Clocks {
    latest: Vec<usize>,
    written: Vec<Sequence<usize>>,
    read: Vec<Sequence<usize>>,
    capacities: Vec<Option<u32>>,
    last: usize,
}

impl Clocks {
    /// Before the first event. With `has_capacities` a put waits for room, else there is always room.
    pub fn new(alloc: Global, network: &Network, has_capacities: bool) -> Result<Clocks, AllocError>
        ensures { IfOk result (λ clocks. shown clocks ≡ start network.now has_capacities) }
    {
        let latest = zeros(alloc, network.instances())?;
        let written = no_ticks(alloc, network.channels())?;
        let read = no_ticks(alloc, network.channels())?;
        let capacities = if has_capacities {
            first_capacities(alloc, network)?
        } else {
            no_capacities(alloc, network.channels())?
        };
        Ok(Clocks {
            latest,
            written,
            read,
            capacities,
            last: 0,
        })
    }

    /// Counts one event more. The error is that memory ran out, and nothing is known of the clocks then.
    pub fn count(&mut self, network: &Network, event: Event) -> Result<(), AllocError>
        requires clocks { AreClocks network.now (shown self.old) }
        requires fits { (shown self.old).last + 1 < 2 ^ 64 }
        ensures { OnOk result (shown self.new ≡ clocks_with_event network.now (shown self.old) event) }
    {
        match event {
            Event::Get(p, c, _) => {
                let tick = self.get_tick(p.into(), c.into());
                self.count_get(p.into(), c.into(), tick)?;
            }
            Event::Put(p, c, _) => {
                let tick = self.put_tick(network, p.into(), c.into());
                self.count_put(p.into(), c.into(), tick)?;
            }
            Event::Feed(c, _) => {
                push_tick(&mut self.written, c.into(), 0)?;
            }
            Event::Take(c, _) => {
                let tick = self.item_there(c.into());
                push_tick(&mut self.read, c.into(), tick)?;
            }
            Event::Grow(_, c, _) => {
                grow(&mut self.capacities, network, c.into());
            }
            _ => {}
        }
        Ok(())
    }

    fn count_get(&mut self, p: usize, c: usize, tick: usize) -> Result<(), AllocError>
        ensures { OnOk result (shown self.new ≡ clocks_with_get (shown self.old) p c tick) }
    {
        push_tick(&mut self.read, c, tick)?;
        set_tick(&mut self.latest, p, tick);
        self.last = self.last.max(tick);
        Ok(())
    }

    fn count_put(&mut self, p: usize, c: usize, tick: usize) -> Result<(), AllocError>
        ensures { OnOk result (shown self.new ≡ clocks_with_put (shown self.old) p c tick) }
    {
        push_tick(&mut self.written, c, tick)?;
        set_tick(&mut self.latest, p, tick);
        self.last = self.last.max(tick);
        Ok(())
    }

    /// The tick of a get of process `p` from channel `c`, if that is the next event.
    pub fn get_tick(&self, p: usize, c: usize) -> usize
        requires clocks { (t : Tables) × AreClocks t (shown self.now) }
        requires fits { (shown self.now).last + 1 < 2 ^ 64 }
        ensures { result ≡ get_tick (shown self.now) p c }
    {
        self.latest_of(p).max(self.item_there(c)) + 1
    }

    /// The tick of a put of process `p` on channel `c`, if that is the next event.
    pub fn put_tick(&self, network: &Network, p: usize, c: usize) -> usize
        requires clocks { AreClocks network.now (shown self.now) }
        requires fits { (shown self.now).last + 1 < 2 ^ 64 }
        ensures { result ≡ put_tick network.now (shown self.now) p c }
    {
        self.latest_of(p).max(self.room_there(network, c)) + 1
    }

    // When the oldest unread item of a channel is there.
    fn item_there(&self, c: usize) -> usize
        ensures { result ≡ item_there (shown self.now) c }
    {
        let read = self.read_of(c).len();
        self.written_of(c).get(read).copied().unwrap_or(0)
    }

    // When there is room for one item more.
    fn room_there(&self, network: &Network, c: usize) -> usize
        requires { length self.now.capacities.items ≡ length network.now.channels }
        ensures { let s = shown self.now in
            result ≡ room_there (slice_index_or s.capacities c None) (written_of s c) (read_of s c)
            (latest_at s (reader_of network.now c)) }
    {
        let Some(cap) = self.capacities.get(c).copied().unwrap_or(None) else {
            return 0;
        };
        let written = self.written_of(c).len();
        if written < cap as usize {
            return 0;
        }
        let reader = self.latest_of_reader(network, c);
        let place = written - cap as usize;
        self.read_of(c).get(place).copied().unwrap_or(reader)
    }

    fn latest_of_reader(&self, network: &Network, c: usize) -> usize
        requires { c < length network.now.channels }
        ensures { result ≡ latest_at (shown self.now) (reader_of network.now c) }
    {
        match network.reader_of(c) {
            End::Process(p) => self.latest_of(p),
            End::Source | End::Sink => 0,
        }
    }

    /// The tick of the latest get or put of process `p`; 0 before the first.
    pub fn latest_of(&self, p: usize) -> usize
        ensures { result ≡ latest_of (shown self.now) p }
    {
        self.latest.get(p).copied().unwrap_or(0)
    }

    /// The ticks of the items that were written on channel `c`, oldest first.
    pub fn written_of(&self, c: usize) -> &[usize]
        ensures { result.now ≡ written_of (shown self.now) c }
    {
        match self.written.get(c) {
            Some(ticks) => ticks.as_slice(),
            None => &[],
        }
    }

    /// The ticks of the items that were read from channel `c`, oldest first.
    pub fn read_of(&self, c: usize) -> &[usize]
        ensures { result.now ≡ read_of (shown self.now) c }
    {
        match self.read.get(c) {
            Some(ticks) => ticks.as_slice(),
            None => &[],
        }
    }

    /// The first process whose latest get or put has the last tick of all.
    pub(crate) fn last_process(&self) -> usize
        ensures { result ≡ last_process (shown self.now) }
    {
        let last = self.last;
        self.latest.iter().take_while(|tick| **tick < last).count()
    }

    /// The last tick of all.
    pub fn last(&self) -> usize
        ensures { result ≡ (shown self.now).last }
    {
        self.last
    }
}

/// What is known of time after all of these events.
pub fn clocks_after(
    alloc: Global,
    network: &Network,
    has_capacities: bool,
    events: &[Event],
) -> Result<Clocks, AllocError>
    ensures { IfOk result (λ clocks.
        shown clocks ≡ clocks_after network.now has_capacities events.now) }
{
    let mut clocks = Clocks::new(alloc, network, has_capacities)?;
    for k in 0..events.len() {
        clocks.count(network, events[k])?;
    }
    Ok(clocks)
}

// This many zeros.
pub(crate) fn zeros(alloc: Global, n: usize) -> Result<Vec<usize>, AllocError>
    ensures { IfOk result (λ zeros. zeros.items ≡ replicate n 0) }
{
    vec![in alloc; 0; n]
}

fn no_ticks(alloc: Global, channels: usize) -> Result<Vec<Sequence<usize>>, AllocError>
    ensures { IfOk result (λ ticks. ticks.items ≡ replicate channels []) }
{
    let mut ticks = Vec::with_capacity(alloc, channels)?;
    for _c in 0..channels {
        ticks.push(Sequence::new(alloc))?;
    }
    Ok(ticks)
}

fn first_capacities(alloc: Global, network: &Network) -> Result<Vec<Option<u32>>, AllocError>
    ensures { IfOk result (λ capacities. capacities.items
        ≡ map (λ c. capacity (channel_at network.now c)) (channel_numbers network.now)) }
{
    let mut capacities = Vec::with_capacity(alloc, network.channels())?;
    for c in 0..network.channels() {
        capacities.push(network.cap_of(c))?;
    }
    Ok(capacities)
}

fn no_capacities(alloc: Global, channels: usize) -> Result<Vec<Option<u32>>, AllocError>
    ensures { IfOk result (λ capacities. capacities.items ≡ replicate channels None) }
{
    vec![in alloc; None; channels]
}

// Puts a tick after those of a channel.
fn push_tick(lists: &mut Vec<Sequence<usize>>, c: usize, tick: usize) -> Result<(), AllocError>
    ensures { OnOk result (lists.new.items ≡ with_tick lists.old.items c tick) }
{
    if c < lists.len() {
        let list = &mut lists[c];
        list.push(tick)?;
    }
    Ok(())
}

fn set_tick(ticks: &mut Vec<usize>, p: usize, tick: usize)
    ensures { ticks.new.items ≡ slice_set ticks.old.items p tick }
{
    if p < ticks.len() {
        ticks[p] = tick;
    }
}

// The capacity of a channel after a growth.
fn grow(capacities: &mut Vec<Option<u32>>, network: &Network, c: usize)
    ensures { capacities.new.items ≡ slice_set capacities.old.items c
        (grown_from network.now (slice_index_or capacities.old.items c None)) }
{
    if c < capacities.len() {
        capacities[c] = grown_from(network, capacities[c]);
    }
}

fn grown_from(network: &Network, cap: Option<u32>) -> Option<u32>
    ensures { result ≡ grown_from network.now cap }
{
    match cap {
        Some(cap) => Some(larger(network, cap)),
        None => None,
    }
}

fn larger(network: &Network, cap: u32) -> u32
    ensures { result ≡ larger network.now cap }
{
    if cap < network.limit() {
        network.larger_capacity(cap)
    } else {
        cap
    }
}
