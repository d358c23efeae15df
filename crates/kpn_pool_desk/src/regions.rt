//! The regions of a network: a worker claims the processes of one together. Any cut is right; this one is to be fast.

use crate::cut::{Cut, Flow, is_wide};
use crate::tuning::{BY_TURNS_NANOSECONDS, NARROW_NANOSECONDS, WIDE_NANOSECONDS};
use kpn_net::{End, Network};
use std::alloc::{AllocError, Allocator};

/// A process, and the region that it is in.
#[derive(Clone, Copy)]
struct RegionMember {
    region: usize,
    process: usize,
}

/// Regions, of which each process is in one.
#[derive(Drop)]
pub(crate) struct Regions<A: Allocator> {
    // the processes in order of region
    processes: Vec<usize, A>,
    // how many processes the regions up to each have together
    ends: Vec<usize, A>,
}

impl<A: Allocator + Copy> Regions<A> {
    /// Cuts a network for this many workers, by how many items each of its channels has carried and how long its turns
    /// took: into one region, or several if it need not stay whole. `None` if turns are faster. The error is that
    /// memory ran out.
    pub(crate) fn cut(
        alloc: A,
        network: &Network,
        carried: &[u64],
        times: Times<'_>,
        drains: bool,
        workers: usize,
        is_whole: bool,
    ) -> Result<Option<Self>, AllocError> {
        let flows = flows(alloc, network, carried)?;
        let by_turns = time_by_turns(alloc, network, carried, times, workers)?;
        let in_regions = loads(alloc, network, carried, times, Way::Regions { drains })?;
        // for one worker no cut is better than none
        let at_once = if is_whole { 1 } else { workers };
        match Cut::best(alloc, &in_regions, &flows, at_once, by_turns)? {
            Some(cut) => {
                let regions = cut.regions(alloc)?;
                Ok(Some(Regions::of(alloc, &regions)?))
            }
            None => Ok(None),
        }
    }

    /// The regions of a cut.
    fn of(alloc: A, region_of: &[usize]) -> Result<Self, AllocError> {
        let mut members = Vec::with_capacity(alloc, region_of.len())?;
        for p in 0..region_of.len() {
            members.push(RegionMember {
                region: region_of[p],
                process: p,
            })?;
        }
        members.sort_by_key(|it: &RegionMember| it.region)?;
        let mut processes = Vec::with_capacity(alloc, members.len())?;
        let mut ends = Vec::new(alloc);
        for k in 0..members.len() {
            if k > 0 && members[k - 1].region != members[k].region {
                ends.push(k)?;
            }
            processes.push(members[k].process)?;
        }
        if !processes.is_empty() {
            ends.push(processes.len())?;
        }
        Ok(Regions { processes, ends })
    }
}

impl<A: Allocator> Regions<A> {
    /// How many regions there are.
    pub(crate) fn len(&self) -> usize {
        self.ends.len()
    }

    /// The processes of a region, in order of number. None, if there is no such region.
    pub(crate) fn processes(&self, region: usize) -> &[usize] {
        let Some(end) = self.ends.get(region) else {
            return &[];
        };
        let begin = match region {
            0 => 0,
            _ => self.ends.get(region - 1).copied().unwrap_or(0),
        };
        self.processes.get(begin..*end).unwrap_or(&[])
    }
}

/// The channels between two processes, those with the most hand-overs first.
fn flows<A: Allocator + Copy>(
    alloc: A,
    network: &Network,
    carried: &[u64],
) -> Result<Vec<Flow, A>, AllocError> {
    network.known();
    let mut flows = Vec::new(alloc);
    for c in 0..network.channels() {
        let ends = (network.writer_of(c), network.reader_of(c));
        if let (End::Process(writer), End::Process(reader)) = ends {
            let items = number_at(carried, c);
            flows.push(Flow::new(writer, reader, network.cap_of(c), items))?;
        }
    }
    flows.sort_by_key(|flow: &Flow| u64::MAX - flow.hand_overs)?;
    Ok(flows)
}

/// How many nanoseconds this many turns of each process took that were timed.
#[derive(Clone, Copy)]
pub(crate) struct Times<'t> {
    pub taken: &'t [u64],
    pub turns: &'t [u64],
}

impl Times<'_> {
    /// How long the steps of a turn take in the mean of all.
    fn mean(&self) -> u64 {
        sum(self.taken) / sum(self.turns).max(1)
    }

    /// How long those of a process take; as in the mean of all, which is this, if no turn of its own was timed.
    fn turn(&self, p: usize, mean: u64) -> u64 {
        match number_at(self.turns, p) {
            0 => mean,
            count => number_at(self.taken, p) / count,
        }
    }
}

/// How processes are stepped: in turns, or in regions, which may empty their sinks.
#[derive(Clone, Copy)]
enum Way {
    ByTurns,
    Regions { drains: bool },
}

impl Way {
    /// How many nanoseconds a get or put takes beside the steps of its process.
    fn nanos(self, is_wide: bool, is_sink: bool) -> u64 {
        match self {
            Way::ByTurns => BY_TURNS_NANOSECONDS,
            Way::Regions { drains } if is_wide || drains && is_sink => WIDE_NANOSECONDS,
            Way::Regions { .. } => NARROW_NANOSECONDS,
        }
    }
}

/// How many nanoseconds this many workers take for the gets and puts so far by turns: as many of them as pay. If no
/// more than one does, it is endless, since one worker is as fast in a region.
fn time_by_turns<A: Allocator + Copy>(
    alloc: A,
    network: &Network,
    carried: &[u64],
    times: Times<'_>,
    workers: usize,
) -> Result<u64, AllocError> {
    let paying = (times.mean() / BY_TURNS_NANOSECONDS)
        .saturating_add(1)
        .min(workers as u64);
    if paying <= 1 {
        return Ok(u64::MAX);
    }
    let loads = loads(alloc, network, carried, times, Way::ByTurns)?;
    let busiest = loads.iter().copied().max().unwrap_or(0);
    Ok(busiest.max(sum(&loads) / paying))
}

/// What each process takes for the gets and puts so far, in nanoseconds.
fn loads<A: Allocator + Copy>(
    alloc: A,
    network: &Network,
    carried: &[u64],
    times: Times<'_>,
    way: Way,
) -> Result<Vec<u64, A>, AllocError> {
    network.known();
    let mean = times.mean();
    let mut loads = vec![in alloc; 0_u64; network.instances()]?;
    for c in 0..network.channels() {
        let items = number_at(carried, c);
        let nanos = way.nanos(is_wide(network.cap_of(c)), network.is_sink(c));
        for end in [network.writer_of(c), network.reader_of(c)] {
            if let End::Process(p) = end {
                let each = times.turn(p, mean).saturating_add(nanos);
                add_to(&mut loads, p, items.saturating_mul(each));
            }
        }
    }
    for p in 0..loads.len() {
        loads[p] = loads[p].max(number_at(times.taken, p));
    }
    Ok(loads)
}

/// Adds to the number of process `p`, if there is one.
fn add_to(numbers: &mut [u64], p: usize, more: u64) {
    if let Some(number) = numbers.get_mut(p) {
        *number = number.saturating_add(more);
    }
}

/// The sum of numbers, or the greatest one.
pub(crate) fn sum(numbers: &[u64]) -> u64 {
    let mut all = 0_u64;
    for number in numbers {
        all = all.saturating_add(*number);
    }
    all
}

/// The number of process or channel `k`; 0 if there is none.
pub(crate) fn number_at(numbers: &[u64], k: usize) -> u64 {
    numbers.get(k).copied().unwrap_or(0)
}
