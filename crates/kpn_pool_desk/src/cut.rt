//! A cut of a network into regions, and what a run by workers would take with it.

use crate::regions::{number_at, sum};
use crate::tuning::{
    HAND_OVER_HOLD_NANOSECONDS, HAND_OVER_NANOSECONDS, PARTS_OF_A_GAIN, PARTS_UNDER_THE_LOCK,
    WIDE_ITEMS,
};
use std::alloc::{AllocError, Allocator};

/// Whether a channel of this capacity is wide, as a source is, which has none.
pub(crate) fn is_wide(capacity: Option<u32>) -> bool {
    match capacity {
        Some(capacity) => capacity >= WIDE_ITEMS,
        None => true,
    }
}

/// A channel from one process to another, and how often its items are handed over if it is cut: half the capacity at
/// once.
#[derive(Clone, Copy)]
pub(crate) struct Flow {
    pub writer: usize,
    pub reader: usize,
    pub hand_overs: u64,
}

impl Flow {
    /// A channel of this capacity, which has carried this many items. If it is too narrow to be cut, the hand-overs are
    /// endless.
    pub(crate) fn new(writer: usize, reader: usize, capacity: Option<u32>, carried: u64) -> Flow {
        let hand_overs = if is_wide(capacity) {
            carried / u64::from(capacity.unwrap_or(u32::MAX) / 2).max(1)
        } else {
            u64::MAX
        };
        Flow {
            writer,
            reader,
            hand_overs,
        }
    }
}

/// A region, and what its processes take, in nanoseconds.
#[derive(Clone, Copy)]
struct RegionLoad {
    region: usize,
    load: u64,
}

/// The regions that are left to be joined, those that take least first: those that there were, and after them those
/// that were joined meanwhile, each of which takes no less than the one before.
#[derive(Drop)]
struct LeastFirst<A: Allocator> {
    given: Vec<RegionLoad, A>,
    joined: Vec<RegionLoad, A>,
    // how many of each have gone
    given_gone: usize,
    joined_gone: usize,
}

impl<A: Allocator> LeastFirst<A> {
    /// Takes out the one that takes least.
    fn next(&mut self) -> Option<RegionLoad> {
        let given = self.given.get(self.given_gone).copied();
        let joined = self.joined.get(self.joined_gone).copied();
        match (given, joined) {
            (Some(one), Some(other)) if other.load < one.load => self.take_joined(),
            (None, Some(_)) => self.take_joined(),
            _ => {
                self.given_gone = self.given_gone.saturating_add(1);
                given
            }
        }
    }

    /// Takes out the first that was joined.
    fn take_joined(&mut self) -> Option<RegionLoad> {
        let joined = self.joined.get(self.joined_gone).copied();
        self.joined_gone = self.joined_gone.saturating_add(1);
        joined
    }
}

/// The region of each process. A region has the number of one of its processes.
#[derive(Drop)]
pub(crate) struct Cut<A: Allocator> {
    // a process of the same region that is nearer to the one with its number, or that one itself
    leads_to: Vec<usize, A>,
    // how many processes a region has, and what they take, in nanoseconds; nothing is meant by other numbers
    members: Vec<u64, A>,
    load: Vec<u64, A>,
    // how many regions there are
    count: usize,
}

impl<A: Allocator + Copy> Cut<A> {
    /// The cut with which this many workers would take least time, by what each process takes in a region: one region
    /// at least. `None` if none is better than turns, which take so long.
    pub(crate) fn best(
        alloc: A,
        loads: &[u64],
        flows: &[Flow],
        workers: usize,
        by_turns: u64,
    ) -> Result<Option<Self>, AllocError> {
        let mut least = by_turns - by_turns / PARTS_OF_A_GAIN;
        let mut best = None;
        for count in 1..workers.saturating_mul(2).min(loads.len()).saturating_add(1) {
            let mut cut = Cut::of_each(alloc, loads)?;
            cut.join_to(alloc, count, flows)?;
            let time = cut.time(alloc, workers, flows)?;
            if time < least {
                least = time;
                best = Some(cut);
            }
        }
        Ok(best)
    }

    /// Each process, which takes so long, is a region.
    fn of_each(alloc: A, load: &[u64]) -> Result<Self, AllocError> {
        let mut leads_to = Vec::with_capacity(alloc, load.len())?;
        for p in 0..load.len() {
            leads_to.push(p)?;
        }
        Ok(Cut {
            leads_to,
            members: vec![in alloc; 1_u64; load.len()]?,
            load: Vec::from_slice(alloc, load)?,
            count: load.len(),
        })
    }

    /// Joins regions until there are at most this many, as far as none then takes much longer than its even share:
    /// first across the channels with the most hand-overs, which come first, and then those that take least.
    fn join_to(&mut self, alloc: A, count: usize, flows: &[Flow]) -> Result<(), AllocError> {
        let even = sum(&self.load) / count.max(1) as u64;
        let share = even.saturating_add(even / PARTS_OF_A_GAIN);
        for flow in flows {
            let (writer, reader) = (self.region(flow.writer), self.region(flow.reader));
            if flow.hand_overs == u64::MAX || self.joint_load(writer, reader) <= share {
                self.join(writer, reader);
            }
        }
        self.join_least(alloc, count, share)
    }

    /// Joins the two regions that take least, until there are at most this many, or the two would take more than this.
    fn join_least(&mut self, alloc: A, count: usize, share: u64) -> Result<(), AllocError> {
        let mut left = self.least_first(alloc)?;
        for _ in count..self.count {
            let (Some(one), Some(other)) = (left.next(), left.next()) else {
                return Ok(());
            };
            let load = one.load.saturating_add(other.load);
            if load > share {
                return Ok(());
            }
            let region = self.join(one.region, other.region);
            left.joined.push(RegionLoad { region, load })?;
        }
        Ok(())
    }

    /// The regions, none of which was joined yet.
    fn least_first(&self, alloc: A) -> Result<LeastFirst<A>, AllocError> {
        let mut given = Vec::with_capacity(alloc, self.count)?;
        for region in 0..self.leads_to.len() {
            if self.region(region) == region {
                let load = self.load_of(region);
                given.push(RegionLoad { region, load })?;
            }
        }
        given.sort_by_key(|it: &RegionLoad| it.load)?;
        Ok(LeastFirst {
            given,
            joined: Vec::new(alloc),
            given_gone: 0,
            joined_gone: 0,
        })
    }

    /// How many nanoseconds this many workers would take for what one thread has done so far: the busiest region, or an
    /// even part of all, or the time for which the lock is held.
    fn time(&self, alloc: A, workers: usize, flows: &[Flow]) -> Result<u64, AllocError> {
        let most = self.hand_overs(alloc, flows)?;
        let mut busiest = 0_u64;
        let mut all = 0_u64;
        let mut work = 0_u64;
        for region in 0..self.leads_to.len() {
            if self.region(region) == region {
                let load = self.load_of(region);
                let handed = number_at(&most, region).saturating_mul(HAND_OVER_NANOSECONDS);
                let time = load.saturating_add(handed);
                busiest = busiest.max(time);
                all = all.saturating_add(time);
                work = work.saturating_add(load);
            }
        }
        let held = sum(&most)
            .saturating_mul(HAND_OVER_HOLD_NANOSECONDS)
            .saturating_add(work / PARTS_UNDER_THE_LOCK);
        Ok(busiest.max(all / workers.max(1) as u64).max(held))
    }

    /// How often each region is claimed: as often as the items of its busiest channel to another region are handed
    /// over.
    fn hand_overs(&self, alloc: A, flows: &[Flow]) -> Result<Vec<u64, A>, AllocError> {
        let mut most = vec![in alloc; 0_u64; self.leads_to.len()]?;
        for flow in flows {
            let (writer, reader) = (self.region(flow.writer), self.region(flow.reader));
            if writer != reader {
                raise(&mut most, writer, flow.hand_overs);
                raise(&mut most, reader, flow.hand_overs);
            }
        }
        Ok(most)
    }

    /// The region of each process.
    pub(crate) fn regions(&self, alloc: A) -> Result<Vec<usize, A>, AllocError> {
        let mut regions = Vec::with_capacity(alloc, self.leads_to.len())?;
        for p in 0..self.leads_to.len() {
            regions.push(self.region(p))?;
        }
        Ok(regions)
    }
}

impl<A: Allocator> Cut<A> {
    /// The region of a process. Since a smaller region leads to a larger one, it is some ten steps away.
    fn region(&self, p: usize) -> usize {
        let mut at = p;
        for _ in 0..self.leads_to.len() {
            let next = self.leads_to.get(at).copied().unwrap_or(at);
            if next == at {
                return at;
            }
            at = next;
        }
        at
    }

    /// What a region takes.
    fn load_of(&self, region: usize) -> u64 {
        number_at(&self.load, region)
    }

    fn joint_load(&self, one: usize, other: usize) -> u64 {
        self.load_of(one).saturating_add(self.load_of(other))
    }

    /// Joins two regions, if they are two, and returns which they are then.
    fn join(&mut self, one: usize, other: usize) -> usize {
        if one == other {
            return one;
        }
        let joint = self.joint_load(one, other);
        let (members, others) = (
            number_at(&self.members, one),
            number_at(&self.members, other),
        );
        let (large, small) = if members < others {
            (other, one)
        } else {
            (one, other)
        };
        if let Some(leads_to) = self.leads_to.get_mut(small) {
            *leads_to = large;
        }
        if let Some(load) = self.load.get_mut(large) {
            *load = joint;
        }
        if let Some(count) = self.members.get_mut(large) {
            *count = members.saturating_add(others);
        }
        self.count = self.count.saturating_sub(1);
        large
    }
}

/// Makes a number this large at least, if there is one.
fn raise(numbers: &mut [u64], k: usize, least: u64) {
    if let Some(number) = numbers.get_mut(k) {
        *number = (*number).max(least);
    }
}
