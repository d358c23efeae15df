//! How a run divides its network among the workers.
//!
//! Where turns are short, the lock costs more than they do. So a worker then claims the processes of a whole region,
//! runs them with the lock free, and commits what they have done together. Before that, the first turns of a run are
//! timed. Then the whole network is one region, and later it is cut by what each process took.
//!
//! Regions are claimed while the limit of commits is so far that each of those that are held, and one more, may use all
//! of its budget. Nearer to it, the workers make turns, once no region is held. While one is held, a worker waits rather
//! than claim a single process: one of a held region that moves by itself would make the region's batch lost, which is
//! put back then. While others hold single processes, it waits for theirs, so that their regions can be claimed, unless
//! it has waited in vain.
ghost use Rattle.std.specs.Prelude.{◌≡◌, ◌<◌, true, false, IfOk, IfSome, OnErr};
ghost use Rattle.std.specs.List.{All};
ghost use Rattle.kpn_book.specs.RegionClaims.{IsSameBook};
ghost use Rattle.kpn_book.specs.Regions.{batch_put_back};
ghost use Rattle.kpn_pool_desk.specs.Desk.{with_book};
ghost use Rattle.kpn_pool_desk.specs.RegionTurn.{DrainsFor, ClaimsFor, most_events};

use crate::desk::Desk;
use crate::job::Job;
use crate::regions::{Regions, Times};
use crate::taking::Takers;
use crate::tuning::{
    COMMITS_BEFORE_CUT, COMMITS_FACTOR_OF_NEXT_CUT, EVENTS_PER_PROCESS, EVENTS_PER_REGION,
    LONGEST_TURN_NANOSECONDS, TIMED_COMMITS,
};
use kpn_book::Book;
use kpn_history::State;
use kpn_net::Network;
use kpn_region::Batch;
use std::alloc::{AllocError, Allocator};

/// For how long the turns of each process took, and the regions into which the network is cut.
#[derive(Drop)]
pub(crate) struct Division<A: Allocator> {
    pub(crate) alloc: A,
    // this many commits are allowed in a run whose network may be cut, and 0 in others
    limit: u64,
    // how many nanoseconds the turns of each process took that were timed, and how many there were
    taken: Vec<u64, A>,
    turns: Vec<u64, A>,
    // the network is cut once there are this many commits
    due: u64,
    // no region is claimed before there are this many
    from: u64,
    regions: Option<Regions<A>>,
    // how many of them are held
    held: usize,
    // which is looked at first when one is claimed
    next: usize,
}

impl<A: Allocator> Division<A> {
    /// Of a network that is not cut.
    pub(crate) fn new(alloc: A) -> Self
    where
        A: Copy,
    {
        Division {
            alloc,
            limit: 0,
            taken: Vec::new(alloc),
            turns: Vec::new(alloc),
            due: TIMED_COMMITS,
            from: 0,
            regions: None,
            held: 0,
            next: 0,
        }
    }

    /// The network is no longer divided.
    pub(crate) fn stop(&mut self) {
        self.limit = 0;
        self.let_go();
    }

    /// A region is held no longer.
    pub(crate) fn release(&mut self) {
        self.held = self.held.saturating_sub(1);
        self.let_go();
    }

    /// A region has made no commit: its batch was refused, or memory ran out in its run. Turns are made until there are
    /// some commits more.
    pub(crate) fn rest(&mut self, commits: u64) {
        self.from = commits.saturating_add(u64::from(EVENTS_PER_REGION));
    }

    /// If the network is no longer divided, and no region is held, the regions go.
    fn let_go(&mut self) {
        if self.limit == 0 && self.held == 0 {
            self.regions = None;
        }
    }

    /// A turn of one of this many processes took this many nanoseconds. If memory for that runs out, the network is not
    /// divided.
    pub(crate) fn note(&mut self, processes: usize, process: usize, nanos: u64) {
        if !fill(&mut self.taken, processes) || !fill(&mut self.turns, processes) {
            self.stop();
            return;
        }
        if let Some(taken) = self.taken.get_mut(process) {
            *taken = taken.saturating_add(nanos.min(LONGEST_TURN_NANOSECONDS));
        }
        if let Some(turns) = self.turns.get_mut(process) {
            *turns = turns.saturating_add(1);
        }
    }

    /// Cuts the network, if it is time. If memory for that runs out, the network is not divided.
    fn cut_if_due(&mut self, book: &Book<'_, A>, drains: bool, workers: usize)
    where
        A: Copy,
    {
        let commits = book.commits();
        if self.limit == 0 || self.held > 0 || commits < self.due {
            return;
        }
        // what has gone through so far says little of the parts of the network
        let is_whole = commits < COMMITS_BEFORE_CUT;
        self.due = if is_whole {
            COMMITS_BEFORE_CUT
        } else {
            commits.saturating_mul(COMMITS_FACTOR_OF_NEXT_CUT)
        };
        match self.cut(book, drains, workers, is_whole) {
            Ok(regions) => self.regions = regions,
            Err(_error) => self.stop(),
        }
    }

    /// Cuts the network by what was timed and what its channels have carried, or makes one region of it.
    fn cut(
        &self,
        book: &Book<'_, A>,
        drains: bool,
        workers: usize,
        is_whole: bool,
    ) -> Result<Option<Regions<A>>, AllocError>
    where
        A: Copy,
    {
        let times = Times {
            taken: self.taken.as_slice(),
            turns: self.turns.as_slice(),
        };
        let network = book.network();
        let mut carried = Vec::with_capacity(self.alloc, network.channels())?;
        for c in 0..network.channels() {
            carried.push((book.read_count(c) as u64).saturating_add(book.unread_count(c) as u64))?;
        }
        Regions::cut(
            self.alloc,
            network,
            carried.as_slice(),
            times,
            drains,
            workers,
            is_whole,
        )
    }

    /// How many regions there are.
    fn len(&self) -> usize {
        match &self.regions {
            Some(regions) => regions.len(),
            None => 0,
        }
    }

    /// The processes of a region. None, if there is no such region.
    fn processes(&self, region: usize) -> &[usize] {
        match &self.regions {
            Some(regions) => regions.processes(region),
            None => &[],
        }
    }
}

/// Fills a list with zeros up to this many. Returns whether there was memory for it.
fn fill<A: Allocator>(list: &mut Vec<u64, A>, count: usize) -> bool {
    for _ in list.len()..count {
        if list.push(0).is_err() {
            return false;
        }
    }
    true
}

/// How many gets and puts a batch of a region of this network makes at most.
pub(crate) fn events_per_batch(network: &Network) -> u32
    ensures { result ≡ most_events network.now }
{
    network.known();
    EVENTS_PER_REGION.max(EVENTS_PER_PROCESS * network.instances() as u32)
}

/// Whether all these numbers are below this count.
fn are_below(count: usize, numbers: &[usize]) -> bool
    ensures { (result ≡ true) → All (λ p. p < count) numbers.now }
{
    'numbers: for k in 0..numbers.len() {
        if numbers[k] >= count {
            return false;
        }
    }
    true
}

impl<'n, J: Job, A: Allocator> Desk<'n, J, A> {
    /// The network may be cut into regions, if this many commits are allowed.
    pub fn divide(&mut self, most: u64)
        ensures { self.new ≡ self.old }
    {
        self.division.limit = most;
    }

    /// There are this many processors: no more workers run at once.
    pub fn run_on(&mut self, processors: usize)
        ensures { self.new ≡ self.old }
    {
        self.crew.run_on(processors);
    }

    /// Whether turns are to be timed.
    pub fn times(&self) -> bool {
        self.division.limit > 0 && self.book.commits() < TIMED_COMMITS
    }

    /// Cuts the network, if it is time.
    pub(crate) fn cut(&mut self)
    where
        A: Copy,
        ensures { self.new ≡ self.old }
    {
        let drains = self.drains();
        self.division
            .cut_if_due(&self.book, drains, self.crew.most());
    }

    /// How many there are to claim: regions, or processes where there are none. A worker that has waited in vain for
    /// those who hold single processes claims such too.
    pub(crate) fn claimable(&self, in_vain: bool) -> usize {
        let ready = self.ready();
        if ready == 0 || !self.goes_by_regions() {
            return ready;
        }
        let regions = self.claimable_regions();
        if regions == 0 && in_vain && self.division.held == 0 {
            return ready;
        }
        regions
    }

    /// How many regions may be claimed.
    fn claimable_regions(&self) -> usize {
        if !self.claims_regions() {
            return 0;
        }
        let mut count: usize = 0;
        for region in 0..self.division.len() {
            if self.may_claim(region) {
                count = count.saturating_add(1);
            }
        }
        count
    }

    /// Whether workers claim regions, or wait for those that are held, and claim no single process.
    pub fn goes_by_regions(&self) -> bool {
        self.division.held > 0 || self.claims_regions()
    }

    /// Whether a region more may be claimed: the last one has made a commit, or turns have since; it is not time to cut
    /// anew; and the limit is far.
    fn claims_regions(&self) -> bool {
        self.division.regions.is_some()
            && self.division.from <= self.book.commits()
            && self.book.commits() < self.division.due
            && self.is_limit_far()
    }

    /// Whether each region that is held, and one more, may use its budget.
    fn is_limit_far(&self) -> bool {
        let network = self.book.network();
        let processes = network.instances() as u64;
        let regions = (self.division.held as u64).saturating_add(1);
        let most = u64::from(events_per_batch(network))
            .saturating_add(processes)
            .saturating_mul(regions);
        most <= self.division.limit.saturating_sub(self.book.commits())
    }

    /// Whether regions empty their sinks: they do if the workers take.
    fn drains(&self) -> bool
        ensures { DrainsFor self.now.takers result }
    {
        match self.takers {
            Takers::Seats => false,
            Takers::Workers(_wanted) => true,
        }
    }

    /// Whether a region may be claimed: none of its processes is held, and one is ready.
    fn may_claim(&self, region: usize) -> bool {
        let of = self.division.processes(region);
        if !are_below(self.book.network().instances(), of) {
            return false;
        }
        let mut is_ready = false;
        'processes: for k in 0..of.len() {
            match self.book.state(of[k]) {
                State::Held => return false,
                State::Ready => is_ready = true,
                _ => {}
            }
        }
        is_ready
    }

    /// The region that a worker is to claim, if there is one. If there are no more regions than workers, it is this last
    /// one that the worker had, where that may be claimed; else the next one after the one that was claimed last.
    pub(crate) fn next_region(&self, last: Option<usize>) -> Option<usize> {
        if !self.claims_regions() {
            return None;
        }
        let count = self.division.len();
        if let Some(last) = last {
            if count <= self.crew.most() && self.may_claim(last) {
                return Some(last);
            }
        }
        for k in 0..count {
            let region = self.division.next.wrapping_add(k) % count;
            if self.may_claim(region) {
                return Some(region);
            }
        }
        None
    }

    /// Claims a region for a batch. Returns whether it could. The error is that memory ran out.
    pub(crate) fn claim_region(
        &mut self,
        region: usize,
        batch: &mut Batch<'n, A>,
    ) -> Result<bool, AllocError>
    where
        A: Copy,
        requires { batch.old.tables ≡ J.network }
        ensures tables { batch.new.tables ≡ J.network }
        ensures claims { IfOk result (λ claimed. (claimed ≡ true)
            → ClaimsFor self.old.takers batch.new self.old.book self.new.book) }
        ensures same_book { IfOk result (λ claimed. (claimed ≡ false)
            → IsSameBook self.old.book self.new.book) }
        ensures no_memory { OnErr result (IsSameBook self.old.book self.new.book) }
        ensures same { self.new ≡ with_book self.new.book self.old }
    {
        let drains = self.drains();
        let of = self.division.processes(region);
        let network = self.book.network();
        if !are_below(network.instances(), of) {
            return Ok(false);
        }
        let most = events_per_batch(network) as usize;
        let claimed = match self.book.claim_region(of, batch, most, drains) {
            Ok(claimed) => claimed,
            Err(error) => {
                self.book.known();
                return Err(error);
            }
        };
        self.book.known();
        if claimed {
            self.division.held = self.division.held.saturating_add(1);
            self.division.next = region.wrapping_add(1);
        }
        Ok(claimed)
    }

    /// Puts the processes of a batch back that are held.
    pub(crate) fn put_back_region(&mut self, batch: &Batch<'n, A>)
        requires { batch.now.tables ≡ J.network }
        ensures back { self.new.book ≡ batch_put_back batch.now self.old.book }
        ensures same { self.new ≡ with_book self.new.book self.old }
    {
        self.book.put_back_region(batch);
        self.book.known();
    }
}
