//! A worker that holds a region: to the limit of commits, while the run is halted, and where memory runs out.
ghost use Rattle.std.specs.Prelude.{◌≡◌};
ghost use Rattle.kpn_history.specs.declared.keeping.Keeping.TheVariants.{All};

use crate::abandoning::TestGate;
use kpn_book::Keeping;
use kpn_net::Network;
use kpn_pool_desk::{Desk, Job, NextMove, RegionTurn, Why, Worker, end_seats};
use kpn_text::read_network;
use linked_list_allocator::LocalHeap;
use std::alloc::AllocError;
use std::marker::Brand;
use std::sync::ledger::Blank;
use std::test::Fail;

/// Numbers through a copy to a process that counts them and tells each thousandth: so many that the network is cut.
const LONG: &str = "process count(out o) { k = 0; while (k < 18000) { write o k; k = (k + 1); } }
process copy(in i; out o) { while 1 { read i x; write o x; } }
process tell(in i; out o) {
  while 1 { k = 0; while (k < 1000) { read i x; k = (k + 1); } write o x; }
}
network {
  channel a cap 1000; channel b cap 1000; sink z cap 10;
  count = count(; a); copy = copy(a; b); tell = tell(b; z);
}
";

/// The only worker of a run, at its desk.
#[derive(Drop)]
struct OnlyWorker<'n, 'a, J: Job> {
    desk: Desk<'n, J, &'a LocalHeap>,
    worker: Worker<'n, J>,
    region: RegionTurn<'n, J, &'a LocalHeap>,
    gate: TestGate,
    /// This many commits are allowed.
    most: u64,
}

impl<'n, 'a, J: Job> OnlyWorker<'n, 'a, J> {
    /// Of a run whose network may be cut, and whose workers take from the sinks. The error is that memory ran out.
    /// `None` if there is no worker.
    fn new(
        heap: &'a LocalHeap,
        blank: Blank,
        network: &'n Network,
        most: u64,
    ) -> Result<Option<Self>, AllocError>
        requires ledger { (blank.name ≡ J.name) × (blank.parts ≡ J.parts) }
        requires network { network.now ≡ J.network }
        requires kept { J.keeping ≡ All }
        requires one { J.parts ≡ 1 }
    {
        let (mut desk, mut seats) = Desk::with_seats(heap, blank, network, 1, Keeping::All)?;
        desk.divide(most);
        desk.let_workers_take(None);
        let Some(seat) = seats.pop() else {
            return Ok(None);
        };
        Ok(Some(OnlyWorker {
            desk,
            worker: Worker::new(seat, 1_000),
            region: RegionTurn::new(),
            gate: TestGate::open(true),
            most,
        }))
    }

    /// Makes turns until it holds a region, and returns whether it does, or why it ends before.
    fn claim_region(&mut self) -> Result<bool, Why> {
        let (desk, worker, gate) = (&mut self.desk, &mut self.worker, &self.gate);
        let region = &mut self.region;
        for _ in 0..100_000 {
            if region.is_held() {
                return Ok(false);
            }
            if region.claim(desk, gate) {
                return Ok(true);
            }
            let some = worker.turns.claim(desk);
            if !some.map_err(|_error| Why::NoMemory)? {
                return Ok(false);
            }
            worker.turns.step(gate, 0, 1_000);
            let next = worker.come_back_with_turns(desk, gate, self.most);
            if let NextMove::End(why) = next {
                return Err(why);
            }
        }
        Ok(false)
    }

    /// Runs the region that it holds, and comes back. Returns why it ends, if it does, and how many commits it made.
    fn run_region(&mut self) -> (Option<Why>, u64) {
        let (desk, worker, region) = (&mut self.desk, &mut self.worker, &mut self.region);
        if !region.is_held() {
            return (None, 0);
        }
        let before = worker.seat.commits();
        region.run(1_000);
        let why = match region.come_back(desk, &mut worker.seat, u64::MAX, self.most) {
            NextMove::End(why) => Some(why),
            _ => None,
        };
        (why, worker.seat.commits() - before)
    }

    /// Whether its seat has counted all commits of the run, and no more.
    fn refutes_counts_commits_nobody_made(&self) -> bool {
        let commits = self.worker.seat.commits();
        self.desk.reason_to_end(commits) == Some(Why::Limit)
            && self.desk.reason_to_end(commits.saturating_add(1)).is_none()
    }

    /// Whether nothing is there to take from the sink.
    fn has_nothing_there(
        &mut self,
        heap: &'a LocalHeap,
        network: &Network,
    ) -> Result<bool, AllocError> {
        let mut ends = end_seats(heap, network)?;
        let Some(mut sink) = ends.take_sink(2) else {
            return Ok(false);
        };
        Ok(sink.take_there(&mut self.desk) == Ok(None))
    }

    /// Whether it claims a region though its gate wants to be asked.
    fn claims_past_a_gate(&mut self) -> bool {
        let (desk, region) = (&mut self.desk, &mut self.region);
        !region.is_held() && region.claim(desk, &TestGate::open(false))
    }

    /// Whether no process is held, and the other workers, if there were any, would end.
    fn has_halted(&self) -> bool {
        self.desk.counts().held == 0 && self.desk.reason_to_end(self.most) == Some(Why::Halted)
    }
}

/// Whether each region makes commits, and turns lead to the limit after that.
fn comes_to_the_limit<'a, J: Job>(
    heap: &'a LocalHeap,
    blank: Blank,
    network: &Network,
) -> Result<bool, AllocError>
    requires ledger { (blank.name ≡ J.name) × (blank.parts ≡ J.parts) }
    requires network { network.now ≡ J.network }
    requires kept { J.keeping ≡ All }
    requires one { J.parts ≡ 1 }
{
    let worker: Option<OnlyWorker<'_, 'a, J>> = OnlyWorker::new(heap, blank, network, 60_000)?;
    let Some(mut worker) = worker else {
        return Ok(false);
    };
    if !worker.has_nothing_there(heap, network)? {
        return Ok(false);
    }
    for regions in 0..1_000 {
        match worker.claim_region() {
            Ok(true) => {}
            Err(Why::Limit) => {
                let is_whole = !worker.desk.goes_by_regions();
                return Ok(regions > 4 && is_whole && worker.refutes_counts_commits_nobody_made());
            }
            _ => return Ok(false),
        }
        let (why, commits) = worker.run_region();
        if why.is_some() || commits == 0 {
            return Ok(false);
        }
    }
    Ok(false)
}

/// Whether a region is committed though the run was halted meanwhile, and the worker then ends.
fn commits_though_halted<'a, J: Job>(
    heap: &'a LocalHeap,
    blank: Blank,
    network: &Network,
) -> Result<bool, AllocError>
    requires ledger { (blank.name ≡ J.name) × (blank.parts ≡ J.parts) }
    requires network { network.now ≡ J.network }
    requires kept { J.keeping ≡ All }
    requires one { J.parts ≡ 1 }
{
    let worker: Option<OnlyWorker<'_, 'a, J>> = OnlyWorker::new(heap, blank, network, u64::MAX)?;
    let Some(mut worker) = worker else {
        return Ok(false);
    };
    let is_held = worker.claim_region() == Ok(true);
    worker.desk.halt();
    let (why, commits) = worker.run_region();
    let has_ended = why == Some(Why::Halted) && worker.has_halted();
    Ok(is_held && has_ended && commits > 0 && !worker.claims_past_a_gate())
}

/// Where memory was refused.
#[derive(Clone, Copy, PartialEq)]
enum Refused {
    InTurns,
    InRegion,
}

/// Where memory is refused in a run. `None` if it is not, or if all is not as it was before that.
fn refused_in<'a, J: Job>(
    heap: &'a LocalHeap,
    blank: Blank,
    network: &Network,
) -> Result<Option<Refused>, AllocError>
    requires ledger { (blank.name ≡ J.name) × (blank.parts ≡ J.parts) }
    requires network { network.now ≡ J.network }
    requires kept { J.keeping ≡ All }
    requires one { J.parts ≡ 1 }
{
    let worker: Option<OnlyWorker<'_, 'a, J>> = OnlyWorker::new(heap, blank, network, u64::MAX)?;
    let Some(mut worker) = worker else {
        return Ok(None);
    };
    for _ in 0..1_000 {
        match worker.claim_region() {
            Ok(true) => {}
            Err(Why::NoMemory) if worker.has_halted() => return Ok(Some(Refused::InTurns)),
            _ => return Ok(None),
        }
        let (why, commits) = worker.run_region();
        if why == Some(Why::NoMemory) {
            let is_as_before = worker.has_halted() && commits == 0;
            return Ok(is_as_before.then_some(Refused::InRegion));
        }
    }
    Ok(None)
}

#[test]
fn regions_and_turns_lead_to_the_limit(rt: HostRuntime) -> Result<(), Fail> {
    let document = read_network(rt.alloc(), LONG.as_bytes())?;
    let heap = LocalHeap::new(rt.alloc(), 8_000_000)?;
    let is_so = comes_to_the_limit::<Brand>(&heap, Blank::new(1), document.network())?;
    assert!(rt; is_so);
    Ok(())
}

#[test]
fn a_region_is_committed_though_the_run_is_halted(rt: HostRuntime) -> Result<(), Fail> {
    let document = read_network(rt.alloc(), LONG.as_bytes())?;
    let heap = LocalHeap::new(rt.alloc(), 4_000_000)?;
    let is_so = commits_though_halted::<Brand>(&heap, Blank::new(1), document.network())?;
    assert!(rt; is_so);
    Ok(())
}

/// Each heap is a little greater than the one before, so that memory is refused elsewhere.
#[test]
fn a_region_without_memory_is_put_back(rt: HostRuntime) -> Result<(), Fail> {
    let document = read_network(rt.alloc(), LONG.as_bytes())?;
    let mut is_put_back = false;
    for size in [
        900_000, 970_000, 1_040_000, 1_110_000, 1_180_000, 1_250_000, 1_320_000, 1_390_000,
        1_460_000,
    ] {
        let heap = LocalHeap::new(rt.alloc(), size)?;
        let refused = refused_in::<Brand>(&heap, Blank::new(1), document.network())?;
        assert!(rt; refused.is_some(), "{size}");
        is_put_back = is_put_back || refused == Some(Refused::InRegion);
    }
    assert!(rt; is_put_back);
    Ok(())
}
