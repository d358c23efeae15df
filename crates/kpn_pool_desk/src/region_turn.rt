//! What a worker does with a region between two holds of the lock: its claim, its run, and its commit.
ghost use Rattle.std.specs.Prelude.{◌≡◌, ◌≤◌, true, false, Some, None, IsSome, IfOk, OnErr, IsTrue, ◌↔◌};
ghost use Rattle.kpn_book.specs.RegionClaims.{IsSameBook};
ghost use Rattle.kpn_pool_desk.specs.Gate.{LetsAll};
ghost use Rattle.kpn_pool_desk.specs.Desk.{with_book};
ghost use Rattle.kpn_pool_desk.specs.RegionTurn.{ClaimsOne, Runs, SettlesRegion, ComesBackFromRegion};

use crate::desk::Desk;
use crate::division::events_per_batch;
use crate::gate::Gate;
use crate::job::Job;
use crate::phases::NextMove;
use crate::seat::{Why, WorkerSeat};
use crate::tuning::{CLAIMS_OF_ONE_REGION, STEPS_PER_SHORT_TURN};
use kpn_book::Refused;
use kpn_net::Network;
use kpn_region::Batch;
use std::alloc::{AllocError, Allocator, Global};
use std::marker::{Model, PhantomData};

/// The region that a worker has in hand, if one is held. The memory is kept for those that follow.
#[derive(Drop)]
pub struct RegionTurn<'n, J: Job, A: Allocator = Global> {
    // in a box, since a batch has many lists, each with its allocator
    batch: Option<Box<Batch<'n, A>, A>>,
    // the last one that was claimed, and how many times in a row
    region: usize,
    times: u32,
    is_held: bool,
    run: PhantomData<J>,
}

impl<'n, J: Job, A: Allocator> Model for RegionTurn<'n, J, A> {
    ghost use Rattle.std.specs.Prelude.{◌≡◌, Option, IfSome};
    ghost use Rattle.std.specs.Coded.{codes};
    ghost use Rattle.kpn_lang.specs.Codes.{parts_code};
    ghost use Rattle.kpn_step.specs.Frame.{frame_code};
    ghost use Rattle.kpn_region.specs.Batch.{Batch};
    ghost use Rattle.std.specs.Option.{option_map};
    ghost use Rattle.kpn_pool_desk.specs.RegionTurn.{held_of};

    ghost Value = { Option Batch };

    ghost coded = { Prim.hlevel (codes, parts_code, frame_code) };

    ghost view = { λ r. held_of r.is_held (option_map (λ b. b.value) r.batch) };

    ghost invariant = { λ r. IfSome r.batch (λ b. b.value.tables ≡ J.network) };
}

impl<'n, J: Job, A: Allocator> RegionTurn<'n, J, A> {
    /// No region is held.
    pub fn new() -> Self
        ensures { result ≡ None }
    {
        RegionTurn {
            batch: None,
            region: usize::MAX,
            times: 0,
            is_held: false,
            run: PhantomData,
        }
    }

    /// Whether a region is held.
    pub fn is_held(&self) -> bool
        ensures is { IsTrue result ↔ IsSome self.now }
        ensures none { (result ≡ false) → self.now ≡ None }
    {
        self.is_held && self.batch.is_some()
    }

    /// Claims a region, if the gate lets everything through and there is one to claim. Returns whether there is. If
    /// memory runs out, the network is no longer divided; what channels have reserved stays.
    pub fn claim<G: Gate>(&mut self, desk: &mut Desk<'n, J, A>, gate: &G) -> bool
    where
        A: Copy,
        requires { self.old ≡ None }
        ensures claims { (result ≡ true)
            → ClaimsOne desk.old.takers self.new desk.old.book desk.new.book }
        ensures gate { (result ≡ true) → LetsAll (G.may_answer gate.now) }
        ensures none { (result ≡ false) → self.new ≡ None }
        ensures same_book { (result ≡ false) → IsSameBook desk.old.book desk.new.book }
        ensures same { desk.new ≡ with_book desk.new.book desk.old }
    {
        self.is_held = false;
        if !gate.lets_all() {
            desk.division.stop();
            return false;
        }
        let last = (self.times < CLAIMS_OF_ONE_REGION).then_some(self.region);
        let Some(region) = desk.next_region(last) else {
            return false;
        };
        self.times = if region == self.region {
            self.times.saturating_add(1)
        } else {
            0
        };
        self.region = region;
        match self.claim_this(desk, region) {
            Ok(claimed) => claimed,
            Err(_error) => {
                desk.division.stop();
                self.batch = None;
                false
            }
        }
    }

    /// Claims this region. Returns whether it could. The error is that memory ran out.
    fn claim_this(&mut self, desk: &mut Desk<'n, J, A>, region: usize) -> Result<bool, AllocError>
    where
        A: Copy,
        ensures claims { IfOk result (λ claimed. (claimed ≡ true)
            → ClaimsOne desk.old.takers self.new desk.old.book desk.new.book) }
        ensures none { IfOk result (λ claimed. (claimed ≡ false) → self.new ≡ None) }
        ensures no_memory { OnErr result (self.new ≡ None) }
        ensures same_book { IfOk result (λ claimed. (claimed ≡ false)
            → IsSameBook desk.old.book desk.new.book) }
        ensures same_on_error { OnErr result (IsSameBook desk.old.book desk.new.book) }
        ensures same { desk.new ≡ with_book desk.new.book desk.old }
    {
        self.is_held = false;
        desk.known();
        let mut batch = match self.batch.take() {
            Some(batch) => batch,
            None => boxed(desk.division.alloc, desk.book.network())?,
        };
        let claimed = desk.claim_region(region, &mut batch);
        self.is_held = matches!(claimed, Ok(true));
        self.batch = Some(batch);
        claimed
    }

    /// Runs the region by itself. Where memory runs out, the batch ends, and what it has made stands.
    pub fn run(&mut self, quota: u32)
        ensures { Runs self.old self.new }
    {
        if let Some(batch) = &mut self.batch {
            let most = events_per_batch(batch.network());
            let _ = batch.run(quota.min(STEPS_PER_SHORT_TURN), most);
        }
    }

    /// A worker is back from this region, which it claimed after this many commits. It commits what the region has
    /// done, and takes from the sinks, if the workers take. Returns what it does next, if `most` commits are allowed.
    pub fn come_back(
        &mut self,
        desk: &mut Desk<'n, J, A>,
        seat: &mut WorkerSeat<J>,
        commits: u64,
        most: u64,
    ) -> NextMove
    where
        A: Copy,
        requires { IsSome self.old }
        ensures none { self.new ≡ None }
        ensures number { seat.new.number ≡ seat.old.number }
        ensures commits { seat.old.commits ≤ seat.new.commits }
        ensures does { ComesBackFromRegion most self.old result desk.old desk.new }
    {
        let is_alone = desk.book.commits() == commits;
        let before = seat.commits();
        desk.crew.come_back(1);
        desk.division.release();
        let why = self.settle(desk, seat);
        self.is_held = false;
        if seat.commits() == before {
            desk.division.rest(desk.book.commits());
        }
        if let Some(why) = why {
            return NextMove::End(why);
        }
        desk.cut();
        desk.take_from_sinks();
        desk.note_sinks();
        desk.next(most, is_alone, true)
    }

    /// Commits the batch, or puts the processes back if it is refused. Returns why the worker ends, if it does: memory
    /// ran out, and then all workers have to end.
    fn settle(&self, desk: &mut Desk<'n, J, A>, seat: &mut WorkerSeat<J>) -> Option<Why>
    where
        A: Copy,
        requires { IsSome self.now }
        ensures settles { SettlesRegion self.now result desk.old desk.new }
        ensures number { seat.new.number ≡ seat.old.number }
        ensures counted { seat.old.commits ≤ seat.new.commits }
    {
        let Some(batch) = &self.batch else {
            return None;
        };
        let has_memory = match seat.commit_region(desk, batch) {
            Ok(memory) => memory,
            Err(cause) => {
                desk.put_back_region(batch);
                !matches!(cause, Refused::NoMemory)
            }
        };
        if has_memory {
            return None;
        }
        desk.halt();
        Some(Why::NoMemory)
    }
}

/// A batch of a region without processes, in a box. The error is that memory ran out.
fn boxed<'n, A: Allocator + Copy>(
    alloc: A,
    network: &'n Network,
) -> Result<Box<Batch<'n, A>, A>, AllocError>
    ensures { IfOk result (λ batch. batch.value.tables ≡ network.now) }
{
    match Box::new(alloc, Batch::new(alloc, network)?) {
        Ok(batch) => Ok(batch),
        Err(_failed) => Err(AllocError),
    }
}
