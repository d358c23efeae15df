//! The lock round a desk, and how workers wait for it to change.
ghost use Rattle.std.specs.Prelude.{◌≡◌, ◌<◌, ◌≤◌, length, IfOk, IfSome};
ghost use Rattle.std.specs.List.{sum_by};
ghost use Rattle.kpn_net.specs.Tables.{is_source, is_sink};
ghost use Rattle.kpn_pool_desk.specs.OutsideSeats.{new_ends};
ghost use Rattle.kpn_history.specs.declared.keeping.Keeping.TheVariants.{All};
ghost use Rattle.kpn_book.specs.Kept.{IsBook};
ghost use Rattle.kpn_book.specs.Remembering.{Remembers};
ghost use Rattle.kpn_book.specs.Snapshot.{ShowsARun, IsBelowKahn, IsKahnAtRest};
ghost use Rattle.kpn_pool_desk.specs.declared.crew.Awaited.TheVariants.{There, Ended};
ghost use Rattle.kpn_pool_desk.specs.Seat.{AreNewSeats};
ghost use Rattle.kpn_pool_desk.specs.Waiting.{IsMet};
ghost use Rattle.std.specs.Sync.Mutex.{mutex_guard_value};

use kpn_book::{Book, Keeping, View};
use kpn_limits::MAX_WORKERS;
use kpn_net::Network;
use kpn_pool_desk::tuning::{
    CLOCK_READS_PER_TRY, LOCK_TRIES, LOCK_TRIES_OUTSIDE, LOOK_ON_MICROSECONDS,
};
use kpn_pool_desk::{
    Awaited, Desk, EndSeats, Job, Need, Notices, SinkSeat, SourceSeat, WorkerSeat, Workers,
    end_seats,
};
use std::alloc::{AllocError, Allocator, Global};
use std::sync::ledger::Blank;
use std::sync::{Condvar, Mutex, MutexGuard, Wait};
use std::time::{Clock, Duration, Instant};

mod holds;

/// A desk under its lock.
#[derive(Drop)]
pub struct Shared<'n, J: Job, A: Allocator = Global> {
    desk: Mutex<Desk<'n, J, A>>,
    // the workers rest here
    changed: Condvar,
    // the outside sleeps here
    called: Condvar,
    max_commits: u64,
}

/// What is opened for a run: the shared desk, and a seat for each worker, each source and each sink, in order of
/// number.
#[derive(Drop)]
pub struct Opened<'n, J: Job, A: Allocator = Global> {
    pub shared: Shared<'n, J, A>,
    pub workers: Vec<WorkerSeat<J>, A>,
    pub sources: Vec<SourceSeat<A>, A>,
    pub sinks: Vec<SinkSeat<A>, A>,
}

/// The desk of a run under its lock, which is free again once the look is dropped. Meanwhile all other calls on the run
/// wait, also those of the thread that has the look.
#[derive(Drop)]
pub struct DeskLook<'l, 'n, J: Job, A: Allocator = Global> {
    desk: MutexGuard<'l, Desk<'n, J, A>>,
}

impl<'l, 'n, J: Job, A: Allocator> DeskLook<'l, 'n, J, A> {
    /// The desk as it is now. `Desk::known` says what holds of it.
    pub fn desk(&self) -> &Desk<'n, J, A> {
        &self.desk
    }
}

impl<'n, J: Job, A: Allocator + Copy> Shared<'n, J, A> {
    /// Opens a run of a network by some workers, which end once there are `max_commits` commits or up to 127 more. All
    /// that happens is kept. The error is that memory ran out.
    pub fn new(
        alloc: A,
        blank: Blank,
        network: &'n Network,
        workers: usize,
        max_commits: u64,
    ) -> Result<Opened<'n, J, A>, AllocError>
        requires ledger { (blank.name ≡ J.name) × (blank.parts ≡ J.parts) }
        requires network { network.now ≡ J.network }
        requires kept { J.keeping ≡ All }
        requires workers { (workers ≡ J.parts) × (0 < workers) × (workers ≤ MAX_WORKERS) }
        ensures workers { IfOk result (λ opened. AreNewSeats workers opened.workers.items) }
        ensures sources { IfOk result (λ opened.
            opened.sources.items ≡ new_ends is_source network.now) }
        ensures sinks { IfOk result (λ opened.
            opened.sinks.items ≡ new_ends is_sink network.now) }
    {
        Shared::keeping(alloc, blank, network, workers, max_commits, Keeping::All)
    }

    /// The same run, which keeps what it is told to keep of what will happen.
    pub fn keeping(
        alloc: A,
        blank: Blank,
        network: &'n Network,
        workers: usize,
        max_commits: u64,
        keeping: Keeping,
    ) -> Result<Opened<'n, J, A>, AllocError>
        requires ledger { (blank.name ≡ J.name) × (blank.parts ≡ J.parts) }
        requires network { network.now ≡ J.network }
        requires kept { keeping ≡ J.keeping }
        requires workers { (workers ≡ J.parts) × (0 < workers) × (workers ≤ MAX_WORKERS) }
        ensures workers { IfOk result (λ opened. AreNewSeats workers opened.workers.items) }
        ensures sources { IfOk result (λ opened.
            opened.sources.items ≡ new_ends is_source network.now) }
        ensures sinks { IfOk result (λ opened.
            opened.sinks.items ≡ new_ends is_sink network.now) }
    {
        let EndSeats { sources, sinks } = end_seats(alloc, network)?;
        let (mut desk, workers) = Desk::with_seats(alloc, blank, network, workers, keeping)?;
        desk.divide(max_commits);
        Ok(Opened {
            shared: Shared {
                desk: Mutex::new(desk),
                changed: Condvar::new(),
                called: Condvar::new(),
                max_commits,
            },
            workers,
            sources,
            sinks,
        })
    }
}

impl<'n, J: Job, A: Allocator> Shared<'n, J, A> {
    /// The workers end.
    pub fn halt<R: Wait>(&self, rt: &R) {
        self.lock(rt).halt();
        self.changed.notify_all();
    }

    /// There are this many processors for the workers.
    pub(crate) fn run_on<R: Wait>(&self, rt: &R, processors: usize) {
        self.lock(rt).run_on(processors);
    }

    /// From now on workers that run regions take what comes to the sinks, as `Desk::let_workers_take` says.
    pub(crate) fn let_workers_take<R: Wait>(&self, rt: &R, wanted: Option<u64>) {
        self.lock(rt).let_workers_take(wanted);
    }

    /// A look at the desk, once nobody else has it.
    pub fn look<R: Wait>(&self, rt: &R) -> DeskLook<'_, 'n, J, A> {
        DeskLook {
            desk: self.lock(rt),
        }
    }

    /// The run as it is seen at one moment, or `None` if the lock is taken: a legal history, of the network that was
    /// handed to `new`, that owes no growth agrees with it; each journal is a prefix of the least solution for what was
    /// fed, and is that solution if each process has ended or waits on an empty channel. The error is that memory
    /// ran out, or that the run does not keep all journals.
    pub fn try_snapshot<B: Allocator + Copy>(&self, alloc: B) -> Result<Option<View<B>>, AllocError>
        ensures run { IfOk result (λ found. IfSome found (λ view. ShowsARun J.network view)) }
        ensures below { IfOk result (λ found.
            IfSome found (λ view. IsBelowKahn J.network view)) }
        ensures quiet { IfOk result (λ found.
            IfSome found (λ view. IsKahnAtRest J.network view)) }
    {
        let Some(desk) = self.try_lock(LOCK_TRIES_OUTSIDE) else {
            return Ok(None);
        };
        let Ok(view) = desk.snapshot(alloc) else {
            return Err(AllocError);
        };
        Ok(Some(view))
    }

    /// The desk, once nobody else has it, for a call of the outside.
    pub(crate) fn lock<R: Wait>(&self, rt: &R) -> MutexGuard<'_, Desk<'n, J, A>> {
        self.lock_after(rt, LOCK_TRIES_OUTSIDE)
    }

    /// The desk, once nobody else has it. Others have it often and for a short time, so this tries `tries` times before
    /// it sleeps.
    fn lock_after<R: Wait>(&self, rt: &R, tries: u32) -> MutexGuard<'_, Desk<'n, J, A>> {
        match self.try_lock(tries) {
            Some(desk) => desk,
            None => self.desk.lock(rt),
        }
    }

    /// The desk, if nobody else has it at one of this many tries.
    fn try_lock(&self, tries: u32) -> Option<MutexGuard<'_, Desk<'n, J, A>>> {
        for _ in 0..tries {
            if let Some(desk) = self.desk.try_lock() {
                return Some(desk);
            }
        }
        None
    }

    /// The desk, once there is something to do there or the moment is over: to take from these sinks, or, if there are
    /// none, for a worker.
    fn lock_in_moment<B: Allocator, R: Wait + Clock>(
        &self,
        rt: &R,
        seats: Option<&[SinkSeat<B>]>,
        moment: Duration,
    ) -> MutexGuard<'_, Desk<'n, J, A>> {
        let Ok(begun) = Instant::now(rt) else {
            return self.lock_after(rt, LOCK_TRIES);
        };
        let mut looks: u32 = 0;
        for _ in rt.forever() {
            if begun.elapsed(rt).unwrap_or(Duration::MAX) > moment {
                return self.lock_after(rt, LOCK_TRIES);
            }
            looks = looks.wrapping_add(1);
            if looks % CLOCK_READS_PER_TRY > 0 {
                continue;
            }
            if let Some(desk) = self.desk.try_lock() {
                if desk.has_work(seats, self.max_commits) {
                    return desk;
                }
            }
        }
        unreachable!()
    }

    /// The desk, once it is time to take from one of these sinks, or all workers have ended. While somebody is busy
    /// this takes no longer than some milliseconds.
    pub(crate) fn lock_when_due<B: Allocator, R: Wait + Clock>(
        &self,
        rt: &R,
        seats: &[SinkSeat<B>],
    ) -> MutexGuard<'_, Desk<'n, J, A>> {
        let moment = Duration::from_micros(LOOK_ON_MICROSECONDS);
        let mut desk = self.lock_in_moment(rt, Some(seats), moment);
        if let Some(most) = desk.await_due(seats) {
            desk = self.called.wait_timeout(rt, desk, most).0;
        }
        desk
    }

    /// The desk, once a call that needs this does not have to wait any more, and what the wait came to. A worker that
    /// puts into a sink, makes room at a source or ends wakes all that sleep here.
    pub(crate) fn lock_when<R: Wait + Clock>(
        &self,
        rt: &R,
        need: Need,
    ) -> (MutexGuard<'_, Desk<'n, J, A>>, Awaited)
        ensures there { (result.1 ≡ There)
            → IsMet J.network need (mutex_guard_value result.0).book }
        ensures ended { (result.1 ≡ Ended) → (mutex_guard_value result.0).working ≡ 0 }
    {
        let mut desk = self.lock(rt);
        for _ in rt.forever() {
            match desk.await_need(need) {
                Ok(awaited) => return (desk, awaited),
                Err(most) => desk = self.called.wait_timeout(rt, desk, most).0,
            }
        }
        unreachable!()
    }

    /// Lets the desk go after a call of the outside.
    pub(crate) fn tell<'l>(&'l self, desk: MutexGuard<'l, Desk<'n, J, A>>) {
        let mut desk = desk;
        let notices = desk.tell();
        self.let_go(desk, notices);
    }

    /// Lets the desk go, and notifies once the lock is free.
    fn let_go<'l>(&'l self, desk: MutexGuard<'l, Desk<'n, J, A>>, notices: Notices) {
        drop(desk);
        match notices.workers {
            Workers::Nobody => {}
            Workers::One => self.changed.notify_one(),
            Workers::All => self.changed.notify_all(),
        }
        if notices.outside {
            self.called.notify_all();
        }
    }
}

/// The book of a run, for the seats of all its workers: its commits are the sum of theirs.
pub fn gather<'n, J: Job, A: Allocator>(
    shared: Shared<'n, J, A>,
    workers: Vec<WorkerSeat<J>, A>,
) -> Book<'n, A>
    requires { (length workers.items ≡ J.parts) × (0 < J.parts) }
    ensures network { result.tables ≡ J.network }
    ensures kept { Remembers J.keeping result }
    ensures book { IsBook result }
    ensures commits { result.commits ≡ sum_by (λ seat. seat.commits) workers.items }
{
    let Shared { desk, .. } = shared;
    desk.into_inner().into_book(workers)
}
