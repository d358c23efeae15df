//! The holds of a worker: each time it has the lock it commits what it has stepped, and claims the next processes or
//! waits. It notifies others once the lock is free.
ghost use Rattle.std.specs.Prelude.{◌≡◌, ◌+◌, ◌<◌, ◌≤◌, false, IfNone, IsSome, None};
ghost use Rattle.kpn_pool_desk.specs.Gate.{LetsAll};
ghost use Rattle.kpn_pool_desk.specs.Seat.{ended};

use super::Shared;
use kpn_pool_desk::tuning::{
    LOCK_TRIES, LOCK_TRIES_OUTSIDE, LOOK_ON_MICROSECONDS, LOOK_ON_REGIONS_MICROSECONDS,
};
use kpn_pool_desk::{Desk, Gate, Job, NextMove, RegionTurn, Stay, Why, Worker, WorkerSeat};
use std::alloc::{Allocator, Global};
use std::sync::{MutexGuard, Wait};
use std::time::{Clock, Duration};

impl<'n, J: Job, A: Allocator> Shared<'n, J, A> {
    /// Commits what a worker has in hand, its turns or the region that it holds. Then it claims the next region or the
    /// next processes. Returns whether there are such: if not, the worker ends.
    pub(crate) fn go_on<G: Gate, R: Wait + Clock>(
        &self,
        rt: &R,
        gate: &G,
        worker: &mut Worker<'n, J>,
        region: &mut RegionTurn<'n, J, A>,
    ) -> bool
    where
        A: Copy,
        requires { IsSome region.old → LetsAll (G.may_answer gate.now) }
        ensures number { worker.new.seat.number ≡ worker.old.seat.number }
        ensures commits { worker.old.seat.commits ≤ worker.new.seat.commits }
        ensures ended { (result ≡ false) → IsSome worker.new.seat.why }
        // what the gate was not asked for is claimed and committed only if it lets everything through
        ensures region { IsSome region.new → LetsAll (G.may_answer gate.now) }
        ensures asked { worker.old.seat.commits + worker.old.turns.passed < worker.new.seat.commits
            → LetsAll (G.may_answer gate.now) }
    {
        // others may have the lock for as long as a region takes to be committed
        let tries = if region.is_held() {
            LOCK_TRIES_OUTSIDE
        } else {
            LOCK_TRIES
        };
        let mut desk = self.lock_after(rt, tries);
        let next = worker.come_back(&mut desk, gate, region, self.max_commits);
        let Some(mut desk) = self.wait_for_work(rt, &mut worker.seat, desk, next) else {
            return false;
        };
        if let Some(why) = worker.claim(&mut desk, gate, region) {
            self.end(desk, &mut worker.seat, why);
            return false;
        }
        let notices = desk.join();
        self.let_go(desk, notices);
        true
    }

    /// Does what a worker does next until it is to claim processes. `None` if there is a reason to end before that.
    fn wait_for_work<'l, R: Wait + Clock>(
        &'l self,
        rt: &R,
        seat: &mut WorkerSeat<J>,
        desk: MutexGuard<'l, Desk<'n, J, A>>,
        next: NextMove,
    ) -> Option<MutexGuard<'l, Desk<'n, J, A>>>
        ensures number { seat.new.number ≡ seat.old.number }
        ensures commits { seat.new.commits ≡ seat.old.commits }
        ensures ended { IfNone result (IsSome seat.new.why) }
    {
        let mut desk = desk;
        let mut next = next;
        for _ in rt.forever() {
            (desk, next) = match next {
                NextMove::End(why) => {
                    self.end(desk, seat, why);
                    return None;
                }
                NextMove::Claim => return Some(desk),
                NextMove::LookOn(stay) => self.look_on(rt, desk, stay),
                NextMove::Rest(stay, most) => self.rest(rt, desk, stay, most),
            };
        }
        unreachable!()
    }

    /// A worker looks on until there is a place for it or a reason to end, or the moment is over. Returns what it does
    /// then.
    fn look_on<'l, R: Wait + Clock>(
        &'l self,
        rt: &R,
        desk: MutexGuard<'l, Desk<'n, J, A>>,
        stay: Stay,
    ) -> (MutexGuard<'l, Desk<'n, J, A>>, NextMove) {
        let moment = if desk.goes_by_regions() {
            LOOK_ON_REGIONS_MICROSECONDS
        } else {
            LOOK_ON_MICROSECONDS
        };
        drop(desk);
        if stay.calls {
            self.called.notify_all();
        }
        let mut desk = self.lock_in_moment::<Global, R>(rt, None, Duration::from_micros(moment));
        let next = desk.look_away(stay, self.max_commits);
        (desk, next)
    }

    /// A worker rests until it is notified or the time is over. Returns what it does then.
    fn rest<'l, R: Wait + Clock>(
        &'l self,
        rt: &R,
        desk: MutexGuard<'l, Desk<'n, J, A>>,
        stay: Stay,
        most: Duration,
    ) -> (MutexGuard<'l, Desk<'n, J, A>>, NextMove) {
        if stay.calls {
            self.called.notify_all();
        }
        let (mut desk, waited) = self.changed.wait_timeout(rt, desk, most);
        let next = desk.rise(stay, !waited.timed_out(), self.max_commits);
        (desk, next)
    }

    /// A worker ends, and lets the desk go.
    fn end<'l>(&'l self, desk: MutexGuard<'l, Desk<'n, J, A>>, seat: &mut WorkerSeat<J>, why: Why)
        ensures { seat.new ≡ ended why seat.old }
    {
        let mut desk = desk;
        let notices = seat.end(&mut desk, why);
        self.let_go(desk, notices);
    }
}
