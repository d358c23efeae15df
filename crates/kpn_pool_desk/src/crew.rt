//! Which workers step processes, which look on and which rest: the whole policy of a run.
//!
//! | A worker | since | until |
//! |---|---|---|
//! | is busy: it has the lock, steps or stands at the gate | it joined | it comes back and may not join again |
//! | looks on | it came back or was notified, and might not join | it may join, or the time to look on is over |
//! | rests | it has looked on | it is notified, or its time is over |
//! | has ended | it found a reason to end | |
//!
//! A worker that joins claims its part of the processes that are ready, by the number of workers and rounded up, but no
//! more than eight: so others find some too. A process of such a batch waits for the turns of those before it.
//!
//! A worker joins if there is something to claim and fewer workers are busy than there are processors. It joins in any
//! case if it has rested in vain: nobody has committed since it left the lock, so the gate or long turns hold those that
//! are busy. If it has looked on in vain, it joins if there is a processor for it. Where there are regions, workers claim
//! these in place of processes (`division.rt`).
//!
//! **No notification is lost.** A worker is counted as one that rests, or as one that was notified, under the lock. A
//! `Condvar` that is notified once the lock is free wakes a worker that began to rest before that. So each one that is
//! counted as notified comes.
//!
//! **No process that is ready waits for longer than a short rest**, unless all workers are busy, or its region is held or
//! waits for its place in the rotation. It becomes ready in one of these ways:
//! - By a commit, or by a worker that puts it back and ends. If this worker leaves it ready, by a claim of another one
//!   or by its end, it notifies somebody, unless somebody looks on, was notified or keeps watch. If this worker may not
//!   join, it looks on itself, and rests after that as the one that keeps watch if nobody else does.
//! - By a call of the outside. That notifies somebody, unless somebody looks on or was notified.
//! - At the start, when each worker comes by itself.
//!
//! The worker that keeps watch rests for a short time. Then the others have committed, and so are there to take the
//! process up, or this one has waited in vain and joins, and by its claim sees to the next process.
ghost use Rattle.std.specs.Prelude.{◌≡◌, ◌<◌, ◌-◌, true, max};
ghost use Rattle.kpn_pool_desk.specs.Desk.{share_of};

use crate::tuning::{REST_MILLISECONDS, TURNS_PER_BATCH, WATCH_MILLISECONDS};
use std::mem;
use std::time::Duration;

/// What somebody outside waits for.
#[derive(Clone, Copy)]
pub enum Need {
    /// A sink has an item.
    Item { sink: usize },
    /// A source has fewer unread items than the bound, or its reader has ended.
    Room { source: usize, bound: usize },
}

/// What a wait of the outside came to.
#[derive(Clone, Copy, Debug, PartialEq, Eq)]
pub enum Awaited {
    /// There was something to take. More may come.
    There,
    /// All workers have ended. What they left was taken, and no more comes.
    Ended,
}

/// How many workers there are of each kind, and whether somebody outside waits.
#[derive(Clone, Copy, Default)]
pub(crate) struct Crew {
    // those that have not ended
    working: usize,
    // no more of them are busy, but for those that have rested in vain: there are this many processors
    most: usize,
    busy: usize,
    looking: usize,
    resting: usize,
    // of those that rest, this many were notified and have not come yet
    notified: usize,
    // one of those that rest keeps watch
    is_watched: bool,
    // this many were left to claim when somebody last claimed or the outside last called
    left: usize,
    // somebody outside sleeps until the outside is called
    is_awaited: bool,
    // somebody of those sleeps until a sink has an item
    awaits_item: bool,
    // somebody of those sleeps until a source has room
    awaits_room: bool,
    // the next one that lets the lock go is to call the outside
    owes_call: bool,
}

/// How many processes one of `workers` claims if `ready` are ready: its part of them, but no more than a batch.
pub(crate) fn share(workers: usize, ready: usize) -> usize
    ensures { result ≡ share_of (max workers 1) ready }
{
    ready.div_ceil(workers.max(1)).min(TURNS_PER_BATCH)
}

impl Crew {
    /// This many workers, none of which has come yet.
    pub(crate) fn new(workers: usize) -> Crew
        ensures { result.working ≡ workers }
    {
        Crew {
            working: workers,
            most: workers,
            ..Crew::default()
        }
    }

    /// Whether nobody is busy.
    pub(crate) fn is_idle(&self) -> bool {
        self.busy == 0
    }

    /// Whether all workers have ended.
    pub(crate) fn has_ended(&self) -> bool
        ensures { (result ≡ true) → self.now.working ≡ 0 }
    {
        self.working == 0
    }

    /// Whether a worker may join if there are this many to claim. One that has waited in vain may.
    pub(crate) fn has_place(&self, claimable: usize, in_vain: bool) -> bool {
        claimable > 0 && (in_vain || self.has_processor())
    }

    /// There are this many processors.
    pub(crate) fn run_on(&mut self, processors: usize)
        ensures { self.new.working ≡ self.old.working }
    {
        self.most = processors.clamp(1, self.working.max(1));
    }

    /// How many workers may be busy at once.
    pub(crate) fn most(&self) -> usize {
        self.most
    }

    /// Whether there is a processor for one more.
    pub(crate) fn has_processor(&self) -> bool {
        self.busy < self.most
    }

    /// A worker is busy from now on.
    pub(crate) fn join(&mut self)
        ensures { self.new.working ≡ self.old.working }
    {
        self.busy = self.busy.saturating_add(1);
    }

    /// A worker is back from this many turns; from none if it comes for the first time.
    pub(crate) fn come_back(&mut self, turns: usize)
        ensures { self.new.working ≡ self.old.working }
    {
        if turns > 0 {
            self.busy = self.busy.saturating_sub(1);
        }
    }

    /// A worker looks on from now on. If nobody is busy, the outside is called, since the worker hopes for its call.
    pub(crate) fn look_on(&mut self)
        ensures { self.new.working ≡ self.old.working }
    {
        self.looking = self.looking.saturating_add(1);
        if self.is_idle() {
            self.owes_call = true;
        }
    }

    /// A worker has looked on.
    pub(crate) fn look_away(&mut self)
        ensures { self.new.working ≡ self.old.working }
    {
        self.looking = self.looking.saturating_sub(1);
    }

    /// A worker rests from now on, and the outside is called: this may be the last one that is not held. Returns
    /// whether it keeps watch, which one of them does while somebody is busy.
    pub(crate) fn rest(&mut self) -> bool
        ensures { self.new.working ≡ self.old.working }
    {
        self.resting = self.resting.saturating_add(1);
        self.owes_call = true;
        self.busy > 0 && !mem::replace(&mut self.is_watched, true)
    }

    /// For how long a worker rests that keeps watch, or does not.
    pub(crate) fn rest_of(keeps_watch: bool) -> Duration {
        Duration::from_millis(if keeps_watch {
            WATCH_MILLISECONDS
        } else {
            REST_MILLISECONDS
        })
    }

    /// A worker has rested.
    pub(crate) fn rise(&mut self, keeps_watch: bool)
        ensures { self.new.working ≡ self.old.working }
    {
        self.resting = self.resting.saturating_sub(1);
        self.notified = self.notified.saturating_sub(1);
        if keeps_watch {
            self.is_watched = false;
        }
    }

    /// A worker has ended, and the outside is called.
    pub(crate) fn end(&mut self)
        ensures { self.new.working ≡ self.old.working - 1 }
    {
        self.working = self.working.saturating_sub(1);
        self.owes_call = true;
    }

    /// A worker claims or ends, or a call of the outside was made, and this many are left to claim. Returns whether one
    /// of those that rest is to be notified, and counts it.
    pub(crate) fn notify(&mut self, claimable: usize, is_call: bool) -> bool
        ensures { self.new.working ≡ self.old.working }
    {
        let are_more = claimable > mem::replace(&mut self.left, claimable);
        let coming = self.looking.saturating_add(self.notified);
        let awake = self.busy.saturating_add(coming);
        let has_place = awake < self.most.min(self.busy.saturating_add(claimable));
        let is_alone = claimable > 0 && coming == 0 && (is_call && are_more || !self.is_watched);
        let is_wanted = self.resting > self.notified && (has_place || is_alone);
        if is_wanted {
            self.notified = self.notified.saturating_add(1);
        }
        is_wanted
    }

    /// Somebody outside sleeps from now on, until the outside is called or this time is over.
    pub(crate) fn await_call(&mut self) -> Duration
        ensures { self.new.working ≡ self.old.working }
    {
        self.is_awaited = true;
        Crew::rest_of(!self.is_idle())
    }

    /// Somebody outside sleeps from now on, until the outside is called or this time is over, and needs this.
    pub(crate) fn await_need(&mut self, need: Need) -> Duration
        ensures { self.new.working ≡ self.old.working }
    {
        self.is_awaited = true;
        match need {
            Need::Item { .. } => self.awaits_item = true,
            Need::Room { .. } => self.awaits_room = true,
        }
        Duration::from_millis(REST_MILLISECONDS)
    }

    /// Whether somebody outside sleeps until a sink has an item.
    pub(crate) fn awaits_item(&self) -> bool {
        self.awaits_item
    }

    /// Whether somebody outside sleeps until a source has room.
    pub(crate) fn awaits_room(&self) -> bool {
        self.awaits_room
    }

    /// There is something for the outside: the next one that lets the lock go is to call it.
    pub(crate) fn owe_call(&mut self)
        ensures { self.new.working ≡ self.old.working }
    {
        self.owes_call = true;
    }

    /// Whether the outside is to be called once the lock is let go.
    pub(crate) fn is_to_call(&self) -> bool {
        self.owes_call && self.is_awaited
    }

    /// The lock is let go. Returns whether the outside is to be called: there is something for it, and somebody sleeps
    /// there. All that sleep there then wake, so nobody is awaited any more.
    pub(crate) fn call(&mut self) -> bool
        ensures { self.new.working ≡ self.old.working }
    {
        let calls = self.is_to_call();
        self.owes_call = false;
        if calls {
            self.is_awaited = false;
            self.awaits_item = false;
            self.awaits_room = false;
        }
        calls
    }
}
