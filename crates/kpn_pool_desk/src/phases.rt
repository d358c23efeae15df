//! What is done to a desk in one hold of the lock, beside its book: which workers look on, rest or step from then on,
//! and whom to notify once the lock is free.
ghost use Rattle.std.specs.Prelude.{◌≡◌, IfOk};
ghost use Rattle.kpn_pool_desk.specs.declared.crew.Awaited.TheVariants.{There, Ended};
ghost use Rattle.kpn_pool_desk.specs.Desk.{EndsFor};
ghost use Rattle.kpn_pool_desk.specs.Waiting.{IsMet};

use crate::crew::{Awaited, Crew, Need};
use crate::desk::Desk;
use crate::job::Job;
use crate::outside_seats::SinkSeat;
use crate::seat::Why;
use std::alloc::Allocator;
use std::time::Duration;

/// Which of the workers that rest are notified.
#[derive(Clone, Copy)]
pub enum Workers {
    Nobody,
    One,
    All,
}

/// Who is notified once the lock is free.
#[derive(Clone, Copy)]
pub struct Notices {
    pub workers: Workers,
    /// Whether all that sleep outside are.
    pub outside: bool,
}

/// A wait of a worker.
#[derive(Clone, Copy)]
pub struct Stay {
    // how many commits there were when it began
    commits: u64,
    keeps_watch: bool,
    /// Whether the outside is called as it begins.
    pub calls: bool,
}

/// What a worker that has the lock does next.
#[derive(Clone, Copy)]
pub enum NextMove {
    /// It ends, for this reason.
    End(Why),
    /// It claims processes.
    Claim,
    /// It lets the lock go and looks on.
    LookOn(Stay),
    /// It rests until it is notified or this time is over.
    Rest(Stay, Duration),
}

impl<'n, J: Job, A: Allocator> Desk<'n, J, A> {
    /// What a worker does next, if `most` commits are allowed: it ends if there is a reason; else it claims if there is
    /// a place for it; else it waits. `in_vain` says that nobody has committed since it let the lock go, and `looks_on`
    /// that it looks on before it rests.
    pub(crate) fn next(&mut self, most: u64, in_vain: bool, looks_on: bool) -> NextMove
        ensures same { self.new ≡ self.old }
        ensures ends { EndsFor self.old most result }
    {
        if let Some(why) = self.reason_to_end(most) {
            return NextMove::End(why);
        }
        if self.crew.has_place(self.claimable(in_vain), in_vain) {
            return NextMove::Claim;
        }
        let commits = self.book.commits();
        if looks_on {
            self.crew.look_on();
            return NextMove::LookOn(Stay {
                commits,
                keeps_watch: false,
                calls: self.crew.call(),
            });
        }
        let keeps_watch = self.crew.rest();
        let stay = Stay {
            commits,
            keeps_watch,
            calls: self.crew.call(),
        };
        NextMove::Rest(stay, Crew::rest_of(keeps_watch))
    }

    /// A worker has looked on. Returns what it does next, if `most` commits are allowed.
    pub fn look_away(&mut self, stay: Stay, most: u64) -> NextMove
        ensures same { self.new ≡ self.old }
        ensures ends { EndsFor self.old most result }
    {
        self.crew.look_away();
        // those that are busy may have lost their processors to others
        let in_vain = self.crew.has_processor() && self.book.commits() == stay.commits;
        self.next(most, in_vain, false)
    }

    /// A worker has rested. Returns what it does next, if `most` commits are allowed.
    pub fn rise(&mut self, stay: Stay, is_notified: bool, most: u64) -> NextMove
        ensures same { self.new ≡ self.old }
        ensures ends { EndsFor self.old most result }
    {
        self.crew.rise(stay.keeps_watch);
        let in_vain = !is_notified && self.book.commits() == stay.commits;
        self.next(most, in_vain, is_notified)
    }

    /// A worker steps what it has claimed from now on. A worker is notified if one is wanted beside this one, and the
    /// outside if a sink is to be taken from. Returns this.
    pub fn join(&mut self) -> Notices
        ensures { self.new ≡ self.old }
    {
        let claimable = self.claimable(false);
        self.crew.join();
        let workers = if self.crew.notify(claimable, false) {
            Workers::One
        } else {
            Workers::Nobody
        };
        Notices {
            workers,
            outside: self.crew.call(),
        }
    }

    /// A call of the outside was made. A worker is notified if the call has made a process ready, and all if the run is
    /// settled.
    pub fn tell(&mut self) -> Notices
        ensures { self.new ≡ self.old }
    {
        let claimable = self.claimable(false);
        let notifies = self.crew.notify(claimable, true);
        let workers = if self.book.verdict().is_some() {
            Workers::All
        } else if notifies {
            Workers::One
        } else {
            Workers::Nobody
        };
        Notices {
            workers,
            outside: false,
        }
    }

    /// Whether there is something to do: to take from one of these sinks, or, if there are none, for a worker, if
    /// `most` commits are allowed.
    pub fn has_work<B: Allocator>(&self, seats: Option<&[SinkSeat<B>]>, most: u64) -> bool {
        match seats {
            Some(seats) => self.are_due(seats),
            None => {
                self.crew.has_place(self.claimable(false), false)
                    || self.reason_to_end(most).is_some()
            }
        }
    }

    /// For how long the outside sleeps, until it is called, or `None` if it is time to take from one of these sinks.
    pub fn await_due<B: Allocator>(&mut self, seats: &[SinkSeat<B>]) -> Option<Duration>
        ensures { self.new ≡ self.old }
    {
        if self.are_due(seats) {
            return None;
        }
        Some(self.crew.await_call())
    }

    /// What a wait for this has come to. If it goes on, the error is for how long the outside sleeps, until it is
    /// called.
    pub fn await_need(&mut self, need: Need) -> Result<Awaited, Duration>
        ensures same { self.new ≡ self.old }
        ensures there { IfOk result (λ awaited. (awaited ≡ There)
            → IsMet J.network need self.new.book) }
        ensures ended { IfOk result (λ awaited. (awaited ≡ Ended) → self.new.working ≡ 0) }
    {
        if let Some(awaited) = self.awaited(need) {
            return Ok(awaited);
        }
        Err(self.crew.await_need(need))
    }
}
