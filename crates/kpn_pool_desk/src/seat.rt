//! The seat of a worker: what it knows of its own work.
ghost use Rattle.std.specs.Prelude.{◌≡◌, ◌+◌, ◌-◌, ◌<◌, ◌^◌, IfOk, IfErr, OnErr, OnOk, Some, None};
ghost use Rattle.kpn_net.specs.Tables.{program_of};
ghost use Rattle.kpn_step.specs.Stops.{IsAdvance, IsAtPort, advanced_of};
ghost use Rattle.kpn_book.specs.Commits.{Commits};
ghost use Rattle.kpn_book.specs.Refusals.{RefusesCommit};
ghost use Rattle.kpn_book.specs.RegionCalls.{CommitsRegion, RefusesRegion};
ghost use Rattle.kpn_pool_desk.specs.Desk.{with_commit, with_total, without_worker};
ghost use Rattle.kpn_pool_desk.specs.Seat.{new_seat, ended, with_commits};

use crate::desk::Desk;
use crate::job::Job;
use crate::phases::{Notices, Workers};
use kpn_book::laws::what_a_commit_does;
use kpn_book::{Done, Refused};
use kpn_region::Batch;
use kpn_step::{Frame, Stop};
use std::alloc::Allocator;
use std::marker::Model;
use std::sync::ledger;
use std::sync::ledger::Share;

/// Why a worker ended.
#[derive(Clone, Copy, Debug, PartialEq, Eq)]
pub enum Why {
    /// The workers had to end.
    Halted,
    /// Nothing more can happen but that the outside leaves a sink.
    Settled,
    /// The commits have reached the number that is allowed.
    Limit,
    /// The gate made this worker drop its steps and end.
    Abandoned,
    /// Memory ran out at a commit of this worker.
    NoMemory,
}

/// The seat of a worker: its number, why the worker ended, and how many commits it made. No other part of the program
/// makes one, and the commits of all seats are those of the book.
#[derive(Drop)]
pub struct WorkerSeat<J: Job> {
    number: usize,
    why: Option<Why>,
    commits: u64,
    pub(crate) share: Share<J>,
}

impl<J: Job> Model for WorkerSeat<J> {
    ghost use Rattle.std.specs.Prelude.{◌≡◌};
    ghost use Rattle.kpn_pool_desk.specs.Seat.{Seat};

    ghost Value = { Seat };

    ghost view = { λ s. record { number = s.number; why = s.why; commits = s.commits } };

    ghost invariant = { λ s. (s.share.parts ≡ 1) × (s.share.amount ≡ s.commits) };
}

impl<J: Job> WorkerSeat<J> {
    /// The seat of a worker that has not worked yet.
    pub(crate) fn new(number: usize, share: Share<J>) -> Self
        requires parts { share.parts ≡ 1 }
        requires amount { share.amount ≡ 0 }
        ensures { result ≡ new_seat number }
    {
        WorkerSeat {
            number,
            why: None,
            commits: 0,
            share,
        }
    }

    /// The number of the worker, counted from 0.
    pub fn number(&self) -> usize
        ensures { result ≡ self.now.number }
    {
        self.number
    }

    /// Why the worker ended; `None` before it first worked.
    pub fn why(&self) -> Option<Why>
        ensures { result ≡ self.now.why }
    {
        self.why
    }

    /// How many commits the worker made: its share of the commits of the book.
    pub fn commits(&self) -> u64
        ensures { result ≡ self.now.commits }
    {
        self.commits
    }

    /// Commits the steps of a process that is held: how many steps of its program lead from one frame to the other, and
    /// the stop after them. The book's commits, the ledger's total and this seat's share rise together.
    pub fn commit<A: Allocator + Copy>(
        &mut self,
        desk: &mut Desk<'_, J, A>,
        p: usize,
        from: &Frame,
        to: &Frame,
        made: (u32, Stop),
    ) -> Result<Done, Refused>
        requires advance { IsAdvance
            (advanced_of (program_of J.network p) from.now to.now made.0 made.1) }
        requires port { IsAtPort (program_of J.network p) to.now made.1 }
        ensures done { IfOk result (λ done. Commits p
            (advanced_of (program_of J.network p) from.now to.now made.0 made.1)
            done desk.old.book desk.new.book) }
        ensures total { OnOk result (desk.new ≡ with_commit desk.new.book desk.old) }
        ensures share { OnOk result (self.new ≡ with_commits (self.old.commits + 1) self.old) }
        ensures refused { IfErr result (λ cause. RefusesCommit p
            (advanced_of (program_of J.network p) from.now to.now made.0 made.1)
            desk.old.book cause) }
        ensures as_before { OnErr result ((self.new ≡ self.old) × (desk.new ≡ desk.old)) }
    {
        desk.known();
        what_a_commit_does();
        let done = desk.book.commit_own(p, from, to, made)?;
        desk.book.known();
        self.count(&mut desk.total, 1);
        Ok(done)
    }

    /// Commits what a region has done. Returns whether there was memory for the stop of each of its processes. The book's
    /// commits, the ledger's total and this seat's share rise together.
    pub(crate) fn commit_region<'n, A: Allocator + Copy, B: Allocator>(
        &mut self,
        desk: &mut Desk<'n, J, A>,
        batch: &Batch<'n, B>,
    ) -> Result<bool, Refused>
        requires { batch.now.tables ≡ J.network }
        ensures done { IfOk result (λ memory.
            CommitsRegion batch.now memory desk.old.book desk.new.book) }
        ensures share { OnOk result (self.new ≡ with_commits
            (self.old.commits + (desk.new.book.commits - desk.old.book.commits)) self.old) }
        ensures same { desk.new ≡ with_total desk.new.book desk.new.total desk.old }
        ensures refused { IfErr result (RefusesRegion batch.now desk.old.book) }
        ensures as_before { OnErr result ((self.new ≡ self.old) × (desk.new ≡ desk.old)) }
    {
        desk.known();
        let before = desk.book.commits();
        let memory = desk.book.commit_region(batch)?;
        desk.book.known();
        let made = desk.book.commits() - before;
        self.count(&mut desk.total, made);
        Ok(memory)
    }

    /// Counts this many commits, in the ledger and here.
    fn count(&mut self, total: &mut ledger::Book<J>, commits: u64)
        requires { total.old.total + commits < 2 ^ 64 }
        ensures total { total.new.total ≡ total.old.total + commits }
        ensures share { self.new ≡ with_commits (self.old.commits + commits) self.old }
    {
        total.audit(&mut self.share);
        total.add(&mut self.share, commits);
        self.commits += commits;
    }

    /// The share of the ledger that the worker has.
    pub(crate) fn into_share(self) -> Share<J>
        ensures parts { result.parts ≡ 1 }
        ensures amount { result.amount ≡ self.commits }
    {
        let WorkerSeat { share, .. } = self;
        share
    }

    /// The worker ends, for this reason. All workers that rest are notified, since the reason may be theirs, and the
    /// outside is called.
    pub fn end<A: Allocator>(&mut self, desk: &mut Desk<'_, J, A>, why: Why) -> Notices
        ensures seat { self.new ≡ ended why self.old }
        ensures desk { desk.new ≡ without_worker desk.old }
    {
        self.why = Some(why);
        desk.crew.end();
        Notices {
            workers: Workers::All,
            outside: desk.crew.call(),
        }
    }
}
