//! A worker: its seat and its quota, and what it has in hand between two holds of the lock.
ghost use Rattle.std.specs.Prelude.{◌≡◌, ◌+◌, ◌<◌, ◌≤◌, take, IsSome, None};
ghost use Rattle.std.specs.List.{All};
ghost use Rattle.kpn_pool_desk.specs.Gate.{LetsAll};
ghost use Rattle.kpn_pool_desk.specs.HeldTurns.{StepsWithin, ComesBackWithTurns};

use crate::desk::Desk;
use crate::gate::Gate;
use crate::held_turns::HeldTurns;
use crate::job::Job;
use crate::phases::NextMove;
use crate::region_turn::RegionTurn;
use crate::seat::{Why, WorkerSeat};
use std::alloc::Allocator;
use std::time::Clock;

/// A worker and the turns that it has in hand. By regions, it has a `RegionTurn` beside them.
#[derive(Drop)]
pub struct Worker<'n, J: Job> {
    pub seat: WorkerSeat<J>,
    pub turns: HeldTurns<'n, J>,
    /// The most steps of a process in a turn.
    pub quota: u32,
    // how many commits there were when it let the lock go
    commits: u64,
    // whether the steps of each process are timed
    is_timed: bool,
}

impl<'n, J: Job> Worker<'n, J> {
    /// A worker that has nothing in hand.
    pub fn new(seat: WorkerSeat<J>, quota: u32) -> Self
        ensures seat { result.seat ≡ seat }
    {
        Worker {
            seat,
            turns: HeldTurns::new(),
            quota,
            commits: u64::MAX,
            is_timed: false,
        }
    }

    /// The seat of a worker that ends.
    pub fn into_seat(self) -> WorkerSeat<J>
        ensures { result ≡ self.entry.seat }
    {
        let Worker { seat, .. } = self;
        seat
    }

    /// Runs the region in hand, or steps the turns and asks the gate for them, with the lock free.
    pub fn step<A: Allocator, G: Gate, R: Clock>(
        &mut self,
        rt: &R,
        gate: &G,
        region: &mut RegionTurn<'n, J, A>,
    )
        ensures seat { self.new.seat ≡ self.old.seat }
        ensures region { IsSome region.new → IsSome region.old }
        ensures quota { region.old ≡ None
            → All (StepsWithin self.old.quota) (take self.new.turns.passed self.new.turns.turns) }
    {
        let worker = self.seat.number();
        if region.is_held() {
            region.run(self.quota);
        } else if self.is_timed {
            self.turns.step_timed(rt, gate, worker, self.quota);
        } else {
            self.turns.step(gate, worker, self.quota);
        }
    }

    /// The worker is back, and commits what it has in hand. Returns what it does next, if `most` commits are allowed.
    pub fn come_back<A: Allocator + Copy, G: Gate>(
        &mut self,
        desk: &mut Desk<'n, J, A>,
        gate: &G,
        region: &mut RegionTurn<'n, J, A>,
        most: u64,
    ) -> NextMove
        requires { IsSome region.old → LetsAll (G.may_answer gate.now) }
        ensures region { region.new ≡ None }
        ensures number { self.new.seat.number ≡ self.old.seat.number }
        ensures commits { self.old.seat.commits ≤ self.new.seat.commits }
        ensures asked { self.old.seat.commits + self.old.turns.passed < self.new.seat.commits
            → LetsAll (G.may_answer gate.now) }
    {
        if region.is_held() {
            return region.come_back(desk, &mut self.seat, self.commits, most);
        }
        self.come_back_with_turns(desk, gate, most)
    }

    /// The same with turns in hand: those that the gate has let through are committed. If it lets all through, the
    /// network may be cut.
    pub fn come_back_with_turns<A: Allocator + Copy, G: Gate>(
        &mut self,
        desk: &mut Desk<'n, J, A>,
        gate: &G,
        most: u64,
    ) -> NextMove
        ensures number { self.new.seat.number ≡ self.old.seat.number }
        ensures commits { self.old.seat.commits ≤ self.new.seat.commits }
        ensures asked { self.new.seat.commits ≤ self.old.seat.commits + self.old.turns.passed }
        ensures does { ComesBackWithTurns most self.old.turns result desk.old desk.new }
    {
        let is_alone = desk.book.commits() == self.commits;
        desk.crew.come_back(self.turns.len());
        self.turns.note(desk);
        if let Some(why) = self.turns.settle(desk, &mut self.seat) {
            return NextMove::End(why);
        }
        if gate.lets_all() {
            desk.cut();
        }
        desk.next(most, is_alone, true)
    }

    /// Claims a region or, if there is none, turns. Returns why the worker ends, if it can claim nothing. If memory ran
    /// out, all workers have to end.
    pub fn claim<A: Allocator + Copy, G: Gate>(
        &mut self,
        desk: &mut Desk<'n, J, A>,
        gate: &G,
        region: &mut RegionTurn<'n, J, A>,
    ) -> Option<Why>
        requires { region.old ≡ None }
        ensures seat { self.new.seat ≡ self.old.seat }
        ensures region { IsSome region.new → LetsAll (G.may_answer gate.now) }
    {
        self.is_timed = desk.times();
        self.commits = desk.book.commits();
        if region.claim(desk, gate) {
            return None;
        }
        match self.turns.claim(desk) {
            Ok(true) => None,
            Ok(false) => Some(Why::Limit),
            Err(_error) => {
                desk.halt();
                Some(Why::NoMemory)
            }
        }
    }
}
