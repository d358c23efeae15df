//! The turns that a worker makes between two holds of the lock, in the order of their claims.
ghost use Rattle.std.specs.Prelude.{◌≡◌, ◌↔◌, ◌+◌, ◌<◌, ◌≤◌, IsTrue, IfOk, OnErr, take, length};
ghost use Rattle.kpn_book.specs.Stepping.{ClaimsNobody};
ghost use Rattle.kpn_pool_desk.specs.HeldTurns.{InTurn, Claims, ClaimsInVain, CommitsOrDrops, PutsBack, StepsWithin, SettlesTurns, claimed_by};
ghost use Rattle.std.specs.List.{All};
ghost use Rattle.kpn_pool_desk.specs.Gate.{LetsThrough};
ghost use Rattle.kpn_pool_desk.specs.Desk.{share_in, with_book, with_total};

use crate::desk::Desk;
use crate::gate::{Gate, Go};
use crate::job::Job;
use crate::seat::{Why, WorkerSeat};
use crate::tuning::TURNS_PER_BATCH;
use crate::turn::Turn;
use crate::watch::{ClockWatch, NoWatch, Watch};
use arrayvec::ArrayVec;
use std::alloc::{AllocError, Allocator};
use std::marker::Model;
use std::time::Clock;

/// Turns of which the first ones are held, and of these the gate has let the first ones through.
#[derive(Drop)]
pub struct HeldTurns<'n, J: Job> {
    turns: ArrayVec<Turn<'n, J>, TURNS_PER_BATCH>,
    held: usize,
    passed: usize,
}

impl<'n, J: Job> Model for HeldTurns<'n, J> {
    ghost use Rattle.std.specs.Prelude.{◌≡◌, ◌≤◌, length};
    ghost use Rattle.std.specs.Coded.{codes};
    ghost use Rattle.kpn_lang.specs.Codes.{parts_code};
    ghost use Rattle.kpn_pool_desk.specs.HeldTurns.{HeldTurns as Seen};

    ghost Value = { Seen };

    ghost coded = { Prim.hlevel (codes, parts_code) };

    ghost view = { λ b. record { turns = b.turns.items; held = b.held; passed = b.passed } };

    ghost invariant = { λ b. (length b.turns.items ≡ 8) × (b.held ≤ 8) × (b.passed ≤ b.held) };
}

impl<'n, J: Job> HeldTurns<'n, J> {
    /// No process is claimed.
    pub fn new() -> Self
        ensures { result.held ≡ 0 }
    {
        HeldTurns {
            turns: ArrayVec::from_array_in(
                (),
                [
                    Turn::new(),
                    Turn::new(),
                    Turn::new(),
                    Turn::new(),
                    Turn::new(),
                    Turn::new(),
                    Turn::new(),
                    Turn::new(),
                ],
            ),
            held: 0,
            passed: 0,
        }
    }

    /// How many processes are claimed.
    pub fn len(&self) -> usize
        ensures { result ≡ self.now.held }
    {
        self.held
    }

    /// Claims a worker's share of those that are ready, at most 8. Returns whether there is one. The error is that
    /// memory ran out: then those that were claimed are put back, and none is held.
    pub fn claim<A: Allocator>(&mut self, desk: &mut Desk<'n, J, A>) -> Result<bool, AllocError>
        ensures claims { IfOk result (λ _.
            InTurn Claims (take self.new.held self.new.turns) desk.old.book desk.new.book) }
        ensures share { self.new.held ≤ share_in J.parts desk.old.book }
        ensures all { IfOk result (λ _. self.new.held < share_in J.parts desk.old.book
            → ClaimsNobody desk.new.book) }
        ensures some { IfOk result (λ some. IsTrue some ↔ (0 < self.new.held)) }
        ensures none { OnErr result (self.new.held ≡ 0) }
        ensures back { OnErr result (ClaimsInVain self.new.turns desk.old.book desk.new.book) }
        ensures same { desk.new ≡ with_book desk.new.book desk.old }
    {
        desk.known();
        let most = desk.share();
        self.held = 0;
        self.passed = 0;
        self.held = claim_each(desk, self.turns.as_mut_slice(), most)?;
        Ok(self.held > 0)
    }

    /// Steps each process and asks the gate for it, in order, until the gate ends the worker.
    pub fn step<G: Gate>(&mut self, gate: &G, worker: usize, quota: u32)
        ensures held { self.new.held ≡ self.old.held }
        ensures claimed { claimed_by self.new.turns ≡ claimed_by self.old.turns }
        ensures gate { LetsThrough (G.may_answer gate.now worker) self.new.passed self.new.held
            (claimed_by self.new.turns) }
        ensures quota { All (StepsWithin quota) (take self.new.passed self.new.turns) }
    {
        let held = self.held;
        self.passed = step_each(
            gate,
            &NoWatch,
            worker,
            quota,
            self.turns.as_mut_slice(),
            held,
        );
    }

    /// The same, and each process is timed.
    pub fn step_timed<G: Gate, R: Clock>(&mut self, rt: &R, gate: &G, worker: usize, quota: u32)
        ensures held { self.new.held ≡ self.old.held }
        ensures claimed { claimed_by self.new.turns ≡ claimed_by self.old.turns }
        ensures gate { LetsThrough (G.may_answer gate.now worker) self.new.passed self.new.held
            (claimed_by self.new.turns) }
        ensures quota { All (StepsWithin quota) (take self.new.passed self.new.turns) }
    {
        let held = self.held;
        let watch = ClockWatch { rt };
        self.passed = step_each(gate, &watch, worker, quota, self.turns.as_mut_slice(), held);
    }

    /// Notes for how long the steps of each turn took that the gate has let through, if they were timed.
    pub(crate) fn note<A: Allocator>(&self, desk: &mut Desk<'n, J, A>)
        ensures { desk.new ≡ desk.old }
    {
        let turns = self.turns.as_slice();
        note_each(desk, &turns[..self.passed]);
    }

    /// Commits the steps that the gate has let through, in order, until memory is refused, and puts the others back, in
    /// order. Returns why the worker ends, if there are such. If memory was refused, all workers have to end.
    pub(crate) fn settle<A: Allocator + Copy>(
        &self,
        desk: &mut Desk<'n, J, A>,
        seat: &mut WorkerSeat<J>,
    ) -> Option<Why>
        ensures settles { SettlesTurns self.now result desk.old desk.new }
        ensures number { seat.new.number ≡ seat.old.number }
        ensures counted { seat.old.commits ≤ seat.new.commits }
        ensures most { seat.new.commits ≤ seat.old.commits + self.now.passed }
    {
        let turns = self.turns.as_slice();
        let committed = commit_each(desk, seat, &turns[..self.passed]);
        put_back_each(desk, &turns[committed..self.held]);
        if committed < self.passed {
            desk.halt();
            return Some(Why::NoMemory);
        }
        if committed < self.held {
            return Some(Why::Abandoned);
        }
        None
    }
}

/// Claims a process for each of the first turns, at most this many. Returns how many there were. The error is that
/// memory ran out: then those that were claimed are put back.
fn claim_each<'n, J: Job, A: Allocator>(
    desk: &mut Desk<'n, J, A>,
    turns: &mut [Turn<'n, J>],
    most: usize,
) -> Result<usize, AllocError>
    requires { most ≤ length turns.old }
    ensures claims { IfOk result (λ count.
        InTurn Claims (take count turns.new) desk.old.book desk.new.book) }
    ensures same { desk.new ≡ with_book desk.new.book desk.old }
    ensures count { IfOk result (λ count. count ≤ most) }
    ensures all { IfOk result (λ count. count < most → ClaimsNobody desk.new.book) }
    ensures back { OnErr result (ClaimsInVain turns.new desk.old.book desk.new.book) }
{
    'turns: for i in 0..most {
        let turn = &mut turns[i];
        match turn.claim(desk) {
            Ok(true) => {}
            Ok(false) => return Ok(i),
            Err(error) => {
                put_back_each(desk, &turns[..i]);
                return Err(error);
            }
        }
    }
    Ok(most)
}

/// Steps each of the first turns and asks the gate for it. Returns how many it lets through before it ends the
/// worker.
fn step_each<J: Job, G: Gate, W: Watch>(
    gate: &G,
    watch: &W,
    worker: usize,
    quota: u32,
    turns: &mut [Turn<'_, J>],
    held: usize,
) -> usize
    requires { held ≤ length turns.old }
    ensures count { result ≤ held }
    ensures claimed { claimed_by turns.new ≡ claimed_by turns.old }
    ensures gate { LetsThrough (G.may_answer gate.now worker) result held
        (claimed_by turns.new) }
    ensures quota { All (StepsWithin quota) (take result turns.new) }
{
    'turns: for i in 0..held {
        let turn = &mut turns[i];
        let process = turn.step_timed(watch, quota);
        match gate.between(worker, process) {
            Go::On => {}
            Go::Abandon => return i,
        }
    }
    held
}

/// Notes for how long the steps of each turn took, if they were timed.
fn note_each<'n, J: Job, A: Allocator>(desk: &mut Desk<'n, J, A>, turns: &[Turn<'n, J>])
    ensures { desk.new ≡ desk.old }
{
    'turns: for i in 0..turns.len() {
        turns[i].note(desk);
    }
}

/// Commits each turn. Returns for how many there was memory.
fn commit_each<'n, J: Job, A: Allocator + Copy>(
    desk: &mut Desk<'n, J, A>,
    seat: &mut WorkerSeat<J>,
    turns: &[Turn<'n, J>],
) -> usize
    ensures commits { InTurn CommitsOrDrops (take result turns.now) desk.old.book desk.new.book }
    ensures same { desk.new ≡ with_total desk.new.book desk.new.total desk.old }
    ensures count { result ≤ length turns.now }
    ensures number { seat.new.number ≡ seat.old.number }
    ensures counted { seat.old.commits ≤ seat.new.commits }
    ensures most { seat.new.commits ≤ seat.old.commits + length turns.now }
{
    'turns: for i in 0..turns.len() {
        if !turns[i].commit(desk, seat) {
            return i;
        }
    }
    turns.len()
}

/// Puts the process of each turn back.
fn put_back_each<'n, J: Job, A: Allocator>(desk: &mut Desk<'n, J, A>, turns: &[Turn<'n, J>])
    ensures back { InTurn PutsBack turns.now desk.old.book desk.new.book }
    ensures same { desk.new ≡ with_book desk.new.book desk.old }
{
    'turns: for i in 0..turns.len() {
        turns[i].put_back(desk);
    }
}
