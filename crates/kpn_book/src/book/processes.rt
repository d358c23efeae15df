//! The calls that step processes: claim, commit and put back, and one call that does all for a single owner.
ghost use Rattle.std.specs.Prelude.{◌≡◌, ◌↔◌, ◌+◌, ◌<◌, ◌^◌, true, false, IfOk, IfErr, OnErr, IsTrue, IfSome, IfNone};
ghost use Rattle.kpn_net.specs.Tables.{program_of, any_has_cells};
ghost use Rattle.kpn_step.specs.Frame.{fits};
ghost use Rattle.kpn_step.specs.Stops.{IsAdvance, IsAtPort, advanced_of};
ghost use Rattle.kpn_machine.specs.Machine.{frame_in};
ghost use Rattle.kpn_book.specs.Book.{IsHeld, IsClaimed, held_count, put_back};
ghost use Rattle.kpn_book.specs.GoingOn.{RunsInAnyOrder, AnyOrderInVain};
ghost use Rattle.kpn_book.specs.InARow.{RunsInRow, RunsInVain};
ghost use Rattle.kpn_book.specs.Commits.{Commits};
ghost use Rattle.kpn_book.specs.Refusals.{RefusesCommit, RefusesPutBack};
ghost use Rattle.kpn_book.specs.Stepping.{ClaimsNobody, IsStep, StepsInVain};

use super::Book;
use crate::answers::{Done, Refused};
use crate::claim::Claim;
use crate::open_book::Hold;
use kpn_history::State;
use kpn_lang::same;
use kpn_step::{Advance, Frame, Stop};
use std::alloc::{AllocError, Allocator};

impl<'n, A: Allocator> Book<'n, A> {
    /// Holds the first process of the queue, and returns it with its program and its frame. `None` if no process is
    /// ready, or if the commits and the held processes are as many as can be counted. No program has cells, so this
    /// takes no memory.
    pub fn claim(&mut self) -> Option<Claim<'n>>
        requires plain { any_has_cells self.old.tables ≡ false }
        ensures claimed { IfSome result (λ claim. IsClaimed claim.process self.old self.new) }
        ensures program { IfSome result (λ claim.
            claim.program.now ≡ program_of self.old.tables claim.process) }
        ensures frame { IfSome result (λ claim.
            claim.frame ≡ frame_in self.old.machine claim.process) }
        ensures fits { IfSome result (λ claim. IsTrue (fits claim.program.now claim.frame)) }
        ensures nobody { IfNone result (ClaimsNobody self.old) }
        ensures as_before { IfNone result (self.new ≡ self.old) }
    {
        let network = self.parts.network;
        network.known();
        let Some(process) = self.parts.next() else {
            return None;
        };
        let frame = self.parts.machine.frame(process).copy();
        self.parts.hold(process);
        Some(Claim {
            process,
            program: network.program(process),
            frame,
        })
    }

    /// The same for each network. The error is that there was no memory for the cells of the frame; then nobody is
    /// held.
    pub fn try_claim(&mut self) -> Result<Option<Claim<'n>>, AllocError>
        ensures claimed { IfOk result (λ found. IfSome found (λ claim.
            IsClaimed claim.process self.old self.new)) }
        ensures program { IfOk result (λ found. IfSome found (λ claim.
            claim.program.now ≡ program_of self.old.tables claim.process)) }
        ensures frame { IfOk result (λ found. IfSome found (λ claim.
            claim.frame ≡ frame_in self.old.machine claim.process)) }
        ensures fits { IfOk result (λ found. IfSome found (λ claim.
            IsTrue (fits claim.program.now claim.frame))) }
        ensures nobody { IfOk result (λ found. IfNone found (ClaimsNobody self.old)) }
        ensures as_before { IfOk result (λ found. IfNone found (self.new ≡ self.old)) }
        ensures refused { OnErr result (self.new ≡ self.old) }
    {
        let Some(process) = self.parts.next() else {
            return Ok(None);
        };
        let frame = self.parts.machine.frame(process).try_copy()?;
        self.parts.hold(process);
        Ok(Some(Claim {
            process,
            program: self.parts.network.program(process),
            frame,
        }))
    }

    /// Claims the first process of the queue as `try_claim` does, in the memory that the claim has: it copies the
    /// frame, and makes no step. It takes memory if the frame has other cells than that of the claim. It returns
    /// whether there was one. The error is that memory ran out; then nobody is held.
    pub fn claim_into(&mut self, claim: &mut Claim<'n>) -> Result<bool, AllocError>
        ensures claimed { IfOk result (λ found. (found ≡ true)
            → IsClaimed claim.new.process self.old self.new) }
        ensures program { IfOk result (λ found. (found ≡ true)
            → claim.new.program.now ≡ program_of self.old.tables claim.new.process) }
        ensures frame { IfOk result (λ found. (found ≡ true)
            → claim.new.frame ≡ frame_in self.old.machine claim.new.process) }
        ensures fits { IfOk result (λ found. (found ≡ true)
            → IsTrue (fits claim.new.program.now claim.new.frame)) }
        ensures nobody { IfOk result (λ found. (found ≡ false) → ClaimsNobody self.old) }
        ensures as_before { IfOk result (λ found. (found ≡ false)
            → (self.new ≡ self.old) × (claim.new ≡ claim.old)) }
        ensures refused { OnErr result ((self.new ≡ self.old) × (claim.new ≡ claim.old)) }
    {
        let Some(process) = self.parts.next() else {
            return Ok(false);
        };
        claim
            .frame
            .try_copy_from(self.parts.machine.frame(process))?;
        claim.process = process;
        claim.program = self.parts.network.program(process);
        self.parts.hold(process);
        Ok(true)
    }

    /// Commits the steps of process `p`, which is held. They are steps of its program from its frame. The stop of the
    /// steps decides: the process gets or puts an item, waits, ends or is ready again. This wakes other processes. If
    /// the process waits and a growth is owed for this, the growth follows.
    pub fn commit(&mut self, p: usize, advance: &Advance) -> Result<Done, Refused>
    where
        A: Copy,
        ensures done { IfOk result (λ answer. Commits p advance.now answer self.old self.new) }
        ensures refused { IfErr result (λ cause. RefusesCommit p advance.now self.old cause) }
        ensures as_before { OnErr result (self.new ≡ self.old) }
    {
        if !self.parts.is_held(p) {
            return Err(Refused::NotHeld);
        }
        if !same(advance.program(), self.parts.network.program(p)) {
            return Err(Refused::Stranger);
        }
        advance.known();
        let made = (advance.steps(), advance.stop());
        self.commit_own(p, advance.from(), advance.to(), made)
    }

    /// Commits the steps of process `p` between these frames as `commit` does: how many were made, and the stop after
    /// them. The caller knows that they are steps of its program, as those of its claim are. So this call does not
    /// compare the programs, which may be long.
    pub fn commit_own(
        &mut self,
        p: usize,
        from: &Frame,
        to: &Frame,
        made: (u32, Stop),
    ) -> Result<Done, Refused>
    where
        A: Copy,
        requires advance { IsAdvance (advanced_of (program_of self.old.tables p) from.now to.now made.0 made.1) }
        requires port { IsAtPort (program_of self.old.tables p) to.now made.1 }
        ensures done { IfOk result (λ answer. Commits p
            (advanced_of (program_of self.old.tables p) from.now to.now made.0 made.1)
            answer self.old self.new) }
        ensures refused { IfErr result (λ cause. RefusesCommit p
            (advanced_of (program_of self.old.tables p) from.now to.now made.0 made.1)
            self.old cause) }
        ensures as_before { OnErr result (self.new ≡ self.old) }
    {
        if !self.parts.is_held(p) {
            return Err(Refused::NotHeld);
        }
        if !same_frame(from, self.parts.machine.frame(p)) {
            return Err(Refused::Stranger);
        }
        let stop = made.1;
        self.parts.reserve(p, stop)?;
        let network = self.parts.network;
        self.parts.machine.step_to(network, p, to, made);
        let done = self.parts.handle_stop(Hold::Taken, p, stop);
        self.parts.commits += 1;
        Ok(done)
    }

    /// Puts process `p`, which is held, to the tail of the queue. Its frame stays.
    pub fn put_back(&mut self, p: usize) -> Result<(), Refused>
        ensures held { IfOk result (λ _. IsHeld self.old p) }
        ensures after { IfOk result (λ _. self.new ≡ put_back p self.old) }
        ensures refused { IfErr result (λ cause. RefusesPutBack p self.old cause) }
        ensures as_before { OnErr result (self.new ≡ self.old) }
    {
        if !self.parts.is_held(p) {
            return Err(Refused::NotHeld);
        }
        self.parts.schedule.put_back(p);
        Ok(())
    }

    /// Claims a process, makes at most `quota` steps of it and commits them, in place: it copies no frame. `None` if no
    /// process can be claimed. The error is that memory ran out: the process has made its steps and is ready again, at
    /// the tail of the queue.
    pub fn step_next(&mut self, quota: u32) -> Result<Option<Done>, AllocError>
    where
        A: Copy,
        ensures step { IfOk result (λ answer. IsStep quota answer self.old self.new) }
        ensures in_vain { OnErr result (StepsInVain quota self.old self.new) }
    {
        let Some(p) = self.parts.hold_next() else {
            return Ok(None);
        };
        let network = self.parts.network;
        let program = network.program(p);
        let (_, stop) = self.parts.machine.step(network, program, p, quota);
        if let Err(error) = self.parts.reserve(p, stop) {
            self.parts.schedule.put_back(p);
            return Err(error);
        }
        let done = self.parts.handle_stop(Hold::Taken, p, stop);
        self.parts.commits += 1;
        Ok(Some(done))
    }

    /// Makes steps in place, as `step_next` does, one after another, until one has put an item on a sink or no process
    /// is ready, and at most `most`. It returns that sink. The error is that memory ran out: the steps before stay
    /// committed, and none of them has put an item on a sink. The process whose turn it then is may have made its
    /// steps. It is ready and the first of the queue, unlike after `step_next`.
    pub fn run_on(&mut self, quota: u32, most: u64) -> Result<Option<usize>, AllocError>
    where
        A: Copy,
        requires { self.old.commits + held_count self.old + most < 2 ^ 64 }
        ensures runs { IfOk result (λ sink. RunsInRow quota most sink self.old self.new) }
        ensures in_vain { OnErr result (RunsInVain quota most self.old self.new) }
    {
        self.parts.run_on(quota, most)
    }

    /// Makes turns in any order, in place, until one has put an item on a sink or no process is ready, and at most
    /// `most`. It returns that sink. The first process of the queue gets and puts items as long as it can, and stays
    /// the first meanwhile. The error is that memory ran out: what was done before stays.
    pub fn go_on(&mut self, quota: u32, most: u64) -> Result<Option<usize>, AllocError>
    where
        A: Copy,
        requires { self.old.commits + held_count self.old + most < 2 ^ 64 }
        ensures goes { IfOk result (λ sink. RunsInAnyOrder quota most sink self.old self.new) }
        ensures in_vain { OnErr result (AnyOrderInVain quota most self.old self.new) }
    {
        self.parts.go_on(quota, most)
    }
}

fn same_frame(left: &Frame, right: &Frame) -> bool
    ensures { IsTrue result ↔ (left.now ≡ right.now) }
{
    *left == *right
}
