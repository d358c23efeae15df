//! What a worker does with one process between two holds of the lock: its claim, its steps, and their commit.
ghost use Rattle.std.specs.Prelude.{◌≡◌, ◌≢◌, ◌+◌, ◌≤◌, ◌⊎◌, true, false, None, IfOk, OnErr};
ghost use Rattle.kpn_book.specs.Stepping.{ClaimsNobody};
ghost use Rattle.kpn_pool_desk.specs.Desk.{with_book, with_total};
ghost use Rattle.kpn_pool_desk.specs.HeldTurns.{Claims, MayCommitTurn, CommitsOrDrops, PutsBack, StepsWithin};

use crate::desk::Desk;
use crate::job::Job;
use crate::seat::WorkerSeat;
use crate::tuning::SHORTEST_TURN_NANOSECONDS;
use crate::watch::Watch;
use kpn_book::{Claim, Refused};
use kpn_step::{Frame, Stop};
use std::alloc::{AllocError, Allocator};
use std::marker::{Model, PhantomData};
use std::time::Instant;

/// A process that was claimed, and where it came to from the frame of its claim.
#[derive(Drop)]
pub(crate) struct Stepped<'n> {
    claim: Claim<'n>,
    to: Frame,
    // how many steps lead there, and their stop, once they are made
    made: Option<(u32, Stop)>,
}

/// The turn of a process: the one that was claimed last, with the steps that were made from there. The memory is kept
/// for the turns that follow.
#[derive(Drop)]
pub(crate) struct Turn<'n, J: Job> {
    process: usize,
    last: Option<Stepped<'n>>,
    // for how many nanoseconds the steps took, if they were timed
    pub(crate) nanos: u64,
    run: PhantomData<J>,
}

impl<'n, J: Job> Model for Turn<'n, J> {
    ghost use Rattle.std.specs.Prelude.{◌≡◌, IfSome, IsTrue};
    ghost use Rattle.kpn_net.specs.Tables.{program_of};
    ghost use Rattle.kpn_step.specs.Frame.{fits};
    ghost use Rattle.std.specs.Coded.{codes};
    ghost use Rattle.kpn_lang.specs.Codes.{parts_code};
    ghost use Rattle.kpn_pool_desk.specs.HeldTurns.{Turn as Seen, frame_of, steps_of, IsTurnOf};

    ghost Value = { Seen };

    ghost coded = { Prim.hlevel (codes, parts_code) };

    ghost view = { λ t. record { process = t.process; frame = frame_of t.last; steps = steps_of t.last } };

    ghost invariant = { λ t. IfSome t.last (IsTurnOf (program_of J.network t.process)) };
}

impl<'n, J: Job> Turn<'n, J> {
    /// A turn of nobody.
    pub(crate) fn new() -> Self {
        Turn {
            process: 0,
            last: None,
            nanos: 0,
            run: PhantomData,
        }
    }

    /// Claims the first process of the queue, which is held from now on. Returns whether there was one. The error is
    /// that memory ran out: then nobody is claimed.
    pub(crate) fn claim<A: Allocator>(
        &mut self,
        desk: &mut Desk<'n, J, A>,
    ) -> Result<bool, AllocError>
        ensures claims { IfOk result (λ some. (some ≡ true)
            → Claims self.new desk.old.book desk.new.book) }
        ensures nobody { IfOk result (λ some. (some ≡ false)
            → ClaimsNobody desk.old.book × (desk.new ≡ desk.old)) }
        ensures no_memory { OnErr result (desk.new ≡ desk.old) }
        ensures same { desk.new ≡ with_book desk.new.book desk.old }
    {
        desk.known();
        if let Some(last) = &mut self.last {
            if !desk.book.claim_into(&mut last.claim)? {
                return Ok(false);
            }
            desk.book.known();
            last.made = None;
            self.process = last.claim.process;
            return Ok(true);
        }
        let Some(claim) = desk.book.try_claim()? else {
            return Ok(false);
        };
        desk.book.known();
        self.process = claim.process;
        let to = Frame::empty(claim.program);
        self.last = Some(Stepped {
            claim,
            to,
            made: None,
        });
        Ok(true)
    }

    /// Makes at most `quota` steps of the process that is claimed, if there is memory for its cells. Returns which it
    /// is.
    pub(crate) fn step(&mut self, quota: u32) -> usize
        ensures same { self.new.process ≡ self.old.process }
        ensures process { result ≡ self.new.process }
        ensures quota { StepsWithin quota self.new }
    {
        if let Some(last) = &mut self.last {
            last.made = match last.to.try_copy_from(&last.claim.frame) {
                Ok(()) => Some(last.to.run(last.claim.program, quota)),
                Err(_error) => None,
            };
        }
        self.process
    }

    /// The same, timed.
    pub(crate) fn step_timed<W: Watch>(&mut self, watch: &W, quota: u32) -> usize
        ensures same { self.new.process ≡ self.old.process }
        ensures process { result ≡ self.new.process }
        ensures quota { StepsWithin quota self.new }
    {
        let begun = watch.read();
        let process = self.step(quota);
        let ended = watch.read();
        // to read the clock takes longer than a short turn
        let clock = between(ended, watch.read());
        self.nanos = match between(begun, ended) {
            0 => 0,
            nanos => nanos.saturating_sub(clock).max(SHORTEST_TURN_NANOSECONDS),
        };
        process
    }

    /// Notes for how long the steps took, if they were timed.
    pub(crate) fn note<A: Allocator>(&self, desk: &mut Desk<'n, J, A>)
        ensures { desk.new ≡ desk.old }
    {
        if self.nanos > 0 {
            let processes = desk.book.network().instances();
            desk.division.note(processes, self.process, self.nanos);
        }
    }

    /// Commits the steps. Returns whether there was memory for that, and for the steps.
    ///
    /// Steps of a process that is not held, or of another one, which nothing known behind a lock rules out, are
    /// dropped, and nothing is counted.
    pub(crate) fn commit<A: Allocator + Copy>(
        &self,
        desk: &mut Desk<'n, J, A>,
        seat: &mut WorkerSeat<J>,
    ) -> bool
        ensures commits { (result ≡ true) → CommitsOrDrops self.now desk.old.book desk.new.book }
        ensures refused { (result ≡ false) → ((self.now.steps ≡ None)
            ⊎ MayCommitTurn self.now desk.old.book) × (desk.new ≡ desk.old) }
        ensures same { desk.new ≡ with_total desk.new.book desk.new.total desk.old }
        ensures number { seat.new.number ≡ seat.old.number }
        ensures counted { seat.old.commits ≤ seat.new.commits }
        ensures most { seat.new.commits ≤ seat.old.commits + 1 }
    {
        let Some(last) = &self.last else {
            return true;
        };
        let Some(made) = last.made else {
            return false;
        };
        match seat.commit(desk, self.process, &last.claim.frame, &last.to, made) {
            Ok(done) => {
                desk.note(self.process, made.1, done);
                true
            }
            Err(cause) => are_foreign(cause),
        }
    }

    /// Puts the process that is claimed back, if it is held.
    pub(crate) fn put_back<A: Allocator>(&self, desk: &mut Desk<'n, J, A>)
        ensures back { PutsBack self.now desk.old.book desk.new.book }
        ensures same { desk.new ≡ with_book desk.new.book desk.old }
    {
        // this is refused only if nobody holds it, and then it is in its place
        let _ = desk.book.put_back(self.process);
        desk.book.known();
    }
}

/// Whether steps are refused since they are foreign, and not for want of memory.
fn are_foreign(cause: Refused) -> bool
    ensures foreign { (result ≡ true) → cause ≢ Refused.NoMemory }
    ensures memory { (result ≡ false) → cause ≡ Refused.NoMemory }
{
    !matches!(cause, Refused::NoMemory)
}

/// How many nanoseconds lie between two times, if both are known.
fn between(begun: Option<Instant>, ended: Option<Instant>) -> u64 {
    let (Some(begun), Some(ended)) = (begun, ended) else {
        return 0;
    };
    u64::try_from(ended.duration_since(begun).as_nanos()).unwrap_or(u64::MAX)
}
