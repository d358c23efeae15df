//! A schedule as it is stored: the states of the processes, and a queue with room for all of them.
ghost use Rattle.std.specs.Prelude.{◌≡◌, ◌↔◌, ◌<◌, ◌^◌, true, false, length, replicate, count_by, slice_get, slice_set, Some, IfOk};
ghost use Rattle.kpn_history.specs.declared.state.State.TheVariants.{Ready};
ghost use Rattle.kpn_history.specs.Views.{AreCounts, is_ready, is_held};
ghost use Rattle.kpn_book.specs.Counting.{IsTally};
ghost use Rattle.kpn_book.specs.Schedule.{state_at, IsSchedule, AreAllStopped, all_ready, first_held, made_ready, with_state};

use crate::counting::{Tally, enter, leave};
use crate::queue::Queue;
use kpn_history::{Counts, State};
use std::alloc::{AllocError, Allocator, Global};
use std::marker::Model;

/// The state of each process of a run, and the order in which to step those that are ready. A process that becomes
/// ready goes to the tail of a queue. The first of the queue is the next to be held.
///
/// Contracts see the state of each process and the queue. Only `new` and `copy_states` take memory.
#[derive(Debug, Drop)]
pub struct Schedule<A: Allocator = Global> {
    states: Vec<State, A>,
    // It is kept step by step. The length of the queue is how many are ready.
    tally: Tally,
    queue: Queue<A>,
}

impl<A: Allocator> Model for Schedule<A> {
    ghost use Rattle.std.specs.Prelude.{length};
    ghost use Rattle.kpn_book.specs.Counting.{IsTally};
    ghost use Rattle.kpn_book.specs.Queue.{waiting, IsQueue};
    ghost use Rattle.kpn_book.specs.Schedule.{Schedule as Seen, IsSchedule};

    ghost Value = { Seen };

    ghost view = { λ s. record { states = s.states.items; queue = waiting s.queue } };

    ghost invariant = { λ s. IsSchedule (record { states = s.states.items; queue = waiting s.queue })
        × (IsQueue (length s.states.items) s.queue × IsTally s.states.items s.tally) };
}

impl<A: Allocator + Copy> Schedule<A> {
    /// The schedule of this many processes at the start: all are ready, in order of number. The error is that memory
    /// ran out.
    pub fn new(alloc: A, processes: usize) -> Result<Self, AllocError>
        ensures { IfOk result (λ made. made ≡ all_ready processes) }
    {
        let states = all_ready(alloc, processes)?;
        let tally = Tally {
            going: processes,
            empty: 0,
            full: 0,
            ended: 0,
        };
        let queue = Queue::new(alloc, processes)?;
        Ok(Schedule {
            states,
            tally,
            queue,
        })
    }
}

impl<A: Allocator> Schedule<A> {
    /// How many processes there are.
    pub fn len(&self) -> usize
        ensures { result ≡ length self.now.states }
    {
        self.states.len()
    }

    /// The state of process `p`.
    pub fn state(&self, p: usize) -> State
        requires { p < length self.now.states }
        ensures { result ≡ state_at self.now.states p }
    {
        self.states[p]
    }

    /// How many processes are in each state.
    pub fn counts(&self) -> Counts
        ensures { AreCounts self.now.states result }
    {
        Counts {
            ready: self.queue.len(),
            held: self.held(),
            empty: self.tally.empty,
            full: self.tally.full,
            ended: self.tally.ended,
        }
    }

    /// How many processes are held.
    #[tactic(auto, using(crate::proofs::Tallies::going_apart))]
    pub fn held(&self) -> usize
        ensures { result ≡ count_by is_held self.now.states }
    {
        self.tally.going - self.queue.len()
    }

    /// Whether each process has ended or waits.
    pub fn is_idle(&self) -> bool
        ensures { (result ≡ true) ↔ AreAllStopped self.now.states }
    {
        self.tally.going == 0
    }

    /// The process that is the next to be held, and `None` if no process is ready.
    pub fn next(&self) -> Option<usize>
        ensures { result ≡ slice_get self.now.queue 0 }
    {
        self.queue.first()
    }

    /// Makes process `p`, which is not ready, ready, at the tail of the queue.
    pub fn make_ready(&mut self, p: usize)
        requires process { p < length self.old.states }
        requires state { is_ready (state_at self.old.states p) ≡ false }
        ensures { self.new ≡ made_ready p self.old }
    {
        let from = self.states[p];
        change(&mut self.states, &mut self.tally, p, from, State::Ready);
        self.queue.put(p);
    }

    /// Makes process `p`, which is held, ready, at the tail of the queue. Its state is known, so it is not looked up.
    pub fn put_back(&mut self, p: usize)
        requires process { p < length self.old.states }
        requires held { state_at self.old.states p ≡ State.Held }
        ensures { self.new ≡ made_ready p self.old }
    {
        change(
            &mut self.states,
            &mut self.tally,
            p,
            State::Held,
            State::Ready,
        );
        self.queue.put(p);
    }

    /// Puts process `p`, which is the first of the queue, into this state, which is not ready, as if it were held
    /// before.
    #[inline(always)]
    pub fn set_first(&mut self, p: usize, state: State)
        requires first { slice_get self.old.queue 0 ≡ Some p }
        requires new { is_ready state ≡ false }
        ensures { self.new ≡ with_state p state (first_held p self.old) }
    {
        change(&mut self.states, &mut self.tally, p, State::Ready, state);
        self.queue.drop_first();
    }

    /// Moves process `p`, which is the first of the queue, to its tail, as if it were held and put back. No state
    /// changes.
    pub fn rotate(&mut self, p: usize)
        requires { slice_get self.old.queue 0 ≡ Some p }
        ensures { self.new ≡ made_ready p (first_held p self.old) }
    {
        self.queue.drop_first();
        self.queue.put(p);
    }

    /// Puts process `p`, which is not ready, into this state, which is not ready either.
    pub fn set(&mut self, p: usize, state: State)
        requires process { p < length self.old.states }
        requires old { is_ready (state_at self.old.states p) ≡ false }
        requires new { is_ready state ≡ false }
        ensures { self.new ≡ with_state p state self.old }
    {
        let from = self.states[p];
        change(&mut self.states, &mut self.tally, p, from, state);
    }

    /// A copy of the states, in order of number. The error is that memory ran out.
    pub fn copy_states<B: Allocator>(&self, alloc: B) -> Result<Vec<State, B>, AllocError>
        ensures { IfOk result (λ states. states.items ≡ self.now.states) }
    {
        Vec::from_slice(alloc, self.states.as_slice())
    }

    /// Does nothing. A caller's proof learns from it what holds of every schedule: the queue holds each ready process
    /// once and no other process, and the number of processes is one of the machine's.
    pub fn known(&self)
        ensures schedule { IsSchedule self.now }
        ensures bound { length self.now.states < 2 ^ 64 }
    {
        let _ = &self.queue;
    }
}

fn all_ready<A: Allocator>(alloc: A, processes: usize) -> Result<Vec<State, A>, AllocError>
    ensures { IfOk result (λ states. states.items ≡ replicate processes Ready) }
{
    Ok(vec![in alloc; State::Ready; processes]?)
}

/// Process `p` goes from one state to another.
#[inline(always)]
fn change<A: Allocator>(
    states: &mut Vec<State, A>,
    tally: &mut Tally,
    p: usize,
    from: State,
    to: State,
)
    requires process { p < length states.old.items }
    requires from { state_at states.old.items p ≡ from }
    requires tally { IsTally states.old.items tally.old }
    ensures states { states.new.items ≡ slice_set states.old.items p to }
    ensures tally { IsTally states.new.items tally.new }
{
    leave(tally, from);
    enter(tally, to);
    states[p] = to;
}
