//! The parts of a book in the midst of a call, when not all that holds of a book need hold of them.
ghost use Rattle.std.specs.Prelude.{◌≡◌, ◌↔◌, ◌+◌, ◌-◌, ◌<◌, ◌^◌, Option, option_to_list, IsTrue, IfNone};
ghost use Rattle.kpn_history.specs.declared.state.Verdict.{Verdict as Told};
ghost use Rattle.kpn_machine.specs.Machine.{IsMachine};
ghost use Rattle.kpn_machine.specs.Settled.{IsVerdictNow};
ghost use Rattle.kpn_book.specs.Appending.{all_made_ready};
ghost use Rattle.kpn_book.specs.Book.{IsHeld, IsClaimed, held_count};
ghost use Rattle.kpn_book.specs.Kept.{IsKept};
ghost use Rattle.kpn_book.specs.Open.{MayBeReady, IsNextHeld, book_of, next_by, claims_by};

use crate::schedule::Schedule;
use kpn_history::{History, State, Verdict};
use kpn_machine::Machine;
use kpn_net::Network;
use std::alloc::Allocator;

mod ahead;
mod claims;
mod commits;
mod outside;
pub(crate) mod regions;
mod turns;

/// How a process is held that is committed.
#[derive(Clone, Copy)]
pub(crate) enum Hold {
    /// It stays the first of the queue, and no state says that it is held.
    First,
    /// It was taken out of the queue.
    Taken,
}

/// The network, the history so far, the machine to which it leads, the schedule of the processes, and how many
/// commits were made.
#[derive(Debug, Drop)]
pub(crate) struct OpenBook<'n, A: Allocator> {
    pub(crate) network: &'n Network,
    pub(crate) machine: Machine<A>,
    pub(crate) history: History<A>,
    pub(crate) schedule: Schedule<A>,
    pub(crate) commits: u64,
}

impl<'n, A: Allocator> OpenBook<'n, A> {
    /// Whether process `p` is held.
    pub(crate) fn is_held(&self, p: usize) -> bool
        ensures { IsTrue result ↔ IsHeld (book_of self.now) p }
    {
        p < self.schedule.len() && self.schedule.state(p) == State::Held
    }

    /// The process that is the next to be held, the first of the queue. `None` if no process is ready, or if the
    /// commits and the held processes are as many as can be counted.
    pub(crate) fn next(&self) -> Option<usize>
        requires { IsKept (book_of self.now) }
        ensures { next_by result (book_of self.now) }
    {
        self.schedule.known();
        if self.is_counted_out() {
            return None;
        }
        self.schedule.next()
    }

    /// Holds process `p`, which is the next to be held.
    pub(crate) fn hold(&mut self, p: usize)
        requires next { IsNextHeld p (book_of self.old) }
        requires kept { IsKept (book_of self.old) }
        ensures claimed { IsClaimed p (book_of self.old) (book_of self.new) }
        ensures kept { IsKept (book_of self.new) }
    {
        self.schedule.set_first(p, State::Held);
    }

    /// Holds the process that is the next to be held, and returns it. `None` if there is none.
    pub(crate) fn hold_next(&mut self) -> Option<usize>
        requires { IsKept (book_of self.old) }
        ensures claims { claims_by result (book_of self.old) (book_of self.new) }
        ensures same { IfNone result (self.new ≡ self.old) }
    {
        let Some(p) = self.next() else {
            return None;
        };
        self.hold(p);
        Some(p)
    }

    /// Whether the commits and the held processes are as many as can be counted.
    fn is_counted_out(&self) -> bool
        requires { self.now.commits + held_count (book_of self.now) < 2 ^ 64 }
        ensures { IsTrue result ↔ (self.now.commits + held_count (book_of self.now) ≡ 2 ^ 64 - 1) }
    {
        self.commits + self.schedule.held() as u64 == u64::MAX
    }

    /// The verdict of the machine. It is a function of its own, so that a test for a verdict at each step takes
    /// only one look at the counts.
    #[cold]
    #[inline(never)]
    pub(crate) fn judge(&self) -> Option<Verdict>
        requires { IsMachine self.now.network.now self.now.machine }
        ensures { let t = self.now.network.now in (told : Option Told)
            → ((result ≡ told) ↔ IsVerdictNow t self.now.machine told) }
    {
        self.machine.verdict(self.network)
    }
}

/// Makes a process that was woken ready, if there is one.
pub(crate) fn wake<A: Allocator>(schedule: &mut Schedule<A>, woken: Option<usize>)
    requires { MayBeReady schedule.old (option_to_list woken) }
    ensures { schedule.new ≡ all_made_ready (option_to_list woken) schedule.old }
{
    if let Some(q) = woken {
        schedule.make_ready(q);
    }
}

/// The number of a process or of a channel, as events have it.
pub(crate) fn number(n: usize) -> u16
    requires { n < 2 ^ 16 }
    ensures { result ≡ n }
{
    n as u16
}
