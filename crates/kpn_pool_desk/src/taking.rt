//! What workers take from the sinks themselves, if they shall.
ghost use Rattle.std.specs.Prelude.{◌≡◌, ◌↔◌, ℤ, true, false, Option, Some, IsTrue};
ghost use Rattle.kpn_book.specs.Outcomes.{IsEnough};
ghost use Rattle.kpn_book.specs.Refusals.{Takes};
ghost use Rattle.kpn_pool_desk.specs.declared.taking.Takers.TheVariants.{Workers};
ghost use Rattle.kpn_pool_desk.specs.Desk.{with_book, taken_by};
ghost use Rattle.kpn_pool_desk.specs.RegionTurn.{TakesOn};

use crate::desk::Desk;
use crate::job::Job;
use std::alloc::Allocator;

/// Who takes what comes to the sinks.
#[derive(Clone, Copy, Debug, PartialEq, Eq)]
pub enum Takers {
    /// Those outside, by the seats of the sinks.
    Seats,
    /// The workers where they run regions, and else those outside. This many items of each sink are wanted; the workers
    /// may take more.
    Workers(Option<u64>),
}

impl<'n, J: Job, A: Allocator> Desk<'n, J, A> {
    /// From now on workers that run regions take what comes to the sinks. Once there are this many items of each, if
    /// that is wanted, they call the outside. What they take is in no seat's list.
    pub fn let_workers_take(&mut self, wanted: Option<u64>)
        ensures { self.new ≡ taken_by (Workers wanted) self.old }
    {
        self.takers = Takers::Workers(wanted);
    }

    /// Whether what is wanted of the sinks, if anything, was read.
    pub fn has_enough(&self, wanted: Option<u64>) -> bool
        ensures { IsTrue result ↔ IsEnough self.now.book.tables self.now.book.history wanted }
    {
        let Some(items) = wanted else {
            return false;
        };
        let network = self.book.network();
        'channels: for c in 0..network.channels() {
            if network.is_sink(c) && (self.book.read_count(c) as u64) < items {
                return false;
            }
        }
        true
    }

    /// Whether the workers take and have taken what is wanted.
    pub(crate) fn have_taken_enough(&self) -> bool {
        match self.takers {
            Takers::Workers(wanted) => self.has_enough(wanted),
            Takers::Seats => false,
        }
    }

    /// Takes the next item of a sink. Returns whether there was one.
    fn take_one(&mut self, c: usize) -> bool
        ensures took { (result ≡ true) → (item : ℤ) × Takes c (Some item) self.old.book self.new.book }
        ensures none { (result ≡ false) → self.new ≡ self.old }
        ensures same { self.new ≡ with_book self.new.book self.old }
    {
        let Ok(Some(_)) = self.book.take(c) else {
            return false;
        };
        self.book.known();
        true
    }

    /// Takes all that is unread at a channel, if it is a sink.
    #[tactic(auto, using(kpn_net::proofs::Networks::sink_there))]
    fn take_from(&mut self, c: usize, wanted: Option<u64>)
        requires { self.old.takers ≡ Workers wanted }
        ensures takes { TakesOn self.old.takers self.old.book self.new.book }
        ensures same { self.new ≡ with_book self.new.book self.old }
    {
        if !self.book.network().is_sink(c) {
            return;
        }
        'items: for _item in 0..self.book.unread_count(c) {
            if !self.take_one(c) {
                return;
            }
        }
    }

    /// Takes all that is unread at the sinks, if the workers take.
    pub(crate) fn take_from_sinks(&mut self)
        ensures takes { TakesOn self.old.takers self.old.book self.new.book }
        ensures same { self.new ≡ with_book self.new.book self.old }
    {
        let Takers::Workers(wanted) = self.takers else {
            return;
        };
        'channels: for c in 0..self.book.network().channels() {
            self.take_from(c, wanted);
        }
    }
}
