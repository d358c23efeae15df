//! What lies under the lock of a run: each change of it is a call that is lent it.
ghost use Rattle.std.specs.Prelude.{◌≡◌, ◌<◌, true, false, length, IfOk, IfErr, IfSome};
ghost use Rattle.std.specs.List.{sum_by};
ghost use Rattle.kpn_chan.specs.declared.unread.Unread.TheVariants.{Forgotten};
ghost use Rattle.kpn_machine.specs.Machine.{AreKept};
ghost use Rattle.kpn_history.specs.declared.state.Counts.{Counts as Tally};
ghost use Rattle.kpn_history.specs.Views.{Agrees, AreCounts};
ghost use Rattle.kpn_book.specs.Kept.{IsBook};
ghost use Rattle.kpn_book.specs.Remembering.{Remembers};
ghost use Rattle.kpn_pool_desk.specs.declared.crew.Awaited.TheVariants.{There, Ended};
ghost use Rattle.kpn_pool_desk.specs.declared.crew.Need.TheVariants.{Item, Room};
ghost use Rattle.kpn_pool_desk.specs.Desk.{halted, IsOpened, IsReason, ready_in, share_in};
ghost use Rattle.kpn_pool_desk.specs.Seat.{AreNewSeats};
ghost use Rattle.kpn_pool_desk.specs.Waiting.{IsMet};
ghost use Rattle.kpn_book.specs.Snapshot.{ShowsARun, ShowsJournals, IsBelowKahn, IsKahnAtRest};
ghost use Rattle.kpn_pool_desk.specs.Invariant.{AreBelowLeast, AreReadThenQueued, AreWithinCapacity, AreBlockedCounts, AreOwedGrowths, AreLeastWhenQuiet, HasNoneLeftToGrow, HasNoneLeftAtStop};

use crate::crew::{Awaited, Crew, Need, share};
use crate::division::Division;
use crate::job::Job;
use crate::outside_seats::SinkSeat;
use crate::seat::{Why, WorkerSeat};
use crate::taking::Takers;
use kpn_book::laws::{a_quiet_book, growths, journals, the_history};
use kpn_book::{Book, Counts, Done, Keeping, Refused, View};
use kpn_chan::Unread;
use kpn_net::Network;
use kpn_step::Stop;
use std::alloc::{AllocError, Allocator, Global};
use std::marker::Model;
use std::sync::ledger;
use std::sync::ledger::Blank;

/// The book of a run, the mark that the workers have to end, and the total of the ledger in which commits are counted.
#[derive(Drop)]
pub struct Desk<'n, J: Job, A: Allocator = Global> {
    // It lies between the word of the lock and what the lock guards. Workers that look on try the lock again and again,
    // and so take the cache line of that word from the one that is at work.
    _gap: [u64; 8],
    pub(crate) book: Book<'n, A>,
    pub(crate) total: ledger::Book<J>,
    halts: bool,
    pub(crate) workers: usize,
    pub(crate) takers: Takers,
    // no contract sees which workers step and which rest, only how many have not ended
    pub(crate) crew: Crew,
    // nor how the network is divided among them
    pub(crate) division: Division<A>,
}

impl<'n, J: Job, A: Allocator> Model for Desk<'n, J, A> {
    ghost use Rattle.std.specs.Coded.{codes};
    ghost use Rattle.kpn_lang.specs.Codes.{parts_code};
    ghost use Rattle.kpn_pool_desk.specs.Desk.{Desk, IsDesk};

    ghost Value = { Desk };

    ghost coded = { Prim.hlevel (codes, parts_code) };

    ghost view = { λ d. record {
      book = d.book;
      total = d.total.total;
      halts = d.halts;
      workers = d.workers;
      working = d.crew.working;
      takers = d.takers;
    } };

    ghost invariant = { λ d.
        IsDesk J.network J.parts J.keeping (record {
          book = d.book;
          total = d.total.total;
          halts = d.halts;
          workers = d.workers;
          working = d.crew.working;
          takers = d.takers;
        }) };
}

impl<'n, J: Job, A: Allocator + Copy> Desk<'n, J, A> {
    /// The desk of a run in which nothing has happened yet, and a seat for each of its workers, in order of number. It
    /// keeps what it is told to keep of what will happen. The error is that memory ran out.
    pub fn with_seats(
        alloc: A,
        blank: Blank,
        network: &'n Network,
        workers: usize,
        keeping: Keeping,
    ) -> Result<(Self, Vec<WorkerSeat<J>, A>), AllocError>
        requires ledger { (blank.name ≡ J.name) × (blank.parts ≡ J.parts) }
        requires network { network.now ≡ J.network }
        requires kept { keeping ≡ J.keeping }
        requires workers { workers ≡ J.parts }
        ensures desk { IfOk result (λ opened. IsOpened opened.0) }
        ensures workers { IfOk result (λ opened. AreNewSeats workers opened.1.items) }
    {
        let mut seats = Vec::with_capacity(alloc, workers)?;
        let (total, mut shares) = blank.open::<J>();
        for number in 0..workers {
            seats.push(WorkerSeat::new(number, shares.split_off(1, 0)))?;
        }
        let desk = Desk::new(alloc, network, total, workers, keeping)?;
        Ok((desk, seats))
    }

    /// The desk of a run in which nothing has happened yet. The error is that memory ran out.
    fn new(
        alloc: A,
        network: &'n Network,
        total: ledger::Book<J>,
        workers: usize,
        keeping: Keeping,
    ) -> Result<Self, AllocError>
        requires network { network.now ≡ J.network }
        requires kept { keeping ≡ J.keeping }
        requires workers { workers ≡ J.parts }
        requires total { total.total ≡ 0 }
        ensures { IfOk result IsOpened }
    {
        let book = Book::keeping(alloc, network, keeping)?;
        Ok(Desk {
            book,
            total,
            halts: false,
            workers,
            takers: Takers::Seats,
            crew: Crew::new(workers),
            division: Division::new(alloc),
            _gap: [0; 8],
        })
    }
}

impl<'n, J: Job, A: Allocator> Desk<'n, J, A> {
    /// Does nothing. A caller's proof learns from it what holds whenever the lock is free: the book is one of the run's
    /// network and keeps what it was told to keep, the ledger's total is the number of its commits, and each journal is
    /// a prefix of Kahn's least solution for the items fed so far, and is what was read followed by what is queued,
    /// within capacity; the counts of blocked processes are exact; each growth took the smallest awaited full channel
    /// of a blocked cycle or of a settled network; when every process has ended or waits on an empty channel, the
    /// journals are that solution; no blocked cycle has a full channel below the limit; and under the policy `all` no
    /// process waits on one once the book is settled. There are as many workers as the ledger has parts.
    pub fn known(&self)
        ensures network { self.now.book.tables ≡ J.network }
        ensures book { IsBook self.now.book }
        ensures kept { Remembers J.keeping self.now.book }
        ensures counted { self.now.total ≡ self.now.book.commits }
        ensures workers { self.now.workers ≡ J.parts }
        ensures below { AreBelowLeast self.now.book }
        ensures queued { AreReadThenQueued self.now.book }
        ensures within { AreWithinCapacity self.now.book }
        ensures counts { (counts : Tally) → AreCounts self.now.book.schedule.states counts
            → AreBlockedCounts self.now.book counts }
        ensures growths { AreOwedGrowths self.now.book }
        ensures quiet { AreLeastWhenQuiet self.now.book }
        ensures none_left { HasNoneLeftToGrow self.now.book }
        ensures at_stop { HasNoneLeftAtStop self.now.book }
    {
        journals();
        the_history();
        growths();
        a_quiet_book();
        let _ = &self.halts;
    }

    /// How many processes are in each state. Those that wait are exactly those that are blocked.
    pub fn counts(&self) -> Counts
        ensures counts { AreCounts self.now.book.schedule.states result }
        ensures blocked { AreBlockedCounts self.now.book result }
    {
        the_history();
        self.book.known();
        self.book.counts()
    }

    /// The run as it is seen at this moment: a legal history that owes no growth agrees with it; each journal is a
    /// prefix of the least solution for what was fed, and is that solution if each process has ended or waits on an
    /// empty channel. A journal that is not kept is an error.
    #[tactic(auto, using(kpn_book::proofs::Snapshots::run_of, kpn_book::proofs::Snapshots::below_of, kpn_book::proofs::Snapshots::shows_journals))]
    pub fn snapshot<B: Allocator + Copy>(&self, alloc: B) -> Result<View<B>, Unread>
        ensures agrees { IfOk result (λ view.
            Agrees self.now.book.tables self.now.book.history view) }
        ensures states { IfOk result (λ view. view.states ≡ self.now.book.schedule.states) }
        ensures run { IfOk result (λ view. ShowsARun J.network view) }
        ensures journals { IfOk result (λ view. ShowsJournals self.now.book view) }
        ensures below { IfOk result (λ view. IsBelowKahn J.network view) }
        ensures quiet { IfOk result (λ view. IsKahnAtRest J.network view) }
        ensures forgotten { IfErr result (λ why.
            why ≡ Forgotten → ¬ AreKept self.now.book.machine) }
    {
        the_history();
        journals();
        self.book.known();
        match self.book.snapshot(alloc) {
            Ok(view) => Ok(view),
            Err(why) => Err(why),
        }
    }

    /// Why a worker ends here instead of a claim, if `most` commits are allowed: it has to; else nothing more can
    /// happen; else the commits have reached that number.
    pub fn reason_to_end(&self, most: u64) -> Option<Why>
        ensures { IsReason self.now most result }
    {
        if self.halts {
            return Some(Why::Halted);
        }
        if let Some(_verdict) = self.book.verdict() {
            return Some(Why::Settled);
        }
        if self.book.commits() >= most {
            return Some(Why::Limit);
        }
        None
    }

    /// Whether all workers have ended.
    pub(crate) fn has_ended(&self) -> bool
        ensures { (result ≡ true) → self.now.working ≡ 0 }
    {
        self.crew.has_ended()
    }

    /// Whether the workers have to end.
    pub(crate) fn has_to_end(&self) -> bool {
        self.halts
    }

    /// How many processes are ready.
    pub(crate) fn ready(&self) -> usize
        ensures { result ≡ ready_in self.now.book }
    {
        self.book.counts().ready
    }

    /// How many of them a worker claims.
    pub(crate) fn share(&self) -> usize
        ensures { result ≡ share_in self.now.workers self.now.book }
    {
        share(self.workers, self.ready())
    }

    /// Whether a channel is a sink that is half full, or, if one item is enough, has that.
    #[tactic(auto, using(kpn_net::proofs::Networks::sink_there))]
    fn is_filled(&self, c: usize, is_one_enough: bool) -> bool {
        let network = self.book.network();
        if !network.is_sink(c) {
            return false;
        }
        let unread = self.book.unread_count(c);
        match network.cap_of(c) {
            Some(cap) => unread >= cap.div_ceil(2) as usize || is_one_enough && unread > 0,
            None => false,
        }
    }

    /// Whether it is time to take from one of these sinks, as it is half full, or has an item and nobody is busy, or
    /// all workers have ended.
    pub(crate) fn are_due<B: Allocator>(&self, seats: &[SinkSeat<B>]) -> bool {
        let is_idle = self.crew.is_idle();
        self.crew.has_ended()
            || seats
                .iter()
                .any(|seat| self.is_filled(seat.channel(), is_idle))
    }

    /// What a wait for this has come to, or `None` if it goes on: all workers have ended, or the call that needs this
    /// finds it or is refused.
    pub(crate) fn awaited(&self, need: Need) -> Option<Awaited>
        ensures there { IfSome result (λ awaited. (awaited ≡ There)
            → IsMet J.network need self.now.book) }
        ensures ended { IfSome result (λ awaited. (awaited ≡ Ended) → self.now.working ≡ 0) }
    {
        if self.crew.has_ended() {
            return Some(Awaited::Ended);
        }
        let is_met = match need {
            Need::Item { sink } => self.has_item(sink),
            Need::Room { source, bound } => self.has_room(source, bound),
        };
        if !is_met {
            return None;
        }
        Some(Awaited::There)
    }

    /// Whether a take from this sink gives an item or is refused.
    #[tactic(auto, using(kpn_net::proofs::Networks::sink_there))]
    fn has_item(&self, sink: usize) -> bool
        ensures { (result ≡ true) → IsMet J.network (Item sink) self.now.book }
    {
        if !self.book.network().is_sink(sink) {
            return true;
        }
        self.book.has_item(sink)
    }

    /// Whether a feed to this source is not refused as full.
    fn has_room(&self, source: usize, bound: usize) -> bool
        ensures { (result ≡ true) → IsMet J.network (Room source bound) self.now.book }
    {
        match self.book.feed_fault(source, 0, bound) {
            Some(Refused::Full(_)) => false,
            _ => true,
        }
    }

    /// Notes that the outside is to be called, if a commit of process `p` that did this at its stop may have ended a
    /// wait of the outside: it has put an item on a sink that is half full or awaited, or has made room at a source
    /// that is awaited.
    pub(crate) fn note(&mut self, p: usize, stop: Stop, done: Done)
        ensures { self.new ≡ self.old }
    {
        let owes = match done {
            Done::Put | Done::Got(_) => self.has_served(p, stop),
            Done::Ended => self.crew.awaits_room(),
            _ => false,
        };
        if owes {
            self.crew.owe_call();
        }
    }

    /// Notes the same of a put on this sink.
    pub(crate) fn note_put(&mut self, sink: usize)
        ensures { self.new ≡ self.old }
    {
        if self.is_filled(sink, self.crew.awaits_item()) {
            self.crew.owe_call();
        }
    }

    /// Notes the same of a region, which may have put items on all sinks and read from a source. If there is enough, the
    /// outside is called.
    pub(crate) fn note_sinks(&mut self)
        ensures { self.new ≡ self.old }
    {
        'channels: for c in 0..self.book.network().channels() {
            self.note_put(c);
        }
        if self.crew.awaits_room() || self.have_taken_enough() {
            self.crew.owe_call();
        }
    }

    /// Whether a get or put of process `p` at this stop is one that somebody outside waits for.
    fn has_served(&self, p: usize, stop: Stop) -> bool {
        let network = self.book.network();
        if p >= network.instances() {
            return false;
        }
        let channel = match stop {
            Stop::WantWrite(port, _item) => network.outs(p).get(port),
            Stop::WantRead(port) if self.crew.awaits_room() => network.ins(p).get(port),
            _ => None,
        };
        match channel {
            Some(c) => network.is_source(*c) || self.is_filled(*c, self.crew.awaits_item()),
            None => false,
        }
    }

    /// The workers have to end.
    pub fn halt(&mut self)
        ensures { self.new ≡ halted self.old }
    {
        self.halts = true;
    }

    /// The book of the run, for the seats of all its workers: its commits are the sum of theirs.
    pub fn into_book(self, workers: Vec<WorkerSeat<J>, A>) -> Book<'n, A>
        requires { (length workers.items ≡ J.parts) × (0 < J.parts) }
        ensures same { result ≡ self.entry.book }
        ensures network { result.tables ≡ J.network }
        ensures kept { Remembers J.keeping result }
        ensures book { IsBook result }
        ensures commits { result.commits ≡ sum_by (λ seat. seat.commits) workers.items }
    {
        let mut workers = workers;
        let Some(last) = workers.pop() else {
            unreachable!()
        };
        let mut all = last.into_share();
        while let Some(seat) = workers.pop() {
            all.merge(seat.into_share());
        }
        let Desk {
            book,
            mut total,
            ..
        } = self;
        total.audit(&mut all);
        book
    }
}
