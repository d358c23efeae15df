//! The seats of the outside, which feeds sources and takes from sinks.
ghost use Rattle.std.specs.Prelude.{◌≡◌, ◌≢◌, ◌<◌, ◌≤◌, ℤ, true, false, [], ◌++◌, length, take, nat_lt, Some, Err, IfOk, IfErr, OnErr, OnOk, IsTrue};
ghost use Rattle.kpn_lang.specs.Prefix.{IsPrefix};
ghost use Rattle.kpn_net.specs.Tables.{channel_at, is_source, is_sink};
ghost use Rattle.kpn_chan.specs.Channel.{unread};
ghost use Rattle.kpn_history.specs.declared.event.Event.TheVariants as event;
ghost use Rattle.kpn_history.specs.Views.{Agrees};
ghost use Rattle.kpn_machine.specs.Machine.{channel_in};
ghost use Rattle.kpn_book.specs.Appending.{AppendsAll};
ghost use Rattle.kpn_book.specs.Refusals.{RefusesFeed, RefusesClose, RefusesTake, RefusesLeave, Feeds, Closes, Takes, Leaves};
ghost use Rattle.kpn_pool_desk.specs.Desk.{with_book};
ghost use Rattle.kpn_book.specs.Snapshot.{ShowsARun, shown_on, IsBelowKahn, IsKahnAtRest};
ghost use Rattle.kpn_book.specs.declared.answers.Refused.TheVariants.{Full};
ghost use Rattle.kpn_pool_desk.specs.declared.crew.Awaited.TheVariants.{There, Ended};
ghost use Rattle.kpn_pool_desk.specs.declared.outside_seats.SnapFault.TheVariants.{Foreign, Forgotten, NoMemory};
ghost use Rattle.kpn_pool_desk.specs.Waiting.{IsFullSource};
ghost use Rattle.kpn_pool_desk.specs.OutsideSeats.{with_new_item, with_taken, kept_by, forgetful, HaveTaken, TakesMore, new_end, AreRecorded, FeedsUntil, TakesFirst, MayRefuseFeed, MayRefuseEnd, MayRefuseTake, MayRefuseTakes, MayRefuseSnapshot, HasFed, IsForgotten, fault_of, AreSinks, TakeInTurn, TakeUntil};

use crate::crew::Awaited;
use crate::desk::Desk;
use crate::job::Job;
use crate::recent::Recent;
use kpn_book::{Refused, View};
use kpn_chan::Unread;
use std::alloc::{Allocator, Global};
use std::marker::Model;
use thiserror::Error;

/// Why a seat is given no snapshot, with its number.
#[derive(Clone, Copy, Debug, PartialEq, Eq, Error)]
pub enum SnapFault {
    /// 47: there is no such source, or what the seat fed does not begin its journal: the seat is one of another run.
    #[error("the seat is one of another run")]
    Foreign,
    /// The seat was told to forget what it fed, or the run does not keep all journals.
    #[error("it was not kept")]
    Forgotten,
    /// 42: memory ran out.
    #[error("memory ran out")]
    NoMemory,
}

impl From<Unread> for SnapFault {
    ghost from_gives = { λ why fault. fault ≡ fault_of why };

    fn from(why: Unread) -> SnapFault {
        match why {
            Unread::Forgotten => SnapFault::Forgotten,
            Unread::NoMemory => SnapFault::NoMemory,
        }
    }
}

/// A seat that feeds a source: the channel's number, and the list of what this seat fed.
#[derive(Drop)]
pub struct SourceSeat<A: Allocator = Global> {
    channel: usize,
    fed: Recent<A>,
}

impl<A: Allocator> Model for SourceSeat<A> {
    ghost use Rattle.kpn_pool_desk.specs.OutsideSeats.{EndSeat};

    ghost Value = { EndSeat };

    ghost view = { λ s. record {
      channel = s.channel;
      items = s.fed.items;
      forgotten = s.fed.forgotten;
    } };
}

impl<A: Allocator> SourceSeat<A> {
    /// The seat of a source, to which it has fed nothing.
    pub(crate) fn new(alloc: A, channel: usize) -> Self
        ensures { result ≡ new_end channel }
    {
        SourceSeat {
            channel,
            fed: Recent::new(alloc),
        }
    }

    /// The number of the source.
    pub fn channel(&self) -> usize
        ensures { result ≡ self.now.channel }
    {
        self.channel
    }

    /// What this seat fed, in order; only what it fed since it was told to forget, if it was.
    pub fn fed(&self) -> &[i64]
        ensures kept { result.now ≡ kept_by self.now }
        ensures within { self.now.forgotten ≤ length self.now.items }
    {
        self.fed.items()
    }

    /// Forgets what this seat fed so far. A run that has no end may call it after each feed.
    pub fn forget(&mut self)
        ensures { self.new ≡ forgetful self.old }
    {
        self.fed.forget();
    }

    /// Feeds an item to the source. It is refused as the book refuses it; memory is wanted for the seat's own list too.
    #[tactic(auto, using(crate::proofs::Keeping::appends, crate::proofs::Keeping::there, crate::proofs::Keeping::feed_refused))]
    pub fn feed<J: Job, B: Allocator + Copy>(
        &mut self,
        desk: &mut Desk<'_, J, B>,
        item: i64,
        bound: usize,
    ) -> Result<(), Refused>
        ensures done { IfOk result (λ _.
            Feeds self.old.channel item bound desk.old.book desk.new.book) }
        ensures source { OnOk result (is_source (channel_at J.network self.old.channel) ≡ true) }
        ensures fed { OnOk result (self.new ≡ with_new_item item self.old) }
        ensures desk { desk.new ≡ with_book desk.new.book desk.old }
        ensures refused { IfErr result (λ cause.
            RefusesFeed self.old.channel item bound desk.old.book cause) }
        ensures may_refuse { IfErr result (λ cause.
            MayRefuseFeed (is_source (channel_at J.network self.old.channel)) item cause) }
        ensures as_before { OnErr result ((self.new ≡ self.old) × (desk.new ≡ desk.old)) }
    {
        let Ok(()) = self.fed.reserve_one() else {
            let fault = desk.book.feed_fault(self.channel, item, bound);
            return Err(fault.unwrap_or(Refused::NoMemory));
        };
        desk.book.feed(self.channel, item, bound)?;
        desk.book.known();
        self.fed.push_reserved(item);
        Ok(())
    }

    /// Feeds these items to the source, one after the other. If one is refused, as the book refuses it, those before it
    /// were fed.
    #[tactic(auto, using(crate::proofs::Keeping::begins))]
    pub fn feed_all<J: Job, B: Allocator + Copy>(
        &mut self,
        desk: &mut Desk<'_, J, B>,
        items: &[i64],
        bound: usize,
    ) -> Result<(), Refused>
        ensures channel { self.new.channel ≡ self.old.channel }
        ensures fed { OnOk result (self.new.items ≡ self.old.items ++ items.now) }
        ensures before { IsPrefix self.old.items self.new.items }
        ensures kept { self.new.forgotten ≡ self.old.forgotten }
        ensures recorded { AreRecorded AppendsAll event.Feed
            self.old self.new desk.old.book desk.new.book }
        ensures source { OnOk result (0 < length items.now
            → is_source (channel_at J.network self.old.channel) ≡ true) }
        ensures desk { desk.new ≡ with_book desk.new.book desk.old }
        ensures refused { IfErr result (λ cause. FeedsUntil items.now self.old self.new (λ item.
            RefusesFeed self.old.channel item bound desk.new.book cause)) }
        ensures may_refuse { IfErr result (λ cause. FeedsUntil items.now self.old self.new (λ item.
            MayRefuseFeed (is_source (channel_at J.network self.old.channel)) item cause)) }
    {
        'items: for item in items {
            self.feed(desk, *item, bound)?;
        }
        Ok(())
    }

    /// Feeds the first ones of these items, as many as there is room for. Returns how many it fed: of some items none
    /// only if all workers have ended. It is refused as the book refuses a feed, but never as full, and then the items
    /// before that were fed.
    pub fn feed_first<J: Job, B: Allocator + Copy>(
        &mut self,
        desk: &mut Desk<'_, J, B>,
        items: &[i64],
        bound: usize,
    ) -> Result<usize, Refused>
        requires room { IsFullSource self.old.channel bound desk.old.book
            → desk.old.working ≡ 0 }
        ensures channel { self.new.channel ≡ self.old.channel }
        ensures fed { IfOk result (λ count. (count ≤ length items.now)
            × (self.new.items ≡ self.old.items ++ take count items.now)) }
        ensures before { IsPrefix self.old.items self.new.items }
        ensures kept { self.new.forgotten ≡ self.old.forgotten }
        ensures none { IfOk result (λ count. (count ≡ 0) → 0 < length items.now
            → desk.old.working ≡ 0) }
        ensures recorded { AreRecorded AppendsAll event.Feed
            self.old self.new desk.old.book desk.new.book }
        ensures source { OnOk result (0 < length items.now
            → is_source (channel_at J.network self.old.channel) ≡ true) }
        ensures desk { desk.new ≡ with_book desk.new.book desk.old }
        ensures refused { IfErr result (λ cause. FeedsUntil items.now self.old self.new (λ item.
            RefusesFeed self.old.channel item bound desk.new.book cause)) }
        ensures may_refuse { IfErr result (λ cause. FeedsUntil items.now self.old self.new (λ item.
            MayRefuseFeed (is_source (channel_at J.network self.old.channel)) item cause)) }
        ensures never_full { (item : ℤ) → result ≢ Err (Full item) }
    {
        let before = self.fed().len();
        match self.feed_all(desk, items, bound) {
            Ok(()) | Err(Refused::Full(_)) => Ok(self.fed().len() - before),
            Err(refused) => Err(refused),
        }
    }

    /// Whether this seat was told to forget something.
    fn has_forgotten(&self) -> bool
        ensures { result ≡ nat_lt 0 self.now.forgotten }
    {
        self.fed.has_forgotten()
    }

    /// Closes the source. A second time it changes nothing.
    #[tactic(auto, using(crate::proofs::Keeping::closes, crate::proofs::Keeping::there, crate::proofs::Keeping::close_refused))]
    pub fn close<J: Job, B: Allocator>(&self, desk: &mut Desk<'_, J, B>) -> Result<(), Refused>
        ensures done { IfOk result (λ _. Closes self.now.channel desk.old.book desk.new.book) }
        ensures source { OnOk result (is_source (channel_at J.network self.now.channel) ≡ true) }
        ensures desk { desk.new ≡ with_book desk.new.book desk.old }
        ensures refused { IfErr result (λ cause.
            RefusesClose self.now.channel desk.old.book cause) }
        ensures may_refuse { IfErr result (λ cause.
            MayRefuseEnd (is_source (channel_at J.network self.now.channel)) cause) }
        ensures as_before { OnErr result (desk.new ≡ desk.old) }
    {
        desk.book.close_source(self.channel)?;
        desk.book.known();
        Ok(())
    }

    /// The run as it is seen at this moment, with all that the seat has fed, or why the seat is given none.
    pub fn snapshot<J: Job, B: Allocator, C: Allocator + Copy>(
        &self,
        alloc: C,
        desk: &Desk<'_, J, B>,
    ) -> Result<View<C>, SnapFault>
        ensures run { IfOk result (λ view. ShowsARun J.network view) }
        ensures below { IfOk result (λ view. IsBelowKahn J.network view) }
        ensures quiet { IfOk result (λ view. IsKahnAtRest J.network view) }
        ensures source { IfOk result (λ _.
            IsTrue (is_source (channel_at J.network self.now.channel))) }
        ensures fresh { IfOk result (λ view.
            IsPrefix self.now.items (shown_on view self.now.channel)) }
        ensures agrees { IfOk result (λ view.
            Agrees desk.now.book.tables desk.now.book.history view) }
        ensures refused { IfErr result
            (MayRefuseSnapshot (is_source (channel_at J.network self.now.channel)) self.now.items) }
        ensures foreign { IfErr result (λ fault. (fault ≡ Foreign)
            → IsTrue (is_source (channel_at J.network self.now.channel))
            → ¬ (HasFed self.now desk.now.book)) }
        ensures forgotten { IfErr result (λ fault. (fault ≡ Forgotten)
            → IsForgotten self.now desk.now.book) }
    {
        let source = self.channel();
        if !desk.book.network().is_source(source) {
            return Err(SnapFault::Foreign);
        }
        if self.has_forgotten() {
            return Err(SnapFault::Forgotten);
        }
        if !self.fed().is_empty() && !desk.book.journal_begins(source, self.fed()) {
            return Err(SnapFault::Foreign);
        }
        Ok(desk.snapshot(alloc)?)
    }
}

/// A seat that takes from a sink: the channel's number, and the list of what this seat took.
#[derive(Drop)]
pub struct SinkSeat<A: Allocator = Global> {
    channel: usize,
    taken: Recent<A>,
}

impl<A: Allocator> Model for SinkSeat<A> {
    ghost use Rattle.kpn_pool_desk.specs.OutsideSeats.{EndSeat};

    ghost Value = { EndSeat };

    ghost view = { λ s. record {
      channel = s.channel;
      items = s.taken.items;
      forgotten = s.taken.forgotten;
    } };
}

impl<A: Allocator> SinkSeat<A> {
    /// The seat of a sink, from which it has taken nothing.
    pub(crate) fn new(alloc: A, channel: usize) -> Self
        ensures { result ≡ new_end channel }
    {
        SinkSeat {
            channel,
            taken: Recent::new(alloc),
        }
    }

    /// The number of the sink.
    pub fn channel(&self) -> usize
        ensures { result ≡ self.now.channel }
    {
        self.channel
    }

    /// What this seat took, in order; only what it took since it was told to forget, if it was.
    pub fn taken(&self) -> &[i64]
        ensures kept { result.now ≡ kept_by self.now }
        ensures within { self.now.forgotten ≤ length self.now.items }
    {
        self.taken.items()
    }

    /// Forgets what this seat took so far. A run that has no end may call it once it has used what came.
    pub fn forget(&mut self)
        ensures { self.new ≡ forgetful self.old }
    {
        self.taken.forget();
    }

    /// Takes the next item from the sink, or none if nothing is unread. It is refused as the book refuses it; memory is
    /// wanted for the seat's own list too.
    #[tactic(auto, using(crate::proofs::Keeping::takes, crate::proofs::Keeping::there, crate::proofs::Keeping::take_refused))]
    pub fn take<J: Job, B: Allocator>(
        &mut self,
        desk: &mut Desk<'_, J, B>,
    ) -> Result<Option<i64>, Refused>
        ensures done { IfOk result (λ item.
            Takes self.old.channel item desk.old.book desk.new.book) }
        ensures sink { OnOk result (is_sink (channel_at J.network self.old.channel) ≡ true) }
        ensures taken { IfOk result (λ item. self.new ≡ with_taken item self.old) }
        ensures desk { desk.new ≡ with_book desk.new.book desk.old }
        ensures refused { IfErr result (λ cause.
            RefusesTake self.old.channel desk.old.book cause) }
        ensures may_refuse { IfErr result (λ cause.
            MayRefuseTake (is_sink (channel_at J.network self.old.channel)) cause) }
        ensures as_before { OnErr result ((self.new ≡ self.old) × (desk.new ≡ desk.old)) }
    {
        let sink = self.channel;
        let has_room = self.taken.reserve_one().is_ok();
        if !has_room && desk.book.network().is_sink(sink) && desk.book.has_item(sink) {
            return Err(Refused::NoMemory);
        }
        let item = desk.book.take(sink)?;
        desk.book.known();
        if let Some(item) = item {
            self.taken.push_reserved(item);
        }
        Ok(item)
    }

    /// Takes all that is unread at the sink. If it is refused, what was taken before that stays with the seat.
    pub fn take_all<J: Job, B: Allocator>(
        &mut self,
        desk: &mut Desk<'_, J, B>,
    ) -> Result<(), Refused>
        ensures channel { self.new.channel ≡ self.old.channel }
        ensures taken { IsPrefix self.old.items self.new.items }
        ensures all { OnOk result (self.new.items ≡ self.old.items
            ++ unread (channel_in desk.old.book.machine self.old.channel)) }
        ensures none_left { OnOk result
            (unread (channel_in desk.new.book.machine self.old.channel) ≡ []) }
        ensures first { TakesFirst self.old self.new desk.old.book desk.new.book }
        ensures sink { OnOk result (is_sink (channel_at J.network self.old.channel) ≡ true) }
        ensures desk { desk.new ≡ with_book desk.new.book desk.old }
        ensures refused { IfErr result (λ cause.
            RefusesTake self.old.channel desk.new.book cause) }
        ensures may_refuse { IfErr result (λ cause.
            MayRefuseTake (is_sink (channel_at J.network self.old.channel)) cause) }
    {
        'items: while self.take(desk)?.is_some() {}
        Ok(())
    }

    /// Takes all that is unread at the sink. Returns what a wait for an item has come to by that, or `None` if it goes
    /// on. If it is refused, what was taken before that stays with the seat.
    pub fn take_there<J: Job, B: Allocator>(
        &mut self,
        desk: &mut Desk<'_, J, B>,
    ) -> Result<Option<Awaited>, Refused>
        ensures taken { TakesMore self.old self.new }
        ensures all { OnOk result (self.new.items ≡ self.old.items
            ++ unread (channel_in desk.old.book.machine self.old.channel)) }
        ensures there { IfOk result (λ found. (found ≡ Some There)
            → length self.old.items < length self.new.items) }
        ensures ended { IfOk result (λ found. (found ≡ Some Ended) → desk.new.working ≡ 0) }
        ensures none_left { OnOk result
            (unread (channel_in desk.new.book.machine self.old.channel) ≡ []) }
        ensures first { TakesFirst self.old self.new desk.old.book desk.new.book }
        ensures sink { OnOk result (is_sink (channel_at J.network self.old.channel) ≡ true) }
        ensures desk { desk.new ≡ with_book desk.new.book desk.old }
        ensures refused { IfErr result (λ cause.
            RefusesTake self.old.channel desk.new.book cause) }
        ensures may_refuse { IfErr result (λ cause.
            MayRefuseTake (is_sink (channel_at J.network self.old.channel)) cause) }
    {
        let before = self.taken().len();
        self.take_all(desk)?;
        if desk.has_ended() {
            return Ok(Some(Awaited::Ended));
        }
        if self.taken().len() > before {
            return Ok(Some(Awaited::There));
        }
        Ok(None)
    }

    /// Leaves the sink: nothing is taken from it any more, and it is never full. A second time it changes nothing.
    #[tactic(auto, using(crate::proofs::Keeping::leaves, crate::proofs::Keeping::there, crate::proofs::Keeping::leave_refused))]
    pub fn leave<J: Job, B: Allocator>(&self, desk: &mut Desk<'_, J, B>) -> Result<(), Refused>
        ensures done { IfOk result (λ _. Leaves self.now.channel desk.old.book desk.new.book) }
        ensures sink { OnOk result (is_sink (channel_at J.network self.now.channel) ≡ true) }
        ensures desk { desk.new ≡ with_book desk.new.book desk.old }
        ensures refused { IfErr result (λ cause.
            RefusesLeave self.now.channel desk.old.book cause) }
        ensures may_refuse { IfErr result (λ cause.
            MayRefuseEnd (is_sink (channel_at J.network self.now.channel)) cause) }
        ensures as_before { OnErr result (desk.new ≡ desk.old) }
    {
        desk.book.leave_sink(self.channel)?;
        desk.book.known();
        Ok(())
    }
}

/// Takes all that is unread at the sinks of these seats, one after the other. Returns whether the run goes on: not if
/// all workers have ended. If one is refused, as the book refuses it, what was taken before that stays with the seats.
pub fn take_from_each<J: Job, A: Allocator, B: Allocator>(
    desk: &mut Desk<'_, J, B>,
    seats: &mut [SinkSeat<A>],
) -> Result<bool, Refused>
    ensures seats { HaveTaken seats.old seats.new }
    ensures all { OnOk result (TakeInTurn (length seats.old)
        seats.old seats.new desk.old.book desk.new.book) }
    ensures ended { IfOk result (λ goes_on. goes_on ≡ false → desk.new.working ≡ 0) }
    ensures sinks { OnOk result (AreSinks J.network seats.old) }
    ensures refused { IfErr result
        (TakeUntil seats.old seats.new desk.old.book desk.new.book) }
    ensures may_refuse { IfErr result (MayRefuseTakes J.network seats.old) }
    ensures desk { desk.new ≡ with_book desk.new.book desk.old }
{
    'seats: for i in 0..seats.len() {
        let seat = &mut seats[i];
        seat.take_all(desk)?;
    }
    Ok(!desk.has_ended())
}
