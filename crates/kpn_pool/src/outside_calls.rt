//! The calls of the outside on a shared desk. Each waits for the lock, and only those that say so wait for more.
ghost use Rattle.std.specs.Prelude.{◌≡◌, ◌≢◌, ◌<◌, ◌≤◌, ℤ, ◌++◌, length, take, IfOk, IfErr, OnErr, OnOk, IsTrue, true, Some, Err};
ghost use Rattle.kpn_lang.specs.Prefix.{IsPrefix};
ghost use Rattle.kpn_net.specs.Tables.{channel_at, is_source, is_sink};
ghost use Rattle.kpn_chan.specs.Channel.{unread};
ghost use Rattle.kpn_machine.specs.Machine.{channel_in};
ghost use Rattle.kpn_pool_desk.specs.declared.crew.Awaited.TheVariants.{There};
ghost use Rattle.kpn_pool_desk.specs.OutsideSeats.{with_new_item, with_taken, HaveTaken, TakesMore, FeedsUntil, MayRefuseFeed, MayRefuseEnd, MayRefuseTake, MayRefuseTakes, MayRefuseSnapshot, AreSinks};
ghost use Rattle.kpn_book.specs.declared.answers.Refused.TheVariants.{Full};
ghost use Rattle.std.specs.Sync.Mutex.{mutex_guard_value};
ghost use Rattle.kpn_book.specs.Snapshot.{ShowsARun, shown_on, IsBelowKahn, IsKahnAtRest};

use crate::shared::Shared;
use kpn_pool_desk::{
    Awaited, Desk, Job, Need, Refused, SinkSeat, SnapFault, SourceSeat, View, take_from_each,
};
use std::alloc::Allocator;
use std::sync::{MutexGuard, Wait};
use std::time::Clock;

/// Feeds an item to the source of the seat. It is refused as the book refuses it: with the seat of another network
/// there may be no such source.
pub fn feed<J: Job, A: Allocator + Copy, B: Allocator, R: Wait>(
    rt: &R,
    shared: &Shared<'_, J, A>,
    seat: &mut SourceSeat<B>,
    item: i64,
    bound: usize,
) -> Result<(), Refused>
    ensures fed { OnOk result (seat.new ≡ with_new_item item seat.old) }
    ensures as_before { OnErr result (seat.new ≡ seat.old) }
    ensures source { OnOk result (is_source (channel_at J.network seat.old.channel) ≡ true) }
    ensures refused { IfErr result (λ cause.
        MayRefuseFeed (is_source (channel_at J.network seat.old.channel)) item cause) }
{
    let mut desk = shared.lock(rt);
    let fed = seat.feed(&mut desk, item, bound);
    shared.tell(desk);
    fed
}

/// Feeds these items to the source of the seat, one after the other, under one hold of the lock. If one is refused,
/// those before it were fed.
pub fn feed_all<J: Job, A: Allocator + Copy, B: Allocator, R: Wait>(
    rt: &R,
    shared: &Shared<'_, J, A>,
    seat: &mut SourceSeat<B>,
    items: &[i64],
    bound: usize,
) -> Result<(), Refused>
    ensures channel { seat.new.channel ≡ seat.old.channel }
    ensures fed { OnOk result (seat.new.items ≡ seat.old.items ++ items.now) }
    ensures before { IsPrefix seat.old.items seat.new.items }
    ensures kept { seat.new.forgotten ≡ seat.old.forgotten }
    ensures source { OnOk result (0 < length items.now
        → is_source (channel_at J.network seat.old.channel) ≡ true) }
    ensures refused { IfErr result (λ cause. FeedsUntil items.now seat.old seat.new (λ item.
        MayRefuseFeed (is_source (channel_at J.network seat.old.channel)) item cause)) }
{
    let mut desk = shared.lock(rt);
    let fed = seat.feed_all(&mut desk, items, bound);
    shared.tell(desk);
    fed
}

/// Closes the source of the seat. A second time it changes nothing.
pub fn close<J: Job, A: Allocator, B: Allocator, R: Wait>(
    rt: &R,
    shared: &Shared<'_, J, A>,
    seat: &SourceSeat<B>,
) -> Result<(), Refused>
    ensures source { OnOk result (is_source (channel_at J.network seat.now.channel) ≡ true) }
    ensures refused { IfErr result (λ cause.
        MayRefuseEnd (is_source (channel_at J.network seat.now.channel)) cause) }
{
    let mut desk = shared.lock(rt);
    let closed = seat.close(&mut desk);
    shared.tell(desk);
    closed
}

/// Takes the next item from the sink of the seat, or none if nothing is unread.
pub fn take<J: Job, A: Allocator, B: Allocator, R: Wait>(
    rt: &R,
    shared: &Shared<'_, J, A>,
    seat: &mut SinkSeat<B>,
) -> Result<Option<i64>, Refused>
    ensures taken { IfOk result (λ item. seat.new ≡ with_taken item seat.old) }
    ensures as_before { OnErr result (seat.new ≡ seat.old) }
    ensures sink { OnOk result (is_sink (channel_at J.network seat.old.channel) ≡ true) }
    ensures refused { IfErr result (λ cause.
        MayRefuseTake (is_sink (channel_at J.network seat.old.channel)) cause) }
{
    let mut desk = shared.lock(rt);
    let item = seat.take(&mut desk);
    shared.tell(desk);
    item
}

/// Takes all that is unread at the sinks of these seats, under one hold of the lock. If it is refused, what was taken
/// before that stays with the seats.
pub fn take_each<J: Job, A: Allocator, B: Allocator, R: Wait>(
    rt: &R,
    shared: &Shared<'_, J, A>,
    seats: &mut [SinkSeat<B>],
) -> Result<(), Refused>
    ensures taken { HaveTaken seats.old seats.new }
    ensures sinks { OnOk result (AreSinks J.network seats.old) }
    ensures refused { IfErr result (MayRefuseTakes J.network seats.old) }
{
    let mut desk = shared.lock(rt);
    let taken = take_from_each(&mut desk, seats);
    shared.tell(desk);
    taken?;
    Ok(())
}

/// Waits until it is time to take from a sink, and does what `take_each` does. Returns whether the run goes on: not if
/// all workers have ended.
///
/// It is time once a sink of these seats is half full, or has an item while no worker is busy, and anyhow after some
/// milliseconds while a worker is busy.
pub fn take_when_due<J: Job, A: Allocator, B: Allocator, R: Wait + Clock>(
    rt: &R,
    shared: &Shared<'_, J, A>,
    seats: &mut [SinkSeat<B>],
) -> Result<bool, Refused>
    ensures taken { HaveTaken seats.old seats.new }
    ensures sinks { OnOk result (AreSinks J.network seats.old) }
    ensures refused { IfErr result (MayRefuseTakes J.network seats.old) }
{
    let mut desk = shared.lock_when_due(rt, seats);
    let goes_on = take_from_each(&mut desk, seats);
    shared.tell(desk);
    goes_on
}

/// Waits until the sink of the seat has an item or all workers have ended, and then takes all that is unread there,
/// under one hold of the lock.
///
/// It sleeps until a worker puts an item on a sink or ends. It is refused as `take` is, and then does not wait. If it
/// is refused, what was taken before that stays with the seat.
pub fn take_when_there<J: Job, A: Allocator, B: Allocator, R: Wait + Clock>(
    rt: &R,
    shared: &Shared<'_, J, A>,
    seat: &mut SinkSeat<B>,
) -> Result<Awaited, Refused>
    ensures taken { TakesMore seat.old seat.new }
    ensures there { IfOk result (λ awaited. (awaited ≡ There)
        → length seat.old.items < length seat.new.items) }
    ensures sink { OnOk result (is_sink (channel_at J.network seat.old.channel) ≡ true) }
    ensures refused { IfErr result (λ cause.
        MayRefuseTake (is_sink (channel_at J.network seat.old.channel)) cause) }
{
    // a sink that was left refuses here, and does not keep its seat waiting
    let desk = shared.lock(rt);
    if let Some(awaited) = take_from(shared, desk, seat)? {
        return Ok(awaited);
    }
    let sink = seat.channel();
    let (desk, awaited) = shared.lock_when(rt, Need::Item { sink });
    take_from(shared, desk, seat)?;
    Ok(awaited)
}

/// Takes all that is unread at the sink of the seat, and lets the desk go. Returns what a wait for an item has come to
/// by that, or `None` if it goes on.
fn take_from<'l, 'n, J: Job, A: Allocator, B: Allocator>(
    shared: &'l Shared<'n, J, A>,
    desk: MutexGuard<'l, Desk<'n, J, A>>,
    seat: &mut SinkSeat<B>,
) -> Result<Option<Awaited>, Refused>
    ensures taken { TakesMore seat.old seat.new }
    ensures there { IfOk result (λ found. (found ≡ Some There)
        → length seat.old.items < length seat.new.items) }
    ensures all { OnOk result (seat.new.items ≡ seat.old.items
        ++ unread (channel_in (mutex_guard_value desk.entry).book.machine seat.old.channel)) }
    ensures sink { OnOk result (is_sink (channel_at J.network seat.old.channel) ≡ true) }
    ensures refused { IfErr result (λ cause.
        MayRefuseTake (is_sink (channel_at J.network seat.old.channel)) cause) }
{
    let mut desk = desk;
    let found = seat.take_there(&mut desk);
    shared.tell(desk);
    found
}

/// Waits until the source of the seat has room for an item under the bound or all workers have ended, and then feeds
/// the first ones of these items, as many as there is room for, under one hold of the lock. Returns how many it fed: of
/// some items none only if all workers have ended.
///
/// It sleeps until a worker reads from a source or ends. It is refused as `feed` is, but never as full, and then does
/// not wait. If it is refused, the items before that were fed.
pub fn feed_when_room<J: Job, A: Allocator + Copy, B: Allocator, R: Wait + Clock>(
    rt: &R,
    shared: &Shared<'_, J, A>,
    seat: &mut SourceSeat<B>,
    items: &[i64],
    bound: usize,
) -> Result<usize, Refused>
    ensures channel { seat.new.channel ≡ seat.old.channel }
    ensures fed { IfOk result (λ count. (count ≤ length items.now)
        × (seat.new.items ≡ seat.old.items ++ take count items.now)) }
    ensures before { IsPrefix seat.old.items seat.new.items }
    ensures kept { seat.new.forgotten ≡ seat.old.forgotten }
    ensures source { OnOk result (0 < length items.now
        → is_source (channel_at J.network seat.old.channel) ≡ true) }
    ensures refused { IfErr result (λ cause. FeedsUntil items.now seat.old seat.new (λ item.
        MayRefuseFeed (is_source (channel_at J.network seat.old.channel)) item cause)) }
    ensures never_full { (item : ℤ) → result ≢ Err (Full item) }
{
    let source = seat.channel();
    let (mut desk, _) = shared.lock_when(rt, Need::Room { source, bound });
    let fed = seat.feed_first(&mut desk, items, bound);
    shared.tell(desk);
    fed
}

/// Leaves the sink of the seat: nothing is taken from it any more, and it is never full. A second time it changes
/// nothing.
pub fn leave<J: Job, A: Allocator, B: Allocator, R: Wait>(
    rt: &R,
    shared: &Shared<'_, J, A>,
    seat: &SinkSeat<B>,
) -> Result<(), Refused>
    ensures sink { OnOk result (is_sink (channel_at J.network seat.now.channel) ≡ true) }
    ensures refused { IfErr result (λ cause.
        MayRefuseEnd (is_sink (channel_at J.network seat.now.channel)) cause) }
{
    let mut desk = shared.lock(rt);
    let left = seat.leave(&mut desk);
    shared.tell(desk);
    left
}

/// The run as it is seen at one moment, with all that the seat has fed: a legal history of the run's network that owes
/// no growth agrees with it; each journal is a prefix of the least solution for what was fed, and is that solution
/// if each process has ended or waits on an empty channel.
pub fn snapshot<J: Job, A: Allocator, B: Allocator, C: Allocator + Copy, R: Wait>(
    rt: &R,
    alloc: C,
    shared: &Shared<'_, J, A>,
    seat: &SourceSeat<B>,
) -> Result<View<C>, SnapFault>
    ensures run { IfOk result (λ view. ShowsARun J.network view) }
    ensures below { IfOk result (λ view. IsBelowKahn J.network view) }
    ensures quiet { IfOk result (λ view. IsKahnAtRest J.network view) }
    ensures source { IfOk result (λ _. IsTrue (is_source (channel_at J.network seat.now.channel))) }
    ensures fresh { IfOk result (λ view. IsPrefix seat.now.items (shown_on view seat.now.channel)) }
    ensures refused { IfErr result
        (MayRefuseSnapshot (is_source (channel_at J.network seat.now.channel)) seat.now.items) }
{
    let look = shared.look(rt);
    seat.snapshot(alloc, look.desk())
}
