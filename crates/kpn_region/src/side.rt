//! A channel, as far as a region sees it.
ghost use Rattle.std.specs.Prelude.{◌≡◌, ◌<◌, ◌≤◌, ◌++◌, true, false, [], length, take, IsTrue, OnOk, OnErr, is_ok, if◌then◌else◌, IfSome, IfNone};
ghost use Rattle.kpn_chan.specs.Channel.{readable};
ghost use Rattle.kpn_region.specs.Local.{claimed_with, no_side, untaken, next_of, with_next_taken, with_item_put, as_claimed};

use kpn_chan::Channel;
use std::alloc::{AllocError, Allocator, Global};
use std::marker::Model;

/// No process.
const NOBODY: u16 = u16::MAX;

/// A region puts no more items on a channel: as many can be joined to a roomy one without memory.
const MOST_PUT: usize = 4_096;

/// The items of a channel that were claimed, and then those that the region has put; how many of them were taken; how
/// many may be there that are not taken; and whether it is a sink that the region empties.
#[derive(Debug, Drop)]
pub struct RegionSide<A: Allocator = Global> {
    items: Vec<i64, A>,
    claimed: usize,
    taken: usize,
    room: u64,
    drains: bool,
    // the most items that were there and not taken when the region had put one
    most: usize,
    // the process that can't go on because of this channel
    stuck: u16,
}

impl<A: Allocator> Model for RegionSide<A> {
    ghost use Rattle.std.specs.Prelude.{◌≤◌, length};
    ghost use Rattle.kpn_region.specs.Local.{SideState};

    ghost Value = { SideState };

    ghost view = { λ s. record {
      items = s.items.items;
      claimed = s.claimed;
      taken = s.taken;
      room = s.room;
      is_drained = s.drains;
      most = s.most;
    } };

    ghost invariant = { λ s. (s.claimed ≤ length s.items.items) × (s.taken ≤ length s.items.items) };
}

impl<A: Allocator> RegionSide<A> {
    /// A channel of which the region sees nothing.
    pub(crate) fn new(alloc: A) -> Self
        ensures { result ≡ no_side }
    {
        RegionSide {
            items: Vec::new(alloc),
            claimed: 0,
            taken: 0,
            room: 0,
            drains: false,
            most: 0,
            stuck: NOBODY,
        }
    }

    /// The channel becomes one of which the region sees nothing, and keeps its memory.
    pub(crate) fn clear(&mut self)
        ensures { self.new ≡ no_side }
    {
        self.items.clear();
        self.claimed = 0;
        self.taken = 0;
        self.room = 0;
        self.drains = false;
        self.most = 0;
        self.stuck = NOBODY;
    }

    /// The channel as it is claimed, with these items. The error is that memory ran out: the region then sees nothing of it.
    pub(crate) fn claim(&mut self, items: &[i64], room: u64, drains: bool) -> Result<(), AllocError>
        ensures { self.new
            ≡ (if is_ok result then claimed_with items.now room drains else no_side) }
    {
        self.clear();
        self.items.extend_from_slice(items)?;
        self.claimed = self.items.len();
        self.room = room;
        self.drains = drains;
        Ok(())
    }

    /// The channel as it is claimed, with its first `n` unread items. The error is that memory ran out: the region then
    /// sees nothing of it.
    pub(crate) fn claim_front<B: Allocator>(
        &mut self,
        channel: &Channel<B>,
        n: usize,
        room: u64,
        drains: bool,
    ) -> Result<(), AllocError>
        requires { n ≤ length (readable channel.now) }
        ensures { self.new ≡ (if is_ok result
            then claimed_with (take n (readable channel.now)) room drains else no_side) }
    {
        self.clear();
        fill_front(&mut self.items, channel, n)?;
        self.claimed = n;
        self.room = room;
        self.drains = drains;
        Ok(())
    }

    /// The items that were claimed, and then those that the region has put.
    pub fn items(&self) -> &[i64]
        ensures { result.now ≡ self.now.items }
    {
        self.items.as_slice()
    }

    /// How many items were claimed.
    pub fn claimed(&self) -> usize
        ensures { result ≡ self.now.claimed }
    {
        self.claimed
    }

    /// How many items were taken.
    pub fn taken(&self) -> usize
        ensures { result ≡ self.now.taken }
    {
        self.taken
    }

    /// How many items may be there that are not taken.
    pub fn room(&self) -> u64
        ensures { result ≡ self.now.room }
    {
        self.room
    }

    /// Whether it is a sink that the region empties.
    #[inline(always)]
    pub fn is_drained(&self) -> bool
        ensures { result ≡ self.now.is_drained }
    {
        self.drains
    }

    /// The most items that were there and not taken when the region had put one; 0 if it has put none.
    pub(crate) fn most(&self) -> usize
        ensures { result ≡ self.now.most }
    {
        self.most
    }

    /// Whether the region sees nothing of the channel, and has put nothing there.
    pub(crate) fn is_unseen(&self) -> bool
        ensures items { IsTrue result → self.now.items ≡ [] }
        ensures claimed { IsTrue result → self.now.claimed ≡ 0 }
        ensures taken { IsTrue result → self.now.taken ≡ 0 }
        ensures room { IsTrue result → self.now.room ≡ 0 }
        ensures drained { IsTrue result → self.now.is_drained ≡ false }
    {
        self.room == 0 && self.items.is_empty() && !self.drains
    }

    /// Does nothing. A caller's proof learns from it what holds of every side.
    pub(crate) fn known(&self)
        ensures { self.now.claimed ≤ length self.now.items }
    {
        let _ = &self.items;
    }

    /// Takes the next item. If there is none, it returns `None` and the channel stays as it was.
    #[inline(always)]
    pub(crate) fn get(&mut self) -> Option<i64>
        ensures item { result ≡ next_of self.old }
        ensures some { IfSome result (λ _. self.new ≡ with_next_taken self.old) }
        ensures none { IfNone result (self.new ≡ self.old) }
    {
        let item = *self.items.get(self.taken)?;
        self.taken += 1;
        Some(item)
    }

    /// Whether there is room for one more item, and one more can be joined.
    #[inline(always)]
    pub(crate) fn has_room(&self) -> bool
        ensures { IsTrue result → length (untaken self.now) < self.now.room }
    {
        ((self.items.len() - self.taken) as u64) < self.room
            && self.items.len() - self.claimed < MOST_PUT
    }

    /// Puts an item after the others. The error is that memory ran out, and then the channel is as before.
    #[inline(always)]
    pub(crate) fn put(&mut self, item: i64) -> Result<(), AllocError>
        ensures after { self.new ≡ (if is_ok result then with_item_put item self.old else self.old) }
        ensures claimed { as_claimed self.new ≡ as_claimed self.old }
    {
        self.items.push(item)?;
        self.most = self.most.max(self.items.len() - self.taken);
        Ok(())
    }

    /// Notes that a process can't go on because of this channel.
    #[inline(always)]
    pub(crate) fn hold(&mut self, p: u16)
        ensures { self.new ≡ self.old }
    {
        self.stuck = p;
    }

    /// The process that could not go on because of this channel, if there is one, which is then forgotten.
    #[inline(always)]
    pub(crate) fn release(&mut self) -> Option<u16>
        ensures { self.new ≡ self.old }
    {
        if self.stuck == NOBODY {
            return None;
        }
        let stuck = self.stuck;
        self.stuck = NOBODY;
        Some(stuck)
    }
}

/// Fills a list, which is empty, with the next `n` items that a reader gets. The error is that memory ran out, and then
/// it stays empty.
fn fill_front<A: Allocator, B: Allocator>(
    items: &mut Vec<i64, A>,
    channel: &Channel<B>,
    n: usize,
) -> Result<(), AllocError>
    requires empty { items.old.items ≡ [] }
    requires there { n ≤ length (readable channel.now) }
    ensures ok { OnOk result (items.new.items ≡ take n (readable channel.now)) }
    ensures err { OnErr result (items.new.items ≡ []) }
{
    items.reserve(n)?;
    let (first, rest) = channel.readable();
    let from_first = first.len().min(n);
    let _first_appended = items.extend_from_slice(&first[..from_first]);
    let _rest_appended = items.extend_from_slice(&rest[..n - from_first]);
    Ok(())
}
