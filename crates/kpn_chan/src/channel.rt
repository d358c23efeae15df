//! A channel: the journal of all items that were put, in chunks, and a ring of the unread ones, so that a read looks
//! into no chunk.
ghost use Rattle.std.specs.Option.{unwrap_or, is_none};
ghost use Rattle.std.specs.Prelude.{◌≡◌, ◌++◌, drop, ◌+◌, ◌*◌, ◌<◌, ◌≤◌, ◌^◌, max, length, [], ◌↔◌, IsTrue, false, IfErr, true, IsOk, OnOk, OnErr, IfOk, is_ok, if◌then◌else◌, slice_get, take, nat_lt};
ghost use Rattle.kpn_chan.specs.Channel.{unread, is_channel_full, next_item, item_after, readable, opened, opened_as, kept_journal, with_room, after_put, after_get, retired, MayGrow, grown_by_one, MayGrowTo, grown_to, roomy, with_reserved, MayJoin, batch_joined, has_places_for};
ghost use Rattle.kpn_chan.specs.Ring.{MayPass, passed_through};
ghost use Rattle.kpn_chan.specs.declared.unread.Unread.TheVariants.{Forgotten};
ghost use Rattle.kpn_chan.specs.declared.channel.TheConstants.{FIRST_PLACES};
ghost use Rattle.kpn_chan.specs.declared.chunks.TheConstants.{CHUNK};

use crate::chunks::{CHUNK, Chunks, MOST_GONE};
use crate::journal::{Journal, Written};
use crate::unread::Unread;
use circular_buffer::HeapCircularBuffer;
use std::alloc::{AllocError, Allocator, Global};
use std::marker::Model;

/// A queue of whole numbers from one writer to one reader, with all that was ever put on it.
///
/// Contracts see its journal, how many of its items were read, its capacity, whether its reader is gone, whether the
/// next item is reserved, and whether the journal is kept. If it is not, only proofs know what was read long ago.
#[derive(Debug)]
pub struct Channel<A: Allocator = Global> {
    journal: Chunks<A>,
    // the unread items; none once the reader is gone
    ring: Option<HeapCircularBuffer<i64, A>>,
    read: usize,
    capacity: Option<u32>,
    // the most items that were ever unread while the reader was there
    most: usize,
    roomy: bool,
    // it was ever made roomy
    wide: bool,
}

/// It is written out, so that a crate that drops a channel proves nothing about what is inside.
impl<A: Allocator> Drop for Channel<A> {
    fn drop(self) {
        let Channel {
            journal,
            ring,
            read: _,
            capacity: _,
            most: _,
            roomy: _,
            wide: _,
        } = self;
        drop(journal);
        drop(ring);
    }
}

impl<A: Allocator> Model for Channel<A> {
    ghost use Rattle.std.specs.Prelude.{◌&&◌};
    ghost use Rattle.std.specs.Option.{is_none};
    ghost use Rattle.kpn_chan.specs.Channel.{ChannelState};
    ghost use Rattle.kpn_chan.specs.Chunks.{all_of, has_room};
    ghost use Rattle.kpn_chan.specs.Ring.{has_place, IsLaidOut};

    ghost Value = { ChannelState };

    ghost view = { λ c. record {
      journal = all_of c.journal;
      read = c.read;
      capacity = c.capacity;
      is_retired = is_none c.ring;
      is_reserved = has_room c.journal && has_place c.ring;
      is_kept = c.journal.keeps;
      most = c.most;
      is_roomy = c.roomy;
      is_wide = c.wide;
    } };

    ghost invariant = { λ c. IsLaidOut c.journal c.read c.ring c.capacity c.most c.roomy c.wide };
}

/// The most places that a ring begins with, and that of a source has.
pub const FIRST_PLACES: usize = 64;

impl<A: Allocator + Copy> Channel<A> {
    /// An empty channel of this capacity; a source has none. It keeps the allocator for its items.
    ///
    /// The contract leaves open whether its first item is reserved. The error is that memory ran out.
    pub fn new(alloc: A, cap: Option<u32>) -> Result<Self, AllocError>
        ensures { IfOk result (λ channel. channel ≡ opened cap channel.is_reserved) }
    {
        Channel::keeping(alloc, cap, true)
    }

    /// The same channel, whose journal is kept only if `keeps` says so.
    pub fn keeping(alloc: A, cap: Option<u32>, keeps: bool) -> Result<Self, AllocError>
        ensures { IfOk result (λ channel. channel ≡ opened_as keeps cap channel.is_reserved) }
    {
        Ok(Channel {
            journal: Chunks::new(alloc, keeps),
            ring: Some(HeapCircularBuffer::with_capacity(alloc, first_places(cap))?),
            read: 0,
            capacity: cap,
            most: 0,
            roomy: false,
            wide: false,
        })
    }

    /// Makes room for one more item, so that neither the next `put` nor a `grow` before it takes memory. If an item is
    /// reserved already, it stays reserved and the call takes nothing.
    ///
    /// The error is that memory ran out; the channel is then as before.
    #[inline(always)]
    pub fn reserve_one(&mut self) -> Result<(), AllocError>
        ensures after { self.new ≡ (if is_ok result then with_room self.old else self.old) }
        ensures already { IsTrue self.old.is_reserved → IsOk result }
    {
        self.journal.reserve_one()?;
        match &mut self.ring {
            Some(ring) => reserve_place(ring),
            None => Ok(()),
        }
    }

    /// Makes the capacity larger by one, as `grow_to` does.
    pub fn grow(&mut self) -> Result<(), AllocError>
        requires { MayGrow self.old }
        ensures after { self.new
            ≡ (if is_ok result then grown_by_one self.new.is_reserved self.old else self.old) }
        ensures reserved { IsTrue self.old.is_reserved → IsTrue self.new.is_reserved }
        ensures already { IsTrue self.old.is_reserved → IsOk result }
        ensures gone { IsTrue self.old.is_retired → IsOk result }
    {
        match self.capacity {
            Some(capacity) => self.grow_to(capacity + 1),
            None => Ok(()),
        }
    }

    /// Makes the capacity larger: it becomes `cap`, which is above it and at most `MAX_CAPACITY`. The ring gets a free
    /// place if it has none.
    ///
    /// The error is that memory ran out; the channel is then as before. If an item is reserved or the channel is
    /// retired, the call takes no memory. A reserved item stays reserved.
    pub fn grow_to(&mut self, cap: u32) -> Result<(), AllocError>
        requires { MayGrowTo cap self.old }
        ensures after { self.new
            ≡ (if is_ok result then grown_to cap self.new.is_reserved self.old else self.old) }
        ensures reserved { IsTrue self.old.is_reserved → IsTrue self.new.is_reserved }
        ensures already { IsTrue self.old.is_reserved → IsOk result }
        ensures gone { IsTrue self.old.is_retired → IsOk result }
    {
        if let Some(ring) = &mut self.ring {
            reserve_place(ring)?;
        }
        self.capacity = Some(cap);
        self.roomy = false;
        Ok(())
    }

    /// Makes the channel roomy: then a `join` takes no memory, until the channel grows or a `join` has used up what was
    /// made ready. There are as many places for unread items as fill the channel, and of a journal that is kept a free
    /// chunk.
    ///
    /// The error is that memory ran out. A reserved item stays reserved.
    pub fn make_roomy(&mut self) -> Result<(), AllocError>
        ensures after { self.new ≡ (if is_ok result then roomy self.new.is_reserved self.old
            else with_reserved self.new.is_reserved self.old) }
        ensures reserved { IsTrue self.old.is_reserved → IsTrue self.new.is_reserved }
    {
        if !self.roomy {
            self.journal.make_next()?;
            if let Some(ring) = &mut self.ring {
                widen(ring, self.capacity)?;
            }
        }
        self.roomy = true;
        self.wide = true;
        Ok(())
    }

    /// Counts `taken` items more as read, and puts these after the others, at once. Items that are put and read never
    /// enter the ring. `most` items were unread meanwhile, or fewer. It takes no memory.
    ///
    /// The contract leaves open whether an item is reserved, and whether the channel is roomy, unless nothing is put.
    pub fn join(&mut self, taken: usize, items: &[i64], most: usize)
        requires { MayJoin taken items.now most self.old }
        ensures after { self.new ≡ batch_joined taken items.now most
            self.new.is_reserved self.new.is_roomy self.old }
        ensures reserved { items.now ≡ [] → IsTrue self.old.is_reserved
            → IsTrue self.new.is_reserved }
        ensures roomy { items.now ≡ [] → IsTrue self.old.is_roomy → IsTrue self.new.is_roomy }
    {
        pass_through(&mut self.ring, &mut self.most, taken, items, most);
        self.read += taken;
        let is_ready = self.journal.append(items);
        self.roomy = self.roomy && is_ready;
    }
}

impl<A: Allocator> Channel<A> {
    /// Whether an item is reserved, as after a `reserve_one` that succeeded. Only a `put` may end it.
    pub fn room(&self) -> bool
        ensures { result ≡ self.now.is_reserved }
    {
        match &self.ring {
            Some(ring) => self.journal.has_room() && ring.len() < ring.capacity(),
            None => self.journal.has_room(),
        }
    }

    /// Makes the capacity larger if an item is reserved. It takes no memory, since the ring then has a free place. The
    /// capacity becomes `cap`, which is above it and at most `MAX_CAPACITY`.
    pub fn grow_reserved_to(&mut self, cap: u32)
        requires capacity { MayGrowTo cap self.old }
        requires reserved { IsTrue self.old.is_reserved }
        ensures { self.new ≡ grown_to cap true self.old }
    {
        self.capacity = Some(cap);
        self.roomy = false;
    }

    /// Puts an item at the end of the journal, in the room that is reserved. It takes no memory.
    ///
    /// The contract leaves open whether a further item is reserved.
    pub fn put(&mut self, item: i64)
        requires { IsTrue self.old.is_reserved }
        ensures { self.new ≡ after_put item self.new.is_reserved self.old }
    {
        // The ring comes first: a caller has just tested it, and for all that the compiler knows, a write to the
        // journal might change it.
        if let Some(ring) = &mut self.ring {
            let _is_put = ring.try_push_back(item);
            self.most = self.most.max(ring.len());
        }
        self.journal.push_reserved(item);
    }

    /// The oldest unread item, which is then read. If nothing is unread or the channel is retired, it returns `None`
    /// and leaves the channel as it was.
    ///
    /// A reserved item stays reserved. If none was, the contract leaves open whether one is now.
    pub fn get(&mut self) -> Option<i64>
        ensures item { result ≡ next_item self.old }
        ensures after { self.new ≡ after_get result self.new.is_reserved self.old }
        ensures reserved { IsTrue self.old.is_reserved → IsTrue self.new.is_reserved }
    {
        let Some(ring) = &mut self.ring else {
            return None;
        };
        let item = ring.pop_front()?;
        self.read += 1;
        Some(item)
    }

    /// The oldest unread item, which stays unread. `None` if nothing is unread or the channel is retired.
    pub fn peek(&self) -> Option<i64>
        ensures { result ≡ next_item self.now }
    {
        let Some(ring) = &self.ring else {
            return None;
        };
        ring.front().copied()
    }

    /// The unread item that comes after `k` others, which stays unread. `None` if no more than `k` are unread or the
    /// channel is retired.
    pub fn peek_at(&self, k: usize) -> Option<i64>
        ensures { result ≡ item_after k self.now }
    {
        let Some(ring) = &self.ring else {
            return None;
        };
        ring.get(k).copied()
    }

    /// The items that a reader may get, in two slices: those of the second come after those of the first.
    pub fn readable(&self) -> (&[i64], &[i64])
        ensures { result.0.now ++ result.1.now ≡ readable self.now }
    {
        match &self.ring {
            Some(ring) => ring.as_slices(),
            None => (&[], &[]),
        }
    }

    /// How many items are unread, on a retired channel too.
    #[tactic(auto, using(crate::proofs::Places::bounded))]
    pub fn len(&self) -> usize
        ensures { result ≡ length (unread self.now) }
    {
        match &self.ring {
            Some(ring) => ring.len(),
            None => self.journal.count() - self.read,
        }
    }

    /// Whether nothing is unread.
    pub fn is_empty(&self) -> bool
        ensures { IsTrue result ↔ (unread self.now ≡ []) }
    {
        self.len() == 0
    }

    /// Whether a writer has to wait: the channel is not retired, and its unread items have reached
    /// the capacity. A source is never full.
    pub fn is_full(&self) -> bool
        ensures { result ≡ is_channel_full self.now }
    {
        match (&self.ring, self.capacity) {
            (Some(ring), Some(capacity)) => capacity as usize <= ring.len(),
            _ => false,
        }
    }

    /// How many items were read.
    pub fn read_count(&self) -> usize
        ensures { result ≡ self.now.read }
    {
        self.read
    }

    /// The most items that were ever unread while the reader was there.
    pub fn most(&self) -> usize
        ensures { result ≡ self.now.most }
    {
        self.most
    }

    /// For how many items there is memory. If the journal is not kept, these are the places of a chunk, some places to
    /// begin with, and at most twice as many as items were ever unread. If the channel was ever made roomy, there may
    /// also be twice as many as fill it.
    pub fn places(&self) -> usize
        ensures unless_wide { self.now.is_wide ≡ false
            → self.now.is_kept ≡ false → result ≤ CHUNK + FIRST_PLACES + 2 * self.now.most }
        ensures bound { self.now.is_kept ≡ false
            → result ≤ CHUNK + FIRST_PLACES + 2 * max self.now.most (unwrap_or self.now.capacity 0) }
    {
        let chunk = self.journal.places();
        match &self.ring {
            Some(ring) => chunk.saturating_add(ring.capacity()),
            None => chunk,
        }
    }

    /// How many unread items fill the channel, or `None` for a source.
    pub fn cap(&self) -> Option<u32>
        ensures { result ≡ self.now.capacity }
    {
        self.capacity
    }

    /// Whether the journal is kept.
    pub fn is_kept(&self) -> bool
        ensures { result ≡ self.now.is_kept }
    {
        self.journal.keeps
    }

    /// Whether this many items can be joined without memory: the channel is roomy, they are at most 4,096, and all items
    /// can be counted then. To a source none can be joined while its reader is there.
    #[tactic(auto, using(crate::proofs::Places::bounded_with_chunk))]
    pub fn has_places_for(&self, count: usize) -> bool
        ensures { result ≡ has_places_for count self.now }
    {
        count == 0
            || (self.roomy
                && (self.ring.is_none() || self.capacity.is_some())
                && count <= CHUNK
                && self.journal.count() + count <= MOST_GONE)
    }

    /// The item at a place of the journal, counted from 0, or `None` past its end. Of a journal that is not kept it may
    /// be another one.
    #[tactic(auto, using(crate::proofs::Places::counted, crate::proofs::Places::all_kept))]
    pub fn at(&self, place: usize) -> Option<i64>
        ensures { IsTrue self.now.is_kept → result ≡ slice_get self.now.journal place }
    {
        self.journal.at(place)
    }

    /// Whether the journal is kept and begins with these items.
    #[tactic(auto, using(crate::proofs::Places::counted, crate::proofs::Places::all_kept))]
    pub fn begins_with(&self, items: &[i64]) -> bool
        ensures { IsTrue result
            ↔ (IsTrue self.now.is_kept × (items.now ≡ take (length items.now) self.now.journal)) }
    {
        self.journal.keeps && self.journal.begins_with(items)
    }

    /// Marks that the reader is gone: from now on nothing is read, and the channel is never full. The journal, the read
    /// count and the capacity stay, and a reserved item stays reserved. The ring's memory is freed.
    pub fn retire(&mut self)
        ensures after { self.new ≡ retired self.new.is_reserved self.old }
        ensures reserved { IsTrue self.old.is_reserved → IsTrue self.new.is_reserved }
    {
        self.ring = None;
    }

    /// Whether the reader is gone.
    pub fn is_retired(&self) -> bool
        ensures { result ≡ self.now.is_retired }
    {
        self.ring.is_none()
    }

    /// A list of all items that were ever put, oldest first.
    #[tactic(auto, using(crate::proofs::Places::counted, crate::proofs::Places::all_kept))]
    pub fn copy_journal<B: Allocator>(&self, alloc: B) -> Result<Vec<i64, B>, Unread>
        ensures items { IfOk result (λ items. items.items ≡ self.now.journal) }
        ensures forgotten { IfErr result (λ why. (why ≡ Forgotten) ↔ (self.now.is_kept ≡ false)) }
    {
        if !self.journal.keeps {
            return Err(Unread::Forgotten);
        }
        Ok(self.journal.copy_first(alloc, self.journal.len())?)
    }

    /// All items that were ever put, oldest first, moved out of the channel; none if they are not kept.
    #[tactic(auto, using(crate::proofs::Places::counted, crate::proofs::Places::all_kept))]
    pub fn into_journal(self) -> Journal<A>
        ensures { result ≡ kept_journal self }
    {
        let Channel {
            mut journal,
            ring,
            read: _,
            capacity: _,
            most: _,
            roomy: _,
            wide: _,
        } = self;
        drop(ring);
        if !journal.keeps {
            journal.last.clear();
        }
        Journal { chunks: journal }
    }

    /// All items that were ever put, oldest first, moved out of the channel. Of a journal that is not kept only proofs
    /// know them.
    #[tactic(auto, using(crate::proofs::Places::counted, crate::proofs::Places::all_kept))]
    pub fn into_written(self) -> Written<A>
        ensures { result ≡ self.journal }
    {
        let Channel {
            journal,
            ring,
            read: _,
            capacity: _,
            most: _,
            roomy: _,
            wide: _,
        } = self;
        drop(ring);
        if journal.keeps {
            return Written::from(Journal { chunks: journal });
        }
        Written::forgotten(journal.into_past())
    }

    /// Does nothing. A caller's proof learns from it what holds of every channel: no more items were read than were
    /// put, their number fits a `usize`, and no more are unread than ever were.
    #[tactic(auto, using(crate::proofs::Places::bounded))]
    pub fn known(&self)
        ensures read { self.now.read ≤ length self.now.journal }
        ensures bound { length self.now.journal < 2 ^ 64 }
        ensures most { self.now.is_retired ≡ false → length (unread self.now) ≤ self.now.most }
    {
        let _ = &self.journal;
    }
}

/// How many places a ring begins with.
fn first_places(cap: Option<u32>) -> usize
    ensures { result ≤ FIRST_PLACES }
{
    match cap {
        Some(capacity) => FIRST_PLACES.min(capacity as usize),
        None => FIRST_PLACES,
    }
}

/// Makes a free place in a ring that has none: the ring gets twice as many places. The error is that memory ran out.
#[inline(always)]
fn reserve_place<A: Allocator + Copy>(
    ring: &mut HeapCircularBuffer<i64, A>,
) -> Result<(), AllocError>
    ensures items { ring.new.items ≡ ring.old.items }
    ensures place { nat_lt (length ring.new.items) ring.new.capacity ≡ is_ok result }
    ensures already { length ring.old.items < ring.old.capacity → IsOk result }
    ensures grows { ring.old.capacity ≤ ring.new.capacity }
    ensures bound { ring.new.capacity
        ≤ max ring.old.capacity (2 * length ring.old.items + 1) }
{
    let places = ring.capacity();
    if ring.len() < places {
        return Ok(());
    }
    ring.resize((2 * places).max(1))
}

/// Makes as many places in a ring as fill a channel of this capacity. The error is that memory ran out.
fn widen<A: Allocator + Copy>(
    ring: &mut HeapCircularBuffer<i64, A>,
    cap: Option<u32>,
) -> Result<(), AllocError>
    ensures items { ring.new.items ≡ ring.old.items }
    ensures places { OnOk result (unwrap_or cap 0 ≤ ring.new.capacity) }
    ensures grows { ring.old.capacity ≤ ring.new.capacity }
    ensures bound { ring.new.capacity ≤ max ring.old.capacity (unwrap_or cap 0) }
    ensures refused { OnErr result (ring.new.capacity ≡ ring.old.capacity) }
{
    let places = cap.unwrap_or(0) as usize;
    if places <= ring.capacity() {
        return Ok(());
    }
    ring.resize(places)
}

/// This many items leave a ring, if there is one, and these enter it after the others. Those that enter and leave do
/// neither. The most items that were ever there become this many, if they were fewer.
fn pass_through<A: Allocator>(
    ring: &mut Option<HeapCircularBuffer<i64, A>>,
    most: &mut usize,
    taken: usize,
    items: &[i64],
    seen: usize,
)
    requires { MayPass taken items.now ring.old }
    ensures ring { ring.new ≡ passed_through taken items.now ring.old }
    ensures most { most.new ≡ (if is_none ring.old then most.old else max most.old seen) }
{
    let Some(ring) = ring else {
        return;
    };
    let gone = taken.min(ring.len());
    ring.truncate_front(ring.len() - gone);
    let _entered = ring.fill_from_slice(&items[taken - gone..]);
    *most = seen.max(*most);
}
