//! A list in chunks, so that an item never moves once its chunk is full. It has all that was put on a channel, or it
//! hands what it has to proofs when its chunk is full, and forgets it.
ghost use Rattle.std.specs.Prelude.{◌≡◌, ◌↔◌, ◌+◌, Some, true, false, OnOk, OnErr, ◌<◌, ◌≤◌, [], ◌∷◌, ◌++◌, length, take, drop, is_ok, IsOk, IfOk, IsTrue, slice_get, vec_len, vec_capacity};
ghost use Rattle.kpn_chan.specs.Chunks.{items_of, all_of, has_room, IsChunks, IsCounted, HasNext, HasPlacesFor};
ghost use Rattle.kpn_chan.specs.declared.chunks.TheConstants.{CHUNK, MOST_GONE};

use crate::past::Past;
use std::alloc::{AllocError, Allocator};
use std::mem;

/// How many items a full chunk has.
pub const CHUNK: usize = 4_096;

/// How many full chunks there may be: more than any memory holds, and few enough to count their items.
pub const MAX_CHUNKS: usize = 1 << 48;

/// How many places the first chunk begins with.
const FIRST_PLACES: usize = 4;

/// How many places the chunk has whose items are forgotten when it is full.
const FORGOTTEN_PLACES: usize = 256;

/// How many items may be forgotten: as many as the full chunks may hold.
pub const MOST_GONE: usize = 1 << 60;

/// The items in order: those of the full chunks, which never move, and those of the last one. That one doubles until it
/// is as long as a full one. If nothing is kept, the last chunk is the only one, and each time that it is full its
/// items become past: they are counted, and only proofs know them.
#[derive(Debug, Drop)]
pub struct Chunks<A: Allocator> {
    pub(crate) past: Past<i64>,
    pub(crate) gone: usize,
    pub(crate) keeps: bool,
    pub(crate) full: Vec<Vec<i64, A>, A>,
    pub(crate) last: Vec<i64, A>,
    // a free chunk to follow the last one, or one without places
    pub(crate) next: Vec<i64, A>,
}

impl<A: Allocator + Copy> Chunks<A> {
    /// No items. It takes no memory. It keeps the allocator for the chunks.
    pub(crate) fn new(alloc: A, keeps: bool) -> Self
        ensures items { all_of result ≡ [] }
        ensures keeps { result.keeps ≡ keeps }
        ensures chunks { IsChunks result }
    {
        Chunks {
            past: Past::new(),
            gone: 0,
            keeps,
            full: Vec::new(alloc),
            last: Vec::new(alloc),
            next: Vec::new(alloc),
        }
    }

    /// Makes room for one more item after the last one. The error is that memory ran out.
    #[inline(always)]
    pub(crate) fn reserve_one(&mut self) -> Result<(), AllocError>
        requires { IsChunks self.old }
        ensures items { all_of self.new ≡ all_of self.old }
        ensures keeps { self.new.keeps ≡ self.old.keeps }
        ensures chunks { IsChunks self.new }
        ensures room { has_room self.new ≡ is_ok result }
        ensures already { IsTrue (has_room self.old) → IsOk result }
        ensures next { HasNext self.old → HasNext self.new }
    {
        if self.has_room() {
            return Ok(());
        }
        self.extend()
    }

    /// Makes room for one more item if there is none.
    #[cold]
    #[inline(never)]
    fn extend(&mut self) -> Result<(), AllocError>
        requires chunks { IsChunks self.old }
        requires none { vec_capacity self.old.last ≤ vec_len self.old.last }
        ensures items { all_of self.new ≡ all_of self.old }
        ensures keeps { self.new.keeps ≡ self.old.keeps }
        ensures chunks { IsChunks self.new }
        ensures room { has_room self.new ≡ is_ok result }
        ensures next { HasNext self.old → HasNext self.new }
    {
        if !self.keeps {
            return self.forget();
        }
        let len = self.last.len();
        if len < CHUNK {
            return self
                .last
                .reserve_exact(len.max(FIRST_PLACES).min(CHUNK - len));
        }
        if self.full.len() == MAX_CHUNKS {
            return Err(AllocError);
        }
        let next = Vec::with_capacity(*self.full.allocator(), CHUNK)?;
        // also one for the next chunk
        self.full.reserve(2)?;
        let full = mem::replace(&mut self.last, next);
        self.full.push_reserved(full);
        Ok(())
    }

    /// Makes room for one more item where nothing is kept: what is in memory becomes past.
    fn forget(&mut self) -> Result<(), AllocError>
        requires chunks { IsChunks self.old }
        requires none { vec_capacity self.old.last ≤ vec_len self.old.last }
        requires keeps { self.old.keeps ≡ false }
        ensures items { all_of self.new ≡ all_of self.old }
        ensures keeps { self.new.keeps ≡ self.old.keeps }
        ensures chunks { IsChunks self.new }
        ensures room { has_room self.new ≡ is_ok result }
    {
        let len = self.last.len();
        if len == 0 {
            return self.last.reserve_exact(FORGOTTEN_PLACES);
        }
        if MOST_GONE - self.gone < len {
            return Err(AllocError);
        }
        self.gone += len;
        let past = mem::replace(&mut self.past, Past::new());
        self.past = past.and_all(&self.last);
        self.last.clear();
        Ok(())
    }

    /// Makes ready what `append` takes, if the items are kept: a last chunk with all its places, and one to follow it.
    /// The error is that memory ran out.
    pub(crate) fn make_next(&mut self) -> Result<(), AllocError>
        requires { IsChunks self.old }
        ensures items { all_of self.new ≡ all_of self.old }
        ensures keeps { self.new.keeps ≡ self.old.keeps }
        ensures chunks { IsChunks self.new }
        ensures room { IsTrue (has_room self.old) → IsTrue (has_room self.new) }
        ensures next { OnOk result (self.old.keeps ≡ true → HasNext self.new) }
    {
        if !self.keeps {
            return Ok(());
        }
        self.last.reserve_exact(CHUNK - self.last.len())?;
        self.full.reserve(1)?;
        if self.next.capacity() < CHUNK {
            self.next = Vec::with_capacity(*self.full.allocator(), CHUNK)?;
        }
        Ok(())
    }

    /// Puts these after the others, at most as many as a chunk has. It takes no memory, and returns whether what
    /// `make_next` has made ready is still there.
    pub(crate) fn append(&mut self, items: &[i64]) -> bool
        requires chunks { IsChunks self.old }
        requires places { 0 < length items.now → HasPlacesFor (length items.now) self.old }
        ensures items { all_of self.new ≡ all_of self.old ++ items.now }
        ensures keeps { self.new.keeps ≡ self.old.keeps }
        ensures chunks { IsChunks self.new }
        ensures room { items.now ≡ [] → IsTrue (has_room self.old) → IsTrue (has_room self.new) }
        ensures next { IsTrue result → HasNext self.old → HasNext self.new }
        ensures ready { items.now ≡ [] → IsTrue result }
    {
        if items.is_empty() {
            return true;
        }
        if !self.keeps {
            self.pass(items);
            return true;
        }
        let room = self.last.capacity() - self.last.len();
        if items.len() <= room {
            push_all(&mut self.last, items);
            return true;
        }
        let (first, rest) = items.split_at(room);
        push_all(&mut self.last, first);
        let none = Vec::new(*self.full.allocator());
        let next = mem::replace(&mut self.next, none);
        let full = mem::replace(&mut self.last, next);
        self.full.push_reserved(full);
        push_all(&mut self.last, rest);
        false
    }

    /// What is in memory becomes past, and these after it.
    fn pass(&mut self, items: &[i64])
        requires chunks { IsChunks self.old }
        requires keeps { self.old.keeps ≡ false }
        requires count { length (all_of self.old) + length items.now ≤ MOST_GONE }
        ensures items { all_of self.new ≡ all_of self.old ++ items.now }
        ensures keeps { self.new.keeps ≡ self.old.keeps }
        ensures chunks { IsChunks self.new }
        ensures room { vec_capacity self.new.last ≡ vec_capacity self.old.last }
    {
        self.gone += self.last.len() + items.len();
        let past = mem::replace(&mut self.past, Past::new());
        self.past = past.and_all(&self.last).and_all(items);
        self.last.clear();
    }
}

impl<A: Allocator> Chunks<A> {
    /// What is in memory becomes past, after what is past already.
    pub(crate) fn into_past(self) -> Past<i64>
        requires { self.full.items ≡ [] }
        ensures { result.items ≡ all_of self }
    {
        let Chunks { past, last, .. } = self;
        past.and_all(&last)
    }

    /// For how many items there is memory. What is not kept has the places of one chunk at most.
    pub(crate) fn places(&self) -> usize
        requires { IsChunks self.now }
        ensures { self.now.keeps ≡ false → result ≤ CHUNK }
    {
        self.full.len() * CHUNK + self.last.capacity() + self.next.capacity()
    }

    /// Whether there is room for one more item after the last one.
    pub(crate) fn has_room(&self) -> bool
        ensures { result ≡ has_room self.now }
    {
        self.last.len() < self.last.capacity()
    }

    /// Puts an item at the end, in the room that there is. It takes no memory.
    #[inline(always)]
    pub(crate) fn push_reserved(&mut self, item: i64)
        requires chunks { IsChunks self.old }
        requires room { IsTrue (has_room self.old) }
        ensures items { all_of self.new ≡ all_of self.old ++ item ∷ [] }
        ensures keeps { self.new.keeps ≡ self.old.keeps }
        ensures chunks { IsChunks self.new }
        ensures next { HasNext self.old → HasNext self.new }
    {
        self.last.push_reserved(item);
    }

    /// How many items there are, with those that were forgotten.
    pub(crate) fn count(&self) -> usize
        requires { IsChunks self.now }
        ensures { result ≡ length (all_of self.now) }
    {
        self.gone + self.len()
    }

    /// How many items are in memory.
    pub(crate) fn len(&self) -> usize
        requires { IsCounted self.now }
        ensures { result ≡ length (items_of self.now) }
    {
        self.full.len() * CHUNK + self.last.len()
    }

    /// The item at a place, counted from 0, or `None` past the end.
    pub(crate) fn at(&self, place: usize) -> Option<i64>
        requires { IsCounted self.now }
        ensures { result ≡ slice_get (items_of self.now) place }
    {
        let chunk = place / CHUNK;
        if chunk < self.full.len() {
            return item_at(&self.full[chunk], place % CHUNK);
        }
        item_at(&self.last, place - self.full.len() * CHUNK)
    }

    /// Whether these are the first items.
    pub(crate) fn begins_with(&self, items: &[i64]) -> bool
        requires { IsCounted self.now }
        ensures { IsTrue result ↔ (items.now ≡ take (length items.now) (items_of self.now)) }
    {
        'items: for place in 0..items.len() {
            if !self.has_at(place, &items[place]) {
                return false;
            }
        }
        true
    }

    /// Whether two lists have the same items.
    pub(crate) fn has_items_of(&self, other: &Chunks<A>) -> bool
        requires counted { IsCounted self.now }
        requires other_counted { IsCounted other.now }
        ensures { IsTrue result ↔ (items_of self.now ≡ items_of other.now) }
    {
        if self.len() != other.len() {
            return false;
        }
        'items: for place in 0..self.len() {
            if !self.agrees_at(place, other) {
                return false;
            }
        }
        true
    }

    /// Whether two lists have the same item at a place, or both have none there.
    fn agrees_at(&self, place: usize, other: &Chunks<A>) -> bool
        requires counted { IsCounted self.now }
        requires other_counted { IsCounted other.now }
        ensures { IsTrue result
            ↔ (slice_get (items_of self.now) place ≡ slice_get (items_of other.now) place) }
    {
        self.at(place) == other.at(place)
    }

    /// Whether this item is at a place.
    fn has_at(&self, place: usize, item: &i64) -> bool
        requires { IsCounted self.now }
        ensures { IsTrue result ↔ (slice_get (items_of self.now) place ≡ Some item.now) }
    {
        self.at(place) == Some(*item)
    }

    /// The items from a place on that are side by side in memory: at least one, unless the place is the end.
    pub(crate) fn piece_at(&self, place: usize) -> &[i64]
        requires chunks { IsCounted self.now }
        requires place { place ≤ length (items_of self.now) }
        ensures items { result.now ≡ take (length result.now) (drop place (items_of self.now)) }
        ensures more { place < length (items_of self.now) → 0 < length result.now }
    {
        let chunk = place / CHUNK;
        if chunk < self.full.len() {
            return self.full[chunk].split_at(place % CHUNK).1;
        }
        self.last.split_at(place - self.full.len() * CHUNK).1
    }

    /// The first items, this many. The error is that memory ran out.
    pub(crate) fn copy_first<B: Allocator>(
        &self,
        alloc: B,
        count: usize,
    ) -> Result<Vec<i64, B>, AllocError>
        requires chunks { IsCounted self.now }
        requires count { count ≤ length (items_of self.now) }
        ensures { IfOk result (λ items. items.items ≡ take count (items_of self.now)) }
    {
        let mut items = Vec::with_capacity(alloc, count)?;
        while items.len() < count {
            let piece = self.piece_at(items.len());
            let more = piece.len().min(count - items.len());
            items.extend_from_slice(&piece[..more])?;
        }
        Ok(items)
    }
}

/// Puts items after those of a chunk, which has places for them.
fn push_all<A: Allocator>(chunk: &mut Vec<i64, A>, items: &[i64])
    requires { vec_len chunk.old + length items.now ≤ vec_capacity chunk.old }
    ensures items { chunk.new.items ≡ chunk.old.items ++ items.now }
    ensures capacity { vec_capacity chunk.new ≡ vec_capacity chunk.old }
{
    'items: for k in 0..items.len() {
        chunk.push_reserved(items[k]);
    }
}

/// The item at a place of a chunk, or `None` past its end.
fn item_at(chunk: &[i64], place: usize) -> Option<i64>
    ensures { result ≡ slice_get chunk.now place }
{
    chunk.get(place).copied()
}
