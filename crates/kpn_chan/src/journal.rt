//! All items that were ever put on a channel, once they have left it or were copied.
ghost use Rattle.std.specs.Prelude.{◌≡◌, ◌↔◌, ◌<◌, ◌≤◌, ◌^◌, length, take, drop, IsTrue, IfOk, IfSome, slice_get};
ghost use Rattle.std.specs.Cmp.Lexicographic.{pointwise};
ghost use Rattle.std.specs.Cmp.Rules.{comparing};
ghost use Rattle.std.specs.Ordering.{int_eq};
ghost use Rattle.std.proofs.Common.{rules};
ghost use Rattle.kpn_chan.specs.Chunks.{items_of, IsCounted};

use crate::chunks::Chunks;
use crate::past::Past;
use std::alloc::{AllocError, Allocator, Global};
use std::marker::Model;

/// A list of items, oldest first, in pieces of memory that move to a new owner without a copy. Contracts see the list.
#[derive(Debug)]
pub struct Journal<A: Allocator = Global> {
    pub(crate) chunks: Chunks<A>,
}

/// It is written out, so that a crate that drops a journal proves nothing about what is inside.
impl<A: Allocator> Drop for Journal<A> {
    fn drop(self) {
        let Journal { chunks } = self;
        drop(chunks);
    }
}

impl<A: Allocator> Model for Journal<A> {
    ghost use Rattle.std.specs.Prelude.{List, ℤ};
    ghost use Rattle.kpn_chan.specs.Chunks.{items_of, IsCounted};

    ghost Value = { List ℤ };

    ghost view = { λ j. items_of j.chunks };

    ghost invariant = { λ j. IsCounted j.chunks };
}

/// Journals are equal if they have the same items in the same order, whatever their pieces are.
impl<A: Allocator> PartialEq for Journal<A> {
    ghost eq = { pointwise int_eq };

    ghost laws = { Prim.search (comparing, rules) };

    fn eq(&self, other: &Self) -> bool {
        self.chunks.has_items_of(&other.chunks)
    }
}

impl<A: Allocator> Eq for Journal<A> {
    ghost laws = { Prim.search (comparing, rules) };
}

/// All items that were ever put on a channel, as they leave it. Contracts see the list, whether it is kept or not.
#[derive(Debug)]
pub struct Written<A: Allocator = Global> {
    // none if only proofs know the items
    kept: Option<Journal<A>>,
    past: Past<i64>,
}

/// It is written out, so that a crate that drops what was written proves nothing about what is inside.
impl<A: Allocator> Drop for Written<A> {
    fn drop(self) {
        let Written { kept, past } = self;
        drop(kept);
        drop(past);
    }
}

impl<A: Allocator> Model for Written<A> {
    ghost use Rattle.std.specs.Prelude.{List, ℤ};
    ghost use Rattle.std.specs.Option.{unwrap_or};

    ghost Value = { List ℤ };

    ghost view = { λ w. unwrap_or w.kept w.past.items };
}

impl<A: Allocator> Written<A> {
    /// What is not kept.
    pub(crate) fn forgotten(past: Past<i64>) -> Self
        ensures { result ≡ past.items }
    {
        Written { kept: None, past }
    }

    /// The items, if they are kept.
    pub fn journal(&self) -> Option<&Journal<A>>
        ensures { IfSome result (λ journal. journal.now ≡ self.now) }
    {
        self.kept.as_ref()
    }
}

impl<A: Allocator> From<Journal<A>> for Written<A> {
    ghost use Rattle.std.specs.Prelude.{◌≡◌};

    ghost from_gives = { λ journal written. written ≡ journal };

    fn from(journal: Journal<A>) -> Written<A> {
        Written {
            kept: Some(journal),
            past: Past::new(),
        }
    }
}

impl<A: Allocator + Copy> Journal<A> {
    /// The items of a `Vec`, in one piece. It takes no memory.
    pub fn from_vec(alloc: A, items: Vec<i64, A>) -> Self
        ensures { result ≡ items.items }
    {
        Journal {
            chunks: Chunks {
                past: Past::new(),
                gone: 0,
                keeps: true,
                full: Vec::new(alloc),
                last: items,
                next: Vec::new(alloc),
            },
        }
    }
}

impl<A: Allocator> Journal<A> {
    /// How many items there are.
    pub fn len(&self) -> usize
        ensures { result ≡ length self.now }
    {
        self.chunks.len()
    }

    /// The item at a place, counted from 0, or `None` past the end.
    pub fn at(&self, place: usize) -> Option<i64>
        ensures { result ≡ slice_get self.now place }
    {
        self.chunks.at(place)
    }

    /// Whether these are exactly the items.
    pub fn is(&self, items: &[i64]) -> bool
        ensures { IsTrue result ↔ (self.now ≡ items.now) }
    {
        self.chunks.len() == items.len() && self.chunks.begins_with(items)
    }

    /// The items from a place on that are side by side in memory: at least one, unless the place is the end.
    pub fn piece_at(&self, place: usize) -> &[i64]
        requires { place ≤ length self.now }
        ensures items { result.now ≡ take (length result.now) (drop place self.now) }
        ensures more { place < length self.now → 0 < length result.now }
    {
        self.chunks.piece_at(place)
    }

    /// A list of the first items, this many. The error is that memory ran out.
    pub fn copy_first<B: Allocator>(
        &self,
        alloc: B,
        count: usize,
    ) -> Result<Vec<i64, B>, AllocError>
        requires { count ≤ length self.now }
        ensures { IfOk result (λ items. items.items ≡ take count self.now) }
    {
        self.chunks.copy_first(alloc, count)
    }
}
