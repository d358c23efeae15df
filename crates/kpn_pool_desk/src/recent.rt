//! What a seat of the outside fed or took: what it was told to forget, which only proofs know, and what has come since.
ghost use Rattle.std.specs.Prelude.{◌≡◌, ◌≤◌, length, drop, nat_lt, IsTrue, OnOk};
ghost use Rattle.kpn_pool_desk.specs.Recent.{none_yet, with_spare_room, with_newest, forgetful};

use kpn_chan::Past;
use std::alloc::{AllocError, Allocator};
use std::marker::Model;
use std::mem;

/// A list of items, of which those that were not forgotten are in memory.
#[derive(Drop)]
pub(crate) struct Recent<A: Allocator> {
    past: Past<i64>,
    has_forgotten: bool,
    newest: Vec<i64, A>,
}

impl<A: Allocator> Model for Recent<A> {
    ghost use Rattle.std.specs.Prelude.{◌≡◌, ◌++◌, length, nat_lt, vec_len, vec_capacity};
    ghost use Rattle.kpn_pool_desk.specs.Recent.{Recent as Seen};

    ghost Value = { Seen };

    ghost view = { λ r. record {
      items = r.past.items ++ r.newest.items;
      forgotten = length r.past.items;
      has_room = nat_lt (vec_len r.newest) (vec_capacity r.newest);
    } };

    ghost invariant = { λ r. r.has_forgotten ≡ nat_lt 0 (length r.past.items) };
}

impl<A: Allocator> Recent<A> {
    /// No items yet. It takes no memory.
    pub(crate) fn new(alloc: A) -> Self
        ensures { result ≡ none_yet result.has_room }
    {
        Recent {
            past: Past::new(),
            has_forgotten: false,
            newest: Vec::new(alloc),
        }
    }

    /// Makes room for one more item. The error is that memory ran out.
    pub(crate) fn reserve_one(&mut self) -> Result<(), AllocError>
        ensures same { self.new ≡ with_spare_room self.new.has_room self.old }
        ensures room { OnOk result (IsTrue self.new.has_room) }
    {
        self.newest.reserve(1)
    }

    /// Puts an item after the others, in the room that there is.
    pub(crate) fn push_reserved(&mut self, item: i64)
        requires { IsTrue self.old.has_room }
        ensures { self.new ≡ with_newest item self.new.has_room self.old }
    {
        self.newest.push_reserved(item);
    }

    /// The items that were not forgotten.
    pub(crate) fn items(&self) -> &[i64]
        ensures items { result.now ≡ drop self.now.forgotten self.now.items }
        ensures within { self.now.forgotten ≤ length self.now.items }
    {
        self.newest.as_slice()
    }

    /// Whether something was forgotten.
    pub(crate) fn has_forgotten(&self) -> bool
        ensures { result ≡ nat_lt 0 self.now.forgotten }
    {
        self.has_forgotten
    }

    /// Forgets all items. Their memory is used again for those that come.
    pub(crate) fn forget(&mut self)
        ensures { self.new ≡ forgetful self.new.has_room self.old }
    {
        self.has_forgotten = self.has_forgotten || !self.newest.is_empty();
        let past = mem::replace(&mut self.past, Past::new());
        self.past = past.and_all(&self.newest);
        self.newest.clear();
    }
}
