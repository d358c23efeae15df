//! A small list type over `Vec` that contracts see as a list: for fields, and for lists inside lists.
ghost use Rattle.std.specs.Prelude.{◌≡◌, ◌+◌, ◌^◌, ◌<◌, [], ◌∷◌, ◌++◌, length, OnSome, slice_get, if◌then◌else◌, is_ok, IfErr};
ghost use Rattle.std.specs.Cmp.Lexicographic.{pointwise, lists_per, lists_equiv};
ghost use Rattle.std.specs.Iterator.Adapters.{IterYieldsInOrder};
ghost use Rattle.std.specs.Slice.Iter.{iter_rest};
ghost use Rattle.kpn_lang.specs.Lists.{remaining, next_at, without_next};

use std::alloc::{AllocFailed, Allocator, Global};
use std::marker::Model;
use std::slice;

/// A list of items. It is made from a `Vec` without taking memory.
#[derive(Debug, Drop)]
pub struct Sequence<T, A: Allocator = Global> {
    items: Vec<T, A>,
}

impl<T, A: Allocator> Model for Sequence<T, A> {
    ghost use Rattle.std.specs.Prelude.{List};

    ghost Value = { List T };

    ghost view = { λ s. s.items.items };
}

/// Lists are equal if they are as long and each pair of items is equal.
impl<T: PartialEq, A: Allocator> PartialEq for Sequence<T, A> {
    ghost eq = { pointwise T.eq };

    ghost laws = { lists_per T.laws };

    fn eq(&self, other: &Self) -> bool {
        self.items.as_slice() == other.items.as_slice()
    }
}

impl<T: Eq, A: Allocator> Eq for Sequence<T, A> {
    ghost laws = { lists_equiv T.Eq.laws };
}

impl<T, A: Allocator> Sequence<T, A> {
    /// The empty list, which takes no memory yet. It keeps the allocator for its items.
    pub fn new(alloc: A) -> Self
        ensures { result ≡ [] }
    {
        Sequence {
            items: Vec::new(alloc),
        }
    }

    /// The items of a `Vec`, in its order.
    pub fn from_vec(items: Vec<T, A>) -> Self
        ensures { result ≡ items.items }
    {
        Sequence { items }
    }

    /// The items in order.
    pub fn as_slice(&self) -> &[T]
        ensures { result.now ≡ self.now }
    {
        self.items.as_slice()
    }

    /// An iterator over the items in order.
    pub fn iter(&self) -> slice::Iter<'_, T>
        ensures rest { iter_rest result ≡ self.now }
        ensures bound { length (iter_rest result) < 2 ^ 64 }
        ensures runs { IterYieldsInOrder T }
    {
        self.items.as_slice().iter()
    }

    /// Puts an item at the end. If memory ran out, the error returns the item, and the list is as before.
    pub fn push(&mut self, item: T) -> Result<(), AllocFailed<T>>
        ensures items { self.new ≡ (if is_ok result then self.old ++ item ∷ [] else self.old) }
        ensures value_returned { IfErr result (λ failed. failed.value ≡ item) }
    {
        self.items.push(item)
    }
}

/// The next item of the list of a port, if there is one, which is then read. Each list is read up to its place.
pub fn next_item(lists: &[Sequence<i64>], places: &mut [usize], port: usize) -> Option<i64>
    requires port { port < length lists.now }
    requires places { length places.old ≡ length lists.now }
    ensures item { result ≡ next_at (remaining lists.now places.old) port }
    ensures rest { remaining lists.now places.new
        ≡ without_next (remaining lists.now places.old) port }
    ensures places { length places.new ≡ length places.old }
{
    let place = places[port];
    let item = *lists[port].as_slice().get(place)?;
    places[port] = place + 1;
    Some(item)
}
