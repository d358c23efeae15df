//! A history as a list of events. Memory is reserved first, so that a push asks for none.
ghost use Rattle.std.specs.Prelude.{◌≡◌, ◌+◌, ◌<◌, ◌≤◌, [], ◌∷◌, ◌++◌, length, slice_get, true, IsTrue, OnOk, OnErr};
ghost use Rattle.kpn_history.specs.Keeping.{keeps_all};

use crate::event::Event;
use crate::keeping::Keeping;
use kpn_chan::Past;
use std::alloc::{AllocError, Allocator, Global};
use std::marker::Model;
use std::mem;

// An event takes at most 16 bytes of a history.
const _: () = prove!(size_of::<Event>() <= 16);

/// For how many events there is memory at least where none is kept.
const FEWEST_EVENTS: usize = 256;

/// The events of a run so far, oldest first, and memory for some more.
///
/// If it keeps nothing, each event becomes past at once: then only proofs know it, and it takes up no room.
#[derive(Debug, Drop)]
pub struct History<A: Allocator = Global> {
    past: Past<Event>,
    keeps: bool,
    events: Vec<Event, A>,
}

impl<A: Allocator> Model for History<A> {
    ghost use Rattle.std.specs.Prelude.{◌≡◌, ◌-◌, ◌++◌, vec_len, vec_capacity};
    ghost use Rattle.kpn_history.specs.Recorded.{Recorded, IsNoted};

    ghost Value = { Recorded };

    ghost view = { λ h. record {
      events = h.past.items ++ h.events.items;
      room = vec_capacity h.events - vec_len h.events;
      is_kept = h.keeps;
    } };

    ghost invariant = { λ h. IsNoted h.keeps h.past.items h.events.items };
}

impl<A: Allocator> History<A> {
    /// The history without events. It takes no memory and has no room. It keeps the allocator for its events, and all
    /// of them.
    pub fn new(alloc: A) -> Self
        ensures events { result.events ≡ [] }
        ensures room { result.room ≡ 0 }
        ensures kept { result.is_kept ≡ true }
    {
        History::keeping(alloc, Keeping::All)
    }

    /// The history without events, which keeps what it is told to keep.
    pub fn keeping(alloc: A, keeping: Keeping) -> Self
        ensures events { result.events ≡ [] }
        ensures room { result.room ≡ 0 }
        ensures kept { result.is_kept ≡ keeps_all keeping }
    {
        History {
            past: Past::new(),
            keeps: keeping.is_all(),
            events: Vec::new(alloc),
        }
    }

    /// Reserves memory, so that there is room for `n` events or more. The events stay. It fails only if there was less
    /// room and memory ran out, and the history is then as before.
    #[inline(always)]
    pub fn reserve(&mut self, n: usize) -> Result<(), AllocError>
        ensures events { self.new.events ≡ self.old.events }
        ensures ok { OnOk result (n ≤ self.new.room) }
        ensures grows { self.old.room ≤ self.new.room }
        ensures lacking { OnErr result (self.old.room < n) }
        ensures refused { OnErr result (self.new ≡ self.old) }
        ensures kept { self.new.is_kept ≡ self.old.is_kept }
    {
        if n <= self.room() {
            return Ok(());
        }
        self.make_room(n)
    }

    /// Makes room for `n` events, for which there is none.
    #[cold]
    #[inline(never)]
    fn make_room(&mut self, n: usize) -> Result<(), AllocError>
        requires { self.old.room < n }
        ensures events { self.new.events ≡ self.old.events }
        ensures ok { OnOk result (n ≤ self.new.room) }
        ensures grows { self.old.room ≤ self.new.room }
        ensures refused { OnErr result (self.new ≡ self.old) }
        ensures kept { self.new.is_kept ≡ self.old.is_kept }
    {
        // Where none is kept, the room stays. So there is some for more calls than this one.
        let wanted = if self.keeps { n } else { n.max(FEWEST_EVENTS) };
        self.events.reserve(wanted)
    }

    /// For how many more events memory is reserved.
    pub fn room(&self) -> usize
        ensures { result ≡ self.now.room }
    {
        self.events.capacity() - self.events.len()
    }

    /// Puts an event after the others. It takes no memory.
    #[inline(always)]
    pub fn push(&mut self, event: Event)
        requires { 0 < self.old.room }
        ensures events { self.new.events ≡ self.old.events ++ event ∷ [] }
        ensures room { self.old.room ≤ self.new.room + 1 }
        ensures kept { self.new.is_kept ≡ self.old.is_kept }
    {
        if self.keeps {
            self.events.push_reserved(event);
        } else {
            self.past = self.past.and(&event);
        }
    }

    /// Puts these events after the others, at once. It takes no memory.
    pub fn append(&mut self, events: &[Event])
        requires { length events.now ≤ self.old.room }
        ensures events { self.new.events ≡ self.old.events ++ events.now }
        ensures room { self.old.room ≤ self.new.room + length events.now }
        ensures kept { self.new.is_kept ≡ self.old.is_kept }
    {
        if self.keeps {
            let _appended = self.events.extend_from_slice(events);
        } else {
            let past = mem::replace(&mut self.past, Past::new());
            self.past = past.and_all(events);
        }
    }

    /// Whether the events are kept.
    pub fn is_kept(&self) -> bool
        ensures { result ≡ self.now.is_kept }
    {
        self.keeps
    }

    /// How many events there are; only of those that are kept it is sure.
    pub fn len(&self) -> usize
        ensures { IsTrue self.now.is_kept → result ≡ length self.now.events }
    {
        self.events.len()
    }

    /// Event `k`, counted from 0; none if there are no more than `k` events. Of events that are not kept it may be
    /// another one.
    pub fn at(&self, k: usize) -> Option<Event>
        ensures { IsTrue self.now.is_kept → result ≡ slice_get self.now.events k }
    {
        self.events.get(k).copied()
    }
}
