//! What a run shows at one moment.
ghost use Rattle.std.specs.Prelude.{◌≡◌, IfSome, Some, slice_get};

use crate::event::How;
use kpn_chan::{Journal, Written};
use kpn_lang::Sequence;
use std::alloc::{Allocator, Global};

/// The state of a process in a run.
#[derive(Clone, Copy, Debug, PartialEq, Eq)]
pub enum State {
    /// It can be stepped, and nobody steps it.
    Ready,
    /// Somebody steps it.
    Held,
    /// It waits for an item on this empty channel.
    WaitsEmpty(usize),
    /// It waits until this full channel is not full any more.
    WaitsFull(usize),
    /// It has ended.
    Ended(How),
}

/// How many processes are in each state.
#[derive(Clone, Copy, Debug, PartialEq)]
pub struct Counts {
    pub ready: usize,
    pub held: usize,
    /// Those that wait on an empty channel.
    pub empty: usize,
    /// Those that wait on a full channel.
    pub full: usize,
    pub ended: usize,
}

/// What a run shows at one moment. The first four lists have an entry for each channel, `states` has one for each
/// process.
#[derive(Drop)]
pub struct View<A: Allocator = Global> {
    /// All items that were written on the channel, in order.
    pub journals: Sequence<Written<A>, A>,
    /// How many of them were read.
    pub read: Sequence<usize, A>,
    /// How many may be unread; `None` for a source.
    pub caps: Sequence<Option<u32>, A>,
    /// Whether the reader has ended or left.
    pub retired: Sequence<bool, A>,
    /// The state of each process.
    pub states: Sequence<State, A>,
    pub counts: Counts,
}

impl<A: Allocator> View<A> {
    /// All items that were written on a channel. `None` if no channel has this number, or if they are not kept.
    pub fn journal(&self, channel: usize) -> Option<&Journal<A>>
        ensures { IfSome result (λ journal.
            slice_get self.now.journals channel ≡ Some journal.now) }
    {
        self.journals.as_slice().get(channel)?.journal()
    }

    /// The state of a process, or `None` if no process has this number.
    pub fn state(&self, process: usize) -> Option<State>
        ensures { result ≡ slice_get self.now.states process }
    {
        self.states.as_slice().get(process).copied()
    }
}

/// How a run has come to a stop, once no growth is owed and nothing more can happen except that the caller leaves a
/// sink.
#[derive(Clone, Copy, Debug, PartialEq)]
pub enum Verdict {
    /// Each process has ended or waits on an empty channel.
    Ended,
    /// Some process waits on a full channel, and no cycle of waiting processes has a full channel.
    Clogged,
    /// Some cycle of waiting processes has a full channel.
    Jammed,
}
