//! What a trace keeps of a run: its events, and by which rules its channels grew.
use crate::event::Event;
use kpn_lang::Sequence;
use kpn_net::{Growth, Policy};
use std::alloc::{Allocator, Global};

/// The version of the text of a trace.
#[derive(Clone, Copy)]
pub enum Version {
    /// A growth does not state the new capacity. Channels grow under the policy `cycles` and by one.
    One,
    /// The text names its policy and its growth, and each growth states the new capacity.
    Two,
}

/// A trace: the events of a run, and by which rules its channels grew.
#[derive(Drop)]
pub struct Trace<A: Allocator = Global> {
    pub version: Version,
    /// `Cycles` in version 1.
    pub policy: Policy,
    /// `One` in version 1.
    pub growth: Growth,
    /// The events in order. In a growth of version 1 the new capacity is 0.
    pub events: Sequence<Event, A>,
}
