//! How a stream has ended.

use crate::faults::{SinkFault, SourceFault};
use kpn_book::{Book, Outcome};

/// Why a stream goes on no more.
#[derive(Clone, Copy, Debug, PartialEq, Eq)]
pub enum StreamEnding {
    /// The run has come to this outcome.
    Outcome(Outcome),
    /// No process is ready, and none waits for an item of an open source. Under the policy `cycles` nothing can follow
    /// but what the outside does.
    Resting,
    /// There are sinks, and each was left.
    Left,
    /// The watcher wanted the end.
    Halted,
    /// Memory ran out in the run.
    NoMemory,
    /// The device of this source failed. It is `SourceFault::NoMemory` too if memory ran out before what the device
    /// answered last could be fed.
    SourceFailed(usize, SourceFault),
    /// The device of this sink failed. It is `SinkFault::NoMemory` too if memory ran out before the item that the
    /// device took last could be taken from the sink, or before the sink could be left.
    SinkFailed(usize, SinkFault),
}

/// A stream that has ended.
#[derive(Drop)]
pub struct Streamed<'n> {
    pub ending: StreamEnding,
    /// The book of its run.
    pub book: Book<'n>,
}
