//! What stands before an event: what its process is doing, or how its channel stands.

use kpn_history::How;

/// What stands before an event of a trace.
#[derive(Clone, Copy)]
pub enum Scene {
    /// This growth is owed, so it has to come first.
    Owes(GrowthOwed),
    /// The network has no process or no channel of the event's number.
    NotThere,
    /// `Process(p, doing)`: the event is one of process `p`, which is doing this.
    Process(usize, Doing),
    /// `Outside(c, side)`: the event is one of the outside at channel `c`, which stands like this.
    Outside(usize, OutsideEnd),
    /// The event is a growth, and none is owed.
    OwesNothing,
}

/// A growth that is owed: the channel, a process that waits, and the new capacity.
#[derive(Clone, Copy)]
pub struct GrowthOwed {
    pub process: usize,
    pub channel: usize,
    pub capacity: u32,
}

/// What a process is doing.
#[derive(Clone, Copy)]
pub enum Doing {
    /// It has ended in this way.
    Ended(How),
    /// It waits for an item on this empty channel.
    WaitsEmpty(usize),
    /// It waits until this full channel is not full any more.
    WaitsFull(usize),
    /// `Reads(c, next)`: it comes to read from channel `c`, which has this item next.
    Reads(usize, Option<i64>),
    /// `Writes(c, item, is_full)`: it comes to write this item to channel `c`, which is full or not.
    Writes(usize, i64, bool),
    /// It comes to end in this way.
    Ends(How),
    /// It is elsewhere: it used up its steps before it came to a stop.
    Elsewhere,
}

/// How a channel stands to the outside.
#[derive(Clone, Copy)]
pub enum OutsideEnd {
    /// It is no source.
    NoSource,
    /// It is a source, and the outside has closed it.
    Closed,
    /// It is a source that is not closed.
    Open,
    /// It is no sink.
    NoSink,
    /// It is a sink, and the outside has left it.
    Left,
    /// It is a sink that was not left. It has this item next.
    Next(Option<i64>),
}
