//! What a process says while it runs: the items that it gets and puts, and how its run ends.
use crate::value::Fault;

/// One thing that a process says: an item that it got at an in port, or one that it
/// put on an out port, as `Got(port, item)`.
#[derive(Clone, Copy, Debug, PartialEq, Eq)]
pub enum Said {
    Got(usize, i64),
    Put(usize, i64),
}

/// How a run on whole lists ends.
#[derive(Clone, Copy, PartialEq, Eq)]
pub enum Ending {
    /// The body came to its end.
    Done,
    /// An expression had no value.
    Faulted(Fault),
    /// It would read at this in port, whose list is empty by then.
    Starved(usize),
    /// A loop would begin one turn more than the run allows.
    Cut,
}
