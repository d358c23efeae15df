//! The stops of the stepper.
use kpn_lang::Fault;

/// Why the stepper stopped.
#[derive(Clone, Copy, Debug, PartialEq, Eq)]
pub enum Stop {
    /// The process would read at this in port.
    WantRead(usize),
    /// The process would write this item to this out port, as `WantWrite(port, item)`.
    WantWrite(usize, i64),
    /// The body came to its end.
    Done,
    /// An expression has no value.
    Faulted(Fault),
    /// The number of steps that was allowed is used up.
    Paused,
}

/// How a process ended that was stepped alone on whole lists.
#[derive(Clone, Copy, Debug, PartialEq, Eq)]
pub enum AloneStop {
    /// The body came to its end.
    Done,
    /// An expression has no value.
    Faulted(Fault),
    /// It would read at this in port, whose list is used up.
    Starved(usize),
    /// The number of steps that was allowed is used up.
    Paused,
}
