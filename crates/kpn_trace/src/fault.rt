//! The faults of reading a trace.

use thiserror::Error;

/// A line that spells no event. It is printed as fault 30.
#[derive(Clone, Copy, Debug, PartialEq, Eq, Error)]
#[error("the line spells no event")]
pub struct BadEvent;

/// Why bytes could not be read as a trace.
#[derive(Debug, Drop, PartialEq, Eq, Error)]
pub enum TraceFault {
    /// The bytes do not begin with the first line of a trace. It is printed as fault 31.
    #[error("the first line is not that of a trace")]
    BadHead,
    /// This line, counted from 1, is the first that spells no event. It is printed as fault 30.
    #[error("line {0} spells no event")]
    BadEvent(usize),
    /// Memory ran out. It is printed as fault 32.
    #[error("out of memory")]
    NoMemory,
}
