//! The faults of devices.

use thiserror::Error;

/// Why the device of a source gives no item.
#[derive(Clone, Copy, Debug, PartialEq, Eq, Error)]
pub enum SourceFault {
    /// The device failed.
    #[error("the input could not be read")]
    Read,
    /// This line, counted from 1, spells no item.
    #[error("line {0} spells no item")]
    BadItem(u64),
    /// The input ends within a sample.
    #[error("the input ends within a sample")]
    CutSample,
    /// The head of the input is wrong from this byte on, counted from 0.
    #[error("byte {0} of the head is wrong")]
    BadHead(u64),
    /// Memory ran out.
    #[error("out of memory")]
    NoMemory,
}

/// Why the device of a sink takes no item.
#[derive(Clone, Copy, Debug, PartialEq, Eq, Error)]
pub enum SinkFault {
    /// Nobody reads what it hands on.
    #[error("nobody reads the output")]
    Gone,
    /// The format of the device has no such item.
    #[error("the format has no item {0}")]
    NoSample(i64),
    /// The device failed.
    #[error("the output could not be written")]
    Write,
    /// Memory ran out: the item was not taken.
    #[error("out of memory")]
    NoMemory,
}
