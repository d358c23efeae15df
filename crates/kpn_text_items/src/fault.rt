//! The faults of reading and of writing item files.

use thiserror::Error;

/// Why bytes or items could not be read.
#[derive(Debug, Drop, PartialEq, Eq, Error)]
pub enum ItemFault {
    /// A read failed, or more than [`MAX_INPUT_BYTES`](kpn_limits::MAX_INPUT_BYTES) bytes came. It
    /// is printed as fault 26.
    #[error("the input could not be read")]
    Read,
    /// This line, counted from 1, is the first that spells no item. It is printed as fault 25.
    #[error("line {0} spells no item")]
    BadItem(usize),
    /// Memory ran out. It is printed as fault 28.
    #[error("out of memory")]
    NoMemory,
}

/// Why a text could not be written.
#[derive(Debug, Drop, PartialEq, Eq, Error)]
pub enum WriteFault {
    /// A write failed. Nobody knows how much went out. It is printed as fault 27.
    #[error("the output could not be written")]
    Write,
    /// Memory for what is to be stored ran out. It is printed as fault 42.
    #[error("out of memory")]
    NoMemory,
}
