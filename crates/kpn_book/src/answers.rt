//! The results of the calls of a book.
ghost use Rattle.std.specs.Prelude.{◌≡◌};
ghost use Rattle.kpn_book.specs.declared.answers.Refused.TheVariants.{NoMemory};

use std::alloc::AllocError;
use thiserror::Error;

/// What a commit has done.
#[derive(Clone, Copy, Debug, PartialEq, Eq)]
pub enum Done {
    /// The process got this item and is ready.
    Got(i64),
    /// The process put its item and is ready.
    Put,
    /// The process waits.
    Blocked,
    /// The process came to wait, and for this the capacity of this channel became larger.
    Grew(usize),
    /// The process has ended.
    Ended,
    /// The process has made as many steps as it was allowed, and is ready.
    Paused,
}

/// Why a call was refused, with its number. The book is then as before.
#[derive(Clone, Copy, Debug, PartialEq, Eq, Error)]
pub enum Refused {
    /// 40: the process is not held, or no process has this number.
    #[error("the process is not held, or no process has this number")]
    NotHeld,
    /// 41: the steps are of another program, or began at another frame.
    #[error("the steps are of another program, or began at another frame")]
    Stranger,
    /// 42: memory ran out.
    #[error("memory ran out")]
    NoMemory,
    /// 43: no source, or no sink, has this number.
    #[error("no source, or no sink, has this number")]
    NoSuchEnd,
    /// 44: the source is closed.
    #[error("the source is closed")]
    SourceClosed,
    /// 45: as many items as the bound are unread; the item comes back.
    #[error("the source has as many unread items as its bound, and gives item {0} back")]
    Full(i64),
    /// 46: the sink was left.
    #[error("the sink was left")]
    SinkLeft,
}

impl From<AllocError> for Refused {
    ghost from_gives = { λ _ refused. refused ≡ NoMemory };

    fn from(_error: AllocError) -> Refused {
        Refused::NoMemory
    }
}
