//! Why something that has happened can't be read.
use std::alloc::AllocError;

/// Why what was put on a channel, or what has happened in a run, can't be read.
#[derive(Clone, Copy, Debug, PartialEq, Eq)]
pub enum Unread {
    /// It was not kept.
    Forgotten,
    /// Memory ran out.
    NoMemory,
}

impl From<AllocError> for Unread {
    ghost use Rattle.std.specs.Prelude.{◌≡◌};
    ghost use Rattle.kpn_chan.specs.declared.unread.Unread.TheVariants.{NoMemory};

    ghost from_gives = { λ error why. why ≡ NoMemory };

    fn from(_: AllocError) -> Unread {
        Unread::NoMemory
    }
}
