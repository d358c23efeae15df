//! Why the declaration of a constant is none.

use std::alloc::AllocFailed;
use thiserror::Error;

/// What is first wrong with the constants of a text, with the byte at which that shows.
#[derive(Clone, Copy, Debug, PartialEq, Eq, Error)]
pub enum ExpandFault {
    /// The token at this byte may not be there.
    #[error("grammar at byte {0}")]
    Grammar(usize),
    /// The value that begins at this byte is no number.
    #[error("no number at byte {0}")]
    Token(usize),
    /// The name at this byte is no constant.
    #[error("unknown name at byte {0}")]
    UnknownName(usize),
    /// Memory ran out.
    #[error("out of memory")]
    NoMemory,
}

impl<T: Drop> From<AllocFailed<T>> for ExpandFault {
    ghost use Rattle.std.specs.Prelude.{◌≡◌};
    ghost use Rattle.kpn_text_expand.specs.declared.fault.ExpandFault.TheVariants.{NoMemory};

    ghost from_gives = { λ _ fault. fault ≡ NoMemory };

    fn from(_failed: AllocFailed<T>) -> ExpandFault {
        ExpandFault::NoMemory
    }
}
