//! Why tokens are no description.

ghost use Rattle.std.specs.Prelude.{◌≡◌};

use std::alloc::AllocFailed;
use thiserror::Error;

/// Why tokens do not follow the grammar, with the place.
#[derive(Clone, Copy, Debug, PartialEq, Eq, Error)]
pub enum GrammarFault {
    /// The token that begins at this byte may not be there. Or the text ends too early, at its length.
    #[error("no such token can stand at byte {0}")]
    Grammar(usize),
    /// A block or an expression of the process with this number nests deeper than [`kpn_limits::MAX_LEVELS`].
    #[error("process {0} nests too deep")]
    TooDeep(usize),
    /// Memory ran out.
    #[error("out of memory")]
    NoMemory,
}

impl<T: Drop> From<AllocFailed<T>> for GrammarFault {
    ghost use Rattle.std.specs.Prelude.{◌≡◌};
    ghost use Rattle.kpn_text_grammar.specs.declared.fault.GrammarFault.TheVariants.{NoMemory};

    ghost from_gives = { λ _ fault. fault ≡ NoMemory };

    fn from(_failed: AllocFailed<T>) -> GrammarFault {
        GrammarFault::NoMemory
    }
}
