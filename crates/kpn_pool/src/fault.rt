//! Why a run by several workers gives no report.
ghost use Rattle.std.specs.Prelude.{◌≡◌};
ghost use Rattle.kpn_pool.specs.declared.fault.RunFault.TheVariants.{NoMemory};

use std::alloc::AllocError;
use thiserror::Error;

/// Why a run gives no report, with its number. If there are several causes, it is the first of these.
#[derive(Clone, Copy, Debug, PartialEq, Eq, Error)]
pub enum RunFault {
    /// 48: a thread could not be started.
    #[error("a thread could not be started")]
    Threads,
    /// 42: memory ran out, in a worker or in the calling thread.
    #[error("memory ran out")]
    NoMemory,
    /// 49: the gate made every worker end before there was an outcome.
    #[error("the commit gate made every worker end before there was an outcome")]
    Abandoned,
    /// 47: a source was fed something else than its list, or a call of the outside was refused.
    #[error("a source was fed something else than its list, or a call was refused")]
    Foreign,
}

impl From<AllocError> for RunFault {
    ghost from_gives = { λ _ fault. fault ≡ NoMemory };

    fn from(_error: AllocError) -> RunFault {
        RunFault::NoMemory
    }
}
