//! Why a trace could not be written.
use kpn_text_items::WriteFault;
use thiserror::Error;

/// Why the trace of a history could not be written.
#[derive(Debug, Drop, PartialEq, Eq, Error)]
pub enum Unwritten {
    /// The history keeps no events. Nothing went out.
    #[error("the events were not kept")]
    Forgotten,
    /// The writer failed.
    #[error("{0}")]
    Write(WriteFault),
}

impl From<WriteFault> for Unwritten {
    ghost use Rattle.std.specs.Prelude.{◌≡◌};
    ghost use Rattle.kpn_trace.specs.declared.unwritten.Unwritten.TheVariants.{Write};

    ghost from_gives = { λ fault why. why ≡ Write fault };

    fn from(fault: WriteFault) -> Unwritten {
        Unwritten::Write(fault)
    }
}
