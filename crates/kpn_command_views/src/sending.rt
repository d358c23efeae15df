//! A long text goes out piece by piece while it is made.
ghost use Rattle.std.specs.Prelude.{[], OnOk};
ghost use Rattle.std.specs.Io.KnownBytes.{Appends};
ghost use Rattle.kpn_command_views.specs.Sent.{Sends, IsUnsent};

use kpn_command_base::Refusal;
use kpn_text_items::WriteFault;
use std::alloc::AllocError;
use std::io::Write;

/// Why a text does not go out whole. A part of it may have gone out.
#[derive(Clone, Copy)]
pub(crate) enum SendFault {
    /// The output takes no more.
    Write,
    /// Memory ran out while the text was made.
    NoMemory,
}

impl From<AllocError> for SendFault {
    ghost use Rattle.std.specs.Prelude.{◌≡◌};
    ghost use Rattle.kpn_command_views.specs.declared.sending.SendFault.TheVariants.{NoMemory};

    ghost from_gives = { λ _ fault. fault ≡ NoMemory };

    fn from(_error: AllocError) -> SendFault {
        SendFault::NoMemory
    }
}

impl SendFault {
    /// The refusal that reports it.
    pub(crate) fn refusal(self) -> Refusal
        ensures { IsUnsent result }
    {
        match self {
            SendFault::Write => Refusal::Output(WriteFault::Write),
            SendFault::NoMemory => Refusal::NoMemory,
        }
    }
}

// From this many bytes on a text goes out.
const LONG: usize = 65_536;

/// Sends the text if it is long; then none of it is kept.
pub(crate) fn send_if_long<W: Write>(out: &mut W, text: &mut String) -> Result<(), SendFault>
    ensures { Sends W.contents result out.old out.new text.old text.new [] }
{
    if text.len() < LONG {
        return Ok(());
    }
    send(out, text.as_bytes())?;
    text.clear();
    Ok(())
}

/// Sends the last bytes of a text.
pub(crate) fn send_last<W: Write>(out: &mut W, bytes: &[u8]) -> Result<(), SendFault>
    ensures { OnOk result (Appends (W.contents out.old) (W.contents out.new) bytes.now) }
{
    send(out, bytes)?;
    out.flush().map_err(|_| SendFault::Write)
}

fn send<W: Write>(out: &mut W, bytes: &[u8]) -> Result<(), SendFault>
    ensures { OnOk result (Appends (W.contents out.old) (W.contents out.new) bytes.now) }
{
    out.write_all(bytes).map_err(|_| SendFault::Write)
}
