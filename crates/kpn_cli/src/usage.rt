//! What `clap` says of the words.
ghost use Rattle.std.specs.Prelude.{◌≡◌, IfOk, IfErr};
ghost use Rattle.std.specs.Bool.{⊤};
ghost use Rattle.kpn_command_base.specs.Conclusion.{Succeeds};
ghost use Rattle.kpn_cli.specs.Command.{TellsWordsFault};

use clap::Error;
use kpn_command_base::{Conclusion, Refusal};
use kpn_command_line::WordsFault;
use std::alloc::Global;
use std::io;
use std::io::Write;

/// Reports how to use the words, or that there is no memory to read them, and returns the status.
pub(crate) fn refuse<E: Write>(fault: &WordsFault, err: &mut E) -> u8
    ensures { TellsWordsFault E.contents fault.now err.old err.new result }
{
    match fault {
        WordsFault::NoMemory => Refusal::NoMemory.report(err),
        WordsFault::Usage(text) => {
            let _ = report(err, text);
            2
        }
    }
}

// Writes a text where faults go, and flushes it.
fn report<E: Write>(err: &mut E, text: &Error) -> io::Result<()> {
    write!(err, "{text}")?;
    err.flush()
}

/// The text of help or the version.
pub(crate) fn told(alloc: Global, text: &Error) -> Result<Conclusion, Refusal>
    ensures ok { IfOk result (Succeeds (λ text. ⊤)) }
    ensures refused { IfErr result (λ refusal. refusal ≡ Refusal.NoMemory) }
{
    let text = format!(in alloc; "{text}")?;
    Ok(Conclusion {
        text: text.into_bytes(),
        status: 0,
        files: Vec::new(alloc),
    })
}
