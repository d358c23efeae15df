//! Refusals: why a command gives no answer, the line that reports it, and the status that the program then
//! ends with.
ghost use Rattle.std.specs.Prelude.{◌≡◌, ◌++◌, [], ◌∷◌};
ghost use Rattle.kpn_command_base.specs.Refusal.{line_text, wants_memory};
ghost use Rattle.kpn_command_base.specs.Told.{AreWritten, IsLineTold};

use crate::fault_line::FaultLine;
use crate::option_fault::OptionFault;
use crate::telling::{put, put_more};
use kpn_lang::ProgramFault;
use kpn_net::NetFault;
use kpn_text::TextFault;
use kpn_text_items::{ItemFault, WriteFault};
use kpn_trace::TraceFault;
use std::alloc::{AllocError, AllocFailed};
use std::fmt;
use std::io::Write;

/// Why a command gives no answer.
#[derive(Drop)]
pub enum Refusal {
    /// A word of the command line is no UTF-8 text.
    NotText,
    /// `kpn alone` knows no process of this name.
    UnknownProcess,
    /// A word after `--source` has no `=`.
    SourceWord,
    /// The word after `--trace` names an input, standard output or standard error.
    TraceWord,
    /// A word after `--sink` has no `=`, or names a file that is an input or another output.
    SinkWord,
    /// A picture of a run would have more than 2,000 ticks, or more than 2,000 gets, puts, waits and growths.
    PictureWords,
    /// An input or a file could not be read, or spells no items, or memory was refused while it was
    /// read.
    Input(ItemFault),
    /// A text is no description of a network.
    Description(TextFault),
    /// A `--source` option names no source of the network, a `--sink` option no sink, or one that an earlier one names.
    Names(OptionFault),
    /// The output or a file could not be written, or memory was refused for that.
    Output(WriteFault),
    /// Bytes are no trace, or memory was refused while they were read.
    Trace(TraceFault),
    /// Memory was refused while a trace was audited.
    NoMemoryToAudit,
    /// The policy or the growth of a trace is not that of the network.
    PolicyDiffers,
    /// A worker could not be started on a thread of its own.
    Threads,
    /// All workers of a run went before there was an outcome.
    Abandoned,
    /// After a run by workers its sources did not have what they were to be fed.
    Foreign,
    /// Memory was refused elsewhere.
    NoMemory,
}

/// The line that reports a refusal, without its line feed.
#[derive(Clone, Copy)]
pub(crate) enum Line {
    /// How a word is to be.
    Usage(&'static str),
    /// A fault with a number.
    Fault(FaultLine),
}

impl From<AllocError> for Refusal {
    ghost use Rattle.std.specs.Prelude.{◌≡◌};
    ghost use Rattle.kpn_command_base.specs.declared.refusal.Refusal.TheVariants.{NoMemory};

    ghost from_gives = { λ _ refusal. refusal ≡ NoMemory };

    fn from(_error: AllocError) -> Refusal {
        Refusal::NoMemory
    }
}

impl<T: Drop> From<AllocFailed<T>> for Refusal {
    ghost use Rattle.std.specs.Prelude.{◌≡◌};
    ghost use Rattle.kpn_command_base.specs.declared.refusal.Refusal.TheVariants.{NoMemory};

    ghost from_gives = { λ _ refusal. refusal ≡ NoMemory };

    fn from(_failed: AllocFailed<T>) -> Refusal {
        Refusal::NoMemory
    }
}

impl fmt::Display for Refusal {
    ghost use Rattle.std.specs.Prelude.{Some};
    ghost use Rattle.kpn_command_base.specs.Refusal.{refusal_line};

    ghost output = { λ refusal. Some (refusal_line refusal) };

    fn fmt<W: fmt::Write>(&self, f: &mut fmt::Formatter<W>) -> fmt::Result {
        match self.line() {
            Line::Usage(text) => write!(f, "{text}"),
            Line::Fault(line) => write!(f, "{line}"),
        }
    }
}

impl Refusal {
    ghost use Rattle.kpn_command_base.specs.Refusal.{refusal_line, status_of};

    /// The status that the program ends with: 1 for a refused input and a device's fault, 2 for a
    /// word that is not understood, 6 for want of memory, 7 for what befell workers.
    pub fn status(&self) -> u8
        ensures { result ≡ status_of self.now }
    {
        match self {
            Refusal::NotText | Refusal::UnknownProcess => 2,
            Refusal::SourceWord | Refusal::TraceWord | Refusal::SinkWord => 2,
            Refusal::PictureWords => 2,
            Refusal::Input(ItemFault::BadItem(_) | ItemFault::Read) => 1,
            Refusal::Description(fault) if !is_want_of_memory(*fault) => 1,
            Refusal::Trace(TraceFault::BadHead | TraceFault::BadEvent(_)) => 1,
            Refusal::Names(_) | Refusal::Output(WriteFault::Write) => 1,
            Refusal::PolicyDiffers => 1,
            Refusal::Input(ItemFault::NoMemory) | Refusal::Description(_) => 6,
            Refusal::Trace(TraceFault::NoMemory) | Refusal::Output(WriteFault::NoMemory) => 6,
            Refusal::NoMemoryToAudit | Refusal::NoMemory => 6,
            Refusal::Threads | Refusal::Abandoned | Refusal::Foreign => 7,
        }
    }

    /// The line that reports the refusal.
    fn line(&self) -> Line
        ensures { line_text result ≡ refusal_line self.now }
    {
        match self {
            Refusal::NotText => Line::Usage("kpn: usage: words of UTF-8 text"),
            Refusal::UnknownProcess => Line::Usage("kpn: usage: copy, double or sum"),
            Refusal::SourceWord => Line::Usage("kpn: usage: --source NAME=FILE"),
            Refusal::TraceWord => Line::Usage(
                "kpn: usage: --trace OUT, a file that is no input and no other output",
            ),
            Refusal::SinkWord => Line::Usage(
                "kpn: usage: --sink NAME=OUT, a file that is no input and no other output",
            ),
            Refusal::PictureWords => Line::Usage(
                "kpn: usage: --from T and --to T, with at most 2000 gets, puts, waits and growths between them",
            ),
            Refusal::Input(fault) => Line::Fault(FaultLine::of_input(fault)),
            Refusal::Description(fault) => Line::Fault(FaultLine::of_text(*fault)),
            Refusal::Names(fault) => Line::Fault(FaultLine::of_name(*fault)),
            Refusal::Output(fault) => Line::Fault(FaultLine::of_output(fault)),
            Refusal::Trace(fault) => Line::Fault(FaultLine::of_trace(fault)),
            Refusal::NoMemoryToAudit => Line::Fault(FaultLine::new(51, "NoMemory")),
            Refusal::PolicyDiffers => Line::Fault(FaultLine::new(53, "PolicyDiffers")),
            Refusal::Threads => Line::Fault(FaultLine::new(48, "Threads")),
            Refusal::Abandoned => Line::Fault(FaultLine::new(49, "Abandoned")),
            Refusal::Foreign => Line::Fault(FaultLine::new(47, "Foreign")),
            Refusal::NoMemory => Line::Fault(FaultLine::new(42, "NoMemory")),
        }
    }

    /// Writes the line and a line feed, as far as they are taken. It returns whether all is.
    fn tell<E: Write>(&self, err: &mut E) -> bool
        ensures { AreWritten (E.contents err.old) (E.contents err.new)
            (refusal_line self.now ++ 10 ∷ []) result }
    {
        match self.line() {
            Line::Usage(text) => {
                let whole = put(err, text.as_bytes());
                put_more(whole, err, b"\n")
            }
            Line::Fault(line) => line.tell(err),
        }
    }

    /// Reports the refusal on a line and returns its status. If standard error takes no more, only the status reports
    /// it.
    pub fn report<E: Write>(&self, err: &mut E) -> u8
        ensures status { result ≡ status_of self.now }
        ensures told { IsLineTold (E.contents err.old) (E.contents err.new)
            (refusal_line self.now ++ 10 ∷ []) }
    {
        let _whole = self.tell(err);
        self.status()
    }
}

// Whether a description was refused for want of memory.
fn is_want_of_memory(fault: TextFault) -> bool
    ensures { result ≡ wants_memory fault }
{
    matches!(
        fault,
        TextFault::NoMemory
            | TextFault::Program(_, ProgramFault::NoMemory)
            | TextFault::Net(NetFault::NoMemory)
    )
}
