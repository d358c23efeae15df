//! Why a stream is not begun or has failed, and how each cause is reported.
ghost use Rattle.std.specs.Prelude.{◌≡◌, ◌++◌, ℕ, List, [], ◌∷◌, Option};
ghost use Rattle.kpn_command_base.specs.Told.{AreWritten, IsLineTold};
ghost use Rattle.kpn_command_stream.specs.Refusal.{option_end, option_start, source_status, sink_status, unnamed_text};

use crate::places::EndPlace;
use kpn_command_base::{EndKind, Refusal, put, put_more};
use kpn_stream::{SinkFault, SourceFault};
use kpn_text::Document;
use kpn_text_items::{ItemFault, WriteFault};
use std::alloc::{AllocError, AllocFailed};
use std::io::Write;

const SHARED: &str = "kpn: usage: --source NAME=IN, a plain file if two sources have it";

const WRONG_FORMAT: &str =
    "kpn: usage: --format FORMAT and --format NAME=FORMAT, once for each source and sink: ";

/// The formats of `--format`.
const FORMATS: &str =
    "lines, u8, s8, s16le, s24le, s32le, s64le, f32le, f32le:POWER, wav, wav16 or wav24";

/// Why a stream is not begun.
#[derive(Drop)]
pub(crate) enum StreamRefusal {
    /// For a cause that other commands have too.
    Common(Refusal),
    /// No option names this end, and it is not the only one.
    Unnamed(EndKind, String),
    /// Two sources have one input that is no plain file: the one would read what is meant for the other.
    SharedInput,
    /// A word after `--format` names no format or no end, or says what an earlier one has said.
    FormatWord,
}

impl From<Refusal> for StreamRefusal {
    ghost use Rattle.std.specs.Prelude.{◌≡◌};
    ghost use Rattle.kpn_command_stream.specs.declared.refusal.StreamRefusal.TheVariants.{Common};

    ghost from_gives = { λ refusal made. made ≡ Common refusal };

    fn from(refusal: Refusal) -> StreamRefusal {
        StreamRefusal::Common(refusal)
    }
}

impl From<AllocError> for StreamRefusal {
    ghost use Rattle.std.specs.Prelude.{◌≡◌};
    ghost use Rattle.kpn_command_base.specs.declared.refusal.Refusal.TheVariants.{NoMemory};
    ghost use Rattle.kpn_command_stream.specs.declared.refusal.StreamRefusal.TheVariants.{Common};

    ghost from_gives = { λ _ made. made ≡ Common NoMemory };

    fn from(_error: AllocError) -> StreamRefusal {
        StreamRefusal::Common(Refusal::NoMemory)
    }
}

impl<T: Drop> From<AllocFailed<T>> for StreamRefusal {
    ghost use Rattle.std.specs.Prelude.{◌≡◌};
    ghost use Rattle.kpn_command_base.specs.declared.refusal.Refusal.TheVariants.{NoMemory};
    ghost use Rattle.kpn_command_stream.specs.declared.refusal.StreamRefusal.TheVariants.{Common};

    ghost from_gives = { λ _ made. made ≡ Common NoMemory };

    fn from(_failed: AllocFailed<T>) -> StreamRefusal {
        StreamRefusal::Common(Refusal::NoMemory)
    }
}

impl StreamRefusal {
    ghost use Rattle.kpn_command_stream.specs.Refusal.{refusal_status, refusal_text};

    /// Reports the cause on one line, and returns the status.
    pub(crate) fn report<E: Write>(&self, err: &mut E) -> u8
        ensures status { result ≡ refusal_status self.now }
        ensures told { IsLineTold (E.contents err.old) (E.contents err.new)
            (refusal_text self.now ++ 10 ∷ []) }
    {
        match self {
            StreamRefusal::Common(refusal) => refusal.report(err),
            StreamRefusal::Unnamed(ends, name) => {
                let whole = tell_unnamed(*ends, name, err);
                end_line(whole, err)
            }
            StreamRefusal::SharedInput => {
                let whole = put(err, SHARED.as_bytes());
                end_line(whole, err)
            }
            StreamRefusal::FormatWord => {
                let whole = put(err, WRONG_FORMAT.as_bytes());
                let whole = put_more(whole, err, FORMATS.as_bytes());
                end_line(whole, err)
            }
        }
    }
}

/// Writes which option is missing. It returns whether all is taken.
fn tell_unnamed<E: Write>(ends: EndKind, name: &str, err: &mut E) -> bool
    ensures { AreWritten (E.contents err.old) (E.contents err.new) (unnamed_text ends name.now)
        result }
{
    let whole = put(err, option_start(ends).as_bytes());
    let whole = put_more(whole, err, name.as_bytes());
    put_more(whole, err, option_end(ends).as_bytes())
}

fn option_start(ends: EndKind) -> &'static str
    ensures { result.now ≡ option_start ends }
{
    match ends {
        EndKind::Sources => "kpn: usage: --source ",
        EndKind::Sinks => "kpn: usage: --sink ",
    }
}

fn option_end(ends: EndKind) -> &'static str
    ensures { result.now ≡ option_end ends }
{
    match ends {
        EndKind::Sources => "=IN",
        EndKind::Sinks => "=OUT",
    }
}

/// Ends the line of a usage that was written until now, whole or not, and returns the status.
fn end_line<E: Write>(whole: bool, err: &mut E) -> u8
    ensures status { result ≡ 2 }
    ensures told { (before : Option (List ℕ)) (line : List ℕ)
        → AreWritten before (E.contents err.old) line whole
        → IsLineTold before (E.contents err.new) (line ++ 10 ∷ []) }
{
    let _whole = put_more(whole, err, b"\n");
    2
}

/// Reports that the input of a source has failed, and returns the status.
pub(crate) fn report_source<E: Write>(
    document: &Document,
    fault: SourceFault,
    place: EndPlace<'_>,
    err: &mut E,
) -> u8
    ensures { result ≡ source_status fault }
{
    let status = match fault {
        SourceFault::Read => Refusal::Input(ItemFault::Read).report(err),
        SourceFault::BadItem(line) => Refusal::Input(ItemFault::BadItem(line as usize)).report(err),
        SourceFault::NoMemory => Refusal::Input(ItemFault::NoMemory).report(err),
        SourceFault::CutSample => {
            let _ = writeln!(err, "kpn: 29 CutSample");
            1
        }
        SourceFault::BadHead(byte) => {
            let _ = writeln!(err, "kpn: 55 BadHead at {byte}");
            1
        }
    };
    let name = document.channel_name(place.channel);
    let _ = writeln!(err, "at --source {name}={}", place.name);
    status
}

/// Reports that the output of a sink has failed, and returns the status.
pub(crate) fn report_sink<E: Write>(
    document: &Document,
    fault: SinkFault,
    place: EndPlace<'_>,
    err: &mut E,
) -> u8
    ensures { result ≡ sink_status fault }
{
    let status = match fault {
        SinkFault::Gone | SinkFault::Write => Refusal::Output(WriteFault::Write).report(err),
        SinkFault::NoMemory => Refusal::Output(WriteFault::NoMemory).report(err),
        SinkFault::NoSample(item) => {
            let _ = writeln!(err, "kpn: 54 NoSample of {item}");
            1
        }
    };
    let name = document.channel_name(place.channel);
    let _ = writeln!(err, "at --sink {name}={}", place.name);
    status
}

/// Reports that memory ran out, and returns the status.
pub(crate) fn report_memory<E: Write>(err: &mut E) -> u8
    ensures { result ≡ 6 }
{
    Refusal::NoMemory.report(err)
}
