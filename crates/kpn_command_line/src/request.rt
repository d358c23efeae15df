//! What a command line may ask for.

use clap::Error;
use kpn_command_base::{Direction, RunRequest, StatsTables, StreamRequest};
use std::alloc::AllocError;

/// What a command line asks for.
#[derive(Drop)]
pub enum Request<'a> {
    /// `alone NAME`, with the name of the process.
    Alone(&'a str),
    /// `check FILE`, with the name of the file.
    Check(&'a str),
    /// `explain FILE` or `explain FILE TRACE`, with the most steps before an event.
    Explain {
        file: &'a str,
        trace: Option<&'a str>,
        steps: u64,
    },
    /// `explain FILE --items`.
    ExplainItems(&'a str),
    /// `print FILE`.
    Print(&'a str),
    /// `draw FILE` or `draw FILE TRACE`, with the direction of the drawing.
    Draw {
        file: &'a str,
        trace: Option<&'a str>,
        direction: Direction,
    },
    /// `rounds FILE N`, with the words after its `--source` options.
    Rounds {
        file: &'a str,
        n: u32,
        sources: Vec<&'a str>,
    },
    /// `run FILE` with its options.
    Run(RunRequest<'a>),
    /// `stream FILE` with its options.
    Stream(StreamRequest<'a>),
    /// `audit FILE TRACE`, with the most steps before an event.
    Audit {
        file: &'a str,
        trace: &'a str,
        steps: u64,
    },
    /// `join FILE PART TRACE ..`, with the words after FILE, and the most steps before an event.
    Join {
        file: &'a str,
        parts: Vec<&'a str>,
        steps: u64,
    },
    /// `stats FILE TRACE`, with the most steps before an event, and the tables that it writes.
    Stats {
        file: &'a str,
        trace: &'a str,
        steps: u64,
        tables: StatsTables,
    },
    /// `timeline FILE TRACE`, with the most steps before an event.
    Timeline {
        file: &'a str,
        trace: &'a str,
        steps: u64,
    },
    /// `timeline FILE TRACE --svg`, with the most steps before an event, and the first and the last tick of the
    /// picture.
    Picture {
        file: &'a str,
        trace: &'a str,
        steps: u64,
        first: u64,
        last: u64,
    },
    /// `--help`, `help` or `--version`, with the text that answers it.
    Help(Error),
}

/// Why the program can't do what the words ask for.
#[derive(Drop)]
pub enum WordsFault {
    /// The words are not understood. The text says how to use them.
    Usage(Error),
    /// There was no memory.
    NoMemory,
}

impl From<AllocError> for WordsFault {
    ghost use Rattle.std.specs.Prelude.{◌≡◌};
    ghost use Rattle.kpn_command_line.specs.declared.request.WordsFault.TheVariants.{NoMemory};

    ghost from_gives = { λ _ fault. fault ≡ NoMemory };

    fn from(_error: AllocError) -> WordsFault {
        WordsFault::NoMemory
    }
}
