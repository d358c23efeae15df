//! What the tables of a network are made of, and how large they may be.
ghost use Rattle.std.specs.Prelude.{◌≡◌};
ghost use Rattle.kpn_net.specs.Faults.{most_processes, most_channels};

use kpn_lang::Sequence;
use kpn_limits::{MAX_CHANNELS, MAX_LARGE_CHANNELS, MAX_LARGE_PROCESSES, MAX_PROCESSES};

/// A channel of a network, by what is at its outer end.
#[derive(Clone, Copy, PartialEq)]
pub enum ChannelSpec {
    /// From process to process, with this capacity.
    Inner(u32),
    /// Fed by the caller. It has no capacity.
    Source,
    /// Emptied by the caller, with this capacity.
    Sink(u32),
}

/// Which channels grow.
#[derive(Clone, Copy, PartialEq)]
pub enum Policy {
    /// The smallest full channel of a cycle of waiting processes.
    Cycles,
    /// Such a channel, and, once the run has come to a stop, the smallest on which a process waits as full.
    All,
}

/// How large a channel becomes when it grows.
#[derive(Clone, Copy, PartialEq)]
pub enum Growth {
    /// Its capacity becomes 1 larger.
    One,
    /// Its capacity becomes twice as large, or the limit if that is less.
    Double,
}

/// How many processes and channels a network may have.
#[derive(Clone, Copy, PartialEq)]
pub enum NetworkSize {
    /// At most `MAX_PROCESSES` and `MAX_CHANNELS`.
    Usual,
    /// At most `MAX_LARGE_PROCESSES` and `MAX_LARGE_CHANNELS`.
    Large,
}

impl NetworkSize {
    /// The most processes.
    pub fn processes(self) -> usize
        ensures { result ≡ most_processes self }
    {
        match self {
            NetworkSize::Usual => MAX_PROCESSES,
            NetworkSize::Large => MAX_LARGE_PROCESSES,
        }
    }

    /// The most channels.
    pub fn channels(self) -> usize
        ensures { result ≡ most_channels self }
    {
        match self {
            NetworkSize::Usual => MAX_CHANNELS,
            NetworkSize::Large => MAX_LARGE_CHANNELS,
        }
    }
}

/// A process of a network: an instance of a program.
#[derive(Drop)]
pub struct Instance {
    /// The number of the program.
    pub program: usize,
    /// The channels at the in ports, in order of port.
    pub ins: Sequence<usize>,
    /// The channels at the out ports, in order of port.
    pub outs: Sequence<usize>,
    /// The values of the parameters.
    pub pars: Sequence<i64>,
}

/// What writes a channel or reads it.
#[derive(Clone, Copy, PartialEq, Eq)]
pub enum End {
    /// The process with this number.
    Process(usize),
    /// The caller, which feeds a source.
    Source,
    /// The caller, which empties a sink.
    Sink,
}
