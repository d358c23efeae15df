//! What a run is asked for.

use std::marker::Model;

/// How many steps a process makes at most before it is the turn of the next.
pub const QUOTA: u32 = 1_000;

/// What `kpn run` is asked for. Contracts see the bytes of its words.
#[derive(Drop)]
pub struct RunRequest<'a> {
    /// The file of the description.
    pub file: &'a str,
    /// The words after the `--source` options.
    pub sources: Vec<&'a str>,
    /// The words after the `--sink` options.
    pub sinks: Vec<&'a str>,
    /// The most commits.
    pub commits: u64,
    /// How many items the run wants of each sink.
    pub take: Option<u64>,
    /// The file for the trace.
    pub trace: Option<&'a str>,
    /// How many workers run the network. Without a number the calling thread does.
    pub workers: Option<u32>,
    /// Whether the report leaves out the lists of sinks that are stored.
    pub quiet: bool,
    /// Whether faults and rings have a status of their own.
    pub strict: bool,
}

impl<'a> Model for RunRequest<'a> {
    ghost use Rattle.std.specs.Prelude.{map, option_map};
    ghost use Rattle.kpn_command_base.specs.RunRequest as spec;

    ghost Value = { spec.RunRequest };

    ghost view = { λ r. record {
      file = r.file.now;
      sources = map (λ word. word.now) r.sources.items;
      sinks = map (λ word. word.now) r.sinks.items;
      commits = r.commits;
      take = r.take;
      trace = option_map (λ name. name.now) r.trace;
      workers = r.workers;
      quiet = r.quiet;
      strict = r.strict;
    } };
}
