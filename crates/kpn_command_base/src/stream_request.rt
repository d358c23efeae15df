//! What a stream is asked for.

use std::marker::Model;

/// What `kpn stream` is asked for. Contracts see the bytes of its words.
#[derive(Drop)]
pub struct StreamRequest<'a> {
    /// The file of the description.
    pub file: &'a str,
    /// The words after the `--source` options.
    pub sources: Vec<&'a str>,
    /// The words after the `--sink` options.
    pub sinks: Vec<&'a str>,
    /// The words after the `--format` options.
    pub formats: Vec<&'a str>,
    /// Whether a sink gets the nearest item that fits its format for one that does not.
    pub clips: bool,
    /// How many items of each channel a second of a WAV file has, if not the usual number.
    pub rate: Option<u32>,
    /// How many channels a WAV file has, if not one.
    pub channels: Option<u16>,
    /// The most commits, if there is a limit.
    pub commits: Option<u64>,
    /// How many items the stream wants of each sink.
    pub take: Option<u64>,
    /// The file for the trace.
    pub trace: Option<&'a str>,
    /// Whether nothing is told of the end.
    pub quiet: bool,
    /// Whether tables of the channels and the processes are told at the end.
    pub stats: bool,
    /// Whether it ends once a process has faulted.
    pub stops: bool,
}

impl<'a> Model for StreamRequest<'a> {
    ghost use Rattle.std.specs.Prelude.{map, option_map};
    ghost use Rattle.kpn_command_base.specs.StreamRequest as spec;

    ghost Value = { spec.StreamRequest };

    ghost view = { λ r. record {
      file = r.file.now;
      sources = map (λ word. word.now) r.sources.items;
      sinks = map (λ word. word.now) r.sinks.items;
      formats = map (λ word. word.now) r.formats.items;
      clips = r.clips;
      rate = r.rate;
      channels = r.channels;
      commits = r.commits;
      take = r.take;
      trace = option_map (λ name. name.now) r.trace;
      quiet = r.quiet;
      stats = r.stats;
      stops = r.stops;
    } };
}
