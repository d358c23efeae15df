//! The files that a request names.

use kpn_command_base::{RunRequest, StreamRequest};
use kpn_command_line::Request;
use kpn_limits::USUAL_COUNT;

/// What a request names: files that are read and written. `is_items` says that the only one is an item file, and
/// `has_explained` that the command itself says what is wrong in them. A stream may have samples.
#[derive(Clone, Copy)]
pub(crate) struct NamedFiles<'r, 'a> {
    pub(crate) file: &'a str,
    pub(crate) sources: &'r [&'a str],
    pub(crate) sinks: &'r [&'a str],
    pub(crate) read: Option<&'a str>,
    pub(crate) parts: &'r [&'a str],
    pub(crate) stored: Option<&'a str>,
    pub(crate) steps: u64,
    pub(crate) is_items: bool,
    pub(crate) has_explained: bool,
    pub(crate) stream: Option<&'r StreamRequest<'a>>,
}

impl<'r, 'a> NamedFiles<'r, 'a> {
    /// What a request names, or `None` if it names no file.
    pub(crate) fn of(request: &'r Request<'a>) -> Option<NamedFiles<'r, 'a>> {
        match request {
            Request::Alone(_) => None,
            Request::Help(_) => None,
            Request::Check(file) => Some(NamedFiles::bare(file)),
            Request::Print(file) => Some(NamedFiles::bare(file)),
            Request::ExplainItems(file) => Some(NamedFiles::of_items(file)),
            Request::Explain { file, trace, .. } => Some(NamedFiles::explained(file, *trace)),
            Request::Draw { file, trace, .. } => Some(NamedFiles::traced(
                file,
                *trace,
                USUAL_COUNT,
            )),
            Request::Audit { file, trace, steps } => Some(NamedFiles::traced(
                file,
                Some(trace),
                *steps,
            )),
            Request::Join { file, parts, steps } => Some(NamedFiles {
                parts,
                steps: *steps,
                ..NamedFiles::bare(file)
            }),
            Request::Timeline { file, trace, steps } => {
                Some(NamedFiles::traced(file, Some(trace), *steps))
            }
            Request::Stats {
                file,
                trace,
                steps,
                ..
            } => { Some(NamedFiles::traced(file, Some(trace), *steps)) }
            Request::Picture {
                file,
                trace,
                steps,
                ..
            } => { Some(NamedFiles::traced(file, Some(trace), *steps)) }
            Request::Rounds { file, sources, .. } => Some(NamedFiles::fed(file, sources)),
            Request::Run(run) => Some(NamedFiles::of_run(run)),
            Request::Stream(stream) => Some(NamedFiles::of_stream(stream)),
        }
    }

    /// A description.
    pub(crate) fn bare(file: &'a str) -> NamedFiles<'r, 'a> {
        NamedFiles {
            file,
            sources: &[],
            sinks: &[],
            read: None,
            parts: &[],
            stored: None,
            steps: USUAL_COUNT,
            is_items: false,
            has_explained: false,
            stream: None,
        }
    }

    /// An item file.
    pub(crate) fn of_items(file: &'a str) -> NamedFiles<'r, 'a> {
        NamedFiles {
            is_items: true,
            ..NamedFiles::bare(file)
        }
    }

    /// A description, and a trace that is read with at most this many steps before an event.
    pub(crate) fn traced(file: &'a str, trace: Option<&'a str>, steps: u64) -> NamedFiles<'r, 'a> {
        NamedFiles {
            read: trace,
            steps,
            ..NamedFiles::bare(file)
        }
    }

    /// The same, for a command that says what is wrong there.
    pub(crate) fn explained(file: &'a str, trace: Option<&'a str>) -> NamedFiles<'r, 'a> {
        NamedFiles {
            read: trace,
            has_explained: true,
            ..NamedFiles::bare(file)
        }
    }

    /// A description, and what is given to sources.
    pub(crate) fn fed(file: &'a str, sources: &'r [&'a str]) -> NamedFiles<'r, 'a> {
        NamedFiles {
            sources,
            ..NamedFiles::bare(file)
        }
    }

    /// What a run reads and stores.
    pub(crate) fn of_run(run: &'r RunRequest<'a>) -> NamedFiles<'r, 'a> {
        NamedFiles {
            sources: &run.sources,
            sinks: &run.sinks,
            stored: run.trace,
            ..NamedFiles::bare(run.file)
        }
    }

    /// What a stream reads and stores.
    pub(crate) fn of_stream(stream: &'r StreamRequest<'a>) -> NamedFiles<'r, 'a> {
        NamedFiles {
            sources: &stream.sources,
            sinks: &stream.sinks,
            stored: stream.trace,
            stream: Some(stream),
            ..NamedFiles::bare(stream.file)
        }
    }
}
