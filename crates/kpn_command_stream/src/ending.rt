//! What a stream has come to: its sinks, its channels if they are asked for, its outcome, the states of its processes,
//! its rings, and its history.
ghost use Rattle.std.specs.Prelude.{◌≡◌, IfOk};
ghost use Rattle.kpn_command_stream.specs.Ending.{IsOutcomeAt, IsOver};

use crate::counters::{ChannelCounts, counts_if};
use crate::summary::{SinkEnd, sink_ends};
use kpn_book::{Book, outcome_of};
use kpn_deadlock::rings_among;
use kpn_history::{History, State};
use kpn_lang::Sequence;
use kpn_stream::{Limits, Outcome, StreamEnding, Streamed, close_sources};
use std::alloc::{AllocError, Global};

/// What a stream has come to.
#[derive(Drop)]
pub(crate) struct Over {
    pub(crate) sinks: Vec<SinkEnd>,
    pub(crate) channels: Vec<ChannelCounts>,
    pub(crate) outcome: Option<Outcome>,
    pub(crate) states: Sequence<State>,
    pub(crate) rings: Sequence<Sequence<usize>>,
    pub(crate) history: History,
}

/// What a stream has come to. If it rests, the sources that nobody reads are closed, and it has an outcome then: which
/// sinks are complete is told before. The error is that memory ran out.
pub(crate) fn over_of(
    alloc: Global,
    streamed: Streamed<'_>,
    limits: &Limits,
    stats: bool,
) -> Result<Over, AllocError>
    ensures { IfOk result (IsOver limits.now stats streamed.entry.ending streamed.entry.book) }
{
    let Streamed { ending, mut book } = streamed;
    let sinks = sink_ends(alloc, &book)?;
    let channels = counts_if(alloc, stats, &book)?;
    let outcome = outcome_at(ending, &mut book, limits)?;
    book.known();
    let network = book.network();
    let (states, history) = book.into_states(alloc)?;
    let rings = rings_among(alloc, network, states.as_slice())?;
    Ok(Over {
        sinks,
        channels,
        outcome,
        states,
        rings,
        history,
    })
}

/// The outcome of a stream, if it has one.
fn outcome_at(
    ending: StreamEnding,
    book: &mut Book<'_>,
    limits: &Limits,
) -> Result<Option<Outcome>, AllocError>
    ensures { IfOk result (λ outcome.
        IsOutcomeAt limits.now ending book.old outcome book.new) }
{
    match ending {
        StreamEnding::Outcome(outcome) => Ok(Some(outcome)),
        StreamEnding::Resting => {
            close_sources(book)?;
            Ok(outcome_of(book, limits))
        }
        _ => Ok(None),
    }
}
